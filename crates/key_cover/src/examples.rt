//! Worked examples, each of which the check finds by computing.

ghost use Rattle.key_cover.specs.MetExamples.{BranchNotTaken, ByExpression, ThroughExpression, PartOfExpression, BehindExpression, IsolatedInBody, KeyInBrackets, KeysOfExpression, WithKeysOfExpression, IsolatedInExpression, EventTermFirst, EventIsSite, EventAsKey};

/// Does nothing: it is there for its contract. What is met first in the bodies of cached outputs.
pub fn cover_examples()
    ensures branch { BranchNotTaken }
    ensures expression { ByExpression }
    ensures through { ThroughExpression }
    ensures part { PartOfExpression }
    ensures behind { BehindExpression }
    ensures isolated { IsolatedInBody }
    ensures brackets { KeyInBrackets }
    ensures its_keys { KeysOfExpression }
    ensures with_its_keys { WithKeysOfExpression }
    ensures isolated_inside { IsolatedInExpression }
    ensures event_term { EventTermFirst }
    ensures event { EventIsSite }
    ensures event_key { EventAsKey }
{}
