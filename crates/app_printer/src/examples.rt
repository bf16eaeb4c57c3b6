//! Worked examples of the canonical text, each of which the check finds by computing.

ghost use Rattle.std.specs.Prelude.{◌≡◌, Some};
ghost use Rattle.app_printer.specs.Canonical.{canonical_text};
ghost use Rattle.app_printer.specs.Example.{small_app, small_text, small_file, rewritten, whole_app, whole_text};

/// Does nothing: it is there for its contract. The first app has an input and an output, and its text
/// is also that of a file in which it stands with other blanks and a priority of 0. The second app has
/// every form of item, of statement and of term.
#[tactic(auto, using(crate::proofs::Worked::small_is_written, crate::proofs::Worked::file_is_rewritten, crate::proofs::Worked::whole_is_written))]
pub fn worked_examples()
    ensures small { canonical_text small_app ≡ small_text }
    ensures file { rewritten small_file ≡ Some small_text }
    ensures whole { canonical_text whole_app ≡ whole_text }
{}
