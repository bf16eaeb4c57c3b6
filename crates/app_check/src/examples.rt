//! Worked examples, each of which the check finds by computing.

ghost use Rattle.std.specs.Prelude.{◌≡◌, Ok, Err, codes};
ghost use Rattle.app_check.specs.declared.error.LoadError.TheVariants.{BadByte, OpenText, Unexpected, NameTwice, NameUnknown, ArgCount, ReadInTask, ForwardRead, IsolateInFold, WriteInExpr, FoldTooDeep, TooManyItems, Uncovered, IsolateInCached};
ghost use Rattle.app_check.specs.Load.{loaded};
ghost use Rattle.app_check.specs.Example.{sum_shown, sum_shown_app, byte_of_no_token, text_without_end, sign_left_out, name_declared_twice, variable_unbound, argument_left_out, input_read_in_task, later_expression_read, isolate_in_last_part, write_in_expression, third_fold_inside, items_beyond_limit, input_beside_keys, input_isolated_in_cached, keys_of_expression, keys_of_expression_app};

/// Does nothing: it is there for its contract. A file and the app that it stands for, and files that are
/// refused before the checks.
#[tactic(auto, using(crate::proofs::Worked::sum_is_shown, crate::proofs::Worked::bad_byte, crate::proofs::Worked::open_text, crate::proofs::Worked::unexpected))]
pub fn worked_files()
    ensures sum { loaded sum_shown ≡ Ok sum_shown_app }
    ensures bad_byte { loaded byte_of_no_token ≡ Err (BadByte 8) }
    ensures open_text { loaded text_without_end ≡ Err (OpenText 10) }
    ensures unexpected { loaded sign_left_out ≡ Err (Unexpected 8) }
{}

/// Does nothing: it is there for its contract. A file for each of the checks.
#[tactic(auto, using(crate::proofs::Worked::name_twice, crate::proofs::Worked::name_unknown, crate::proofs::Worked::arg_count, crate::proofs::Worked::read_in_task, crate::proofs::Worked::forward_read, crate::proofs::Worked::isolate_in_fold, crate::proofs::Worked::write_in_expr, crate::proofs::Worked::fold_too_deep, crate::proofs::Worked::too_many_items))]
pub fn worked_examples()
    ensures name_twice { loaded name_declared_twice ≡ Err (NameTwice (codes "a") 19) }
    ensures name_unknown { loaded variable_unbound ≡ Err (NameUnknown (codes "x") 9) }
    ensures arg_count { loaded argument_left_out ≡ Err (ArgCount (codes "t") 35) }
    ensures read_in_task { loaded input_read_in_task ≡ Err (ReadInTask 24) }
    ensures forward_read { loaded later_expression_read ≡ Err (ForwardRead (codes "b") 13) }
    ensures isolate_in_fold { loaded isolate_in_last_part ≡ Err (IsolateInFold 29) }
    ensures write_in_expr { loaded write_in_expression ≡ Err (WriteInExpr 26) }
    ensures fold_too_deep { loaded third_fold_inside ≡ Err (FoldTooDeep 47) }
    ensures too_many_items { loaded items_beyond_limit ≡ Err (TooManyItems 6500) }
{}

/// Does nothing: it is there for its contract. A file whose keys cover its cached output, and one for each way in which
/// they may not.
#[tactic(auto, using(crate::proofs::Worked::uncovered, crate::proofs::Worked::isolate_in_cached, crate::proofs::Worked::keys_cover))]
pub fn worked_cached_readers()
    ensures uncovered { loaded input_beside_keys ≡ Err (Uncovered (codes "o") (codes "input$d") 47) }
    ensures isolate_in_cached { loaded input_isolated_in_cached ≡ Err (IsolateInCached (codes "o") 18) }
    ensures covered { loaded keys_of_expression ≡ Ok keys_of_expression_app }
{}
