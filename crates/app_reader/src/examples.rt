//! Worked examples of the grammar, each of which the check finds by computing.

ghost use Rattle.std.specs.Prelude.{◌≡◌, Ok, Err, true, false};
ghost use Rattle.app_tree.specs.Fits.{whole_fits, fits};
ghost use Rattle.app_reader.specs.declared.error.ReadError.TheVariants.{Unexpected, TooDeep};
ghost use Rattle.app_reader.specs.Example.{input_without_sign, brackets_opened, brackets_closed, grouped_output};
ghost use Rattle.app_reader.specs.Spelling.{canonical_spelling};
ghost use Rattle.app_reader.specs.Spelled.{cached_text_tokens, cached_text, cached_text_spelling, statements_tokens, statements, zeros_tokens, zeros, zeros_spelling, sum_times, compared_twice, to_the_right, sum_of_ones, signs};
ghost use Rattle.app_reader.specs.Items.{read_at};

/// Does nothing: it is there for its contract. `input a 1;` is refused at 8, `text o { ` and 64
/// opening brackets at 73; with 63 of them, a 1 and 63 closing ones the text is accepted.
#[tactic(auto, using(crate::proofs::Worked::input_is_refused, crate::proofs::Worked::brackets_are_refused, crate::proofs::Worked::brackets_are_read))]
pub fn worked_examples()
    ensures without_sign { read_at input_without_sign ≡ Err (Unexpected 8) }
    ensures too_deep { read_at brackets_opened ≡ Err (TooDeep 73) }
    ensures deep { read_at brackets_closed ≡ Ok grouped_output }
{}

/// Does nothing: it is there for its contract. Three apps fit, and are read from their tokens; of two
/// the spelling that is printed is written out. In `zeros` the tokens are spelled otherwise: with
/// `-0`, with `priority 0` and without a budget.
#[tactic(auto, using(crate::proofs::Worked::cached_text_fits, crate::proofs::Worked::cached_text_is_spelled, crate::proofs::Worked::cached_text_is_read, crate::proofs::Worked::statements_fit, crate::proofs::Worked::statements_are_read, crate::proofs::Worked::zeros_fit, crate::proofs::Worked::zeros_are_spelled, crate::proofs::Worked::zeros_are_read))]
pub fn worked_spellings()
    ensures cached_fits { fits cached_text ≡ true }
    ensures cached_spelled { canonical_spelling cached_text ≡ cached_text_spelling }
    ensures cached_read { read_at cached_text_tokens ≡ Ok cached_text }
    ensures statements_fit { fits statements ≡ true }
    ensures statements_read { read_at statements_tokens ≡ Ok statements }
    ensures zeros_fit { fits zeros ≡ true }
    ensures zeros_spelled { canonical_spelling zeros ≡ zeros_spelling }
    ensures zeros_read { read_at zeros_tokens ≡ Ok zeros }
{}

/// Does nothing: it is there for its contract. `(1 + 2) * 3`, `1 < 2 < 3` and `1 - (2 - 3)` need their
/// parentheses; 64 operators fit and 65 don't, and so 63 signs before a truth and 64.
#[tactic(auto, using(crate::proofs::Worked::sum_times_no, crate::proofs::Worked::compared_twice_no, crate::proofs::Worked::to_the_right_no, crate::proofs::Worked::operators_fit, crate::proofs::Worked::operators_no, crate::proofs::Worked::signs_fit, crate::proofs::Worked::signs_no))]
pub fn worked_limits()
    ensures sum_times { whole_fits sum_times ≡ false }
    ensures compared_twice { whole_fits compared_twice ≡ false }
    ensures to_the_right { whole_fits to_the_right ≡ false }
    ensures most_operators { whole_fits (sum_of_ones 64) ≡ true }
    ensures too_many_operators { whole_fits (sum_of_ones 65) ≡ false }
    ensures most_signs { whole_fits (signs 63) ≡ true }
    ensures too_many_signs { whole_fits (signs 64) ≡ false }
{}
