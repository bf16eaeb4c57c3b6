ghost use Rattle.std.specs.Prelude.{◌≡◌, ◌<◌, IfOk, length};
ghost use Rattle.app_tree.specs.Fresh.{known_below, known_expressions, known_of, is_expression_at, first_sites, first_outcome};
ghost use Rattle.app_tree.specs.Numbering.{numbers_of, readers, reader};
ghost use Rattle.app_tree.specs.View.{shape_of};
ghost use Rattle.fresh_eval.specs.FirstOutcomes.{first_outcomes};
ghost use Rattle.fresh_eval.specs.inner.Answering.{outcomes_of};

use crate::evaluating::reader_outcome;
use app_tree::App;
use rx_source::Sources;
use rx_value::{Memory, Outcome, RxList};
use std::alloc::Global;

/// Outcomes of outputs, in the order of the text.
pub type Outcomes = RxList<Outcome>;

/// What is known of the reader of this number, where the expressions before it are.
#[tactic(auto, using(crate::proofs::Firsts::other_known))]
fn known_outcome(
    alloc: Global,
    app: &App,
    sources: &Sources,
    known: &RxList<Outcome>,
    n: u32,
) -> Result<Outcome, Memory>
    requires within { n < length (readers (shape_of app.now)) }
    requires numbers { sources.now.numbers ≡ numbers_of (shape_of app.now) }
    requires known { known.now ≡ outcomes_of
        (known_below (shape_of app.now) sources.now.values (first_sites (shape_of app.now)) n) }
    ensures { IfOk result (λ outcome. outcome ≡ (known_of (shape_of app.now) sources.now.values
        (first_sites (shape_of app.now))
        (known_below (shape_of app.now) sources.now.values (first_sites (shape_of app.now)) n)
        n (is_expression_at (reader (shape_of app.now) n))).outcome) }
{
    if app.reader(n).is_expression() {
        reader_outcome(alloc, app, sources, known, n)
    } else {
        Ok(Outcome::Stop)
    }
}

/// The outcomes of the expressions, each evaluated once, by reader number.
#[tactic(auto, using(crate::proofs::Firsts::known_grows))]
fn known_outcomes(alloc: Global, app: &App, sources: &Sources) -> Result<RxList<Outcome>, Memory>
    requires { sources.now.numbers ≡ numbers_of (shape_of app.now) }
    ensures { IfOk result (λ known. known ≡ outcomes_of
        (known_expressions (shape_of app.now) sources.now.values (first_sites (shape_of app.now)))) }
{
    let mut known = RxList::new(alloc);
    for n in 0..app.readers() {
        let outcome = known_outcome(alloc, app, sources, &known, n)?;
        known.push(outcome)?;
    }
    Ok(known)
}

/// What an output comes to, where all expressions are known.
fn output_outcome(
    alloc: Global,
    app: &App,
    sources: &Sources,
    known: &RxList<Outcome>,
    n: u32,
) -> Result<Outcome, Memory>
    requires within { n < length (readers (shape_of app.now)) }
    requires numbers { sources.now.numbers ≡ numbers_of (shape_of app.now) }
    requires known { known.now ≡ outcomes_of
        (known_expressions (shape_of app.now) sources.now.values (first_sites (shape_of app.now))) }
    ensures { IfOk result (λ outcome. outcome ≡ first_outcome (shape_of app.now) sources.now.values n) }
{
    reader_outcome(alloc, app, sources, known, n)
}

/// What each output of an app comes to on the current values of its sources, where every reader runs
/// for the first time: each isolated site is evaluated now, but for the body of an event that ignores
/// its first run, and no observer runs.
#[tactic(auto, using(crate::proofs::Firsts::output_passed, crate::proofs::Firsts::other_passed, crate::proofs::Firsts::all_passed))]
pub fn outputs_of(alloc: Global, app: &App, sources: &Sources) -> Result<Outcomes, Memory>
    requires { sources.now.numbers ≡ numbers_of (shape_of app.now) }
    ensures { IfOk result (λ outcomes. outcomes ≡ first_outcomes (shape_of app.now) sources.now.values) }
{
    let known = known_outcomes(alloc, app, sources)?;
    let mut outcomes = Outcomes::new(alloc);
    for n in 0..app.readers() {
        if app.reader(n).is_output() {
            outcomes.push(output_outcome(alloc, app, sources, &known, n)?)?;
        }
    }
    Ok(outcomes)
}
