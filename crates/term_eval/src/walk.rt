ghost use Rattle.std.specs.Prelude.{◌≡◌, [], ◌∷◌, ◌++◌};
ghost use Rattle.rx_value.specs.Numbers.{number_list};
ghost use Rattle.rx_value.specs.declared.value.Value.TheVariants as v;
ghost use Rattle.app_tree.specs.View.{tree_of, trees_of_terms};
ghost use Rattle.app_tree.specs.Evaluate.{evaluate, at_site, read_of, decided_by, operated, over_list};
ghost use Rattle.app_tree.specs.Wanted.{completed};
ghost use Rattle.term_eval.specs.inner.Walks.{Walks, WalksAll, Leaves, state};

use crate::ending::{Early, value_in};
use crate::pieces::{
    binary_value, called, failing, looked_up, required, stopped, text_copied, truth_of,
    unary_value, wanted_bool,
};
use crate::reader::{Answer, Entered, Reader};
use app_tree::{Operator, Read, Term};
use rx_value::{Failure, Memory, Outcome, Value, Values};
use sqlite_items::Items;
use std::alloc::Global;

/// What a read gives.
fn read_of<R: Reader>(
    alloc: Global,
    what: Read,
    variables: &mut Items<Value>,
    reader: &mut R,
) -> Result<Value, Early>
    ensures { Walks R.answers R.noted
        (read_of (completed (R.answers reader.old)) what)
        (state reader.old variables.old) (state reader.new variables.new) result }
{
    match reader.read(alloc, what) {
        Answer::Given(outcome) => value_in(outcome),
        Answer::Wants(m) => Err(Early::Wants(m)),
        Answer::Memory => Err(Early::Memory),
    }
}

/// Leaves a site whose term came to its end.
fn leave<R: Reader>(
    alloc: Global,
    site: usize,
    got: Result<Value, Early>,
    reader: &mut R,
) -> Result<Value, Early>
    ensures keeps { R.answers reader.new ≡ R.answers reader.old }
    ensures leaves { Leaves R.noted site got result reader.old reader.new }
{
    let outcome = match got {
        Ok(value) => Outcome::Val(value),
        Err(Early::Halted(halt)) => halt.outcome(),
        Err(Early::Wants(m)) => return Err(Early::Wants(m)),
        Err(Early::Memory) => return Err(Early::Memory),
    };
    reader.exit(alloc, site, &outcome)?;
    value_in(outcome)
}

#[cycle(term)]
pub fn isolated<R: Reader>(
    alloc: Global,
    site: usize,
    inner: &Term,
    variables: &mut Items<Value>,
    reader: &mut R,
) -> Result<Value, Early>
    ensures { Walks R.answers R.noted
        (at_site site (evaluate (tree_of inner.now))
        (completed (R.answers reader.old)) variables.old ((R.answers reader.old).site site))
        (state reader.old variables.old) (state reader.new variables.new) result }
{
    match reader.enter(alloc, site) {
        Entered::Given(outcome) => value_in(outcome),
        Entered::Memory => Err(Early::Memory),
        Entered::Run => {
            let got = value_of(alloc, inner, variables, reader);
            leave(alloc, site, got, reader)
        }
    }
}

/// The values of all these terms, in their order.
#[cycle(term)]
pub fn values_of<R: Reader>(
    alloc: Global,
    terms: &[Term],
    variables: &mut Items<Value>,
    reader: &mut R,
) -> Result<Values, Early>
    ensures { WalksAll R.answers R.noted
        (trees_of_terms terms.now)
        (state reader.old variables.old) (state reader.new variables.new) result }
{
    let mut values = Values::new(alloc);
    for term in terms {
        let value = value_of(alloc, term, variables, reader)?;
        match values.push(value) {
            Ok(()) => {}
            Err(Memory) => return Err(Early::Memory),
        }
    }
    Ok(values)
}

/// The second operand of an operator that the first may decide.
#[cycle(term)]
fn decided<R: Reader>(
    alloc: Global,
    deciding: bool,
    first: Value,
    second: &Term,
    variables: &mut Items<Value>,
    reader: &mut R,
) -> Result<Value, Early>
    ensures { Walks R.answers R.noted
        (decided_by deciding (evaluate (tree_of second.now))
        (completed (R.answers reader.old)) variables.old first)
        (state reader.old variables.old) (state reader.new variables.new) result }
{
    match (deciding, first) {
        (true, Value::Bool(true)) => Ok(Value::Bool(true)),
        (false, Value::Bool(false)) => Ok(Value::Bool(false)),
        (_, Value::Bool(_)) => {
            let second = value_of(alloc, second, variables, reader)?;
            wanted_bool(alloc, second)
        }
        _ => failing(alloc, Failure::NotACondition),
    }
}

#[cycle(term)]
fn operated<R: Reader>(
    alloc: Global,
    operator: Operator,
    first: Value,
    second: &Term,
    variables: &mut Items<Value>,
    reader: &mut R,
) -> Result<Value, Early>
    ensures { Walks R.answers R.noted
        (operated operator (evaluate (tree_of second.now))
        (completed (R.answers reader.old)) variables.old first)
        (state reader.old variables.old) (state reader.new variables.new) result }
{
    match operator {
        Operator::Or => decided(alloc, true, first, second, variables, reader),
        Operator::And => decided(alloc, false, first, second, variables, reader),
        Operator::Strict(operator) => {
            let second = value_of(alloc, second, variables, reader)?;
            binary_value(alloc, operator, &first, &second)
        }
    }
}

/// The body of a fold at one number.
#[cycle(term)]
fn fold_step<R: Reader>(
    alloc: Global,
    accumulator: Value,
    number: i64,
    body: &Term,
    variables: &mut Items<Value>,
    reader: &mut R,
) -> Result<Value, Early>
    ensures { Walks R.answers R.noted
        (evaluate (tree_of body.now)
        (completed (R.answers reader.old)) (variables.old ++ accumulator ∷ v.Int number ∷ []))
        (state reader.old variables.old) (state reader.new variables.new) result }
{
    if variables.push(accumulator).is_err() {
        return Err(Early::Memory);
    }
    if variables.push(Value::Int(number)).is_err() {
        return Err(Early::Memory);
    }
    let result = value_of(alloc, body, variables, reader);
    let _element = variables.pop();
    let _accumulator = variables.pop();
    result
}

#[cycle(term)]
fn over_list<R: Reader>(
    alloc: Global,
    start: Value,
    list: Value,
    body: &Term,
    variables: &mut Items<Value>,
    reader: &mut R,
) -> Result<Value, Early>
    ensures { Walks R.answers R.noted
        (over_list (λ a z. evaluate (tree_of body.now)
        (completed (R.answers reader.old)) (variables.old ++ a ∷ v.Int z ∷ [])) start (number_list list))
        (state reader.old variables.old) (state reader.new variables.new) result }
{
    let Some(numbers) = list.numbers() else {
        return failing(alloc, Failure::WrongKind);
    };
    let mut accumulator = start;
    for number in numbers {
        accumulator = fold_step(alloc, accumulator, *number, body, variables, reader)?;
    }
    Ok(accumulator)
}

/// What a term comes to.
#[cycle(term)]
pub fn value_of<R: Reader>(
    alloc: Global,
    term: &Term,
    variables: &mut Items<Value>,
    reader: &mut R,
) -> Result<Value, Early>
    ensures { Walks R.answers R.noted
        (evaluate (tree_of term.now) (completed (R.answers reader.old)) variables.old)
        (state reader.old variables.old) (state reader.new variables.new) result }
{
    match term {
        Term::Null => Ok(Value::Null),
        Term::Bool(truth) => Ok(Value::Bool(*truth)),
        Term::Int(number) => Ok(Value::Int(*number)),
        Term::Text(text) => text_copied(alloc, text),
        Term::Group(inner) => value_of(alloc, inner.get(), variables, reader),
        Term::Get(what) => read_of(alloc, *what, variables, reader),
        Term::Variable(place) => looked_up(alloc, variables, *place),
        Term::Isolate(site, inner) => isolated(alloc, *site, inner.get(), variables, reader),
        Term::Stop(inner) => {
            let value = value_of(alloc, inner.get(), variables, reader)?;
            stopped(alloc, value)
        }
        Term::Require {
            term: inner,
            cancels,
        } => {
            let value = value_of(alloc, inner.get(), variables, reader)?;
            required(value, *cancels)
        }
        Term::Fold {
            list,
            start,
            body,
            ..
        } => {
            let list = value_of(alloc, list.get(), variables, reader)?;
            let start = value_of(alloc, start.get(), variables, reader)?;
            over_list(alloc, start, list, body.get(), variables, reader)
        }
        Term::Unary(operator, inner) => {
            let value = value_of(alloc, inner.get(), variables, reader)?;
            unary_value(alloc, *operator, &value)
        }
        Term::Binary(operator, left, right) => {
            let left = value_of(alloc, left.get(), variables, reader)?;
            operated(alloc, *operator, left, right.get(), variables, reader)
        }
        Term::If {
            condition,
            chosen,
            otherwise,
        } => {
            let condition = value_of(alloc, condition.get(), variables, reader)?;
            match truth_of(condition) {
                Some(true) => value_of(alloc, chosen.get(), variables, reader),
                Some(false) => value_of(alloc, otherwise.get(), variables, reader),
                None => failing(alloc, Failure::NotACondition),
            }
        }
        Term::Call(function, arguments) => {
            let arguments = values_of(alloc, arguments.as_slice(), variables, reader)?;
            called(alloc, *function, arguments.as_slice())
        }
    }
}
