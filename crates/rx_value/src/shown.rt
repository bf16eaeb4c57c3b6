ghost use Rattle.std.specs.Prelude.{◌≡◌, IfOk, OnOk, ◌++◌, ◌∷◌, []};
ghost use Rattle.std.specs.Fmt.{signed_decimal};
ghost use Rattle.rx_value.specs.Show.{show, numbers_text, spaced_numbers};

use crate::memory::Memory;
use crate::text::RxText;
use crate::value::Value;
use std::alloc::Global;

fn number_text(alloc: Global, number: i64) -> Result<RxText, Memory>
    ensures { IfOk result (λ t. t ≡ signed_decimal number) }
{
    let digits = number.to_string(alloc)?;
    RxText::from_str(alloc, digits.as_str())
}

fn push_number(alloc: Global, number: i64, text: &mut RxText) -> Result<(), Memory>
    ensures { OnOk result (text.new ≡ text.old ++ signed_decimal number) }
{
    let digits = number_text(alloc, number)?;
    text.push_str(digits.as_str())
}

fn push_spaced(alloc: Global, number: i64, text: &mut RxText) -> Result<(), Memory>
    ensures { OnOk result (text.new ≡ text.old ++ spaced_numbers (number ∷ [])) }
{
    text.push_str(" ")?;
    push_number(alloc, number, text)
}

fn numbers_text(alloc: Global, numbers: &[i64]) -> Result<RxText, Memory>
    ensures { IfOk result (λ t. t ≡ numbers_text numbers.now) }
{
    let mut text = RxText::new(alloc);
    let [first, later @ ..] = numbers else {
        return Ok(text);
    };
    push_number(alloc, *first, &mut text)?;
    for number in later {
        push_spaced(alloc, *number, &mut text)?;
    }
    Ok(text)
}

/// The text that an output shows for a value: nothing for NULL, `TRUE` or `FALSE`, a number in
/// decimal, a text itself, the numbers of a list in decimal with one space between them.
pub fn show(alloc: Global, value: &Value) -> Result<RxText, Memory>
    ensures { IfOk result (λ t. t ≡ show value.now) }
{
    match value {
        Value::Null => Ok(RxText::new(alloc)),
        Value::Bool(true) => RxText::from_str(alloc, "TRUE"),
        Value::Bool(false) => RxText::from_str(alloc, "FALSE"),
        Value::Int(number) => number_text(alloc, *number),
        Value::Text(text) => text.copy(alloc),
        Value::Ints(numbers) => numbers_text(alloc, numbers.as_slice()),
    }
}
