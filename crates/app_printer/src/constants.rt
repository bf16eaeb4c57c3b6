//! Numbers, texts and constants.

ghost use Rattle.std.specs.Prelude.{◌≡◌, ◌++◌, OnOk, encode_utf8};
ghost use Rattle.std.specs.Fmt.{decimal, signed_decimal};
ghost use Rattle.app_printer.specs.Canonical.{escaped, quoted, more_numbers, numbers_text, truth_text, constant_text};

use rx_value::{Memory, RxText, Value};
use std::alloc::Global;

/// Writes a number of runs in decimal.
pub fn write_natural(alloc: Global, number: u32, out: &mut RxText) -> Result<(), Memory>
    ensures { OnOk result (out.new ≡ out.old ++ decimal number) }
{
    let digits = number.to_string(alloc)?;
    out.push_str(digits.as_str())
}

/// Writes a number in decimal.
pub fn write_number(alloc: Global, number: i64, out: &mut RxText) -> Result<(), Memory>
    ensures { OnOk result (out.new ≡ out.old ++ signed_decimal number) }
{
    let digits = number.to_string(alloc)?;
    out.push_str(digits.as_str())
}

fn write_escaped(character: char, out: &mut RxText) -> Result<(), Memory>
    ensures { OnOk result (out.new ≡ out.old ++ escaped (encode_utf8 character)) }
{
    match character {
        '"' => out.push_str("\\\""),
        '\\' => out.push_str("\\\\"),
        '\n' => out.push_str("\\n"),
        plain => out.push(plain),
    }
}

fn write_all_escaped(text: &str, out: &mut RxText) -> Result<(), Memory>
    ensures { OnOk result (out.new ≡ out.old ++ escaped text.now) }
{
    for character in text.chars() {
        write_escaped(character, out)?;
    }
    Ok(())
}

/// Writes a text between quotes.
pub fn write_text(text: &str, out: &mut RxText) -> Result<(), Memory>
    ensures { OnOk result (out.new ≡ out.old ++ quoted text.now) }
{
    out.push_str("\"")?;
    write_all_escaped(text, out)?;
    out.push_str("\"")
}

fn write_more_numbers(alloc: Global, numbers: &[i64], out: &mut RxText) -> Result<(), Memory>
    ensures { OnOk result (out.new ≡ out.old ++ more_numbers numbers.now) }
{
    for number in numbers {
        out.push_str(", ")?;
        write_number(alloc, *number, out)?;
    }
    Ok(())
}

fn write_numbers(alloc: Global, numbers: &[i64], out: &mut RxText) -> Result<(), Memory>
    ensures { OnOk result (out.new ≡ out.old ++ numbers_text numbers.now) }
{
    let [first, later @ ..] = numbers else {
        return Ok(());
    };
    write_number(alloc, *first, out)?;
    write_more_numbers(alloc, later, out)
}

fn write_list(alloc: Global, numbers: &[i64], out: &mut RxText) -> Result<(), Memory>
    ensures { OnOk result (out.new ≡ out.old ++ constant_text (Value.Ints numbers.now)) }
{
    out.push_str("c(")?;
    write_numbers(alloc, numbers, out)?;
    out.push_str(")")
}

/// Writes `TRUE` or `FALSE`.
pub fn write_truth(truth: bool, out: &mut RxText) -> Result<(), Memory>
    ensures { OnOk result (out.new ≡ out.old ++ truth_text truth) }
{
    out.push_str(if truth { "TRUE" } else { "FALSE" })
}

/// Writes what an input or a value starts with.
pub fn write_constant(alloc: Global, constant: &Value, out: &mut RxText) -> Result<(), Memory>
    ensures { OnOk result (out.new ≡ out.old ++ constant_text constant.now) }
{
    match constant {
        Value::Null => out.push_str("NULL"),
        Value::Bool(truth) => write_truth(*truth, out),
        Value::Int(number) => write_number(alloc, *number, out),
        Value::Text(text) => write_text(text.as_str(), out),
        Value::Ints(numbers) => write_list(alloc, numbers.as_slice(), out),
    }
}
