//! The title as XML text, and the limit of the whole text.

ghost use Rattle.std.specs.Prelude.{◌≡◌, ◌++◌, ◌≤◌, length, OnOk, MatchResult};
ghost use Rattle.std.specs.List.{flat_map};
ghost use Rattle.std.specs.Str.{chars};
ghost use Rattle.rx_value.specs.Plot.{xml_escaped, heading};
ghost use Rattle.svg_plot.specs.inner.Answers.{IsTooLongOrMemory, Writes};

use crate::error::PlotError;
use rx_value::{Failure, Memory, RxText, TEXT_LIMIT};

/// Refuses a text that has grown too long.
fn limit(text: &RxText) -> Result<(), PlotError>
    ensures { MatchResult result (λ _. length text.now ≤ TEXT_LIMIT) (IsTooLongOrMemory text.now) }
{
    if text.len() > TEXT_LIMIT {
        return Err(PlotError::Failed(Failure::TextTooLong));
    }
    Ok(())
}

/// Puts a piece at the end of a text, which is to stay within its limit.
pub fn put(text: &mut RxText, piece: &str) -> Result<(), PlotError>
    ensures written { Writes text.old piece.now text.new result }
    ensures short { OnOk result (length text.new ≤ TEXT_LIMIT) }
{
    text.push_str(piece)?;
    limit(text)
}

/// A character that would be markup is written by its name, and one that XML 1.0 has no place for
/// as a space.
#[tactic(auto, unfolding(rx_value::specs::Plot::xml_escaped))]
fn push_escaped(character: char, text: &mut RxText) -> Result<(), Memory>
    ensures { OnOk result (text.new ≡ text.old ++ xml_escaped character) }
{
    match character {
        '&' => text.push_str("&amp;"),
        '<' => text.push_str("&lt;"),
        '>' => text.push_str("&gt;"),
        '"' => text.push_str("&quot;"),
        '\0'..='\u{8}' | '\u{b}' | '\u{c}' | '\u{e}'..='\u{1f}' | '\u{fffe}' | '\u{ffff}' => {
            text.push_str(" ")
        }
        _ => text.push(character),
    }
}

fn put_escaped(character: char, text: &mut RxText) -> Result<(), PlotError>
    ensures { Writes text.old (xml_escaped character) text.new result }
{
    push_escaped(character, text)?;
    limit(text)
}

/// A title may be of any length, so each character is held against the limit.
fn put_all_escaped(title: &str, text: &mut RxText) -> Result<(), PlotError>
    ensures { Writes text.old (flat_map xml_escaped (chars title.now)) text.new result }
{
    for character in title.chars() {
        put_escaped(character, text)?;
    }
    Ok(())
}

/// Puts the title's element at the end of a text.
pub fn put_heading(title: &str, text: &mut RxText) -> Result<(), PlotError>
    ensures { Writes text.old (heading title.now) text.new result }
{
    put(text, "<text x=\"10\" y=\"20\">")?;
    put_all_escaped(title, text)?;
    put(text, "</text>")
}
