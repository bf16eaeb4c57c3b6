ghost use Rattle.std.specs.Prelude.{◌≡◌, IfOk};
ghost use Rattle.std.specs.Option.{option_map};
ghost use Rattle.std.specs.List.{list_all};
ghost use Rattle.session_model.specs.Lines.{is_label, is_label_byte};
ghost use Rattle.shiny_main.specs.inner.Spoken.{spoken_line, spoken_in, spoken_behind, line_said, LineIsSpoken};

use rx_value::{Memory, RxText};
use session_model::{LABEL_LIMIT, LINE_LIMIT};
use std::alloc::Global;

/// What a line of a transcript says.
#[derive(Debug, Drop)]
pub enum Line {
    /// `S recv TEXT`: a client message for session S.
    Recv(RxText, RxText),
    /// `S end TASK`: what runs of the task of this name ends in session S.
    End(RxText, RxText),
    /// `S close`: the link of session S ends.
    Close(RxText),
}

/// The same within the bytes of the line.
#[derive(Clone, Copy)]
enum Said<'a> {
    Recv(&'a str, &'a str),
    End(&'a str, &'a str),
    Close(&'a str),
}

fn are_label_bytes(name: &[u8]) -> bool
    ensures { result ≡ list_all is_label_byte name.now }
{
    name.iter()
        .all(|byte| byte.is_ascii_alphanumeric() || *byte == b'_')
}

fn is_label(name: &str) -> bool
    ensures { result ≡ is_label name.now }
{
    if name.len() == 0 {
        return false;
    }
    if name.len() > LABEL_LIMIT {
        return false;
    }
    are_label_bytes(name.as_bytes())
}

fn said_behind<'a>(label: &'a str, rest: &'a str) -> Option<Said<'a>>
    ensures { option_map line_said result ≡ spoken_behind label.now rest.now }
{
    match rest.split_once(' ') {
        Some(("recv", text)) => Some(Said::Recv(label, text)),
        Some(("end", task)) => Some(Said::End(label, task)),
        Some(_) => None,
        None if rest == "close" => Some(Said::Close(label)),
        None => None,
    }
}

fn said_in(line: &str) -> Option<Said<'_>>
    ensures { option_map line_said result ≡ spoken_in line.now }
{
    match line.split_once(' ') {
        Some((label, rest)) if is_label(label) => said_behind(label, rest),
        _ => None,
    }
}

fn said_by(line: &[u8]) -> Option<Said<'_>>
    ensures { option_map line_said result ≡ spoken_line line.now }
{
    if line.len() > LINE_LIMIT {
        return None;
    }
    match str::from_utf8(line) {
        Ok(text) => said_in(text),
        Err(_) => None,
    }
}

fn line_said(alloc: Global, said: Said<'_>) -> Result<Line, Memory>
    ensures { IfOk result (λ line. line ≡ line_said said.entry) }
{
    match said {
        Said::Recv(label, text) => {
            let label = RxText::from_str(alloc, label)?;
            let text = RxText::from_str(alloc, text)?;
            Ok(Line::Recv(label, text))
        }
        Said::End(label, task) => {
            let label = RxText::from_str(alloc, label)?;
            let task = RxText::from_str(alloc, task)?;
            Ok(Line::End(label, task))
        }
        Said::Close(label) => {
            let label = RxText::from_str(alloc, label)?;
            Ok(Line::Close(label))
        }
    }
}

/// What a line says, or nothing where it is too long, isn't UTF-8 or has no such form, whatever
/// tasks there are.
pub fn spoken_line(alloc: Global, line: &[u8]) -> Result<Option<Line>, Memory>
    ensures { IfOk result (λ says. says ≡ spoken_line line.now) }
{
    match said_by(line) {
        Some(said) => {
            let line = line_said(alloc, said)?;
            Ok(Some(line))
        }
        None => Ok(None),
    }
}

/// Does nothing: it is there for its contract. What a line of an app's transcript says is what its bytes
/// say, with the task looked up among the app's.
#[tactic(auto, using(crate::proofs::SpokenLines::line_is_spoken))]
pub fn spoken_laws()
    ensures { LineIsSpoken }
{}
