//! One evaluation of a reader over what a session keeps.

ghost use Rattle.std.specs.Prelude.{◌≡◌, ◌+◌, ◌<◌, [], IfOk, length};
ghost use Rattle.app_tree.specs.Numbering.{readers, reader};
ghost use Rattle.app_tree.specs.View.{shape_of};
ghost use Rattle.term_eval.specs.Bodies.{IsCached, IsUncached, bodies_done};
ghost use Rattle.react_session.specs.inner.Tries.{ignored_now, Tries, TriesKeys, TriesBody, bodies_tried};

use crate::reading::Reading;
use crate::session::Session;
use app_tree::Item;
use dep_graph::On;
use rx_value::{Key, Memory, Outcome, RxList};
use std::alloc::Global;
use std::sync::ledger::Ledger;
use term_eval::{Asker, Evaled, Keyed, Steps, run_body, run_cached_body, run_keys, sites_in};

/// What an evaluation depends on, each once in the order of its first read, and what its isolated sites came to.
#[derive(Drop)]
pub struct Notes {
    pub reached: RxList<On>,
    pub isolated: RxList<(usize, Outcome)>,
}

/// An evaluation that came to its end, with its notes.
#[derive(Drop)]
pub struct Ran {
    pub reached: RxList<On>,
    pub isolated: RxList<(usize, Outcome)>,
    pub outcome: Outcome,
}

#[derive(Drop)]
pub enum Tried {
    Done(Ran),
    /// This expression has to be made alive first.
    Wants(u32),
    Memory,
}

#[derive(Drop)]
pub enum KeysTried {
    Key(Key, Notes),
    Fails(Ran),
    Wants(u32),
    Memory,
}

/// The site that a reader leaves out as it runs now.
fn ignored_site(session: &Session, n: u32) -> Result<Option<usize>, Memory>
    requires { n < length (readers (shape_of session.now.app)) }
    ensures { IfOk result (λ site. site ≡ ignored_now (shape_of session.now.app) session.now.session n) }
{
    if session.ran(n) {
        return Ok(None);
    }
    match session.app.reader(n) {
        Item::Event { flags, event, .. } if flags.ignore_init => Ok(Some(sites_in(event)?)),
        _ => Ok(None),
    }
}

/// An evaluation that has noted nothing so far.
pub fn reading(alloc: Global, session: &Session, ignored: Option<usize>) -> Reading<'_>
    ensures session { result.session.now ≡ session.now }
    ensures ignored { result.ignored ≡ ignored }
    ensures depth { result.depth ≡ 0 }
    ensures reached { result.reached ≡ [] }
    ensures isolated { result.isolated ≡ [] }
{
    Reading {
        session,
        ignored,
        depth: 0,
        reached: RxList::new(alloc),
        isolated: RxList::new(alloc),
    }
}

/// Evaluates a reader without keys.
pub fn try_body<L: Ledger>(alloc: Global, session: &Session, n: u32, steps: &mut Steps<L>) -> Tried
    requires known { n < length (readers (shape_of session.now.app)) }
    requires uncached { IsUncached (reader (shape_of session.now.app) n) }
    ensures tries { Tries (shape_of session.now.app) session.now.session n result }
    ensures counts { steps.new ≡ steps.old + bodies_tried result }
{
    let Ok(ignored) = ignored_site(session, n) else {
        return Tried::Memory;
    };
    let mut reading = reading(alloc, session, ignored);
    match run_body(alloc, &session.app, n, &mut reading, steps) {
        Evaled::Done(outcome) => Tried::Done(Ran {
            reached: reading.reached,
            isolated: reading.isolated,
            outcome,
        }),
        Evaled::Wants(m) => Tried::Wants(m),
        Evaled::Memory => Tried::Memory,
    }
}

/// Evaluates the keys of a cached reader.
pub fn try_keys(alloc: Global, session: &Session, n: u32) -> KeysTried
    requires known { n < length (readers (shape_of session.now.app)) }
    requires cached { IsCached (reader (shape_of session.now.app) n) }
    ensures { TriesKeys (shape_of session.now.app) session.now.session n result }
{
    let mut reading = reading(alloc, session, None);
    match run_keys(alloc, &session.app, n, &mut reading) {
        Keyed::Key(key) => KeysTried::Key(
            key,
            Notes {
                reached: reading.reached,
                isolated: reading.isolated,
            },
        ),
        Keyed::Fails(outcome) => KeysTried::Fails(Ran {
            reached: reading.reached,
            isolated: reading.isolated,
            outcome,
        }),
        Keyed::Wants(m) => KeysTried::Wants(m),
        Keyed::Memory => KeysTried::Memory,
    }
}

/// Evaluates the body of a cached reader, for whose key there is a Leave. What it reads and isolates is not kept.
pub fn try_cached_body<A: Asker, L: Ledger>(
    alloc: Global,
    session: &Session,
    n: u32,
    leave: &A::Leave,
    steps: &mut Steps<L>,
) -> Evaled
    requires known { n < length (readers (shape_of session.now.app)) }
    requires cached { IsCached (reader (shape_of session.now.app) n) }
    requires claimed { (A.lent leave.now).key.node ≡ n }
    ensures tries { TriesBody (shape_of session.now.app) session.now.session n result }
    ensures counts { steps.new ≡ steps.old + bodies_done result }
{
    let mut reading = reading(alloc, session, None);
    run_cached_body::<Reading<'_>, A, L>(alloc, &session.app, n, leave, &mut reading, steps)
}
