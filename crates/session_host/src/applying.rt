//! What an event does to a session's Flusher.

ghost use Rattle.std.specs.Prelude.{◌≡◌, ◌≢◌, ◌≤◌, ◌+◌, [], IfOk};
ghost use Rattle.app_tree.specs.View.{shape_of};
ghost use Rattle.shiny_json.specs.declared.message.Client.{Client};
ghost use Rattle.session_model.specs.Alone.{message_effect};
ghost use Rattle.session_model.specs.State.{SessionState};
ghost use Rattle.session_model.specs.Standing.{StandsWholly};
ghost use Rattle.flush_cycle.specs.Flushing.{most_bodies};
ghost use Rattle.session_host.specs.inner.Applying.{is_open, Does};

use flush_cycle::{Flushed, Flusher, Stage};
use rx_value::{Memory, RxText};
use shiny_json::{BadMessage, Client, ClientData};
use std::alloc::Global;
use std::sync::ledger::Ledger;
use term_eval::{Asker, Steps};

/// What an event came to.
#[derive(Debug, Drop)]
pub enum Applied {
    /// There was no memory to read it.
    Unread,
    /// It is refused, for this cause.
    Refused(BadMessage),
    /// The Flusher's answer.
    Came(Flushed),
}

/// Applies a message that was read. The init comes first, and once.
pub fn apply<A: Asker, T: Ledger>(
    flusher: &mut Flusher,
    alloc: Global,
    label: &RxText,
    client: Client,
    asker: &mut A,
    steps: &mut Steps<T>,
) -> Applied
    requires stage { flusher.old.stage ≢ Stage.Over }
    requires of_app { A.app asker.old ≡ shape_of flusher.old.app }
    requires none_out { A.out asker.old ≡ [] }
    ensures does { (state : SessionState) → StandsWholly (shape_of flusher.old.app) flusher.old.kept state
        → Does (shape_of flusher.old.app) label.now state
        (message_effect (shape_of flusher.old.app) (is_open flusher.old.stage) state client)
        flusher.old flusher.new steps.old steps.new result }
    ensures most { steps.new ≤ steps.old + most_bodies (shape_of flusher.old.app) }
    ensures follows { A.follows asker.new asker.old }
    ensures none_out { A.out asker.new ≡ [] }
{
    let is_open = flusher.stage() == Stage::Open;
    match client {
        Client::Refused(cause) => Applied::Refused(cause),
        Client::Init(_) if is_open => Applied::Refused(BadMessage::SecondInit),
        Client::Init(pairs) => Applied::Came(flusher.init(alloc, label, &pairs, asker, steps)),
        Client::Update(pairs) if is_open => Applied::Came(flusher.update(
            alloc, &pairs, asker, steps,
        )),
        Client::Update(_) => Applied::Refused(BadMessage::EarlyUpdate),
    }
}

/// Applies a message, if there was memory to read it.
#[tactic(auto, using(crate::proofs::Effects::unread_does))]
pub fn apply_read<A: Asker, T: Ledger>(
    flusher: &mut Flusher,
    alloc: Global,
    label: &RxText,
    read: Result<Client, Memory>,
    asker: &mut A,
    steps: &mut Steps<T>,
) -> Applied
    requires stage { flusher.old.stage ≢ Stage.Over }
    requires of_app { A.app asker.old ≡ shape_of flusher.old.app }
    requires none_out { A.out asker.old ≡ [] }
    ensures does { (state : SessionState) → StandsWholly (shape_of flusher.old.app) flusher.old.kept state
        → (client : Client) → IfOk read (λ c. c ≡ client)
        → Does (shape_of flusher.old.app) label.now state
        (message_effect (shape_of flusher.old.app) (is_open flusher.old.stage) state client)
        flusher.old flusher.new steps.old steps.new result }
    ensures most { steps.new ≤ steps.old + most_bodies (shape_of flusher.old.app) }
    ensures follows { A.follows asker.new asker.old }
    ensures none_out { A.out asker.new ≡ [] }
{
    match read {
        Ok(client) => apply(flusher, alloc, label, client, asker, steps),
        Err(_) => Applied::Unread,
    }
}
