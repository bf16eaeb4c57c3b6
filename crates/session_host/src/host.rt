use crate::journal::Journal;
use app_tree::App;
use flush_cycle::Flusher;
use rx_ports::Link;
use session_model::Reason;
use std::marker::Model;
use std::sync::Arc;

/// The parts of a hosted session. What has to hold of them between two calls is kept by `Hosted`.
#[derive(Drop)]
pub struct Host<L: Link> {
    pub app: Arc<App>,
    pub link: L,
    pub journal: Journal,
    pub flusher: Flusher,
    /// Why the session is over, if it is.
    pub over: Option<Reason>,
}

impl<L: Link> Model for Host<L> {
    ghost use Rattle.std.specs.Coded.{codes};
    ghost use Rattle.app_tree.specs.contracts.term.Term as term;
    ghost use Rattle.app_tree.specs.contracts.statement.Statement as statement;
    ghost use Rattle.session_host.specs.Hosting.{Hosting};

    ghost Value = { Hosting };

    ghost coded = { Prim.hlevel (codes, term.the_row.coded, statement.the_row.coded) };

    ghost view = { λ h. record {
      app = h.app.value;
      link = record { label = L.label h.link; faults = L.faults h.link; received = L.received h.link; sent = L.sent h.link; script = L.script h.link };
      journal = h.journal.events;
      room = h.journal.room;
      over = h.over;
      flusher = h.flusher;
    } };
}
