ghost use Rattle.std.specs.Prelude.{◌≡◌, Some};
ghost use Rattle.app_tree.specs.View.{shape_of};
ghost use Rattle.session_model.specs.Faithful.{IsFaithful};

use crate::journal::Journal;
use app_tree::App;
use rx_ports::Link;
use session_model::Reason;
use std::marker::Model;
use std::sync::Arc;

/// A session that is over, with its link, its journal and the reason.
#[derive(Drop)]
pub struct Closed<L: Link> {
    pub(crate) app: Arc<App>,
    pub(crate) link: L,
    pub(crate) journal: Journal,
    pub(crate) reason: Reason,
}

impl<L: Link> Model for Closed<L> {
    ghost use Rattle.std.specs.Prelude.{Some};
    ghost use Rattle.std.specs.Coded.{codes};
    ghost use Rattle.app_tree.specs.View.{shape_of};
    ghost use Rattle.app_tree.specs.contracts.term.Term as term;
    ghost use Rattle.app_tree.specs.contracts.statement.Statement as statement;
    ghost use Rattle.session_model.specs.Faithful.{IsFaithful};
    ghost use Rattle.session_host.specs.Hosting.{SessionRecord};

    ghost Value = { SessionRecord };

    ghost coded = { Prim.hlevel (codes, term.the_row.coded, statement.the_row.coded) };

    ghost view = { λ c. record {
      app = c.app.value;
      link = record { label = L.label c.link; faults = L.faults c.link; received = L.received c.link; sent = L.sent c.link; script = L.script c.link };
      journal = c.journal.events;
      reason = c.reason;
    } };

    ghost invariant = { λ c. IsFaithful (shape_of c.app.value)
        (record { label = L.label c.link; faults = L.faults c.link; received = L.received c.link; sent = L.sent c.link; script = L.script c.link })
        c.journal.events (Some c.reason) };
}

impl<L: Link> Closed<L> {
    /// Does nothing: it is there for its contract. The journal is the true record of the session.
    pub fn is_faithful(&self)
        ensures { IsFaithful (shape_of self.now.app) self.now.link self.now.journal (Some self.now.reason) }
    {
        let _ = &self.app;
    }

    /// The app that the session ran.
    pub fn app(&self) -> &App
        ensures { result.now ≡ self.now.app }
    {
        &self.app
    }

    /// The link, as the session left it.
    pub fn link(&self) -> &L
        ensures { record { label = L.label result.now; faults = L.faults result.now; received = L.received result.now; sent = L.sent result.now; script = L.script result.now } ≡ self.now.link }
    {
        &self.link
    }

    /// The events that came to the session.
    pub fn journal(&self) -> &Journal
        ensures { result.now.events ≡ self.now.journal }
    {
        &self.journal
    }

    /// Why the session is over.
    pub fn reason(&self) -> &Reason
        ensures { result.now ≡ self.now.reason }
    {
        &self.reason
    }
}
