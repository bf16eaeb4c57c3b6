//! How an event is answered: its texts are sent, or the session ends without them.

ghost use Rattle.std.specs.Prelude.{◌≡◌};
ghost use Rattle.session_host.specs.inner.Sending.{Sending, Closes, turned_by};
ghost use Rattle.session_host.specs.inner.Applying.{Says};

use crate::applying::Applied;
use crate::host::Host;
use crate::sending::send_all;
use crate::turned::Turned;
use flush_cycle::{Flushed, Texts};
use rx_ports::{Link, Sent};
use session_model::Reason;
use std::alloc::Global;

fn turned_by(over: &Option<Reason>) -> Turned
    ensures { result ≡ turned_by over.now }
{
    match over {
        None => Turned::Worked,
        Some(_) => Turned::Over,
    }
}

impl<L: Link> Host<L> {
    /// The session is over.
    pub fn close(&mut self, why: Reason) -> Turned
        ensures { Closes self.old self.new why result }
    {
        self.over = Some(why);
        Turned::Over
    }

    /// Sends these texts. Where all are sent the session is over if they end it, and it is over where one isn't.
    pub fn send(&mut self, alloc: Global, texts: &Texts, end: Option<Reason>) -> Turned
        ensures { Sending self.old self.new texts.now end result }
    {
        let over = match send_all(alloc, &mut self.link, texts) {
            Sent::Ok => end,
            Sent::Failed => Some(Reason::LinkFailed),
            Sent::Memory => Some(Reason::LinkMemory),
        };
        let turned = turned_by(&over);
        self.over = over;
        turned
    }

    /// Tells the client what the last event came to.
    pub fn answer(&mut self, alloc: Global, applied: Applied) -> Turned
        ensures { Says self.old self.new applied result }
    {
        match applied {
            Applied::Unread | Applied::Came(Flushed::Memory) => self.close(Reason::Memory),
            Applied::Refused(cause) => {
                let number = self.journal.item_count() as u64;
                self.close(Reason::Refused(number, cause))
            }
            Applied::Came(Flushed::Done(texts)) => self.send(alloc, &texts, None),
            Applied::Came(Flushed::BudgetSpent(texts)) => {
                self.send(alloc, &texts, Some(Reason::BudgetSpent))
            }
            Applied::Came(Flushed::ObserverFailed(why, texts)) => {
                self.send(alloc, &texts, Some(Reason::ObserverFailed(why)))
            }
        }
    }
}
