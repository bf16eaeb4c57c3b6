//! The texts of an event are sent in their order.

ghost use Rattle.std.specs.Prelude.{◌≡◌, List, ℕ};
ghost use Rattle.session_host.specs.inner.Sending.{LinkSends};

use flush_cycle::Texts;
use rx_ports::{Link, Sent};
use std::alloc::Global;

/// Sends these texts one after the other, up to the first that isn't sent.
pub fn send_all<L: Link>(alloc: Global, link: &mut L, texts: &Texts) -> Sent
    ensures { LinkSends
        (record { label = L.label link.old; faults = L.faults link.old; received = L.received link.old; sent = L.sent link.old; script = L.script link.old })
        (record { label = L.label link.new; faults = L.faults link.new; received = L.received link.new; sent = L.sent link.new; script = L.script link.new })
        texts.now result }
{
    for text in texts.as_slice() {
        match link.send(alloc, text) {
            Sent::Ok => {}
            failed => return failed,
        }
    }
    Sent::Ok
}
