ghost use Rattle.std.specs.Prelude.{◌≡◌, ℕ, ◌≤◌, ◌++◌, List, Option};
ghost use Rattle.rx_ports.specs.Link.{Script, items_given, RecvGives, RecvFaults, texts_sent, SendFaults};
ghost use Rattle.rx_ports.specs.declared.link.LinkItem.{LinkItem};

use rx_value::RxText;
use std::alloc::Global;

/// What a client sent over a link: a text, or anything else, as a binary message.
#[derive(Debug, Drop)]
pub enum LinkItem {
    Text(RxText),
    Other,
}

/// What asking a link for its next item comes to.
#[derive(Debug, Drop)]
pub enum Recv {
    /// The next item, which is this text.
    Text(RxText),
    /// No item is there now. A later call may give one.
    Idle,
    /// The next item, which is no text.
    Other,
    /// No item is left, and none will come.
    Ended,
    /// No item was taken. A later call may go on.
    Failed,
    /// There was no memory for the next item, and none was taken.
    Memory,
}

/// What sending a text over a link comes to.
#[derive(Clone, Copy, Debug, PartialEq, Eq)]
pub enum Sent {
    Ok,
    /// The text was not sent.
    Failed,
    /// There was no memory to send the text, and it was not sent.
    Memory,
}

/// A session's link to its client: items come from it, and texts are sent over it. What is left of
/// the client's script, and whether that has ended, is told in memory and not by a real link.
pub trait Link: Drop + Send {
    ghost label: { Self → List ℕ };

    ghost received: { Self → List LinkItem };

    ghost sent: { Self → List (List ℕ) };

    ghost script: { Self → Option Script };

    ghost faults: { Self → ℕ };

    /// Takes the next item, if there is one now.
    fn recv(&mut self, alloc: Global) -> Recv
        ensures label { label self.new ≡ label self.old }
        ensures sent { sent self.new ≡ sent self.old }
        ensures received { received self.new ≡ received self.old ++ items_given result }
        ensures gives { RecvGives (script self.old) (script self.new) result }
        ensures later { faults self.old ≤ faults self.new }
        ensures failed { RecvFaults (faults self.old) (faults self.new) result };

    /// Sends a text behind those before it.
    fn send(&mut self, alloc: Global, text: &RxText) -> Sent
        ensures label { label self.new ≡ label self.old }
        ensures received { received self.new ≡ received self.old }
        ensures script { script self.new ≡ script self.old }
        ensures sent { sent self.new ≡ sent self.old ++ texts_sent text.now result }
        ensures later { faults self.old ≤ faults self.new }
        ensures failed { SendFaults (faults self.old) (faults self.new) result };

    /// The name by which the client knows its session.
    fn label(&self) -> &RxText
        ensures { result.now ≡ label self.now };

    /// The count of faults so far, which stops at the largest number.
    fn faults(&self) -> u64
        ensures { result ≡ faults self.now };
}
