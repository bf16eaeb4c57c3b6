ghost use Rattle.std.specs.Prelude.{◌≡◌, ◌≤◌, ◌<◌, ◌++◌, ◌∷◌, [], length, false, slice_get, Some, IfOk, OnOk, OnErr};
ghost use Rattle.rx_ports.specs.Faults.{with_failing, next_fails};
ghost use Rattle.rx_ports.specs.Link.{items_given, RecvGives, RecvFaults, texts_sent, SendFaults};
ghost use Rattle.rx_ports.specs.MemoryForms.{new_tape, with_item, with_end, tape_script, tape_faults, item_answer, IsText, next_recv, IsOrMemory, after_recv, is_failed_send, after_send};
ghost use Rattle.rx_ports.specs.declared.link.LinkItem.TheVariants.{Text, Other};

use crate::fault_plan::FaultPlan;
use crate::link::{Link, LinkItem, Recv, Sent};
use rx_value::{Memory, RxList, RxText};
use std::alloc::Global;
use std::marker::Model;

/// A link whose client is a script in memory, and which keeps what it received and sent.
#[derive(Debug, Drop)]
pub struct TapeLink {
    label: RxText,
    items: RxList<LinkItem>,
    given: usize,
    ended: bool,
    sent: RxList<RxText>,
    recv_plan: FaultPlan,
    send_plan: FaultPlan,
}

impl Model for TapeLink {
    ghost use Rattle.std.specs.Prelude.{◌≤◌, take, drop, length};
    ghost use Rattle.rx_ports.specs.MemoryForms.{TapeState};

    ghost Value = { TapeState };

    ghost view = { λ m. record {
      label = m.label;
      received = take m.given m.items;
      left = drop m.given m.items;
      ended = m.ended;
      sent = m.sent;
      recv_plan = m.recv_plan;
      send_plan = m.send_plan;
    } };

    ghost invariant = { λ m. m.given ≤ length m.items };
}

/// The answer that gives an item. The text of one is copied, and only that takes memory.
fn answer_of(alloc: Global, item: &LinkItem) -> Result<Recv, Memory>
    ensures ok { IfOk result (λ answer. answer ≡ item_answer item.now) }
    ensures err { OnErr result (IsText item.now) }
{
    match item {
        LinkItem::Text(text) => match text.copy(alloc) {
            Ok(text) => Ok(Recv::Text(text)),
            Err(_) => Err(Memory),
        },
        LinkItem::Other => Ok(Recv::Other),
    }
}

/// Puts a copy of a text behind others. Without memory the list stays.
fn push_copy(alloc: Global, texts: &mut RxList<RxText>, text: &RxText) -> Result<(), Memory>
    ensures ok { OnOk result (texts.new ≡ texts.old ++ text.now ∷ []) }
    ensures err { OnErr result (texts.new ≡ texts.old) }
{
    match text.copy(alloc) {
        Ok(copy) => texts.push(copy),
        Err(_) => Err(Memory),
    }
}

impl TapeLink {
    /// A link whose script has no item yet and has not ended. It takes no memory until an item is
    /// pushed or a text is sent.
    pub fn new(alloc: Global, label: RxText) -> TapeLink
        ensures { result ≡ new_tape label }
    {
        TapeLink {
            label,
            items: RxList::new(alloc),
            given: 0,
            ended: false,
            sent: RxList::new(alloc),
            recv_plan: FaultPlan::new(),
            send_plan: FaultPlan::new(),
        }
    }

    /// Puts a text at the end of the script. Without memory all stays, and the text is lost.
    pub fn push(&mut self, item: RxText) -> Result<(), Memory>
        requires { self.old.ended ≡ false }
        ensures ok { OnOk result (self.new ≡ with_item (Text item) self.old) }
        ensures err { OnErr result (self.new ≡ self.old) }
    {
        self.items.push(LinkItem::Text(item))
    }

    /// Puts an item that is no text at the end of the script. Without memory all stays.
    pub fn push_other(&mut self) -> Result<(), Memory>
        requires { self.old.ended ≡ false }
        ensures ok { OnOk result (self.new ≡ with_item Other self.old) }
        ensures err { OnErr result (self.new ≡ self.old) }
    {
        self.items.push(LinkItem::Other)
    }

    /// Ends the script: no item comes behind those that are left.
    pub fn end(&mut self)
        ensures { self.new ≡ with_end self.old }
    {
        self.ended = true;
    }

    /// The count of texts that were sent.
    pub fn sent_count(&self) -> usize
        ensures { result ≡ length self.now.sent }
    {
        self.sent.len()
    }

    /// The text that was sent as number `k`, counted from 0.
    pub fn sent(&self, k: usize) -> &RxText
        requires { k < length self.now.sent }
        ensures { slice_get self.now.sent k ≡ Some result.now }
    {
        self.sent.get(k)
    }

    /// Makes the calls of `recv` with these numbers fail, counted from 1 and over the whole life of
    /// the object, besides those named before. Without memory all stays.
    pub fn fail_recv(&mut self, alloc: Global, calls: &[u64]) -> Result<(), Memory>
        ensures ok { OnOk result (self.new ≡ record self.old { recv_plan = with_failing calls.now self.old.recv_plan }) }
        ensures err { OnErr result (self.new ≡ self.old) }
    {
        self.recv_plan.fail(alloc, calls)
    }

    /// Makes the calls of `send` with these numbers fail, counted from 1 and over the whole life of
    /// the object, besides those named before. Without memory all stays.
    pub fn fail_send(&mut self, alloc: Global, calls: &[u64]) -> Result<(), Memory>
        ensures ok { OnOk result (self.new ≡ record self.old { send_plan = with_failing calls.now self.old.send_plan }) }
        ensures err { OnErr result (self.new ≡ self.old) }
    {
        self.send_plan.fail(alloc, calls)
    }
}

impl Link for TapeLink {
    ghost label = { λ m. m.label };

    ghost received = { λ m. m.received };

    ghost sent = { λ m. m.sent };

    ghost script = { λ m. Some (tape_script m) };

    ghost faults = { tape_faults };

    fn recv(&mut self, alloc: Global) -> Recv
        ensures label { self.new.label ≡ self.old.label }
        ensures sent { self.new.sent ≡ self.old.sent }
        ensures received { self.new.received ≡ self.old.received ++ items_given result }
        ensures gives { RecvGives (Some (tape_script self.old)) (Some (tape_script self.new)) result }
        ensures later { tape_faults self.old ≤ tape_faults self.new }
        ensures failed { RecvFaults (tape_faults self.old) (tape_faults self.new) result }
        ensures answer { IsOrMemory (next_recv self.old) result }
        ensures after { self.new ≡ after_recv self.old result }
    {
        let fails = self.recv_plan.next_fails();
        self.recv_plan.count_call(fails);
        if fails {
            return Recv::Failed;
        }
        if self.given == self.items.len() {
            return if self.ended { Recv::Ended } else { Recv::Idle };
        }
        match answer_of(alloc, self.items.get(self.given)) {
            Ok(answer) => {
                self.given += 1;
                answer
            }
            Err(_) => Recv::Memory,
        }
    }

    fn send(&mut self, alloc: Global, text: &RxText) -> Sent
        ensures label { self.new.label ≡ self.old.label }
        ensures received { self.new.received ≡ self.old.received }
        ensures script { Some (tape_script self.new) ≡ Some (tape_script self.old) }
        ensures sent { self.new.sent ≡ self.old.sent ++ texts_sent text.now result }
        ensures later { tape_faults self.old ≤ tape_faults self.new }
        ensures failed { SendFaults (tape_faults self.old) (tape_faults self.new) result }
        ensures answer { is_failed_send result ≡ next_fails self.old.send_plan }
        ensures after { self.new ≡ after_send self.old text.now result }
    {
        let fails = self.send_plan.next_fails();
        self.send_plan.count_call(fails);
        if fails {
            return Sent::Failed;
        }
        match push_copy(alloc, &mut self.sent, text) {
            Ok(()) => Sent::Ok,
            Err(_) => Sent::Memory,
        }
    }

    fn label(&self) -> &RxText {
        &self.label
    }

    fn faults(&self) -> u64 {
        let recv_faults = self.recv_plan.faults();
        recv_faults.saturating_add(self.send_plan.faults())
    }
}
