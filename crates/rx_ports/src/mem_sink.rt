ghost use Rattle.std.specs.Prelude.{◌≡◌, ℕ, ◌≤◌, ◌+◌, min, take, [], ◌++◌, length, vec_len, vec_capacity, IfOk, OnOk, OnErr, Some};
ghost use Rattle.rx_ports.specs.Faults.{no_faults, with_failing};
ghost use Rattle.rx_ports.specs.Sink.{PutGives, PutFaults};
ghost use Rattle.rx_ports.specs.MemoryForms.{is_failed_put, next_put_fails, after_put};

use crate::fault_plan::FaultPlan;
use crate::sink::{Put, Sink};
use rx_value::Memory;
use std::alloc::Global;
use std::marker::Model;

/// A sink that holds its bytes in memory, up to its room. A put past the room fails after it has
/// put what fits.
#[derive(Debug, Drop)]
pub struct MemSink {
    bytes: Vec<u8>,
    room: usize,
    plan: FaultPlan,
}

impl Model for MemSink {
    ghost use Rattle.std.specs.Prelude.{◌≤◌, vec_len, vec_capacity};
    ghost use Rattle.rx_ports.specs.MemoryForms.{SinkState};

    ghost Value = { SinkState };

    ghost view = { λ m. record { held = m.bytes.items; room = m.room; plan = m.plan } };

    ghost invariant = { λ m. (vec_len m.bytes ≤ m.room) × (m.room ≤ vec_capacity m.bytes) };
}

/// Appends bytes for which there is room.
fn append_within(bytes: &mut Vec<u8>, more: &[u8])
    requires { vec_len bytes.old + length more.now ≤ vec_capacity bytes.old }
    ensures items { bytes.new.items ≡ bytes.old.items ++ more.now }
    ensures len { vec_len bytes.new ≡ vec_len bytes.old + length more.now }
    ensures capacity { vec_capacity bytes.old ≤ vec_capacity bytes.new }
{
    match bytes.extend_from_slice(more) {
        Ok(()) => (),
        Err(_) => unreachable!(),
    }
}

impl MemSink {
    /// An empty sink, which takes the memory for `room` bytes here and none later.
    pub fn new(alloc: Global, room: usize) -> Result<MemSink, Memory>
        ensures { IfOk result (λ sink. sink ≡ record { held = []; room = room; plan = no_faults }) }
    {
        Ok(MemSink {
            bytes: Vec::with_capacity(alloc, room)?,
            room,
            plan: FaultPlan::new(),
        })
    }

    /// The bytes that were put so far.
    pub fn bytes(&self) -> &[u8]
        ensures { result.now ≡ self.now.held }
    {
        self.bytes.as_slice()
    }

    /// Makes the calls of `put` with these numbers fail, counted from 1 and over the whole life of
    /// the object, besides those named before; such a call puts nothing. Without memory all stays.
    pub fn fail_put(&mut self, alloc: Global, calls: &[u64]) -> Result<(), Memory>
        ensures ok { OnOk result (self.new ≡ record self.old { plan = with_failing calls.now self.old.plan }) }
        ensures err { OnErr result (self.new ≡ self.old) }
    {
        self.plan.fail(alloc, calls)
    }
}

impl Sink for MemSink {
    ghost held = { λ m. Some m.held };

    ghost faults = { λ m. m.plan.faults };

    fn put(&mut self, bytes: &[u8]) -> Put
        ensures gives { PutGives (Some self.old.held) (Some self.new.held) bytes.now result }
        ensures later { self.old.plan.faults ≤ self.new.plan.faults }
        ensures failed { PutFaults self.old.plan.faults self.new.plan.faults result }
        ensures answer { is_failed_put result ≡ next_put_fails self.old bytes.now }
        ensures after { self.new ≡ after_put self.old bytes.now }
    {
        let planned = self.plan.next_fails();
        let spare = self.room - self.bytes.len();
        let failed = planned || spare < bytes.len();
        self.plan.count_call(failed);
        if planned {
            return Put::Failed;
        }
        append_within(&mut self.bytes, &bytes[..bytes.len().min(spare)]);
        if failed { Put::Failed } else { Put::Ok }
    }

    fn faults(&self) -> u64 {
        self.plan.faults()
    }
}
