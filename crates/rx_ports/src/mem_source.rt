ghost use Rattle.std.specs.Prelude.{◌≡◌, ℕ, ◌+◌, ◌^◌, ◌≤◌, ◌<◌, ◌++◌, min, take, drop, length, OnOk, OnErr, Some};
ghost use Rattle.rx_ports.specs.Faults.{no_faults, with_failing};
ghost use Rattle.rx_ports.specs.Source.{TakeGives, TakeFaults};
ghost use Rattle.rx_ports.specs.MemoryForms.{next_take, after_take};

use crate::bytes::RxBytes;
use crate::fault_plan::FaultPlan;
use crate::source::{Source, Take};
use rx_value::Memory;
use std::alloc::Global;
use std::marker::Model;

/// A source whose bytes live in memory. A take gives as many as are left and fit.
#[derive(Debug, Drop)]
pub struct MemSource {
    bytes: RxBytes,
    given: usize,
    plan: FaultPlan,
}

impl Model for MemSource {
    ghost use Rattle.std.specs.Prelude.{◌≤◌, drop, length};
    ghost use Rattle.rx_ports.specs.MemoryForms.{SourceState};

    ghost Value = { SourceState };

    ghost view = { λ m. record { left = drop m.given m.bytes; plan = m.plan } };

    ghost invariant = { λ m. m.given ≤ length m.bytes };
}

fn rest(bytes: &RxBytes, given: usize) -> &[u8]
    requires { given ≤ length bytes.now }
    ensures value { result.now ≡ drop given bytes.now }
    ensures bound { given + length result.now < 2 ^ 64 }
{
    &bytes.as_slice()[given..]
}

/// Copies as many bytes as both have to the front of `to`, and answers how many.
fn copy_front(from: &[u8], to: &mut [u8]) -> usize
    ensures count { result ≡ min (length from.now) (length to.old) }
    ensures copied { take result to.new ≡ take result from.now }
{
    let count = from.len().min(to.len());
    to[..count].copy_from_slice(&from[..count]);
    count
}

impl MemSource {
    /// A source that has all the bytes left.
    pub fn new(bytes: RxBytes) -> MemSource
        ensures { result ≡ record { left = bytes; plan = no_faults } }
    {
        MemSource {
            bytes,
            given: 0,
            plan: FaultPlan::new(),
        }
    }

    /// Makes the calls of `take` with these numbers fail, counted from 1 and over the whole life of
    /// the object, besides those named before. Without memory all stays.
    pub fn fail_take(&mut self, alloc: Global, calls: &[u64]) -> Result<(), Memory>
        ensures ok { OnOk result (self.new ≡ record self.old { plan = with_failing calls.now self.old.plan }) }
        ensures err { OnErr result (self.new ≡ self.old) }
    {
        self.plan.fail(alloc, calls)
    }
}

impl Source for MemSource {
    ghost left = { λ m. Some m.left };

    ghost faults = { λ m. m.plan.faults };

    fn take(&mut self, buf: &mut [u8]) -> Take
        requires { 0 < length buf.old }
        ensures gives { TakeGives (Some self.old.left) (Some self.new.left) buf.new result }
        ensures later { self.old.plan.faults ≤ self.new.plan.faults }
        ensures failed { TakeFaults self.old.plan.faults self.new.plan.faults result }
        ensures answer { result ≡ next_take self.old (length buf.old) }
        ensures after { self.new ≡ after_take self.old result }
    {
        let fails = self.plan.next_fails();
        self.plan.count_call(fails);
        if fails {
            return Take::Failed;
        }
        let count = copy_front(rest(&self.bytes, self.given), buf);
        if count == 0 {
            return Take::End;
        }
        self.given += count;
        Take::Bytes(count)
    }

    fn faults(&self) -> u64 {
        self.plan.faults()
    }
}
