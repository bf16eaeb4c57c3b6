ghost use Rattle.std.specs.Prelude.{◌≡◌, ◌≤◌, ◌++◌, OnOk, OnErr};
ghost use Rattle.rx_ports.specs.Faults.{no_faults, next_fails, with_failing, after_call};

use rx_value::Memory;
use std::alloc::Global;
use std::marker::Model;

/// The calls by which an object in memory is made to fail, with the counts of calls and of faults.
#[derive(Debug, Drop)]
pub(crate) struct FaultPlan {
    failing: Option<Vec<u64>>,
    calls: u64,
    faults: u64,
}

impl Model for FaultPlan {
    ghost use Rattle.std.specs.Prelude.{[]};
    ghost use Rattle.std.specs.Option.{option_map_or};
    ghost use Rattle.rx_ports.specs.Faults.{Plan};

    ghost Value = { Plan };

    ghost view = { λ p. record {
      failing = option_map_or (λ numbers. numbers.items) p.failing [];
      calls = p.calls;
      faults = p.faults;
    } };
}

impl FaultPlan {
    pub(crate) fn new() -> FaultPlan
        ensures { result ≡ no_faults }
    {
        FaultPlan {
            failing: None,
            calls: 0,
            faults: 0,
        }
    }

    /// Makes more calls fail. Without memory the plan stays.
    pub(crate) fn fail(&mut self, alloc: Global, calls: &[u64]) -> Result<(), Memory>
        ensures ok { OnOk result (self.new ≡ with_failing calls.now self.old) }
        ensures err { OnErr result (self.new ≡ self.old) }
    {
        let mut failing = match &self.failing {
            Some(numbers) => Vec::from_slice(alloc, numbers.as_slice())?,
            None => Vec::new(alloc),
        };
        failing.extend_from_slice(calls)?;
        self.failing = Some(failing);
        Ok(())
    }

    /// Whether the next call is to fail.
    pub(crate) fn next_fails(&self) -> bool
        ensures { result ≡ next_fails self.now }
    {
        let number = self.calls.saturating_add(1);
        match &self.failing {
            Some(numbers) => numbers.contains(&number),
            None => false,
        }
    }

    /// Counts a call, and a fault where it failed.
    pub(crate) fn count_call(&mut self, failed: bool)
        ensures after { self.new ≡ after_call self.old failed }
        ensures later { self.old.faults ≤ self.new.faults }
    {
        self.calls = self.calls.saturating_add(1);
        if failed {
            self.faults = self.faults.saturating_add(1);
        }
    }

    pub(crate) fn faults(&self) -> u64
        ensures { result ≡ self.now.faults }
    {
        self.faults
    }
}
