//! What an event sets before its flush: each frozen input thaws, and a client message sets what its names stand for.

ghost use Rattle.std.specs.Prelude.{◌≡◌, ◌<◌, OnOk, Some, length, true};
ghost use Rattle.rx_value.specs.declared.source.SourceValue.TheVariants.{Plain};
ghost use Rattle.app_tree.specs.View.{shape_of};
ghost use Rattle.app_tree.specs.Numbering.{readers, starting_values};
ghost use Rattle.session_model.specs.Change.{change, thawed_value, thaw};
ghost use Rattle.session_model.specs.Apply.{is_shown_by, with_shown, apply_to, apply_pair, apply_pairs};
ghost use Rattle.flush_cycle.specs.inner.Targets.{target_is};
ghost use Rattle.pending_set.specs.Waiting.{with_waiting};
ghost use Rattle.flush_cycle.specs.Waits.{waits_in};
ghost use Rattle.flush_cycle.specs.inner.Applying.{IsTargetOf, thawed_at, kept_shown};
ghost use Rattle.flush_cycle.specs.Working.{IsReady};
ghost use Rattle.flush_cycle.specs.inner.Acting.{Moved};

use crate::targets::{Target, target_of};
use crate::work::Work;
use rx_value::{Memory, SourceValue, Value};
use shiny_json::Pair;
use std::alloc::Global;

/// An output is shown where the client says FALSE of its hiding, and hidden at any other value.
fn is_shown_by(value: &Value) -> bool
    ensures { result ≡ is_shown_by value.now }
{
    match value {
        Value::Bool(hidden) => !*hidden,
        _ => false,
    }
}

impl Work {
    /// Lets a source thaw, where it is a frozen input.
    fn thaw_at(&mut self, alloc: Global, source: u32) -> Result<(), Memory>
        requires known { source < length (starting_values (shape_of self.old.app).items) }
        requires ready { IsReady self.old }
        ensures app { self.new.app ≡ self.old.app }
        ensures moved { OnOk result (Moved (thawed_at source) self.old self.new) }
    {
        let SourceValue::Frozen(value) = self.session.source(source) else {
            return Ok(());
        };
        let value = value.copy(alloc)?;
        self.write(source, SourceValue::Plain(value));
        Ok(())
    }

    /// Lets each frozen input thaw.
    pub fn thaw(&mut self, alloc: Global) -> Result<(), Memory>
        requires { IsReady self.old }
        ensures app { self.new.app ≡ self.old.app }
        ensures moved { OnOk result (Moved thaw self.old self.new) }
    {
        for source in 0..self.app.sources() {
            self.thaw_at(alloc, source)?;
        }
        Ok(())
    }

    /// Shows an output or hides it, and nothing else.
    fn show(&mut self, n: u32, shown: bool)
        requires { n < length (readers (shape_of self.old.app)) }
        ensures { self.new ≡ record self.old { kept = kept_shown n shown self.old.kept } }
    {
        self.outputs[n as usize].shown = shown;
    }

    /// Whether a flush would run this reader.
    fn waits(&self, n: u32) -> bool
        requires { n < length (readers (shape_of self.now.app)) }
        ensures { result ≡ waits_in (shape_of self.now.app) self.now.kept n }
    {
        self.outputs[n as usize].is_wanted() && !self.session.alive(n)
    }

    fn set_waiting(&mut self, n: u32, waits: bool)
        requires { n < length (readers (shape_of self.old.app)) }
        ensures { self.new ≡ record self.old { pending = with_waiting waits n self.old.pending } }
    {
        if waits {
            self.pending.add(n);
        } else {
            self.pending.drop_node(n);
        }
    }

    /// Shows an output or hides it. It waits from now on where a flush would run it, and else no longer.
    fn set_shown(&mut self, n: u32, shown: bool)
        requires known { n < length (readers (shape_of self.old.app)) }
        requires ready { IsReady self.old }
        ensures { Moved (with_shown n shown) self.old self.new }
    {
        // How many readers there are to wait is a part of what holds of the work.
        let _pending = &self.pending;
        self.show(n, shown);
        let waits = self.waits(n);
        self.set_waiting(n, waits);
    }

    fn set_source(&mut self, alloc: Global, source: u32, value: &Value) -> Result<(), Memory>
        requires known { source < length (starting_values (shape_of self.old.app).items) }
        requires ready { IsReady self.old }
        ensures app { self.new.app ≡ self.old.app }
        ensures moved { OnOk result (Moved (change source (Plain value.now)) self.old self.new) }
    {
        let value = value.copy(alloc)?;
        self.write(source, SourceValue::Plain(value));
        Ok(())
    }

    fn apply_to(&mut self, alloc: Global, target: Target, value: &Value) -> Result<(), Memory>
        requires target { IsTargetOf (shape_of self.old.app) (target_is target) }
        requires ready { IsReady self.old }
        ensures app { self.new.app ≡ self.old.app }
        ensures moved { OnOk result (Moved (apply_to (shape_of self.old.app) (Some (target_is target)) value.now) self.old self.new) }
    {
        match target {
            Target::Input(source) => self.set_source(alloc, source, value),
            Target::Width(n) => {
                let source = self.numbers.width(n);
                self.set_source(alloc, source, value)
            }
            Target::Height(n) => {
                let source = self.numbers.height(n);
                self.set_source(alloc, source, value)
            }
            Target::Hidden(n) => {
                self.set_shown(n, is_shown_by(value));
                Ok(())
            }
        }
    }

    fn apply_pair(&mut self, alloc: Global, pair: &Pair) -> Result<(), Memory>
        requires ready { IsReady self.old }
        ensures app { self.new.app ≡ self.old.app }
        ensures moved { OnOk result (Moved (apply_pair (shape_of self.old.app) pair.now) self.old self.new) }
    {
        match target_of(&self.app, pair.name.as_str()) {
            Some(target) => self.apply_to(alloc, target, &pair.value),
            None => Ok(()),
        }
    }

    /// Sets what a client message says, in the order of its pairs.
    pub fn apply_pairs(&mut self, alloc: Global, pairs: &[Pair]) -> Result<(), Memory>
        requires { IsReady self.old }
        ensures app { self.new.app ≡ self.old.app }
        ensures moved { OnOk result (Moved (apply_pairs (shape_of self.old.app) pairs.now) self.old self.new) }
    {
        for pair in pairs {
            self.apply_pair(alloc, pair)?;
        }
        Ok(())
    }
}
