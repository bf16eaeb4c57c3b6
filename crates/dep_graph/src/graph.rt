ghost use Rattle.std.specs.Prelude.{◌≡◌, ◌≢◌, ◌<◌, ◌≤◌, true, false, length, IfOk, OnOk, OnErr, IsTrue};
ghost use Rattle.dep_graph.specs.Contexts.{Contexts, idle_contexts, is_alive, is_current, is_running, after_open, after_depend, after_close, after_change, marked_readers};
ghost use Rattle.dep_graph.specs.Conditions.{MayOpen, MayDepend};
ghost use Rattle.dep_graph.specs.declared.on.On.TheVariants.{Expr};
ghost use Rattle.dep_graph.specs.SameGraph.{IsSameGraph};

use crate::context::Context;
use crate::marked::Marked;
use crate::on::On;
use rx_value::Memory;
use std::alloc::Global;
use std::marker::Model;

/// The reactive contexts of a session's readers. Contracts see where each reader stands and which
/// sources it has reached, in an order that is not promised.
#[derive(Debug, Drop)]
pub struct Graph {
    contexts: Vec<Context>,
    /// How many sources there are. Only contracts read it.
    sources: u32,
}

impl Model for Graph {
    ghost use Rattle.std.specs.Prelude.{length, ◌^◌, ◌<◌};
    ghost use Rattle.dep_graph.specs.Contexts.{Contexts};

    ghost Value = { Contexts };

    ghost view = { λ g. record { readers = g.contexts.items; sources = g.sources } };

    ghost invariant = { λ g. length g.contexts.items < 2 ^ 32 };
}

impl Graph {
    /// The contexts of this many readers, all idle, over this many sources.
    pub fn new(alloc: Global, readers: u32, sources: u32) -> Result<Graph, Memory>
        ensures { IfOk result (λ g. g ≡ idle_contexts readers sources) }
    {
        let mut contexts = Vec::new(alloc);
        for _reader in 0..readers {
            match contexts.push(Context::new(alloc)) {
                Ok(()) => {}
                Err(_) => return Err(Memory),
            }
        }
        Ok(Graph { contexts, sources })
    }

    /// Whether the reader ran, and no source that its last run reached was changed after that.
    pub fn alive(&self, r: u32) -> bool
        requires { r < length self.now.readers }
        ensures { result ≡ is_alive self.now r }
    {
        self.contexts[r as usize].is_alive()
    }

    /// Whether a run of the reader was begun and not ended.
    pub fn is_running(&self, r: u32) -> bool
        requires { r < length self.now.readers }
        ensures { result ≡ is_running self.now r }
    {
        self.contexts[r as usize].is_running()
    }

    /// Whether no source that the reader has reached was changed after that, in its last run or in the one that is under
    /// way.
    pub fn is_current(&self, r: u32) -> bool
        requires { r < length self.now.readers }
        ensures { result ≡ is_current self.now r }
    {
        self.contexts[r as usize].is_current()
    }

    /// Begins a run of the reader: it has reached nothing. A reader that is alive may have been read by
    /// no other one since it was closed.
    pub fn open(&mut self, r: u32)
        requires { MayOpen self.old r }
        ensures { IsSameGraph self.new (after_open r self.old) }
    {
        self.contexts[r as usize].open();
    }

    /// The running reader has read a source, or an expression that is alive.
    pub fn depend(&mut self, alloc: Global, r: u32, on: On) -> Result<(), Memory>
        requires { MayDepend self.old r on }
        ensures ok { OnOk result (IsSameGraph self.new (after_depend r on self.old)) }
        ensures err { OnErr result (self.new ≡ self.old) }
    {
        match on {
            On::Source(source) => self.contexts[r as usize].reach(source),
            On::Expr(expression) => self.depend_on_expression(alloc, r, expression),
        }
    }

    fn depend_on_expression(&mut self, alloc: Global, r: u32, expression: u32) -> Result<(), Memory>
        requires within { r < length self.old.readers }
        requires expression_within { expression < length self.old.readers }
        requires apart { expression ≢ r }
        requires running { is_running self.old r ≡ true }
        requires alive { is_alive self.old expression ≡ true }
        ensures ok { OnOk result (self.new ≡ after_depend r (Expr expression) self.old) }
        ensures err { OnErr result (self.new ≡ self.old) }
    {
        let reader = &self.contexts[r as usize];
        let reaching = reader.reaching(alloc, &self.contexts[expression as usize])?;
        self.contexts[expression as usize].mark_used();
        self.contexts[r as usize] = reaching;
        Ok(())
    }

    /// Ends the run of the reader, and tells whether it is alive now: no source that it has reached in
    /// this run was changed after it had reached it.
    pub fn close(&mut self, r: u32) -> bool
        requires within { r < length self.old.readers }
        requires running { is_running self.old r ≡ true }
        ensures alive { result ≡ is_alive (after_close r self.old) r }
        ensures after { IsSameGraph self.new (after_close r self.old) }
    {
        self.contexts[r as usize].close()
    }

    /// A source was changed. The readers that it marks are those that had reached it and are alive, or
    /// run and were not marked in this run; they are listed in rising order.
    pub fn invalidate(&mut self, s: u32, out: &mut Marked)
        requires within { s < self.old.sources }
        requires room { length self.old.readers ≤ out.old.room }
        ensures marked { out.new.list ≡ marked_readers s self.old }
        ensures after { IsSameGraph self.new (after_change s self.old) }
        ensures room { out.old.room ≤ out.new.room }
    {
        out.clear();
        for r in 0..self.contexts.len() {
            let context = &mut self.contexts[r];
            if context.change(s) {
                match out.push(r as u32) {
                    Ok(()) => {}
                    Err(Memory) => unreachable!(),
                }
            }
        }
    }
}
