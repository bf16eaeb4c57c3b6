ghost use Rattle.std.specs.Prelude.{◌≡◌, [], ◌∷◌, true, false, IfOk, OnOk, OnErr};
ghost use Rattle.app_tree.specs.Fresh.{union};
ghost use Rattle.dep_graph.specs.Contexts.{idle_context, running, is_alive_stage, is_current_stage, is_running_stage, closed_stage, stage_reaching, is_marked, changed_context, sources_reached};

use crate::phase::Phase;
use rx_value::Memory;
use std::alloc::Global;
use std::marker::Model;

/// The reactive context of one reader.
#[derive(Debug, Drop)]
pub struct Context {
    phase: Phase,
    /// The sources that the reader has reached in its last run, each once, where it is alive or
    /// running.
    sources: Vec<u32>,
    used: bool,
}

impl Model for Context {
    ghost use Rattle.dep_graph.specs.Contexts.{ReaderContext};

    ghost Value = { ReaderContext };

    ghost use Rattle.dep_graph.specs.inner.Phases.{stage_of};

    ghost view = { λ c. record { stage = stage_of c.phase c.sources.items; used = c.used } };
}

/// Puts a source to those that it is not among.
fn add(sources: &mut Vec<u32>, source: u32) -> Result<(), Memory>
    ensures ok { OnOk result (sources.new.items ≡ union sources.old.items (source ∷ [])) }
    ensures err { OnErr result (sources.new.items ≡ sources.old.items) }
{
    if sources.contains(&source) {
        return Ok(());
    }
    match sources.push(source) {
        Ok(()) => Ok(()),
        Err(_) => Err(Memory),
    }
}

/// The sources and those of `more` that are not among them, each once.
fn joined(alloc: Global, sources: &[u32], more: &[u32]) -> Result<Vec<u32>, Memory>
    ensures { IfOk result (λ all. all.items ≡ union sources.now more.now) }
{
    let mut all = Vec::from_slice(alloc, sources)?;
    for source in more {
        add(&mut all, *source)?;
    }
    Ok(all)
}

impl Context {
    pub fn new(alloc: Global) -> Context
        ensures { result ≡ idle_context }
    {
        Context {
            phase: Phase::Idle,
            sources: Vec::new(alloc),
            used: false,
        }
    }

    pub fn is_alive(&self) -> bool
        ensures { result ≡ is_alive_stage self.now.stage }
    {
        match self.phase {
            Phase::Alive => true,
            Phase::Idle | Phase::Running | Phase::Overtaken => false,
        }
    }

    pub fn is_running(&self) -> bool
        ensures { result ≡ is_running_stage self.now.stage }
    {
        match self.phase {
            Phase::Running | Phase::Overtaken => true,
            Phase::Idle | Phase::Alive => false,
        }
    }

    pub fn is_current(&self) -> bool
        ensures { result ≡ is_current_stage self.now.stage }
    {
        match self.phase {
            Phase::Alive | Phase::Running => true,
            Phase::Idle | Phase::Overtaken => false,
        }
    }

    pub fn open(&mut self)
        ensures { self.new ≡ record self.old { stage = running [] } }
    {
        self.phase = Phase::Running;
        self.sources.clear();
    }

    /// Tells whether the reader is alive now.
    pub fn close(&mut self) -> bool
        requires { is_running_stage self.old.stage ≡ true }
        ensures result { result ≡ is_alive_stage (closed_stage self.old.stage) }
        ensures after { self.new ≡ record { stage = closed_stage self.old.stage; used = false } }
    {
        self.used = false;
        match self.phase {
            Phase::Running => {
                self.phase = Phase::Alive;
                true
            }
            _ => {
                self.phase = Phase::Idle;
                false
            }
        }
    }

    /// Notes that another reader has read this one.
    pub fn mark_used(&mut self)
        ensures { self.new ≡ record self.old { used = true } }
    {
        self.used = true;
    }

    /// The running reader has reached a source.
    pub fn reach(&mut self, source: u32) -> Result<(), Memory>
        requires { is_running_stage self.old.stage ≡ true }
        ensures ok { OnOk result (self.new ≡ record self.old { stage = stage_reaching (source ∷ []) self.old.stage }) }
        ensures err { OnErr result (self.new ≡ self.old) }
    {
        add(&mut self.sources, source)
    }

    /// This running reader as it is once it has reached all that another has reached.
    pub fn reaching(&self, alloc: Global, other: &Context) -> Result<Context, Memory>
        requires running { is_running_stage self.now.stage ≡ true }
        requires alive { is_alive_stage other.now.stage ≡ true }
        ensures { IfOk result (λ c. c ≡ record self.now { stage = stage_reaching (sources_reached other.now.stage) self.now.stage }) }
    {
        Ok(Context {
            phase: self.phase,
            sources: joined(alloc, self.sources.as_slice(), other.sources.as_slice())?,
            used: self.used,
        })
    }

    /// A source was changed. Tells whether this marks the reader.
    pub fn change(&mut self, source: u32) -> bool
        ensures marks { result ≡ is_marked source self.old.stage }
        ensures after { self.new ≡ changed_context source self.old }
    {
        if !self.sources.contains(&source) {
            return false;
        }
        match self.phase {
            Phase::Alive => self.phase = Phase::Idle,
            Phase::Running => self.phase = Phase::Overtaken,
            Phase::Idle | Phase::Overtaken => return false,
        }
        true
    }
}
