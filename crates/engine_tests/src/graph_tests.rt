ghost use Rattle.std.specs.Prelude.{◌≡◌, ◌≤◌, length};

use dep_graph::{Graph, Marked, On};
use rx_value::Memory;
use std::alloc::Global;
use std::process::Abort;
use std::test::Fail;

/// A call for a graph of four readers over three sources.
#[derive(Clone, Copy, Debug)]
enum Call {
    Open(u32),
    Read(u32, u32),
    /// The reader reads another one, which is alive.
    Use(u32, u32),
    /// Whether the reader is alive then.
    Close(u32, bool),
    /// These are marked.
    Change(u32, &'static [u32]),
}

/// Makes a call, which is to be one that may be made.
fn make_call(
    rt: &impl Abort,
    alloc: Global,
    graph: &mut Graph,
    marked: &mut Marked,
    call: Call,
) -> Result<(), Memory>
    requires readers { length graph.old.readers ≡ 4 }
    requires sources { graph.old.sources ≡ 3 }
    requires room { 4 ≤ marked.old.room }
    ensures readers { length graph.new.readers ≡ 4 }
    ensures sources { graph.new.sources ≡ 3 }
    ensures room { 4 ≤ marked.new.room }
{
    match call {
        Call::Open(r) => {
            assert!(rt;
                r < 4 && !graph.alive(r) && !graph.is_running(r),
                "{call:?}"
            );
            graph.open(r);
        }
        Call::Read(r, source) => {
            assert!(rt; r < 4 && source < 3 && graph.is_running(r), "{call:?}");
            graph.depend(alloc, r, On::Source(source))?;
        }
        Call::Use(r, e) => {
            assert!(rt;
                r < 4 && e < 4 && e != r && graph.is_running(r) && graph.alive(e),
                "{call:?}"
            );
            graph.depend(alloc, r, On::Expr(e))?;
        }
        Call::Close(r, alive) => {
            assert!(rt; r < 4 && graph.is_running(r), "{call:?}");
            assert_eq!(rt; graph.close(r), alive, "{call:?}");
        }
        Call::Change(source, readers) => {
            assert!(rt; source < 3, "{call:?}");
            graph.invalidate(source, marked);
            assert_eq!(rt; marked.as_slice(), readers, "{call:?}");
        }
    }
    Ok(())
}

const DIAMOND: [Call; 21] = [
    Call::Open(0),
    Call::Read(0, 1),
    Call::Close(0, true),
    Call::Open(1),
    Call::Use(1, 0),
    Call::Read(1, 2),
    Call::Close(1, true),
    Call::Open(3),
    Call::Use(3, 1),
    Call::Use(3, 0),
    Call::Read(3, 0),
    Call::Close(3, true),
    Call::Change(2, &[1, 3]),
    Call::Change(2, &[]),
    Call::Open(3),
    Call::Use(3, 0),
    Call::Change(1, &[0, 3]),
    Call::Read(3, 0),
    Call::Change(0, &[]),
    Call::Close(3, false),
    Call::Change(0, &[]),
];

#[test]
fn a_change_marks_what_had_reached_the_source(rt: HostRuntime) -> Result<(), Fail> {
    let alloc = rt.alloc();
    let mut graph = Graph::new(alloc, 4, 3)?;
    let mut marked = Marked::new(alloc, 4)?;
    for next in DIAMOND {
        make_call(&rt, alloc, &mut graph, &mut marked, next)?;
    }
    for (r, alive) in [(0, false), (1, false), (2, false), (3, false)] {
        assert!(rt;
            graph.alive(r) == alive && graph.is_current(r) == alive,
            "{r}"
        );
    }
    Ok(())
}
