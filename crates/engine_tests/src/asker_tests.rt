ghost use Rattle.std.specs.Prelude.{◌≡◌, []};

use crate::samples::key_of;
use app_check::load;
use book_asker::BookAsker;
use cache_book::Book;
use rx_value::{Key, Memory};
use std::alloc::Global;
use std::process::Abort;
use std::test::Fail;
use term_eval::{Asked, Asker, NoCache};

/// Claims a key of which nothing is kept, and gives it up.
fn give_up<A: Asker>(rt: &impl Abort, alloc: Global, asker: &mut A, key: &Key) -> Result<(), Memory>
    requires { A.out asker.old ≡ [] }
    ensures { A.out asker.new ≡ [] }
{
    match asker.claim(alloc, key) {
        Asked::Go(leave) => {
            asker.abandon(leave);
            Ok(())
        }
        Asked::Hit(_) => panic!(rt; "an outcome that nobody handed in"),
        Asked::Memory => Err(Memory),
    }
}

/// A key that was given up can be claimed again, and so can another one.
fn give_up_each<A: Asker>(rt: &impl Abort, alloc: Global, asker: &mut A) -> Result<(), Memory>
    requires { A.out asker.old ≡ [] }
    ensures { A.out asker.new ≡ [] }
{
    let one = key_of(alloc, 0, "1")?;
    let text = key_of(alloc, 0, "one")?;
    give_up(rt, alloc, asker, &one)?;
    give_up(rt, alloc, asker, &one)?;
    give_up(rt, alloc, asker, &text)?;
    give_up(rt, alloc, asker, &one)
}

#[test]
fn a_leave_that_was_given_up_is_out_no_more(rt: HostRuntime) -> Result<(), Fail> {
    let alloc = rt.alloc();
    let app = load(
        alloc,
        b"input n = 1; reactive e cache (input$n) { input$n }",
    )?;
    give_up_each(&rt, alloc, &mut NoCache::new(alloc, &app))?;
    let mut book = Book::new(alloc, 10, 1_000)?;
    let mut asker = BookAsker::new(&app, &mut book);
    let given_up = give_up_each(&rt, alloc, &mut asker);
    asker.finish();
    given_up?;
    assert_eq!(rt; book.len(), 0);
    Ok(())
}
