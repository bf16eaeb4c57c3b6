ghost use Rattle.std.specs.Prelude.{◌≡◌, ◌<◌, length};

use crate::samples::one_value;
use rx_value::{Memory, Value};
use std::alloc::Global;
use std::test::Fail;
use task_board::{Board, Ended, Invoked, Job};

/// The task, the number and the one argument.
fn parts(job: &Job) -> Option<(u32, u64, i64)> {
    match job.args.as_slice() {
        [Value::Int(number)] => Some((job.task, job.number, *number)),
        _ => None,
    }
}

fn invoke(alloc: Global, board: &mut Board, task: u32, number: i64) -> Result<Invoked, Memory>
    requires { task < length board.old }
    ensures { length board.new ≡ length board.old }
{
    board.invoke(alloc, task, one_value(alloc, Value::Int(number))?)
}

fn end(alloc: Global, board: &mut Board, task: u32, number: u64) -> Result<Ended, Memory>
    requires { task < length board.old }
    ensures { length board.new ≡ length board.old }
{
    board.end(alloc, task, number)
}

fn started(answer: Invoked) -> Option<(u32, u64, i64)> {
    match answer {
        Invoked::Started(job) => parts(&job),
        _ => None,
    }
}

fn next(answer: Ended) -> Option<(u32, u64, i64)> {
    match answer {
        Ended::Next(job) => parts(&job),
        _ => None,
    }
}

#[test]
fn runs_one_after_another(rt: HostRuntime) -> Result<(), Fail> {
    let alloc = rt.alloc();
    let mut board = Board::new(alloc, 2)?;
    assert_eq!(rt;
        started(invoke(alloc, &mut board, 1, 10)?),
        Some((1, 1, 10))
    );
    assert!(rt; matches!(invoke(alloc, &mut board, 1, 20)?, Invoked::Queued));
    assert_eq!(rt; next(board.end(alloc, 1, 1)?), Some((1, 2, 20)));
    assert_eq!(rt; board.running(1), Some(2));
    assert!(rt; matches!(board.end(alloc, 1, 1)?, Ended::Stale { running: Some(2) }));
    assert!(rt; matches!(board.end(alloc, 1, 2)?, Ended::Quiet));
    assert_eq!(rt; board.running(1), None);
    Ok(())
}

#[test]
fn refuses_the_1001st_that_waits(rt: HostRuntime) -> Result<(), Fail> {
    let alloc = rt.alloc();
    let mut board = Board::new(alloc, 1)?;
    assert_eq!(rt; started(invoke(alloc, &mut board, 0, 0)?), Some((0, 1, 0)));
    for number in 1..1_001 {
        assert!(rt; matches!(invoke(alloc, &mut board, 0, number)?, Invoked::Queued));
    }
    assert!(rt; matches!(invoke(alloc, &mut board, 0, 1_001)?, Invoked::QueueFull));
    assert_eq!(rt; board.running(0), Some(1));
    for waited in 1u32..1_001 {
        let ended = end(alloc, &mut board, 0, u64::from(waited))?;
        let want = Some((0, u64::from(waited) + 1, i64::from(waited)));
        assert_eq!(rt; next(ended), want);
    }
    assert!(rt; matches!(end(alloc, &mut board, 0, 1_001)?, Ended::Quiet));
    assert_eq!(rt;
        started(invoke(alloc, &mut board, 0, 9)?),
        Some((0, 1_002, 9))
    );
    Ok(())
}

#[test]
fn a_stale_end_changes_nothing(rt: HostRuntime) -> Result<(), Fail> {
    let alloc = rt.alloc();
    let mut board = Board::new(alloc, 2)?;
    assert!(rt;
        matches!(
            end(alloc, &mut board, 0, 1)?,
            Ended::Stale { running: None }
        )
    );
    assert_eq!(rt;
        started(invoke(alloc, &mut board, 0, 10)?),
        Some((0, 1, 10))
    );
    assert!(rt; matches!(invoke(alloc, &mut board, 0, 20)?, Invoked::Queued));
    for number in [0, 2, 18446744073709551615] {
        assert!(rt;
            matches!(
                end(alloc, &mut board, 0, number)?,
                Ended::Stale { running: Some(1) }
            )
        );
    }
    assert_eq!(rt; next(end(alloc, &mut board, 0, 1)?), Some((0, 2, 20)));
    assert!(rt; matches!(end(alloc, &mut board, 0, 2)?, Ended::Quiet));
    assert!(rt;
        matches!(
            end(alloc, &mut board, 0, 2)?,
            Ended::Stale { running: None }
        )
    );
    assert!(rt;
        matches!(
            end(alloc, &mut board, 1, 1)?,
            Ended::Stale { running: None }
        )
    );
    assert_eq!(rt;
        started(invoke(alloc, &mut board, 1, 30)?),
        Some((1, 1, 30))
    );
    assert_eq!(rt;
        started(invoke(alloc, &mut board, 0, 40)?),
        Some((0, 3, 40))
    );
    Ok(())
}
