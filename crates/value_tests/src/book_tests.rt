use crate::samples::{key_of, text_of};
use cache_book::{Book, BookClaim, Filled};
use rx_value::{Key, Memory, Outcome, RxText, Value, Values};
use std::alloc::Global;
use std::marker::Send;
use std::process::Abort;
use std::test::Fail;

/// A call for the key of this number, by this owner.
#[derive(Clone, Copy)]
enum Call {
    Claim(i64, u64),
    /// The outcome is this number.
    Fill(i64, u64, i64),
    /// The outcome is a text of so many bytes.
    FillText(i64, u64, usize),
    Abandon(i64, u64),
}

#[derive(Clone, Copy, Debug, PartialEq, Eq)]
enum Told {
    Hit(i64),
    OtherHit,
    Busy(u64),
    Mine,
    NoMemory,
    Filled(Filled),
    Abandoned,
    NotHeld,
}

/// The key by this number.
fn key_by(alloc: Global, number: i64) -> Result<Key, Memory> {
    key_of(alloc, 0, Value::Int(number))
}

fn told_of(claim: &BookClaim) -> Told {
    match claim {
        BookClaim::Hit(Outcome::Val(Value::Int(number))) => Told::Hit(*number),
        BookClaim::Hit(_) => Told::OtherHit,
        BookClaim::Busy(owner) => Told::Busy(*owner),
        BookClaim::Mine => Told::Mine,
        BookClaim::Memory => Told::NoMemory,
    }
}

fn fill(alloc: Global, book: &mut Book, key: &Key, owner: u64, got: &Outcome) -> Told {
    if book.holds(key, owner) {
        Told::Filled(book.fill(alloc, key, owner, got))
    } else {
        Told::NotHeld
    }
}

fn abandon(book: &mut Book, key: &Key, owner: u64) -> Told {
    if book.holds(key, owner) {
        book.abandon(key, owner);
        Told::Abandoned
    } else {
        Told::NotHeld
    }
}

fn tell(alloc: Global, book: &mut Book, call: Call) -> Result<Told, Memory> {
    match call {
        Call::Claim(number, owner) => {
            let key = key_by(alloc, number)?;
            Ok(told_of(&book.claim(alloc, &key, owner)))
        }
        Call::Fill(number, owner, got) => {
            let key = key_by(alloc, number)?;
            Ok(fill(alloc, book, &key, owner, &Outcome::Val(Value::Int(got))))
        }
        Call::FillText(number, owner, bytes) => {
            let key = key_by(alloc, number)?;
            let text = "x".repeat(alloc, bytes)?;
            let got = Outcome::Val(text_of(alloc, text.as_str())?);
            Ok(fill(alloc, book, &key, owner, &got))
        }
        Call::Abandon(number, owner) => {
            let key = key_by(alloc, number)?;
            Ok(abandon(book, &key, owner))
        }
    }
}

/// Makes the calls in their order and compares what each is answered.
fn follow(
    rt: &impl Abort,
    alloc: Global,
    book: &mut Book,
    calls: &[(Call, Told)],
) -> Result<(), Memory> {
    for (call, want) in calls {
        assert_eq!(rt; tell(alloc, book, *call)?, *want);
    }
    Ok(())
}

/// A cache of one entry.
const SHARED: [(Call, Told); 9] = [
    (Call::Claim(1, 0), Told::Mine),
    (Call::Claim(1, 1), Told::Busy(0)),
    (Call::Fill(1, 0, 5), Told::Filled(Filled::Stored(0))),
    (Call::Claim(1, 1), Told::Hit(5)),
    (Call::Claim(2, 1), Told::Mine),
    (Call::Abandon(2, 1), Told::Abandoned),
    (Call::Claim(2, 0), Told::Mine),
    (Call::Fill(2, 0, 6), Told::Filled(Filled::Stored(1))),
    (Call::Claim(1, 0), Told::Mine),
];

#[test]
fn one_entry_is_shared_by_two_seats(rt: HostRuntime) -> Result<(), Fail> {
    let mut book = Book::new(rt.alloc(), 1, 200_000_000)?;
    assert_eq!(rt; book.len(), 0);
    follow(&rt, rt.alloc(), &mut book, &SHARED)?;
    assert_eq!(rt; book.len(), 1);
    Ok(())
}

/// A cache of weight 40.
const HEAVY: [(Call, Told); 8] = [
    (Call::Claim(1, 7), Told::Mine),
    (Call::Fill(1, 7, 5), Told::Filled(Filled::Stored(0))),
    (Call::Claim(2, 8), Told::Mine),
    (Call::Fill(2, 8, 5), Told::Filled(Filled::Stored(1))),
    (Call::Claim(3, 9), Told::Mine),
    (Call::FillText(3, 9, 30), Told::Filled(Filled::TooHeavy)),
    (Call::Claim(2, 9), Told::Hit(5)),
    (Call::Claim(3, 9), Told::Mine),
];

#[test]
fn weight_bounds_the_entries(rt: HostRuntime) -> Result<(), Fail> {
    let mut book = Book::new(rt.alloc(), 10, 40)?;
    follow(&rt, rt.alloc(), &mut book, &HEAVY)?;
    Ok(())
}

/// A cache of weight 100.
const SPARED: [(Call, Told); 12] = [
    (Call::Claim(1, 0), Told::Mine),
    (Call::Fill(1, 0, 1), Told::Filled(Filled::Stored(0))),
    (Call::Claim(2, 0), Told::Mine),
    (Call::Fill(2, 0, 2), Told::Filled(Filled::Stored(0))),
    (Call::Claim(3, 0), Told::Mine),
    (Call::Fill(3, 0, 3), Told::Filled(Filled::Stored(0))),
    (Call::Claim(1, 0), Told::Hit(1)),
    (Call::Claim(4, 0), Told::Mine),
    (Call::FillText(4, 0, 60), Told::Filled(Filled::Stored(2))),
    (Call::Claim(1, 0), Told::Hit(1)),
    (Call::Claim(4, 0), Told::OtherHit),
    (Call::Claim(2, 0), Told::Mine),
];

#[test]
fn a_heavy_entry_drops_several_and_a_hit_is_spared(rt: HostRuntime) -> Result<(), Fail> {
    let mut book = Book::new(rt.alloc(), 10, 100)?;
    follow(&rt, rt.alloc(), &mut book, &SPARED)?;
    Ok(())
}

/// A cache of weight 40.
const AT_THE_LIMIT: [(Call, Told); 9] = [
    (Call::Claim(1, 0), Told::Mine),
    (Call::FillText(1, 0, 22), Told::Filled(Filled::Stored(0))),
    (Call::Claim(2, 0), Told::Mine),
    (Call::FillText(2, 0, 23), Told::Filled(Filled::TooHeavy)),
    (Call::Claim(1, 0), Told::OtherHit),
    (Call::Claim(2, 5), Told::Mine),
    (Call::FillText(2, 5, 22), Told::Filled(Filled::Stored(1))),
    (Call::Claim(1, 0), Told::Mine),
    (Call::Claim(2, 0), Told::OtherHit),
];

#[test]
fn an_entry_may_weigh_as_much_as_the_limit(rt: HostRuntime) -> Result<(), Fail> {
    let mut book = Book::new(rt.alloc(), 10, 40)?;
    follow(&rt, rt.alloc(), &mut book, &AT_THE_LIMIT)?;
    assert_eq!(rt; book.len(), 1);
    Ok(())
}

/// A cache that drops nothing.
const IN_FLIGHT: [(Call, Told); 14] = [
    (Call::Claim(1, 0), Told::Mine),
    (Call::Claim(2, 1), Told::Mine),
    (Call::Claim(3, 0), Told::Mine),
    (Call::Abandon(1, 1), Told::NotHeld),
    (Call::Fill(1, 1, 9), Told::NotHeld),
    (Call::Abandon(1, 0), Told::Abandoned),
    (Call::Abandon(1, 0), Told::NotHeld),
    (Call::Claim(2, 0), Told::Busy(1)),
    (Call::Claim(3, 1), Told::Busy(0)),
    (Call::Claim(1, 1), Told::Mine),
    (Call::Fill(2, 1, 7), Told::Filled(Filled::Stored(0))),
    (Call::Claim(1, 2), Told::Busy(1)),
    (Call::Claim(2, 2), Told::Hit(7)),
    (Call::Fill(2, 1, 8), Told::NotHeld),
];

#[test]
fn each_key_in_flight_has_its_own_owner(rt: HostRuntime) -> Result<(), Fail> {
    let mut book = Book::new(rt.alloc(), 10, 200_000_000)?;
    follow(&rt, rt.alloc(), &mut book, &IN_FLIGHT)?;
    Ok(())
}

fn keys_of_each_kind(alloc: Global) -> Result<[Key; 6], Memory> {
    let mut two_parts = key_by(alloc, 1)?;
    two_parts.parts.push(Value::Null)?;
    Ok([
        key_by(alloc, 1)?,
        key_of(alloc, 1, Value::Int(1))?,
        Key {
            node: 0,
            parts: Values::new(alloc),
        },
        two_parts,
        key_of(alloc, 0, text_of(alloc, "1")?)?,
        key_of(alloc, 0, Value::Bool(true))?,
    ])
}

#[test]
fn a_hit_is_for_an_equal_key_alone(rt: HostRuntime) -> Result<(), Fail> {
    let alloc = rt.alloc();
    let keys = keys_of_each_kind(alloc)?;
    for (place, kept) in keys.iter().enumerate() {
        let mut book = Book::new(alloc, 10, 1_000)?;
        assert_eq!(rt; told_of(&book.claim(alloc, kept, 0)), Told::Mine);
        let filled = fill(alloc, &mut book, kept, 0, &Outcome::Val(Value::Int(5)));
        assert_eq!(rt; filled, Told::Filled(Filled::Stored(0)));
        for (other_place, other) in keys.iter().enumerate() {
            let want = if place == other_place {
                Told::Hit(5)
            } else {
                Told::Mine
            };
            assert_eq!(rt; told_of(&book.claim(alloc, other, 1)), want);
        }
    }
    Ok(())
}

#[test]
fn failures_are_kept_like_values(rt: HostRuntime) -> Result<(), Fail> {
    let alloc = rt.alloc();
    let outcomes = [
        Outcome::Fail(RxText::from_str(alloc, "bad")?),
        Outcome::Stop,
        Outcome::Cancel,
        Outcome::Running,
        Outcome::Val(Value::Null),
    ];
    for outcome in &outcomes {
        let mut book = Book::new(alloc, 1, 100)?;
        let key = key_by(alloc, 1)?;
        assert_eq!(rt; told_of(&book.claim(alloc, &key, 0)), Told::Mine);
        let filled = fill(alloc, &mut book, &key, 0, outcome);
        assert_eq!(rt; filled, Told::Filled(Filled::Stored(0)));
        let BookClaim::Hit(kept) = book.claim(alloc, &key, 1) else {
            return Err(Fail::from(Memory));
        };
        assert!(rt; kept.same(outcome));
    }
    Ok(())
}

/// As [`tell`], tried again where there was no memory for the key or the outcome of the call.
fn tell_again(alloc: Global, book: &mut Book, call: Call) -> Result<Told, Memory> {
    match tell(alloc, book, call) {
        Ok(told) => Ok(told),
        Err(Memory) => tell(alloc, book, call),
    }
}

/// Whether a call is answered so. Without memory a claim changes nothing, and a fill only takes its
/// key out of flight: so the call is made again, which has to be answered so.
fn answers(alloc: Global, book: &mut Book, call: Call, want: Told) -> Result<bool, Memory> {
    let count = book.len();
    let told = tell_again(alloc, book, call)?;
    if told == want {
        return Ok(true);
    }
    let is_open = match (told, call) {
        (Told::NoMemory, Call::Claim(..)) => true,
        (
            Told::Filled(Filled::Dropped),
            Call::Fill(number, owner, _) | Call::FillText(number, owner, _),
        ) => tell_again(alloc, book, Call::Claim(number, owner))? == Told::Mine,
        _ => false,
    };
    Ok(is_open && book.len() == count && tell_again(alloc, book, call)? == want)
}

#[test]
fn a_call_without_memory_leaves_the_entries(rt: HostRuntime) -> Result<(), Fail> {
    let alloc = rt.alloc();
    let calls = [
        (Call::Claim(1, 0), Told::Mine),
        (Call::Claim(2, 1), Told::Mine),
        (Call::Claim(1, 2), Told::Busy(0)),
        (Call::FillText(1, 0, 8), Told::Filled(Filled::Stored(0))),
        (Call::Abandon(2, 1), Told::Abandoned),
        (Call::Claim(2, 3), Told::Mine),
        (Call::Fill(2, 3, 7), Told::Filled(Filled::Stored(0))),
        (Call::Claim(1, 4), Told::OtherHit),
        (Call::Claim(3, 5), Told::Mine),
        (Call::Claim(2, 6), Told::Hit(7)),
        (Call::Fill(3, 5, 8), Told::Filled(Filled::Stored(1))),
        (Call::Claim(2, 7), Told::Hit(7)),
        (Call::Claim(1, 8), Told::Mine),
        (Call::Claim(3, 9), Told::Hit(8)),
    ];
    let mut book = match Book::new(alloc, 2, 100) {
        Ok(book) => book,
        Err(Memory) => Book::new(alloc, 2, 100)?,
    };
    for (call, want) in calls {
        assert!(rt; answers(alloc, &mut book, call, want)?);
    }
    assert_eq!(rt; book.len(), 2);
    Ok(())
}

fn can_be_sent<T: Send>(_value: &T) -> bool {
    true
}

#[test]
fn a_cache_can_go_to_another_thread(rt: HostRuntime) -> Result<(), Fail> {
    let book = Book::new(rt.alloc(), 20_000, 1_000_000_000)?;
    assert!(rt; can_be_sent(&book));
    Ok(())
}
