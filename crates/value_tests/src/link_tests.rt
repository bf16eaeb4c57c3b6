use rx_ports::{Gate, Kind, Link, NoGate, Recv, Sent, TapeLink};
use rx_value::RxText;
use std::test::Fail;

fn recv_from<L: Link>(rt: &HostRuntime, link: &mut L) -> Recv {
    link.recv(rt.alloc())
}

fn send_over<L: Link>(rt: &HostRuntime, link: &mut L, text: &RxText) -> Sent {
    link.send(rt.alloc(), text)
}

fn pass_through<G: Gate>(gate: &G, kind: Kind) {
    gate.pass(kind, 0);
}

/// What was received, in a word: no text of these tests is such a word.
fn shown(recv: &Recv) -> &str {
    match recv {
        Recv::Text(text) => text.as_str(),
        Recv::Idle => "idle",
        Recv::Other => "other",
        Recv::Ended => "ended",
        Recv::Failed => "failed",
        Recv::Memory => "memory",
    }
}

#[test]
fn a_script_is_received_in_its_order(rt: HostRuntime) -> Result<(), Fail> {
    let mut link = TapeLink::new(rt.alloc(), RxText::from_str(rt.alloc(), "s1")?);
    link.push(RxText::from_str(rt.alloc(), "a")?)?;
    link.push_other()?;
    link.push(RxText::from_str(rt.alloc(), "")?)?;
    link.end();
    link.fail_recv(rt.alloc(), &[2])?;
    link.fail_recv(rt.alloc(), &[5])?;
    for (want, faults) in [
        ("a", 0),
        ("failed", 1),
        ("other", 1),
        ("", 1),
        ("failed", 2),
        ("ended", 2),
        ("ended", 2),
    ] {
        let recv = recv_from(&rt, &mut link);
        assert_eq!(rt; shown(&recv), want);
        assert_eq!(rt; link.faults(), faults, "at {want}");
    }
    assert_eq!(rt; link.label().as_str(), "s1");
    assert_eq!(rt; link.sent_count(), 0);
    Ok(())
}

#[test]
fn a_script_that_has_not_ended_is_idle(rt: HostRuntime) -> Result<(), Fail> {
    let mut link = TapeLink::new(rt.alloc(), RxText::new(rt.alloc()));
    assert_eq!(rt; shown(&link.recv(rt.alloc())), "idle");
    link.push(RxText::from_str(rt.alloc(), "a")?)?;
    assert_eq!(rt; shown(&link.recv(rt.alloc())), "a");
    assert_eq!(rt; shown(&link.recv(rt.alloc())), "idle");
    link.push_other()?;
    link.end();
    assert_eq!(rt; shown(&link.recv(rt.alloc())), "other");
    assert_eq!(rt; shown(&link.recv(rt.alloc())), "ended");
    assert_eq!(rt; link.faults(), 0);
    Ok(())
}

#[test]
fn texts_are_sent_behind_those_before(rt: HostRuntime) -> Result<(), Fail> {
    let mut link = TapeLink::new(rt.alloc(), RxText::from_str(rt.alloc(), "s1")?);
    link.fail_send(rt.alloc(), &[4, 1])?;
    link.fail_recv(rt.alloc(), &[1])?;
    for (text, want, count, faults) in [
        ("p", Sent::Failed, 0, 1),
        ("p", Sent::Ok, 1, 1),
        ("q", Sent::Ok, 2, 1),
        ("r", Sent::Failed, 2, 2),
        ("p", Sent::Ok, 3, 2),
    ] {
        let sent = send_over(&rt, &mut link, &RxText::from_str(rt.alloc(), text)?);
        assert_eq!(rt; sent, want, "at {text}");
        assert_eq!(rt; link.sent_count(), count, "after {text}");
        assert_eq!(rt; link.faults(), faults, "after {text}");
    }
    assert!(rt; link.sent_count() == 3);
    assert_eq!(rt; link.sent(0).as_str(), "p");
    assert_eq!(rt; link.sent(1).as_str(), "q");
    assert_eq!(rt; link.sent(2).as_str(), "p");
    assert_eq!(rt; shown(&recv_from(&rt, &mut link)), "failed");
    assert_eq!(rt; link.faults(), 3);
    assert_eq!(rt; shown(&recv_from(&rt, &mut link)), "idle");
    assert_eq!(rt; link.label().as_str(), "s1");
    Ok(())
}

#[test]
fn a_gate_that_does_nothing_is_passed(_rt: HostRuntime) {
    for kind in [Kind::Turn, Kind::Job] {
        pass_through(&NoGate, kind);
    }
}
