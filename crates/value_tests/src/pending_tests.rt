use pending_set::Pending;
use std::test::Fail;

#[test]
fn takes_by_priority_then_by_number(rt: HostRuntime) -> Result<(), Fail> {
    let priorities = [0, 5, -1, 5, 9223372036854775807, -9223372036854775808, 0];
    let mut pending = Pending::new(rt.alloc(), &priorities)?;
    assert_eq!(rt; pending.next(), None);
    pending.add(6);
    pending.add(5);
    pending.add(3);
    pending.add(0);
    pending.add(2);
    pending.add(1);
    pending.add(3);
    pending.drop_node(0);
    assert_eq!(rt; pending.next(), Some(1));
    assert_eq!(rt; pending.next(), Some(3));
    pending.add(4);
    pending.drop_node(3);
    assert_eq!(rt; pending.next(), Some(4));
    assert_eq!(rt; pending.next(), Some(6));
    pending.add(0);
    assert_eq!(rt; pending.next(), Some(0));
    assert_eq!(rt; pending.next(), Some(2));
    assert_eq!(rt; pending.next(), Some(5));
    assert_eq!(rt; pending.next(), None);
    Ok(())
}

#[test]
fn gives_each_number_once_in_its_order(rt: HostRuntime) -> Result<(), Fail> {
    let priorities: Vec<i64> = (0..300).map(|n: i64| n % 3).collect(rt.alloc())?;
    assert!(rt; priorities.len() == 300);
    let mut pending = Pending::new(rt.alloc(), priorities.as_slice())?;
    for n in 0..300 {
        pending.add(n);
        pending.add(n);
    }
    for place in 0..300 {
        let want = place % 100 * 3 + 2 - place / 100;
        assert_eq!(rt; pending.next(), Some(want));
    }
    assert_eq!(rt; pending.next(), None);
    Ok(())
}

#[test]
fn a_lone_number_waits_and_is_dropped(rt: HostRuntime) -> Result<(), Fail> {
    let mut pending = Pending::new(rt.alloc(), &[7])?;
    pending.add(0);
    pending.drop_node(0);
    assert_eq!(rt; pending.next(), None);
    pending.add(0);
    assert_eq!(rt; pending.next(), Some(0));
    assert_eq!(rt; pending.next(), None);
    Ok(())
}

#[test]
fn nothing_waits_in_a_set_of_no_numbers(rt: HostRuntime) -> Result<(), Fail> {
    let mut pending = Pending::new(rt.alloc(), &[])?;
    assert_eq!(rt; pending.next(), None);
    assert_eq!(rt; pending.next(), None);
    Ok(())
}
