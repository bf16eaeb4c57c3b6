use rx_ports::{FileRead, Files, MemFiles, MemSink, MemSource, Put, RxBytes, Sink, Source, Take};
use std::process::Abort;
use std::test::Fail;

fn take_from<S: Source>(rt: &impl Abort, source: &mut S, buf: &mut [u8]) -> Take {
    assert!(rt; !buf.is_empty());
    source.take(buf)
}

fn put_to<K: Sink>(sink: &mut K, text: &str) -> Put {
    sink.put(text.as_bytes())
}

fn read_from<F: Files>(rt: &HostRuntime, files: &mut F, name: &str, limit: usize) -> FileRead {
    files.read(rt.alloc(), name, limit)
}

/// What a read came to, in a word: no file of these tests has such a word in it.
fn shown(read: &FileRead) -> &[u8] {
    match read {
        FileRead::Found(bytes) => bytes.as_slice(),
        FileRead::Absent => "absent".as_bytes(),
        FileRead::Failed => "failed".as_bytes(),
        FileRead::Memory => "memory".as_bytes(),
    }
}

#[test]
fn lists_of_bytes_grow(rt: HostRuntime) -> Result<(), Fail> {
    let mut bytes = RxBytes::new(rt.alloc());
    assert_eq!(rt; bytes.len(), 0);
    bytes.extend(b"ab")?;
    bytes.push(255)?;
    bytes.extend(b"")?;
    bytes.extend(b"c")?;
    assert_eq!(rt; bytes.as_slice(), [97, 98, 255, 99].as_slice());
    assert_eq!(rt; bytes.len(), 4);
    assert_eq!(rt; bytes.get(2), 255);
    let same = RxBytes::from_slice(rt.alloc(), bytes.as_slice())?;
    assert_eq!(rt; same.as_slice(), bytes.as_slice());
    Ok(())
}

#[test]
fn takes_go_on_after_a_fault(rt: HostRuntime) -> Result<(), Fail> {
    let mut source = MemSource::new(RxBytes::from_slice(rt.alloc(), b"abcdefghij")?);
    source.fail_take(rt.alloc(), &[6, 2])?;
    source.fail_take(rt.alloc(), &[5, 2])?;
    let mut buf = [0u8; 16];
    for (room, want, text, faults) in [
        (3, Take::Bytes(3), "abc", 0),
        (3, Take::Failed, "", 1),
        (1, Take::Bytes(1), "d", 1),
        (16, Take::Bytes(6), "efghij", 1),
        (16, Take::Failed, "", 2),
        (16, Take::Failed, "", 3),
        (1, Take::End, "", 3),
        (16, Take::End, "", 3),
    ] {
        assert!(rt; room <= buf.len());
        assert_eq!(rt;
            take_from(&rt, &mut source, &mut buf[..room]),
            want,
            "before {text}"
        );
        assert!(rt; text.len() <= buf.len());
        assert_eq!(rt; &buf[..text.len()], text.as_bytes());
        assert_eq!(rt; source.faults(), faults, "after {text}");
    }
    Ok(())
}

#[test]
fn an_empty_source_is_at_its_end(rt: HostRuntime) {
    let mut source = MemSource::new(RxBytes::new(rt.alloc()));
    let mut buf = [7u8; 2];
    assert_eq!(rt; take_from(&rt, &mut source, &mut buf), Take::End);
    assert_eq!(rt; source.faults(), 0);
}

#[test]
fn a_full_sink_has_what_fits(rt: HostRuntime) -> Result<(), Fail> {
    let mut sink = MemSink::new(rt.alloc(), 5)?;
    sink.fail_put(rt.alloc(), &[2])?;
    for (text, want, held, faults) in [
        ("abc", Put::Ok, "abc", 0),
        ("d", Put::Failed, "abc", 1),
        ("", Put::Ok, "abc", 1),
        ("d", Put::Ok, "abcd", 1),
        ("efg", Put::Failed, "abcde", 2),
        ("h", Put::Failed, "abcde", 3),
        ("", Put::Ok, "abcde", 3),
    ] {
        assert_eq!(rt; put_to(&mut sink, text), want, "at {text}");
        assert_eq!(rt; sink.bytes(), held.as_bytes());
        assert_eq!(rt; sink.faults(), faults, "after {text}");
    }
    Ok(())
}

#[test]
fn files_are_read_up_to_one_byte_past_the_limit(rt: HostRuntime) -> Result<(), Fail> {
    let mut files = MemFiles::new(rt.alloc());
    files.add(rt.alloc(), "app", b"0123456789")?;
    files.add(rt.alloc(), "empty", b"")?;
    files.add(rt.alloc(), "app", b"ABCDEF")?;
    files.add(rt.alloc(), "other", b"\xff\n")?;
    files.fail_read(rt.alloc(), &[3])?;
    for (name, limit, want, faults) in [
        ("app", 100, b"ABCDEF".as_slice(), 0),
        ("none", 100, b"absent".as_slice(), 0),
        ("app", 100, b"failed".as_slice(), 1),
        ("app", 6, b"ABCDEF".as_slice(), 1),
        ("app", 5, b"ABCDEF".as_slice(), 1),
        ("app", 4, b"ABCDE".as_slice(), 1),
        ("app", 0, b"A".as_slice(), 1),
        ("app", usize::MAX, b"ABCDEF".as_slice(), 1),
        ("empty", 0, b"".as_slice(), 1),
        ("other", 9, b"\xff\n".as_slice(), 1),
        ("ap", 9, b"absent".as_slice(), 1),
        ("", 9, b"absent".as_slice(), 1),
    ] {
        let read = read_from(&rt, &mut files, name, limit);
        assert_eq!(rt; shown(&read), want, "{name} up to {limit}");
        assert_eq!(rt; files.faults(), faults, "after {name}");
    }
    Ok(())
}
