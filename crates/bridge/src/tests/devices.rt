// Devices in memory, and whole reading and writing.
use bridge_io::{MemoryShelf, MemorySink, ReadFail, Shelf, Sink, StdSink, read_all, write_whole};
use std::alloc::{AllocError, Global};

// A shelf on which these files were put one after another, all under the name f, and which fails at these calls.
fn shelf_with(alloc: Global, files: &[&[u8]], failing: &[u64]) -> Result<MemoryShelf, AllocError> {
    let mut shelf = MemoryShelf::new(alloc);
    for file in files {
        shelf.put("f", *file)?;
    }
    for call in failing {
        shelf.fail_call(*call)?;
    }
    Ok(shelf)
}

// A sink that takes so many bytes a call, and so many in all, and fails at these calls.
fn sink_with(
    alloc: Global,
    most: usize,
    room: usize,
    failing: &[u64],
) -> Result<MemorySink, AllocError> {
    let mut sink = MemorySink::new(alloc, most.max(1), room)?;
    for call in failing {
        sink.fail_call(*call)?;
    }
    Ok(sink)
}

// Whether the next pieces of two bytes are these; none stands for a fault.
fn gives(shelf: &mut MemoryShelf, pieces: &[Option<&[u8]>]) -> bool {
    for want in pieces {
        let mut piece = [0u8; 2];
        let right = match shelf.read_next("f", &mut piece) {
            Ok(n) => *want == Some(&piece[..n]),
            Err(_) => want.is_none(),
        };
        if !right {
            return false;
        }
    }
    true
}

fn is_read(
    alloc: Global,
    files: &[&[u8]],
    failing: &[u64],
    pieces: &[Option<&[u8]>],
) -> Result<bool, AllocError> {
    let mut shelf = shelf_with(alloc, files, failing)?;
    Ok(gives(&mut shelf, pieces))
}

#[test]
fn a_shelf_gives_what_is_left_or_fails(rt: HostRuntime) {
    let rows: [(&[&[u8]], &[u64], &[Option<&[u8]>]); 4] = [
        (&[], &[], &[None]),
        (&[b"abc"], &[], &[Some(b"ab"), Some(b"c"), Some(b"")]),
        (&[b"abc", b"x"], &[], &[Some(b"x"), Some(b"")]),
        (&[b"abc"], &[2], &[Some(b"ab"), None, Some(b"c")]),
    ];
    for (files, failing, pieces) in rows {
        assert!(rt; matches!(is_read(rt.alloc(), files, failing, pieces), Ok(true)));
    }
}

#[derive(Clone, Copy)]
enum Whole {
    Bytes(&'static [u8]),
    TooLong(u64, u64),
    Fault,
}

// Whether the next whole readings up to these limits come to these answers.
fn gives_whole(alloc: Global, shelf: &mut MemoryShelf, readings: &[(u16, Whole)]) -> bool {
    for (limit, want) in readings {
        let right = match (read_all(alloc, shelf, "f", usize::from(*limit)), *want) {
            (Ok(bytes), Whole::Bytes(want)) => bytes.as_slice() == want,
            (Err(ReadFail::TooLong(place)), Whole::TooLong(line, column)) => {
                place.line == line && place.column == column
            }
            (Err(ReadFail::Fault), Whole::Fault) => true,
            _ => false,
        };
        if !right {
            return false;
        }
    }
    true
}

fn is_read_whole(
    alloc: Global,
    files: &[&[u8]],
    failing: &[u64],
    readings: &[(u16, Whole)],
) -> Result<bool, AllocError> {
    let mut shelf = shelf_with(alloc, files, failing)?;
    Ok(gives_whole(alloc, &mut shelf, readings))
}

#[test]
fn a_file_is_read_whole_or_refused(rt: HostRuntime) {
    let rows: [(&[&[u8]], &[u64], &[(u16, Whole)]); 6] = [
        (&[], &[], &[(3, Whole::Fault)]),
        (&[b"abc"], &[], &[(3, Whole::Bytes(b"abc"))]),
        (&[b""], &[], &[(0, Whole::Bytes(b""))]),
        (
            &[b"abcd"],
            &[],
            &[(2, Whole::TooLong(1, 3)), (2, Whole::Bytes(b"d"))],
        ),
        (&[b"a\nbc"], &[], &[(2, Whole::TooLong(2, 1))]),
        (
            &[b"abc"],
            &[1, 4],
            &[
                (3, Whole::Fault),
                (3, Whole::Bytes(b"abc")),
                (3, Whole::Fault),
                (3, Whole::Bytes(b"")),
            ],
        ),
    ];
    for (files, failing, readings) in rows {
        assert!(rt;
            matches!(
                is_read_whole(rt.alloc(), files, failing, readings),
                Ok(true)
            )
        );
    }
}

// Whether the next pieces are taken up to these lengths; none stands for a fault.
fn takes<K: Sink>(sink: &mut K, pieces: &[(&[u8], Option<usize>)]) -> bool {
    for (piece, want) in pieces {
        if piece.len() > 0 && sink.write_next(*piece).ok() != *want {
            return false;
        }
    }
    true
}

fn is_taken(
    alloc: Global,
    most: usize,
    room: usize,
    failing: &[u64],
    pieces: &[(&[u8], Option<usize>)],
    taken: &[u8],
) -> Result<bool, AllocError> {
    let mut sink = sink_with(alloc, most, room, failing)?;
    Ok(takes(&mut sink, pieces) && sink.taken() == taken)
}

#[test]
fn a_sink_takes_what_a_call_and_its_room_allow(rt: HostRuntime) {
    let rows: [(usize, usize, &[u64], &[(&[u8], Option<usize>)], &[u8]); 2] = [
        (
            2,
            3,
            &[],
            &[(b"abc", Some(2)), (b"cd", Some(1)), (b"d", None)],
            b"abc",
        ),
        (
            2,
            100,
            &[2],
            &[(b"ab", Some(2)), (b"cd", None), (b"cd", Some(2))],
            b"abcd",
        ),
    ];
    for (most, room, failing, pieces, taken) in rows {
        let right = is_taken(rt.alloc(), most, room, failing, pieces, taken);
        assert!(rt; matches!(right, Ok(true)));
    }
}

#[test]
fn a_writer_gets_the_bytes_until_it_is_full(rt: HostRuntime) {
    let mut room = [0u8; 3];
    let mut sink = StdSink::new(room.as_mut_slice());
    let right = takes(
        &mut sink,
        &[(b"ab", Some(2)), (b"cd", Some(1)), (b"d", None)],
    );
    assert!(rt; right && room == *b"abc");
}

fn is_written_whole(
    alloc: Global,
    most: usize,
    room: usize,
    failing: &[u64],
    text: &[u8],
    taken: &[u8],
) -> Result<bool, AllocError> {
    let mut sink = sink_with(alloc, most, room, failing)?;
    Ok(write_whole(&mut sink, text).is_ok() == (taken == text) && sink.taken() == taken)
}

#[test]
fn a_text_is_written_in_pieces(rt: HostRuntime) {
    let rows: [(usize, usize, &[u64], &[u8], &[u8]); 4] = [
        (2, 100, &[], b"abcde", b"abcde"),
        (2, 100, &[2], b"abcde", b"ab"),
        (2, 3, &[], b"abcde", b"abc"),
        (1, 0, &[1], b"", b""),
    ];
    for (most, room, failing, text, taken) in rows {
        let right = is_written_whole(rt.alloc(), most, room, failing, text, taken);
        assert!(rt; matches!(right, Ok(true)));
    }
}
