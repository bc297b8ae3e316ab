//! What is tested of `volap_io`.
ghost use Rattle.std.specs.Prelude.{◌<◌, ◌≤◌, None, IfOk};

use std::alloc::{AllocError, Global};
use std::io;
use std::io::{Read, Write};
use std::test::Fail;
use volap_io::{
    Failed, Meet, MemSink, MemSource, Quiet, ReadEnd, Sink, Source, StdSink, StdSource, read_all,
    write_all,
};

/// The bytes that sources give and sinks take here.
const TEXT: &[u8] = b"abcdef";

/// Whether a whole text is read, by calls of at most `most` bytes, of which those named fail.
fn read_text(
    alloc: Global,
    text: &[u8],
    most: usize,
    limit: u8,
    fail: &[u64],
) -> Result<bool, ReadEnd>
    requires { 0 < most }
{
    let mut source = MemSource::new(text.to_vec(alloc)?, fail.to_vec(alloc)?, most);
    let bytes = read_all(alloc, &mut source, u64::from(limit))?;
    Ok(bytes.as_slice() == text)
}

#[test]
fn reads_up_to_the_limit(rt: HostRuntime) {
    for len in 0..=TEXT.len() {
        for most in 1..8 {
            for limit in 0..8 {
                let got = read_text(rt.alloc(), &TEXT[..len], most, limit, &[]);
                let fits = len <= usize::from(limit);
                let want = if fits {
                    Ok(true)
                } else {
                    Err(ReadEnd::TooLarge)
                };
                assert_eq!(rt; got, want, "{len} by {most} up to {limit}");
            }
        }
    }
}

#[test]
fn a_fault_ends_the_reading(rt: HostRuntime) {
    // Four bytes come, then two, then none.
    for (call, limit, want) in [
        (0, 6, Err(ReadEnd::ReadFault)),
        (1, 6, Err(ReadEnd::ReadFault)),
        (2, 6, Err(ReadEnd::ReadFault)),
        (3, 6, Ok(true)),
        (1, 5, Err(ReadEnd::ReadFault)),
        (2, 5, Err(ReadEnd::TooLarge)),
    ] {
        let got = read_text(rt.alloc(), TEXT, 4, limit, &[call]);
        assert_eq!(rt; got, want, "call {call} up to {limit}");
    }
}

/// How much of the text is taken, by calls of at most `most` bytes, of which those named fail.
fn write_text(
    alloc: Global,
    room: usize,
    most: usize,
    fail: &[u64],
) -> Result<(Vec<u8>, bool), AllocError>
    requires { 0 < most }
{
    let mut sink = MemSink::new(alloc, room, fail.to_vec(alloc)?, most)?;
    let all = write_all(&mut sink, TEXT).is_ok();
    Ok((sink.taken().to_vec(alloc)?, all))
}

#[test]
fn writes_while_there_is_room(rt: HostRuntime) -> Result<(), Fail> {
    for room in 0..8 {
        for most in 1..8 {
            let (taken, all) = write_text(rt.alloc(), room, most, &[])?;
            assert_eq!(rt; taken.as_slice(), &TEXT[..room.min(TEXT.len())]);
            assert_eq!(rt; all, room >= TEXT.len(), "room for {room}");
        }
    }
    Ok(())
}

#[test]
fn a_fault_ends_the_writing(rt: HostRuntime) -> Result<(), Fail> {
    // Two bytes go out at each call.
    for (call, want) in [(0, 0), (1, 2), (2, 4), (3, 6)] {
        let (taken, all) = write_text(rt.alloc(), 9, 2, &[call])?;
        assert_eq!(rt; taken.len(), want, "call {call}");
        assert_eq!(rt; all, want == TEXT.len(), "call {call}");
    }
    Ok(())
}

#[test]
fn other_calls_go_well(rt: HostRuntime) -> Result<(), Fail> {
    // That there is something to unwrap is proved: no call is named, and there is room.
    let alloc = rt.alloc();
    let mut source = MemSource::new(TEXT.to_vec(alloc)?, Vec::new(alloc), 4);
    let mut buf = [0; 8];
    assert_eq!(rt; source.read(&mut buf).unwrap(), 4);
    assert_eq!(rt; source.read(&mut buf).unwrap(), 2);
    let mut sink = MemSink::new(alloc, TEXT.len(), Vec::new(alloc), 4)?;
    assert_eq!(rt; sink.write(TEXT).unwrap(), 4);
    assert_eq!(rt; sink.write(&TEXT[4..]).unwrap(), 2);
    Ok(())
}

/// Gives so many zeros, takes two bytes at a time, and notes how long the buffers and the pieces are.
#[derive(Drop)]
struct Noting {
    left: usize,
    calls: usize,
    lens: [usize; 4],
}

impl Noting {
    /// A source of `left` zeros, that has noted nothing.
    fn new(left: usize) -> Noting {
        Noting {
            left,
            calls: 0,
            lens: [0; 4],
        }
    }

    /// Notes the length of a buffer or a piece, of the first four.
    fn note(&mut self, len: usize) {
        if self.calls < 4 {
            self.lens[self.calls] = len;
            self.calls += 1;
        }
    }
}

impl Source for Noting {
    ghost left = { λ _. None };

    ghost faults = { λ _. 0 };

    fn read(&mut self, buf: &mut [u8]) -> Result<usize, Failed> {
        self.note(buf.len());
        let count = buf.len().min(self.left);
        self.left -= count;
        Ok(count)
    }
}

impl Sink for Noting {
    ghost taken = { λ _. None };

    ghost faults = { λ _. 0 };

    fn write(&mut self, piece: &[u8]) -> Result<usize, Failed> {
        self.note(piece.len());
        Ok(piece.len().min(2))
    }
}

#[test]
fn lends_what_is_missing(rt: HostRuntime) -> Result<(), Fail> {
    for (left, limit, want) in [
        (10_000, 10_000u32, [4096, 4096, 1809, 1]),
        (10_000, 9_999, [4096, 4096, 1808, 0]),
        (0, 0, [1, 0, 0, 0]),
    ] {
        let mut source = Noting::new(left);
        let got = read_all(rt.alloc(), &mut source, u64::from(limit));
        assert_eq!(rt; got.is_ok(), left <= limit as usize);
        assert_eq!(rt; source.lens, want, "{left} up to {limit}");
    }
    let mut sink = Noting::new(0);
    write_all(&mut sink, TEXT)?;
    assert_eq!(rt; sink.lens, [6, 4, 2, 0]);
    Ok(())
}

/// A reader and a writer of std that move so many bytes and then fail.
#[derive(Drop)]
struct Breaking {
    left: usize,
}

impl Breaking {
    /// Moves at most `len` bytes, and fails where none are left.
    fn step(&mut self, len: usize) -> io::Result<usize>
        ensures { IfOk result (λ count. count ≤ len) }
    {
        if self.left == 0 {
            return Err(io::Error::from(io::ErrorKind::Other));
        }
        let count = len.min(self.left);
        self.left -= count;
        Ok(count)
    }
}

impl Read for Breaking {
    fn read(&mut self, buf: &mut [u8]) -> io::Result<usize> {
        self.step(buf.len())
    }
}

impl Write for Breaking {
    fn write(&mut self, buf: &[u8]) -> io::Result<usize> {
        self.step(buf.len())
    }

    fn flush(&mut self) -> io::Result<()> {
        Ok(())
    }
}

#[test]
fn a_reader_of_std_is_a_source(rt: HostRuntime) -> Result<(), Fail> {
    let mut source = StdSource::new(TEXT);
    let bytes = read_all(rt.alloc(), &mut source, 6)?;
    assert_eq!(rt; bytes.as_slice(), TEXT);
    let mut source = StdSource::new(Breaking { left: 3 });
    let mut buf = [0; 8];
    assert_eq!(rt; source.read(&mut buf), Ok(3));
    assert_eq!(rt; source.read(&mut buf), Err(Failed));
    Ok(())
}

#[test]
fn a_writer_of_std_is_a_sink(rt: HostRuntime) -> Result<(), Fail> {
    let mut out = Vec::new(rt.alloc());
    write_all(&mut StdSink::new(&mut out), TEXT)?;
    assert_eq!(rt; out.as_slice(), TEXT);
    let mut sink = StdSink::new(Breaking { left: 3 });
    assert_eq!(rt; write_all(&mut sink, TEXT), Err(Failed));

    // A writer that is full takes none of a piece.
    let mut room = [0; 4];
    assert_eq!(rt;
        write_all(&mut StdSink::new(room.as_mut_slice()), TEXT),
        Err(Failed)
    );
    assert_eq!(rt; room, *b"abcd");
    Ok(())
}

#[test]
fn nobody_waits_in_quiet(rt: HostRuntime) {
    Quiet.pass(&rt, 1);
}
