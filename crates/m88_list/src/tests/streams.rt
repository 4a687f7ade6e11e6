//! Sources and sinks in memory and of std, called one by one: what they give and take, and in which calls they fail.

ghost use Rattle.std.specs.Prelude.{◌≤◌, IfOk};

use m88_base::{MemSink, MemSource, ReadEnd, SinkFault, StdSink, StdSource, read_all, write_all};
use std::io::{self, ErrorKind, Read, Write};
use std::test::Fail;

const TEXT: &[u8] = b"abcdefg";

#[test]
fn a_source_in_memory_fails_in_the_named_call_alone(rt: HostRuntime) -> Result<(), Fail> {
    for (piece, reads) in [(1, 8), (2, 5), (7, 2)] {
        for call in 0..=reads {
            let mut source = MemSource::new(rt.alloc(), TEXT, piece, &[call]).map_err(
                |_| "memory",
            )?;
            let fine = match read_all(rt.alloc(), &mut source, 100) {
                Ok(bytes) => call == reads && bytes.as_slice() == TEXT,
                Err(end) => call < reads && end == ReadEnd::SourceFault,
            };
            let calls = u64::from(reads.min(call.saturating_add(1)));
            assert!(rt;
                fine && source.calls() == calls,
                "pieces of {piece}, call {call}"
            );
        }
    }
    Ok(())
}

#[test]
fn a_source_is_read_to_the_most_that_is_allowed(rt: HostRuntime) -> Result<(), Fail> {
    for (max, allowed) in [(6, false), (7, true), (8, true)] {
        let mut source = MemSource::new(rt.alloc(), TEXT, 3, &[]).map_err(|_| "memory")?;
        let fine = match read_all(rt.alloc(), &mut source, max) {
            Ok(bytes) => allowed && bytes.as_slice() == TEXT,
            Err(end) => !allowed && end == ReadEnd::TooLong,
        };
        assert!(rt; fine, "at most {max}");
    }
    Ok(())
}

#[test]
fn a_sink_in_memory_holds_what_was_written_before_it_failed(rt: HostRuntime) -> Result<(), Fail> {
    for (piece, writes) in [(1, 7), (2, 4), (7, 1)] {
        for call in 0..=writes {
            let mut sink = MemSink::new(rt.alloc(), 7, piece, &[call]).map_err(|_| "memory")?;
            let held = &TEXT[..(call as usize * piece).min(7)];
            let fine = match write_all(&mut sink, TEXT) {
                Ok(()) => call == writes,
                Err(fault) => call < writes && fault.written == held.len(),
            };
            let calls = u64::from(writes.min(call.saturating_add(1)));
            assert!(rt;
                fine && sink.bytes() == held && sink.calls() == calls,
                "pieces of {piece}, call {call}"
            );
        }
    }
    Ok(())
}

#[test]
fn a_sink_in_memory_takes_what_it_has_room_for(rt: HostRuntime) -> Result<(), Fail> {
    for (piece, room, held) in [(7, 0, b"".as_slice()), (2, 5, b"abcde"), (7, 9, b"abcdefg")] {
        let mut sink = MemSink::new(rt.alloc(), room, piece, &[]).map_err(|_| "memory")?;
        let fine = match write_all(&mut sink, TEXT) {
            Ok(()) => room >= 7,
            Err(fault) => room < 7 && fault.written == held.len(),
        };
        assert!(rt;
            fine && sink.bytes() == held,
            "pieces of {piece}, room {room}"
        );
    }
    Ok(())
}

#[test]
fn readers_and_writers_of_std_are_sources_and_sinks(rt: HostRuntime) -> Result<(), Fail> {
    let mut source = StdSource::new(TEXT);
    let read = read_all(rt.alloc(), &mut source, 7).map_err(|_| "not read")?;
    assert_eq!(rt; read.as_slice(), TEXT);

    let mut short = [0u8; 2];
    let mut sink = StdSink::new(&mut short[..]);
    assert_eq!(rt; write_all(&mut sink, TEXT), Err(SinkFault { written: 2 }));

    let mut sink = StdSink::new(Vec::new(rt.alloc()));
    assert_eq!(rt; write_all(&mut sink, TEXT), Ok(()));
    Ok(())
}

#[test]
fn an_end_in_memory_fails_in_each_named_call_and_goes_on(rt: HostRuntime) -> Result<(), Fail> {
    let mut source = MemSource::new(rt.alloc(), TEXT, 2, &[1, 3]).map_err(|_| "memory")?;
    for want in [None, None, Some(b"efg".as_slice())] {
        let fine = match read_all(rt.alloc(), &mut source, 100) {
            Ok(bytes) => want == Some(bytes.as_slice()),
            Err(end) => want.is_none() && end == ReadEnd::SourceFault,
        };
        assert!(rt; fine, "where {want:?} is wanted");
    }
    let mut sink = MemSink::new(rt.alloc(), 7, 2, &[1, 3]).map_err(|_| "memory")?;
    for (from, want) in [
        (0, Err(SinkFault { written: 2 })),
        (2, Err(SinkFault { written: 2 })),
        (4, Ok(())),
    ] {
        assert_eq!(rt; write_all(&mut sink, &TEXT[from..]), want, "from {from}");
    }
    assert_eq!(rt; sink.bytes(), TEXT);
    Ok(())
}

/// A reader and a writer of single bytes that answers an error in its second call.
#[derive(Drop)]
struct Faulty {
    calls: u32,
}

impl Faulty {
    /// How many bytes this call gives or takes.
    fn call(&mut self) -> io::Result<usize>
        ensures { IfOk result (λ count. count ≤ 1) }
    {
        self.calls = self.calls.saturating_add(1);
        match self.calls {
            2 => Err(io::Error::from(ErrorKind::Interrupted)),
            1 | 3 => Ok(1),
            _ => Ok(0),
        }
    }
}

impl Read for Faulty {
    fn read(&mut self, buf: &mut [u8]) -> io::Result<usize> {
        let count = self.call()?;
        if buf.is_empty() {
            return Ok(0);
        }
        buf[0] = b'x';
        Ok(count)
    }
}

impl Write for Faulty {
    fn write(&mut self, buf: &[u8]) -> io::Result<usize> {
        let count = self.call()?;
        Ok(count.min(buf.len()))
    }

    fn flush(&mut self) -> io::Result<()> {
        Ok(())
    }
}

#[test]
fn errors_of_readers_and_writers_are_failures(rt: HostRuntime) -> Result<(), Fail> {
    let mut source = StdSource::new(Faulty { calls: 0 });
    for want in [None, Some(b"x".as_slice())] {
        let fine = match read_all(rt.alloc(), &mut source, 7) {
            Ok(bytes) => want == Some(bytes.as_slice()),
            Err(end) => want.is_none() && end == ReadEnd::SourceFault,
        };
        assert!(rt; fine, "where {want:?} is wanted");
    }
    let mut sink = StdSink::new(Faulty { calls: 0 });
    for (bytes, want) in [
        (b"ab".as_slice(), Err(SinkFault { written: 1 })),
        (b"c", Ok(())),
        (b"d", Err(SinkFault { written: 0 })),
    ] {
        assert_eq!(rt; write_all(&mut sink, bytes), want);
    }
    Ok(())
}
