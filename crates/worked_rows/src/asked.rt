// What a run asks of the outside: no byte beyond one past the limit, and nothing more after a write that ran out of memory.
ghost use Rattle.std.specs.Prelude.{Some, true};
ghost use Rattle.outside.specs.Contents.{contents_of};

use crate::cases::{CONFIG, PASS_LINES, PASSING, memory_files, two_files, words};
use check_core::{Failed, Files, MemoryFiles, Sink, Status, WriteFail, run};
use std::alloc::Global;
use std::test::Fail;
use text_base::Text;

/// Files in memory that keep the end of the farthest bytes that were asked for.
#[derive(Drop)]
struct WatchedFiles {
    files: MemoryFiles,
    farthest: u64,
}

impl Files for WatchedFiles {
    ghost state = { λ watched. record { told = Some (contents_of watched.files.map.items); admits = λ name. true; faults = watched.files.faults } };

    fn read(&mut self, name: &str, from: u64, buf: &mut [u8]) -> Result<usize, Failed> {
        self.farthest = self.farthest.max(from.saturating_add(buf.len() as u64));
        self.files.read(name, from, buf)
    }
}

/// A sink in memory that takes ten bytes at a time, and at one of its calls runs out of memory.
#[derive(Drop)]
struct NarrowSink {
    bytes: Vec<u8>,
    calls: u32,
    out_of_memory: u32,
}

impl Sink for NarrowSink {
    ghost state = { λ sink. record { written = Some sink.bytes.items; faults = 0 } };

    fn write(&mut self, piece: &[u8]) -> Result<usize, WriteFail> {
        let call = self.calls;
        self.calls = call.saturating_add(1);
        if call == self.out_of_memory {
            return Err(WriteFail::OutOfMemory);
        }
        let count = piece.len().min(10);
        self.bytes.extend_from_slice(&piece[..count])?;
        Ok(count)
    }
}

/// Of a file that is too long, one byte past the limit is asked for and none after it.
#[test]
fn one_byte_past_the_limit_is_asked_for(rt: HostRuntime) -> Result<(), Fail> {
    let alloc = rt.alloc();
    let words = words(alloc, &["check", "c", "t"])?;
    let mut map = Vec::new(alloc);
    map.push((Text::of(alloc, "c")?, vec![in alloc; b' '; 17_000_000]?))?;
    let mut files = WatchedFiles {
        files: memory_files(alloc, map),
        farthest: 0,
    };
    let mut sink = narrow_sink(alloc, 0);
    let status = run(alloc, &words, &mut files, &mut sink);
    assert!(rt; status == Status::TooLong);
    assert_eq!(rt; files.farthest, 16_777_217);
    assert_eq!(rt; sink.calls, 0);
    Ok(())
}

/// A sink that runs out of memory at this call.
fn narrow_sink(alloc: Global, out_of_memory: u32) -> NarrowSink {
    NarrowSink {
        bytes: Vec::new(alloc),
        calls: 0,
        out_of_memory,
    }
}

/// The first write that runs out of memory is the last one, and what was written before stays.
#[test]
fn a_sink_runs_out_of_memory(rt: HostRuntime) -> Result<(), Fail> {
    let alloc = rt.alloc();
    let words = words(alloc, &["check", "c", "t"])?;
    for call in 0..8u32 {
        let mut files = memory_files(alloc, two_files(alloc, CONFIG, PASSING)?);
        let mut sink = narrow_sink(alloc, call);
        let status = run(alloc, &words, &mut files, &mut sink);
        assert!(rt; status == Status::NoMemory, "call {call}");
        assert_eq!(rt; sink.calls, call + 1);
        assert!(rt;
            PASS_LINES.as_bytes().starts_with(sink.bytes.as_slice()),
            "call {call}"
        );
    }
    Ok(())
}
