// Reads and writes that fail while rows are written or judged, and a sink that takes one byte at a time.
use crate::calls::words_of;
use crate::cases::{memory_files, memory_sink, two_files};
use crate::reach::{SHADOWED, table};
use crate::report::ROWS;
use check_core::{Status, run};
use std::alloc::Global;
use std::test::Fail;
use text_base::OutOfMemory;

/// A call: its words, the rules of the table, and the report.
type Call<'a> = (&'a str, &'a str, &'a str);

/// How a run ended, what it wrote, and how many reads and writes it made.
#[derive(Drop)]
struct Ended {
    status: Status,
    bytes: Vec<u8>,
    reads: u64,
    writes: u64,
}

/// The number of a read or a write that is never made.
const NEVER: u64 = 18_446_744_073_709_551_615;

/// The end of a run whose read and write of these numbers fail. The sink takes so many bytes at once.
fn end_of(
    alloc: Global,
    call: Call<'_>,
    most: usize,
    read: u64,
    write: u64,
) -> Result<Ended, OutOfMemory> {
    let (line, rules, report) = call;
    let words = words_of(alloc, line)?;
    let config = table(alloc, rules)?;
    let mut files = memory_files(alloc, two_files(alloc, config.as_str(), report)?);
    files.failing.push(read)?;
    let mut sink = memory_sink(alloc, most);
    sink.failing.push(write)?;
    let status = run(alloc, &words, &mut files, &mut sink);
    Ok(Ended {
        status,
        bytes: sink.bytes,
        reads: files.calls,
        writes: sink.calls,
    })
}

/// Whether each read that fails is told and nothing is written, and a read that isn't made changes nothing.
fn each_read_is_told(alloc: Global, call: Call<'_>) -> Result<bool, OutOfMemory> {
    let whole = end_of(alloc, call, 4096, NEVER, NEVER)?;
    for read in 0..whole.reads {
        let cut = end_of(alloc, call, 4096, read, NEVER)?;
        if cut.status != Status::ReadFault || !cut.bytes.is_empty() {
            return Ok(false);
        }
    }
    let same = end_of(alloc, call, 4096, whole.reads, NEVER)?;
    Ok(same.status == whole.status && same.bytes.as_slice() == whole.bytes.as_slice())
}

/// Whether each write that fails is told, and a front of the lines is written: nothing before the first write.
fn each_write_is_told(alloc: Global, call: Call<'_>, most: usize) -> Result<bool, OutOfMemory> {
    let whole = end_of(alloc, call, most, NEVER, NEVER)?;
    for write in 0..whole.writes {
        let cut = end_of(alloc, call, most, NEVER, write)?;
        let is_front = whole.bytes.starts_with(cut.bytes.as_slice());
        if cut.status != Status::WriteFault || !is_front || cut.bytes.is_empty() != (write == 0) {
            return Ok(false);
        }
    }
    Ok(whole.writes > 0)
}

const CALLS: [Call<'static>; 6] = [
    ("reach c", SHADOWED, ""),
    ("reach c", r#"{"foo":1}"#, ""),
    ("verify c t", SHADOWED, ROWS),
    ("verify c t", SHADOWED, "{}\n"),
    ("verify c t", r#"{"foo":1}"#, ROWS),
    ("sample 1", "", ""),
];

/// A report that is longer than one read has its row at fault in its first bytes, or nowhere.
#[test]
fn each_read_fails(rt: HostRuntime) -> Result<(), Fail> {
    let alloc = rt.alloc();
    for call in CALLS {
        assert!(rt; each_read_is_told(alloc, call)?, "{}", call.0);
    }
    let blanks = " ".repeat(alloc, 600_000)?;
    for front in ["{}\n", ""] {
        let report = format!(in alloc; "{front}{blanks}\n")?;
        let call = ("verify c t", SHADOWED, report.as_str());
        assert!(rt; each_read_is_told(alloc, call)?, "{front}");
    }
    Ok(())
}

#[test]
fn each_write_fails(rt: HostRuntime) -> Result<(), Fail> {
    let alloc = rt.alloc();
    for call in CALLS {
        for most in [64, 4096] {
            assert!(rt; each_write_is_told(alloc, call, most)?, "{}", call.0);
        }
    }
    Ok(())
}

/// A sink that takes one byte at a time gets the same lines.
#[test]
fn rows_go_a_byte_at_a_time(rt: HostRuntime) -> Result<(), Fail> {
    let alloc = rt.alloc();
    for call in CALLS {
        let narrow = end_of(alloc, call, 1, NEVER, NEVER)?;
        let wide = end_of(alloc, call, 4096, NEVER, NEVER)?;
        assert!(rt; narrow.status == wide.status, "{}", call.0);
        assert_eq!(rt; narrow.bytes.as_slice(), wide.bytes.as_slice());
        assert_eq!(rt; narrow.writes, narrow.bytes.len() as u64);
    }
    Ok(())
}
