// Reads and writes that fail, files that are too long, and files and sinks that never fail.
ghost use Rattle.std.specs.Prelude.{◌≡◌, [], ◌∷◌, IfOk, codes, map, string_bytes};
ghost use Rattle.outside.specs.Contents.{contents_of};
ghost use Rattle.worked_rows.specs.Names.{HasBoth};

use crate::cases::{CONFIG, PASS_LINES, PASSING, memory_files, memory_sink, two_files, words};
use check_core::{Status, SureFiles, SureSink, run};
use std::alloc::Global;
use std::test::Fail;
use text_base::{OutOfMemory, Text};

/// Each read that fails ends the run, and nothing is written.
#[test]
fn a_read_fails(rt: HostRuntime) -> Result<(), Fail> {
    let alloc = rt.alloc();
    let words = words(alloc, &["check", "c", "t"])?;
    for call in 0..4u64 {
        let mut files = memory_files(alloc, two_files(alloc, CONFIG, PASSING)?);
        files.failing.push(call)?;
        let mut sink = memory_sink(alloc, 4096);
        let status = run(alloc, &words, &mut files, &mut sink);
        assert!(rt; status == Status::ReadFault, "call {call}");
        assert!(rt; sink.bytes.is_empty(), "call {call}");
        assert_eq!(rt; files.faults, 1);
    }
    Ok(())
}

/// A file that isn't there is a fault of reading.
#[test]
fn a_file_is_absent(rt: HostRuntime) -> Result<(), Fail> {
    let alloc = rt.alloc();
    let words = words(alloc, &["check", "c", "absent"])?;
    let mut files = memory_files(alloc, two_files(alloc, CONFIG, PASSING)?);
    let mut sink = memory_sink(alloc, 4096);
    let status = run(alloc, &words, &mut files, &mut sink);
    assert!(rt; status == Status::ReadFault);
    assert!(rt; sink.bytes.is_empty());
    Ok(())
}

/// Each write that fails ends the run, and the front of the lines is written.
#[test]
fn a_write_fails(rt: HostRuntime) -> Result<(), Fail> {
    let alloc = rt.alloc();
    let words = words(alloc, &["check", "c", "t"])?;
    let lines = PASS_LINES.as_bytes();
    for call in 0..20u64 {
        let mut files = memory_files(alloc, two_files(alloc, CONFIG, PASSING)?);
        let mut sink = memory_sink(alloc, 4);
        sink.failing.push(call)?;
        let status = run(alloc, &words, &mut files, &mut sink);
        assert!(rt; status == Status::WriteFault, "call {call}");
        assert!(rt; lines.starts_with(sink.bytes.as_slice()), "call {call}");
        assert!(rt; sink.bytes.len() <= 4 * call as usize, "call {call}");
    }
    Ok(())
}

/// A file of one byte past the limit is too long, and one of the limit's length is read.
#[test]
fn a_file_is_too_long(rt: HostRuntime) -> Result<(), Fail> {
    let alloc = rt.alloc();
    let words = words(alloc, &["check", "c", "t"])?;
    for (length, status) in [(16_777_216, Status::Refused), (16_777_217, Status::TooLong)] {
        let mut map = Vec::new(alloc);
        map.push((Text::of(alloc, "c")?, vec![in alloc; b' '; length]?))?;
        let mut files = memory_files(alloc, map);
        let mut sink = memory_sink(alloc, 4096);
        let ended = run(alloc, &words, &mut files, &mut sink);
        assert!(rt; ended == status, "{length} bytes");
        assert_eq!(rt; sink.bytes.is_empty(), status == Status::TooLong);
    }
    Ok(())
}

/// Files that never fail, with both names.
fn sure_files(alloc: Global) -> Result<SureFiles, OutOfMemory>
    ensures { IfOk result (λ f. HasBoth (contents_of f.map.items)) }
{
    let mut map = Vec::new(alloc);
    map.push((Text::of(alloc, "c")?, CONFIG.as_bytes().to_vec(alloc)?))?;
    map.push((Text::of(alloc, "t")?, PASSING.as_bytes().to_vec(alloc)?))?;
    Ok(SureFiles { map })
}

/// The words of the call on both names.
fn call_words(alloc: Global) -> Result<Vec<String>, OutOfMemory>
    ensures { IfOk result (λ ws. map string_bytes ws.items ≡ codes "check" ∷ codes "c" ∷ codes "t" ∷ []) }
{
    let mut words = Vec::new(alloc);
    words.push(String::from_str(alloc, "check")?)?;
    words.push(String::from_str(alloc, "c")?)?;
    words.push(String::from_str(alloc, "t")?)?;
    Ok(words)
}

/// The same lines over files and a sink that never fail.
#[test]
fn nothing_fails(rt: HostRuntime) -> Result<(), Fail> {
    let alloc = rt.alloc();
    let words = call_words(alloc)?;
    let mut files = sure_files(alloc)?;
    let mut sink = SureSink {
        bytes: Vec::new(alloc),
    };
    let status = run(alloc, words.as_slice(), &mut files, &mut sink);
    assert!(rt; status == Status::Done);
    assert_eq!(rt; sink.bytes.as_slice(), PASS_LINES.as_bytes());
    Ok(())
}
