// The public calls below the top call, each once on its happy path.

use crate::cases::{CONFIG, PASSING, memory_files, memory_sink, two_files};
use check_core::Status;
use outside::{FileFail, WriteFail, read_whole, write_whole};
use std::test::Fail;

/// Whole files up to a limit, and whole pieces.
#[test]
fn whole_files_and_pieces(rt: HostRuntime) -> Result<(), Fail> {
    let alloc = rt.alloc();
    let mut files = memory_files(alloc, two_files(alloc, CONFIG, PASSING)?);
    let bytes = read_whole(alloc, &mut files, "c", CONFIG.len());
    assert!(rt; matches!(&bytes, Ok(bytes) if bytes.as_slice() == CONFIG.as_bytes()));
    let longer = read_whole(alloc, &mut files, "c", CONFIG.len() - 1);
    assert!(rt; matches!(longer, Err(FileFail::TooLong)));
    let absent = read_whole(alloc, &mut files, "absent", 9);
    assert!(rt; matches!(absent, Err(FileFail::Failed)));
    assert_eq!(rt; files.faults, 1);

    let mut sink = memory_sink(alloc, 3);
    assert!(rt; write_whole(&mut sink, b"eight by").is_ok());
    assert_eq!(rt; sink.bytes.as_slice(), b"eight by".as_slice());
    assert_eq!(rt; sink.calls, 3);
    sink.failing.push(4)?;
    assert!(rt; write_whole(&mut sink, b"eight by") == Err(WriteFail::Failed));
    assert_eq!(rt; sink.bytes.as_slice(), b"eight byeig".as_slice());
    Ok(())
}

/// The numbers that the program ends with.
#[test]
fn the_numbers_of_statuses(rt: HostRuntime) {
    let all = [
        (Status::Done, 0),
        (Status::TestsFailed, 1),
        (Status::Refused, 2),
        (Status::ReadFault, 3),
        (Status::WriteFault, 4),
        (Status::Usage, 5),
        (Status::TooLong, 6),
        (Status::Rejected, 7),
        (Status::NoMemory, 8),
    ];
    for (status, number) in all {
        assert_eq!(rt; status.number(), number);
    }
}
