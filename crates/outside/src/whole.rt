// Whole files up to a limit, and whole lines.
ghost use Rattle.std.specs.Prelude.{◌≡◌, ◌<◌, ◌≤◌, ◌^◌, List, ℕ, IsTrue, IfOk, IsErrOf, length, vec_len};
ghost use Rattle.outside.specs.Contents.{Holds, IsLonger};
ghost use Rattle.outside.specs.Faults.{HasReadCause};
ghost use Rattle.outside.specs.Written.{Wrote};
ghost use Rattle.outside.specs.declared.whole.FileFail.TheVariants.{OutOfMemory};

use crate::{Files, Sink, WriteFail};
use std::alloc::{AllocError, Global};

/// How many bytes are asked for at once.
const PIECE: usize = 262_144;

/// Why a file wasn't read whole.
#[derive(Clone, Copy, Debug, PartialEq, Eq)]
pub enum FileFail {
    /// The host refused.
    Failed,
    /// The file is longer than the limit.
    TooLong,
    OutOfMemory,
}

impl From<AllocError> for FileFail {
    ghost from_gives = { λ _ e. e ≡ OutOfMemory };

    fn from(_: AllocError) -> Self {
        FileFail::OutOfMemory
    }
}

/// The bytes of a file, all of them. One byte past the limit is read at most.
pub fn read_whole<F: Files>(
    alloc: Global,
    files: &mut F,
    name: &str,
    limit: usize,
) -> Result<Vec<u8>, FileFail>
    requires admitted { IsTrue ((F.state files.old).admits name.now) }
    requires limit { limit < 2 ^ 62 }
    ensures whole { IfOk result (λ bytes. Holds (F.state files.old).told name.now bytes.items) }
    ensures within { IfOk result (λ bytes. vec_len bytes ≤ limit) }
    ensures long { IsErrOf result FileFail.TooLong → IsLonger (F.state files.old).told name.now limit }
    ensures contents { (F.state files.new).told ≡ (F.state files.old).told }
    ensures names { (other : List ℕ) → (F.state files.new).admits other ≡ (F.state files.old).admits other }
    ensures cause { HasReadCause (F.state files.old).faults (F.state files.new).faults result }
{
    let mut buf = vec![in alloc; 0u8; PIECE]?;
    read_pieces(alloc, files, name, limit, buf.as_mut_slice())
}

/// The bytes of a file, piece after piece through the buffer.
fn read_pieces<F: Files>(
    alloc: Global,
    files: &mut F,
    name: &str,
    limit: usize,
    buf: &mut [u8],
) -> Result<Vec<u8>, FileFail>
    requires admitted { IsTrue ((F.state files.old).admits name.now) }
    requires limit { limit < 2 ^ 62 }
    requires room { 0 < length buf.old }
    ensures whole { IfOk result (λ bytes. Holds (F.state files.old).told name.now bytes.items) }
    ensures within { IfOk result (λ bytes. vec_len bytes ≤ limit) }
    ensures long { IsErrOf result FileFail.TooLong → IsLonger (F.state files.old).told name.now limit }
    ensures contents { (F.state files.new).told ≡ (F.state files.old).told }
    ensures names { (other : List ℕ) → (F.state files.new).admits other ≡ (F.state files.old).admits other }
    ensures cause { HasReadCause (F.state files.old).faults (F.state files.new).faults result }
{
    let mut bytes = Vec::new(alloc);
    while bytes.len() <= limit {
        let room = (limit - bytes.len() + 1).min(buf.len());
        let Ok(count) = files.read(name, bytes.len() as u64, &mut buf[..room]) else {
            return Err(FileFail::Failed);
        };
        if count == 0 {
            return Ok(bytes);
        }
        bytes.extend_from_slice(&buf[..count])?;
    }
    Err(FileFail::TooLong)
}

/// Writes all of a piece, in as many writes as the sink needs. After an error the front of the piece is written.
pub fn write_whole<K: Sink>(sink: &mut K, piece: &[u8]) -> Result<(), WriteFail>
    ensures { Wrote (K.state sink.old) (K.state sink.new) piece.now result }
{
    let mut at = 0;
    while at < piece.len() {
        at += sink.write(&piece[at..])?;
    }
    Ok(())
}
