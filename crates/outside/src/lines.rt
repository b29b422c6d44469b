// A file line by line, in the memory of one line and one piece.
ghost use Rattle.std.specs.Prelude.{◌≡◌, ◌<◌, ◌≤◌, ◌+◌, ◌^◌, ◌↔◌, List, [], ℕ, IsTrue, IfOk, OnOk, OnErr, IsErrOf, IfSome, IfNone, length, drop, vec_len};
ghost use Rattle.outside.specs.Contents.{ReadsFrom};
ghost use Rattle.outside.specs.Faults.{HasReadCause};
ghost use Rattle.outside.specs.Lines.{AreAhead, HasLineFeed, HasNoLine, IsLongLine, Left, TakesLineOf, first_line, line_length, LinesState};
ghost use Rattle.outside.specs.Written.{IsFront};
ghost use Rattle.outside.specs.declared.whole.FileFail.TheVariants.{OutOfMemory};

use crate::{FileFail, Files};
use memchr::memchr;
use std::alloc::{AllocError, Global};
use std::marker::Model;

/// How many bytes are asked for at once.
const PIECE: usize = 262_144;

/// A file that is read line by line: how many of its bytes are taken, and the bytes after them that are read already.
#[derive(Drop)]
pub struct Lines {
    taken: u64,
    bytes: Vec<u8>,
    from: usize,
    buf: Vec<u8>,
}

impl Model for Lines {
    ghost Value = { LinesState };

    ghost view = { λ l. record { taken = l.taken; ahead = drop l.from l.bytes.items } };

    ghost invariant = { λ l. (l.from ≤ vec_len l.bytes) × (0 < vec_len l.buf) };
}

/// Where the first line feed stands, or the length.
fn line_end(bytes: &[u8]) -> usize
    ensures place { result ≡ line_length bytes.now }
    ensures within { result ≤ length bytes.now }
{
    match memchr(b'\n', bytes) {
        Some(at) => at,
        None => bytes.len(),
    }
}

/// Reads at most so many bytes of a file from an offset on, and answers how many: none only at the end.
fn read_part<F: Files>(
    files: &mut F,
    name: &str,
    from: u64,
    most: usize,
    buf: &mut [u8],
) -> Result<usize, FileFail>
    requires admitted { IsTrue ((F.state files.old).admits name.now) }
    requires most { 0 < most }
    requires room { 0 < length buf.old }
    ensures within { IfOk result (λ n. n ≤ length buf.new) }
    ensures bytes { IfOk result (λ n. ReadsFrom (F.state files.old).told name.now from n buf.new) }
    ensures short { IsErrOf result FileFail.TooLong → ⊥ }
    ensures contents { (F.state files.new).told ≡ (F.state files.old).told }
    ensures names { (other : List ℕ) → (F.state files.new).admits other ≡ (F.state files.old).admits other }
    ensures cause { HasReadCause (F.state files.old).faults (F.state files.new).faults result }
{
    let room = most.min(buf.len());
    let Ok(count) = files.read(name, from, &mut buf[..room]) else {
        return Err(FileFail::Failed);
    };
    Ok(count)
}

impl Lines {
    /// No byte is taken.
    pub fn new(alloc: Global) -> Result<Lines, AllocError>
        ensures { IfOk result (λ lines. (lines.taken ≡ 0) × (lines.ahead ≡ [])) }
    {
        let buf = vec![in alloc; 0u8; PIECE]?;
        Ok(Lines {
            taken: 0,
            bytes: Vec::new(alloc),
            from: 0,
            buf,
        })
    }

    /// Takes the next line, and answers it without its line feed; `None` where no line feed is left. Of a line, one byte
    /// past the limit is read at most, beside what was read before.
    pub fn next<F: Files>(
        &mut self,
        alloc: Global,
        files: &mut F,
        name: &str,
        limit: usize,
    ) -> Result<Option<Vec<u8>>, FileFail>
        requires admitted { IsTrue ((F.state files.old).admits name.now) }
        requires limit { limit < 2 ^ 62 }
        requires ahead { AreAhead (F.state files.old).told name.now self.old }
        ensures ahead { OnOk result (AreAhead (F.state files.old).told name.now self.new) }
        ensures line { IfOk result (λ found. IfSome found (λ line. TakesLineOf (F.state files.old).told name.now limit self.old.taken self.new.taken line.items)) }
        ensures none { IfOk result (λ found. IfNone found (Left (F.state files.old).told name.now self.old.taken (HasNoLine limit))) }
        ensures stays { IfOk result (λ found. IfNone found (self.new.taken ≡ self.old.taken)) }
        ensures long { IsErrOf result FileFail.TooLong → Left (F.state files.old).told name.now self.old.taken (IsLongLine limit) }
        ensures contents { (F.state files.new).told ≡ (F.state files.old).told }
        ensures names { (other : List ℕ) → (F.state files.new).admits other ≡ (F.state files.old).admits other }
        ensures cause { HasReadCause (F.state files.old).faults (F.state files.new).faults result }
    {
        let mut seen = 0;
        loop {
            let len = self.line_from(seen);
            if limit < len {
                return Err(FileFail::TooLong);
            }
            if len < self.ahead() {
                return Ok(Some(self.take_line(alloc, len)?));
            }
            seen = len;
            if self.fill(files, name, limit - len + 1)? == 0 {
                return Ok(None);
            }
        }
    }

    /// Whether no byte is left.
    pub fn is_at_end<F: Files>(&mut self, files: &mut F, name: &str) -> Result<bool, FileFail>
        requires admitted { IsTrue ((F.state files.old).admits name.now) }
        requires ahead { AreAhead (F.state files.old).told name.now self.old }
        ensures ahead { OnOk result (AreAhead (F.state files.old).told name.now self.new) }
        ensures stays { self.new.taken ≡ self.old.taken }
        ensures end { IfOk result (λ end. Left (F.state files.old).told name.now self.old.taken (λ rest. IsTrue end ↔ (rest ≡ []))) }
        ensures short { IsErrOf result FileFail.TooLong → ⊥ }
        ensures contents { (F.state files.new).told ≡ (F.state files.old).told }
        ensures names { (other : List ℕ) → (F.state files.new).admits other ≡ (F.state files.old).admits other }
        ensures cause { HasReadCause (F.state files.old).faults (F.state files.new).faults result }
    {
        if self.ahead() > 0 {
            return Ok(false);
        }
        let count = self.fill(files, name, 1)?;
        Ok(count == 0)
    }

    /// How many bytes are read past the taken ones.
    fn ahead(&self) -> usize
        ensures { result ≡ length self.now.ahead }
    {
        self.bytes.len() - self.from
    }

    /// How many of the bytes ahead stand before their first line feed, or all. The first `seen` ones aren't looked at.
    fn line_from(&self, seen: usize) -> usize
        requires within { seen ≤ length self.now.ahead }
        requires seen { seen ≤ line_length self.now.ahead }
        ensures place { result ≡ line_length self.now.ahead }
        ensures within { result ≤ length self.now.ahead }
    {
        let ahead = &self.bytes[self.from..];
        seen + line_end(&ahead[seen..])
    }

    /// Takes a line of this length and its line feed out of the bytes ahead.
    fn take_line(&mut self, alloc: Global, len: usize) -> Result<Vec<u8>, FileFail>
        requires place { len ≡ line_length self.old.ahead }
        requires feed { HasLineFeed self.old.ahead }
        ensures line { IfOk result (λ line. line.items ≡ first_line self.old.ahead) }
        ensures ahead { OnOk result (self.new.ahead ≡ drop (len + 1) self.old.ahead) }
        ensures taken { OnOk result (self.new.taken ≡ self.old.taken + (len + 1)) }
        ensures memory { OnErr result (result ≡ Err OutOfMemory) }
    {
        let Some(taken) = self.taken.checked_add(len as u64 + 1) else {
            return Err(FileFail::OutOfMemory);
        };
        let mut line = Vec::new(alloc);
        line.extend_from_slice(&self.bytes[self.from..self.from + len])?;
        self.from += len + 1;
        self.taken = taken;
        Ok(line)
    }

    /// Drops the taken bytes, so that those ahead are the first ones.
    fn shift(&mut self) -> Result<(), FileFail>
        ensures same { self.new ≡ self.old }
        ensures memory { OnErr result (result ≡ Err OutOfMemory) }
    {
        if self.from > 0 {
            self.bytes = self.bytes.split_off(self.from)?;
            self.from = 0;
        }
        Ok(())
    }

    /// Reads at least one byte after those ahead and at most so many, and answers how many: none only at the end.
    fn fill<F: Files>(&mut self, files: &mut F, name: &str, most: usize) -> Result<usize, FileFail>
        requires admitted { IsTrue ((F.state files.old).admits name.now) }
        requires most { 0 < most }
        requires ahead { AreAhead (F.state files.old).told name.now self.old }
        ensures taken { self.new.taken ≡ self.old.taken }
        ensures more { IsFront self.old.ahead self.new.ahead }
        ensures count { IfOk result (λ count. length self.new.ahead ≡ length self.old.ahead + count) }
        ensures ahead { OnOk result (AreAhead (F.state files.old).told name.now self.new) }
        ensures end { IfOk result (λ count. count ≡ 0 → Left (F.state files.old).told name.now self.old.taken (λ rest. rest ≡ self.old.ahead)) }
        ensures short { IsErrOf result FileFail.TooLong → ⊥ }
        ensures contents { (F.state files.new).told ≡ (F.state files.old).told }
        ensures names { (other : List ℕ) → (F.state files.new).admits other ≡ (F.state files.old).admits other }
        ensures cause { HasReadCause (F.state files.old).faults (F.state files.new).faults result }
    {
        self.shift()?;
        let Some(from) = self.taken.checked_add(self.ahead() as u64) else {
            return Err(FileFail::OutOfMemory);
        };
        let count = read_part(files, name, from, most, self.buf.as_mut_slice())?;
        self.bytes.extend_from_slice(&self.buf[..count])?;
        Ok(count)
    }
}
