// Files and a sink in memory, which tell their bytes. The listed calls fail.
ghost use Rattle.std.specs.Prelude.{◌≡◌, ◌≢◌, ◌<◌, ◌≤◌, ◌↔◌, Some, true, Err, option_map, length, min, max, is_some, is_err, IsTrue, IsOk, IfOk, IsErrOf};
ghost use Rattle.outside.specs.Contents.{find, contents_of, ReadsAt, ReadsFrom};
ghost use Rattle.outside.specs.Faults.{HasCause};
ghost use Rattle.outside.specs.Written.{Writes, HasWriteCause};

use crate::{Failed, Files, Sink, WriteFail};
use text_base::Text;

/// Files in memory, in which the first entry of a name counts. The calls that `failing` lists, numbered from 0, fail,
/// and so does each call on an absent name. `calls` is the number of the next call, up to the greatest u64.
#[derive(Drop)]
pub struct MemoryFiles {
    pub map: Vec<(Text, Vec<u8>)>,
    pub calls: u64,
    pub failing: Vec<u64>,
    pub faults: u64,
}

/// A sink in memory, which takes at most `most` bytes in a call, and at least one. The calls that `failing` lists fail.
#[derive(Drop)]
pub struct MemorySink {
    pub bytes: Vec<u8>,
    pub most: usize,
    pub calls: u64,
    pub failing: Vec<u64>,
    pub faults: u64,
}

/// Files in memory that never fail. Only their own names are asked for.
#[derive(Drop)]
pub struct SureFiles {
    pub map: Vec<(Text, Vec<u8>)>,
}

/// A sink in memory that never fails.
#[derive(Drop)]
pub struct SureSink {
    pub bytes: Vec<u8>,
}

fn held<'a>(map: &'a [(Text, Vec<u8>)], name: &str) -> Option<&'a Vec<u8>>
    ensures { option_map (λ bytes. bytes.now.items) result ≡ find name.now (contents_of map.now) }
{
    for entry in map {
        if entry.0.as_str() == name {
            return Some(&entry.1);
        }
    }
    None
}

fn read_part(bytes: &[u8], from: u64, buf: &mut [u8]) -> usize
    requires { 0 < length buf.old }
    ensures part { ReadsAt bytes.now from result buf.new }
    ensures within { result ≤ length buf.new }
{
    let Ok(from) = usize::try_from(from) else {
        return 0;
    };
    if bytes.len() <= from {
        return 0;
    }
    let rest = &bytes[from..];
    let count = rest.len().min(buf.len());
    buf[..count].copy_from_slice(&rest[..count]);
    count
}

impl Files for MemoryFiles {
    ghost use Rattle.outside.specs.Memory.{fails, after_read};

    ghost state = { λ files. record { told = Some (contents_of files.map.items); admits = λ name. true; faults = files.faults } };

    fn read(&mut self, name: &str, from: u64, buf: &mut [u8]) -> Result<usize, Failed>
        requires { 0 < length buf.old }
        ensures within { IfOk result (λ n. n ≤ length buf.new) }
        ensures bytes { IfOk result (λ n. ReadsFrom (Some (contents_of self.old.map.items)) name.now from n buf.new) }
        ensures contents { Some (contents_of self.new.map.items) ≡ Some (contents_of self.old.map.items) }
        ensures cause { HasCause self.old.faults self.new.faults result }
        ensures fails { is_err result ≡ fails self.old name.now }
        ensures after { self.new ≡ after_read self.old (is_err result) }
    {
        let fails = self.failing.contains(&self.calls);
        self.calls = self.calls.saturating_add(1);
        if fails {
            self.faults = self.faults.saturating_add(1);
            return Err(Failed);
        }
        match held(&self.map, name) {
            Some(bytes) => Ok(read_part(bytes, from, buf)),
            None => {
                self.faults = self.faults.saturating_add(1);
                Err(Failed)
            }
        }
    }
}

impl Files for SureFiles {
    ghost state = { λ files. let held = contents_of files.map.items in record { told = Some held; admits = λ name. is_some (find name held); faults = 0 } };

    fn read(&mut self, name: &str, from: u64, buf: &mut [u8]) -> Result<usize, Failed>
        requires admitted { IsTrue (is_some (find name.now (contents_of self.old.map.items))) }
        requires room { 0 < length buf.old }
        ensures within { IfOk result (λ n. n ≤ length buf.new) }
        ensures bytes { IfOk result (λ n. ReadsFrom (Some (contents_of self.old.map.items)) name.now from n buf.new) }
        ensures cause { HasCause 0 0 result }
        ensures sure { IsOk result }
        ensures same { self.new ≡ self.old }
    {
        match held(&self.map, name) {
            Some(bytes) => Ok(read_part(bytes, from, buf)),
            None => unreachable!(),
        }
    }
}

impl Sink for MemorySink {
    ghost use Rattle.outside.specs.Memory.{is_listed, after_write};

    ghost state = { λ sink. record { written = Some sink.bytes.items; faults = sink.faults } };

    fn write(&mut self, piece: &[u8]) -> Result<usize, WriteFail>
        requires { 0 < length piece.now }
        ensures some { IfOk result (λ n. 0 < n) }
        ensures within { IfOk result (λ n. n ≤ length piece.now) }
        ensures bytes { Writes (Some self.old.bytes.items) (Some self.new.bytes.items) piece.now result }
        ensures cause { HasWriteCause self.old.faults self.new.faults result }
        ensures failed { IsErrOf result WriteFail.Failed ↔ IsTrue (is_listed self.old.calls self.old.failing) }
        ensures takes { IfOk result (λ n. n ≡ min (length piece.now) (max self.old.most 1)) }
        ensures after { self.new ≡ after_write self.old self.new.bytes (is_listed self.old.calls self.old.failing) }
    {
        let fails = self.failing.contains(&self.calls);
        self.calls = self.calls.saturating_add(1);
        if fails {
            self.faults = self.faults.saturating_add(1);
            return Err(WriteFail::Failed);
        }
        let count = piece.len().min(self.most.max(1));
        self.bytes.extend_from_slice(&piece[..count])?;
        Ok(count)
    }
}

impl Sink for SureSink {
    ghost state = { λ sink. record { written = Some sink.bytes.items; faults = 0 } };

    fn write(&mut self, piece: &[u8]) -> Result<usize, WriteFail>
        requires { 0 < length piece.now }
        ensures some { IfOk result (λ n. 0 < n) }
        ensures within { IfOk result (λ n. n ≤ length piece.now) }
        ensures bytes { Writes (Some self.old.bytes.items) (Some self.new.bytes.items) piece.now result }
        ensures cause { HasWriteCause 0 0 result }
        ensures whole { IfOk result (λ n. n ≡ length piece.now) }
        ensures sure { result ≢ Err WriteFail.Failed }
    {
        self.bytes.extend_from_slice(piece)?;
        Ok(piece.len())
    }
}
