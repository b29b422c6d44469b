// The host's files. They tell no bytes, and count the host's failures.
ghost use Rattle.std.specs.Prelude.{◌≤◌, None, true, length, IfOk};

use outside::{Failed, Files};
use std::fs::File;
use std::io;
use std::io::Read;
use std::os::unix::fs::FileExt;

/// A file that is open, and how many of its bytes were read.
#[derive(Drop)]
struct OpenFile {
    name: String,
    file: File,
    at: u64,
}

impl OpenFile {
    /// Reads what comes next.
    fn read_on(&mut self, buf: &mut [u8]) -> io::Result<usize>
        ensures { IfOk result (λ n. n ≤ length buf.new) }
    {
        let count = self.file.read(buf)?;
        self.at = self.at.saturating_add(count as u64);
        Ok(count)
    }
}

/// The host's files. The one that was read last stays open, so that a file is opened once however long it is, and a
/// pipe can be read too.
#[derive(Drop)]
pub struct HostFiles<'a> {
    rt: &'a HostRuntime,
    open: Option<OpenFile>,
    faults: u64,
}

impl<'a> HostFiles<'a> {
    /// The files of the host that the program runs on.
    pub fn new(rt: &'a HostRuntime) -> HostFiles<'a> {
        HostFiles {
            rt,
            open: None,
            faults: 0,
        }
    }
}

/// Opens a file and reads its first bytes.
fn open_file(rt: &HostRuntime, name: &str, buf: &mut [u8]) -> io::Result<(OpenFile, usize)>
    ensures { IfOk result (λ r. r.1 ≤ length buf.new) }
{
    let name_copy = String::from_str(rt.alloc(), name)?;
    let file = File::open(rt, name)?;
    let mut open = OpenFile {
        name: name_copy,
        file,
        at: 0,
    };
    let count = open.read_on(buf)?;
    Ok((open, count))
}

/// Reads bytes from the middle of a file that isn't open.
fn read_part(rt: &HostRuntime, name: &str, from: u64, buf: &mut [u8]) -> io::Result<usize>
    ensures { IfOk result (λ n. n ≤ length buf.new) }
{
    let file = File::open(rt, name)?;
    file.read_at(buf, from)
}

/// Reads some bytes of a file, from the open one where it is that.
fn read_host(
    rt: &HostRuntime,
    open: &mut Option<OpenFile>,
    name: &str,
    from: u64,
    buf: &mut [u8],
) -> io::Result<usize>
    ensures { IfOk result (λ n. n ≤ length buf.new) }
{
    if let Some(file) = open {
        if file.name.as_str() == name && file.at == from {
            return file.read_on(buf);
        }
    }
    if from > 0 {
        return read_part(rt, name, from, buf);
    }
    let (file, count) = open_file(rt, name, buf)?;
    *open = Some(file);
    Ok(count)
}

impl<'a> Files for HostFiles<'a> {
    ghost state = { λ files. record { told = None; admits = λ name. true; faults = files.faults } };

    fn read(&mut self, name: &str, from: u64, buf: &mut [u8]) -> Result<usize, Failed> {
        match read_host(self.rt, &mut self.open, name, from, buf) {
            Ok(count) => Ok(count),
            Err(_) => {
                self.faults = self.faults.saturating_add(1);
                Err(Failed)
            }
        }
    }
}
