// The host's standard output. It tells no bytes, and counts the host's failures.
ghost use Rattle.std.specs.Prelude.{None};

use outside::{Sink, WriteFail};

/// The host's standard output. A write that takes nothing counts as a failure.
#[derive(Drop)]
pub struct HostSink<'a> {
    rt: &'a HostRuntime,
    faults: u64,
}

impl<'a> HostSink<'a> {
    /// The standard output of the program.
    pub fn new(rt: &'a HostRuntime) -> HostSink<'a> {
        HostSink { rt, faults: 0 }
    }
}

impl<'a> Sink for HostSink<'a> {
    ghost state = { λ sink. record { written = None; faults = sink.faults } };

    fn write(&mut self, piece: &[u8]) -> Result<usize, WriteFail> {
        match self.rt.write_some(piece) {
            Ok(count) if count > 0 => Ok(count),
            _ => {
                self.faults = self.faults.saturating_add(1);
                Err(WriteFail::Failed)
            }
        }
    }
}
