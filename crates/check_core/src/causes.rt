// The statuses of failed reads, failed writes and want of memory.
ghost use Rattle.std.specs.Prelude.{◌≡◌};
ghost use Rattle.check_core.specs.Status.{read_status_of, write_status_of};
ghost use Rattle.check_core.specs.declared.status.Status.TheVariants.{NoMemory};

use crate::status::Status;
use outside::{FileFail, WriteFail};
use std::alloc::AllocError;

impl From<FileFail> for Status {
    ghost from_gives = { λ fail status. status ≡ read_status_of fail };

    fn from(fail: FileFail) -> Self {
        match fail {
            FileFail::Failed => Status::ReadFault,
            FileFail::TooLong => Status::TooLong,
            FileFail::OutOfMemory => Status::NoMemory,
        }
    }
}

impl From<WriteFail> for Status {
    ghost from_gives = { λ fail status. status ≡ write_status_of fail };

    fn from(fail: WriteFail) -> Self {
        match fail {
            WriteFail::Failed => Status::WriteFault,
            WriteFail::OutOfMemory => Status::NoMemory,
        }
    }
}

impl From<AllocError> for Status {
    ghost from_gives = { λ _ status. status ≡ NoMemory };

    fn from(_: AllocError) -> Self {
        Status::NoMemory
    }
}
