// How a run ends.
ghost use Rattle.std.specs.Prelude.{◌≡◌};
ghost use Rattle.check_core.specs.Status.{number_of};

/// How a run ends.
#[derive(Clone, Copy, Debug, PartialEq, Eq)]
pub enum Status {
    /// What was asked for is written whole.
    Done,
    /// A test failed.
    TestsFailed,
    /// The configuration or the test file has an offence, whose line is written.
    Refused,
    /// A file couldn't be read. Nothing is written.
    ReadFault,
    /// The output took a front of the text, or nothing of it.
    WriteFault,
    /// The words are no call. Nothing is read and nothing is written.
    Usage,
    /// A file, or a line of a report, is longer than its limit. Nothing is written.
    TooLong,
    /// A report has a row that isn't the next route's lawful row, or a row or a byte too few or too many.
    Rejected,
    /// Memory ran out.
    NoMemory,
}

impl Status {
    /// The number that the program ends with, from 0 to 8.
    pub fn number(self) -> u8
        ensures { result ≡ number_of self }
    {
        match self {
            Status::Done => 0,
            Status::TestsFailed => 1,
            Status::Refused => 2,
            Status::ReadFault => 3,
            Status::WriteFault => 4,
            Status::Usage => 5,
            Status::TooLong => 6,
            Status::Rejected => 7,
            Status::NoMemory => 8,
        }
    }
}
