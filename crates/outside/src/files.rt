// Files by name. A count of faults says when a read may fail.
ghost use Rattle.std.specs.Prelude.{◌≡◌, ◌<◌, ◌≤◌, List, ℕ, IsTrue, IfOk, length};
ghost use Rattle.outside.specs.Faults.{HasCause};
ghost use Rattle.outside.specs.Contents.{ReadsFrom};
ghost use Rattle.outside.specs.States.{FilesState};

/// The host refused.
#[derive(Clone, Copy, Debug, PartialEq, Eq)]
pub struct Failed;

/// Files by name: what each holds, where that is told; which names may be asked for; and a count of the host's
/// failures, which never falls. No call changes what the files hold or which names may be asked for.
pub trait Files {
    /// What each name holds, which names may be asked for, and how often the host has failed, up to the greatest u64.
    ghost state: { Self → FilesState };

    /// Reads some bytes of a file into the front of `buf`, from an offset on, and answers how many: none only at the
    /// file's end. `Failed` comes only where the count of faults rose.
    fn read(&mut self, name: &str, from: u64, buf: &mut [u8]) -> Result<usize, Failed>
        requires admitted { IsTrue ((state self.old).admits name.now) }
        requires room { 0 < length buf.old }
        ensures within { IfOk result (λ n. n ≤ length buf.new) }
        ensures bytes { IfOk result (λ n. ReadsFrom (state self.old).told name.now from n buf.new) }
        ensures contents { (state self.new).told ≡ (state self.old).told }
        ensures names { (other : List ℕ) → (state self.new).admits other ≡ (state self.old).admits other }
        ensures cause { HasCause (state self.old).faults (state self.new).faults result };
}
