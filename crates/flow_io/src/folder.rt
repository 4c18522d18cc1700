ghost use Rattle.std.specs.Prelude.{◌≡◌, ℕ, ◌<◌, ◌≤◌, Option, length, IfOk, IfSome, OnErr};
ghost use Rattle.std.specs.FinMap.{get};
ghost use Rattle.flow_io.specs.Contents.{Contents};
ghost use Rattle.flow_io.specs.Faults.{HasRisen};
ghost use Rattle.flow_io.specs.Parts.{FitsBuffer, IsPartOf};

/// A call on a folder or a sink failed. Only its count of faults says how often that has happened.
#[derive(Clone, Copy, Debug, PartialEq, Eq)]
pub struct Failed;

/// What a folder answers to a call that asks for a part of a file.
#[derive(Clone, Copy, Debug, PartialEq, Eq)]
pub enum Part {
    /// So many bytes were put at the front of the buffer.
    Bytes(usize),
    /// The content ends at the offset or before it.
    End,
    /// The folder has no such name.
    Missing,
}

/// Files by their names.
pub trait Folder {
    /// The names with their contents, or `None` where the folder doesn't tell.
    ghost held: { Self → Option Contents };

    /// How many calls have failed; it stops at 2^64 - 1.
    ghost faults: { Self → ℕ };

    /// Reads bytes of the file of this name into the front of the buffer, those from the byte offset `from` on. It may
    /// read fewer than there are.
    ///
    /// It fails only where the count of faults rises. No call changes what the folder holds.
    fn read_part(&mut self, name: &str, from: u64, into: &mut [u8]) -> Result<Part, Failed>
        requires { 0 < length into.old }

        ensures fits { IfOk result (FitsBuffer (length into.old)) }
        ensures part { IfSome (held self.old) (λ files. IfOk result (IsPartOf (get files name.now) from into.new)) }

        ensures failed { OnErr result (HasRisen (faults self.old) (faults self.new)) }
        ensures counted { faults self.old ≤ faults self.new }
        ensures kept { held self.new ≡ held self.old };
}
