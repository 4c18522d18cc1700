ghost use Rattle.std.specs.Prelude.{◌≡◌, ◌≤◌, IfOk, IfSome, MatchResult, vec_len};
ghost use Rattle.std.specs.FinMap.{get};
ghost use Rattle.flow_io.specs.declared.reading.ReadRefusal.TheVariants.{Failed as failed, NoMemory as no_memory};
ghost use Rattle.flow_io.specs.Faults.{HasRisen};
ghost use Rattle.flow_io.specs.Whole.{IsWhole, IsCause, OnFailed};

use crate::folder::{Failed, Folder, Part};
use std::alloc::{AllocError, Global};

/// How many bytes are read in one call, at most.
const PART: usize = 16_384;

/// Why a file was not read.
#[derive(Clone, Copy, Debug, PartialEq, Eq)]
pub enum ReadRefusal {
    /// The folder has no such name.
    Missing,
    /// The content is longer than the limit.
    TooLarge,
    /// A call on the folder failed.
    Failed,
    /// Memory ran out.
    NoMemory,
}

impl From<Failed> for ReadRefusal {
    ghost from_gives = { λ _ refusal. refusal ≡ failed };

    fn from(_: Failed) -> ReadRefusal {
        ReadRefusal::Failed
    }
}

impl From<AllocError> for ReadRefusal {
    ghost from_gives = { λ _ refusal. refusal ≡ no_memory };

    fn from(_: AllocError) -> ReadRefusal {
        ReadRefusal::NoMemory
    }
}

/// The whole content of the name, read to its end, if it has no more than `limit` bytes.
///
/// Over a folder that tells what it holds, `Missing` comes exactly where it has no such name, and `TooLarge` exactly
/// where the content is longer than `limit`, unless a call fails or memory runs out. `Failed` comes only where the
/// folder's count of faults rose in this call. No more than `limit + 1` bytes are read.
pub fn read_whole<F: Folder>(
    alloc: Global,
    folder: &mut F,
    name: &str,
    limit: u64,
) -> Result<Vec<u8>, ReadRefusal>
    ensures told { IfSome (F.held folder.old) (λ files. MatchResult result
        (λ bytes. IsWhole (get files name.now) limit bytes.items)
        (IsCause (get files name.now) limit)) }
    ensures within { IfOk result (λ bytes. vec_len bytes ≤ limit) }

    ensures failed { OnFailed result (HasRisen (F.faults folder.old) (F.faults folder.new)) }
    ensures counted { F.faults folder.old ≤ F.faults folder.new }
    ensures kept { F.held folder.new ≡ F.held folder.old }
{
    let mut content = Vec::new(alloc);
    let mut buffer = [0u8; PART];
    loop {
        let from = content.len() as u64;
        // One byte past the limit shows that there is more.
        let left = (limit - from).saturating_add(1);
        let into = &mut buffer[..(PART as u64).min(left) as usize];
        match folder.read_part(name, from, into)? {
            Part::Missing => return Err(ReadRefusal::Missing),
            Part::End => return Ok(content),
            Part::Bytes(n) if n as u64 > limit - from => return Err(ReadRefusal::TooLarge),
            Part::Bytes(n) => content.extend_from_slice(&into[..n])?,
        }
    }
}
