//! Words, files that fail and an output that fails.
use crate::program::{told_of_run, words_of};
use crate::rows::{Topic, wrong_rows};
use crate::specifications::LIVE;
use flow_cli::run;
use flow_io::{MemoryFolder, MemorySink};
use std::alloc::{AllocError, Global};
use std::test::Fail;

/// Rows of runs: the number of the folder's call that fails, the bytes for which the sink has room, the number of the sink's call that
/// fails, and the words.
#[derive(Clone, Copy)]
struct OfRun;

impl Topic for OfRun {
    fn told(&self, alloc: Global, text: &[u8]) -> Result<String, Fail> {
        let text = str::from_utf8(text).unwrap_or("");
        let (read, rest) = text.split_once(' ').unwrap_or((text, ""));
        let (room, rest) = rest.split_once(' ').unwrap_or((rest, ""));
        let (write, words) = rest.split_once(' ').unwrap_or((rest, ""));
        Ok(told_of_words(alloc, words, number(read), number(room), number(write))?)
    }
}

/// The number of a text; of `-` one that no call has.
fn number(text: &str) -> u64 {
    text.parse::<u64>().unwrap_or(u64::MAX)
}

fn told_of_words(
    alloc: Global,
    words: &str,
    failing_read: u64,
    room: u64,
    failing_write: u64,
) -> Result<String, AllocError> {
    let words = words_of(alloc, words)?;
    let mut folder = folder_of(alloc, failing_read)?;
    let failing = vec![in alloc; failing_write]?;
    let mut sink = MemorySink::new(alloc, room.min(1 << 10) as usize, failing)?;
    let status = run(alloc, &words, &mut folder, &mut sink);
    told_of_run(alloc, status, sink.written())
}

/// A specification and a tree, one of each that is refused, and a call that fails.
fn folder_of(alloc: Global, failing: u64) -> Result<MemoryFolder, AllocError> {
    let mut folder = MemoryFolder::new(alloc, vec![in alloc; failing]?);
    folder.put("spec", LIVE.as_bytes())?;
    folder.put("tree", b"Prog([])")?;
    folder.put("bad", b"?")?;
    Ok(folder)
}

const USAGE: &str = r#"
- 99 -  => 2
- 99 - graph => 2
- 99 - graph spec => 2
- 99 - graph spec tree tree => 2
- 99 - Graph spec tree => 2
- 99 - draw spec tree => 2
0 0 0 graph spec => 2
"#;

#[test]
fn other_words_are_usage(rt: HostRuntime) -> Result<(), Fail> {
    assert_eq!(rt; wrong_rows(rt.alloc(), &OfRun, USAGE)?.as_str(), "");
    Ok(())
}

/// Each file takes a call for its bytes and one for its end.
const FAULTS: &str = r#"
- 99 - graph spec tree => 0 nodes 2;/:start;/:end;edges 1;/:start -> /:end;
- 99 - graph none tree => 1 specification: missing;
- 99 - graph none none => 1 specification: missing;
- 99 - graph spec none => 1 tree: missing;
- 99 - graph bad tree => 1 specification: BadCharacter at 0;
- 99 - graph bad none => 1 specification: BadCharacter at 0;
- 99 - graph spec bad => 1 tree: Unexpected at 0;
0 99 - graph spec tree => 3
1 99 - graph spec tree => 3
2 99 - graph spec tree => 3
3 99 - graph spec tree => 3
4 99 - graph spec tree => 0 nodes 2;/:start;/:end;edges 1;/:start -> /:end;
1 99 - graph bad tree => 3
2 99 - graph bad tree => 1 specification: BadCharacter at 0;
1 99 - graph none tree => 1 specification: missing;
- 99 0 graph spec tree => 4
- 99 1 graph spec tree => 0 nodes 2;/:start;/:end;edges 1;/:start -> /:end;
- 8 - graph spec tree => 4 nodes 2;
- 0 - graph spec tree => 4
- 99 0 graph spec bad => 4
- 14 - graph none tree => 4 specification:
"#;

/// Behind a file that is refused none is read: a call that would fail isn't made.
#[test]
fn a_run_ends_at_its_first_fault(rt: HostRuntime) -> Result<(), Fail> {
    assert_eq!(rt; wrong_rows(rt.alloc(), &OfRun, FAULTS)?.as_str(), "");
    Ok(())
}
