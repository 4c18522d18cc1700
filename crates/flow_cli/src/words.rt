//! What the words of a call ask for.
ghost use Rattle.std.specs.Prelude.{◌≡◌, IfOk};
ghost use Rattle.flow_cli.specs.Words.{request_of};

use flow_term::{List, Text};
use std::alloc::{AllocError, Global};

/// What the program is to do.
#[derive(Debug, Drop)]
pub enum Request {
    /// Write the nodes and the edges of the tree in the file `tree` by the specification in the file `spec`.
    Graph { spec: Text, tree: Text },
}

/// The request of the words, `graph SPEC TREE`; `None` exactly where they are none. Fails only for want of memory.
pub fn read_words(alloc: Global, words: &List<Text>) -> Result<Option<Request>, AllocError>
    ensures { IfOk result (λ request. request ≡ request_of words.now) }
{
    match words.as_slice() {
        [command, spec, tree] if command.as_str() == "graph" => Ok(Some(Request::Graph {
            spec: copied(alloc, spec)?,
            tree: copied(alloc, tree)?,
        })),
        _ => Ok(None),
    }
}

fn copied(alloc: Global, text: &Text) -> Result<Text, AllocError>
    ensures { IfOk result (λ copy. copy ≡ text.now) }
{
    Ok(Text::from_string(String::from_str(alloc, text.as_str())?))
}
