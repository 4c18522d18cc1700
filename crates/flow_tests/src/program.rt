//! The whole program over files in memory.
use crate::rows::Topic;
use flow_cli::{Status, run};
use flow_io::{MemoryFolder, MemorySink};
use flow_term::{List, Text};
use std::alloc::{AllocError, Global};
use std::test::Fail;

/// A list of words, which a blank stands between.
pub(crate) fn words_of(alloc: Global, words: &str) -> Result<List<Text>, AllocError> {
    let mut list = List::new(alloc);
    for word in words.split_whitespace() {
        list.push(Text::from_string(String::from_str(alloc, word)?))?;
    }
    Ok(list)
}

/// A folder with these contents of `spec` and `tree`, of which no call fails.
fn folder_of(alloc: Global, spec: &[u8], tree: &[u8]) -> Result<MemoryFolder, AllocError> {
    let mut folder = MemoryFolder::new(alloc, Vec::new(alloc));
    folder.put("spec", spec)?;
    folder.put("tree", tree)?;
    Ok(folder)
}

/// What `graph` does with a specification and a tree: the number of its status, and the lines that it writes, each with `;` at its end.
/// Of the refusal of this file only the cause.
pub(crate) fn told_of_graph(
    alloc: Global,
    file: &str,
    spec: &[u8],
    tree: &[u8],
) -> Result<String, AllocError> {
    let words = words_of(alloc, "graph spec tree")?;
    let mut folder = folder_of(alloc, spec, tree)?;
    let mut sink = MemorySink::new(alloc, 1 << 10, Vec::new(alloc))?;
    let status = run(alloc, &words, &mut folder, &mut sink);
    match cause_of(file, status, sink.written()) {
        Some(cause) => String::from_str(alloc, cause),
        None => told_of_run(alloc, status, sink.written()),
    }
}

/// The cause for which a file is refused, if these bytes are its line.
fn cause_of<'a>(file: &str, status: Status, written: &'a [u8]) -> Option<&'a str> {
    if status != Status::Refused {
        return None;
    }
    let line = str::from_utf8(written).ok()?;
    line.strip_prefix(file)?
        .strip_prefix(": ")?
        .strip_suffix("\n")
}

/// The number of the status, and the lines that were written, each with `;` at its end.
pub(crate) fn told_of_run(
    alloc: Global,
    status: Status,
    written: &[u8],
) -> Result<String, AllocError> {
    let mut told = format!(in alloc; "{}", status.code())?;
    if !written.is_empty() {
        told.push(' ')?;
    }
    for byte in written {
        told.push(if *byte == b'\n' {
            ';'
        } else {
            char::from(*byte)
        })?;
    }
    Ok(told)
}

/// Rows of specifications, which are asked for the graph of the tree `f`.
#[derive(Clone, Copy)]
pub(crate) struct OfSpecification;

impl Topic for OfSpecification {
    fn told(&self, alloc: Global, text: &[u8]) -> Result<String, Fail> {
        Ok(told_of_graph(alloc, "specification", text, b"f")?)
    }
}

/// Rows of trees, whose graphs this specification is asked for.
#[derive(Clone, Copy)]
pub(crate) struct OfTree(pub(crate) &'static str);

impl Topic for OfTree {
    fn told(&self, alloc: Global, text: &[u8]) -> Result<String, Fail> {
        Ok(told_of_graph(alloc, "tree", self.0.as_bytes(), text)?)
    }
}

/// Rows of a specification and, behind `&`, a tree.
#[derive(Clone, Copy)]
pub(crate) struct OfBoth;

impl Topic for OfBoth {
    fn told(&self, alloc: Global, text: &[u8]) -> Result<String, Fail> {
        let text = str::from_utf8(text)?;
        let (spec, tree) = text.split_once(" & ").ok_or("no tree")?;
        Ok(told_of_graph(alloc, "tree", spec.as_bytes(), tree.as_bytes())?)
    }
}
