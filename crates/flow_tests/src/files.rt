//! Files that are too large, and the files and the output of the system.
use crate::program::told_of_graph;
use crate::specifications::LIVE;
use flow_io::{Failed, ReadRefusal, RealFolder, RealSink, read_whole, write_all};
use std::alloc::{AllocError, Global};
use std::io::{ErrorKind, Print};
use std::test::Fail;
use std::{env, fmt, fs, io, process};

fn blanks(alloc: Global, count: usize) -> Result<Vec<u8>, AllocError> {
    vec![in alloc; b' '; count]
}

/// What is told of a specification and a tree with so many blanks in front.
fn told_behind_blanks(alloc: Global, spec: usize, tree: usize) -> Result<String, AllocError> {
    let mut spec = blanks(alloc, spec)?;
    spec.extend_from_slice(LIVE.as_bytes())?;
    let tree = blanks(alloc, tree)?;
    told_of_graph(alloc, "specification", spec.as_slice(), tree.as_slice())
}

#[test]
fn the_first_file_that_is_too_large_is_refused(rt: HostRuntime) -> Result<(), Fail> {
    let spec = (1 << 20) - LIVE.len();
    let tree = (1 << 25) + 1;
    for (spec, tree, told) in [
        (spec + 1, tree, "too large"),
        (spec, tree, "1 tree: too large;"),
    ] {
        let got = told_behind_blanks(rt.alloc(), spec, tree)?;
        assert_eq!(rt; got.as_str(), told, "{spec} {tree}");
    }
    Ok(())
}

/// No contract says what a file of the system holds.
#[test]
fn a_file_of_the_system_is_read(rt: HostRuntime) -> Result<(), Fail> {
    let alloc = rt.alloc();
    let name = format!(in alloc; "flow_tests-{}", process::id(rt.process()))?;
    let path = env::temp_dir(&rt)?.join(alloc, name.as_str())?;
    let path = path.as_str();
    let bytes = blanks(alloc, 40_000)?;
    fs::write(&rt, path, bytes.as_slice())?;
    let mut folder = RealFolder::new(&rt);
    let read = read_whole(alloc, &mut folder, path, 40_000);
    let too_large = read_whole(alloc, &mut folder, path, 39_999);
    fs::remove_file(&rt, path)?;
    let missing = read_whole(alloc, &mut folder, path, 40_000);
    let directory = read_whole(alloc, &mut folder, ".", 40_000);
    assert!(rt; read.ok().ok_or("refused")?.as_slice() == bytes.as_slice());
    assert_eq!(rt; too_large.err(), Some(ReadRefusal::TooLarge));
    assert_eq!(rt; missing.err(), Some(ReadRefusal::Missing));
    assert_eq!(rt; directory.err(), Some(ReadRefusal::Failed));
    Ok(())
}

/// An output that takes so many bytes in each call, or none.
#[derive(Drop)]
struct Taking(usize);

impl Print for Taking {
    fn print<D: fmt::Display + Drop>(&self, _value: D) -> io::Result<()> {
        Err(io::Error::from(ErrorKind::Unsupported))
    }

    fn println<D: fmt::Display + Drop>(&self, _value: D) -> io::Result<()> {
        Err(io::Error::from(ErrorKind::Unsupported))
    }

    fn write_all(&self, _bytes: &[u8]) -> io::Result<()> {
        Err(io::Error::from(ErrorKind::BrokenPipe))
    }

    fn write_some(&self, bytes: &[u8]) -> io::Result<usize> {
        if self.0 > 9 {
            self.write_all(bytes)?;
        }
        Ok(bytes.len().min(self.0))
    }
}

#[test]
fn standard_output_takes_bytes_or_fails(rt: HostRuntime) {
    assert_eq!(rt; write_all(&mut RealSink::new(&rt), b"one\n"), Ok(()));
    for (most, want) in [(1, Ok(())), (0, Err(Failed)), (10, Err(Failed))] {
        let output = Taking(most);
        assert_eq!(rt;
            write_all(&mut RealSink::new(&output), b"one"),
            want,
            "{most}"
        );
    }
}
