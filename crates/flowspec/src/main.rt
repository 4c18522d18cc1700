//! The program `flowspec`: the real files, the real output and the words, handed to `flow_cli::run`.
#![tactic(auto)]

use flow_cli::{Status, run};
use flow_io::{RealFolder, RealSink};
use flow_term::{List, Text};
use std::alloc::{AllocError, Global};
use std::env::Args;
use std::io::ErrorKind;
use std::process::ExitCode;
use std::{env, io};

const USAGE: &str =
    "usage: flowspec graph SPEC TREE | analyse SPEC TREE [--budget N] | session SPEC TREE SCRIPT [--budget N] | check SPEC TREE CERT | load N";

fn main(rt: HostRuntime) -> ExitCode {
    let status = match words(rt.alloc(), env::args(&rt)) {
        Ok(words) => run(
            rt.alloc(),
            &words,
            &mut RealFolder::new(&rt),
            &mut RealSink::new(&rt),
        ),
        Err(status) => status,
    };
    if let Some(line) = message(status) {
        let _ = eprintln!(rt; "{line}");
    }
    ExitCode::from(status.code())
}

/// The words behind the program's name, or how the program ends without them: one of them is no UTF-8, or memory ran out.
fn words(alloc: Global, args: io::Result<Args>) -> Result<List<Text>, Status> {
    match args {
        Ok(args) => listed(alloc, args).map_err(|_| Status::NoMemory),
        Err(error) if error.kind() == ErrorKind::InvalidData => Err(Status::Usage),
        Err(_) => Err(Status::NoMemory),
    }
}

fn listed(alloc: Global, args: Args) -> Result<List<Text>, AllocError> {
    let mut words = List::new(alloc);
    for word in args.skip(1) {
        words.push(Text::from_string(word))?;
    }
    Ok(words)
}

/// The line on standard error, if the status has one.
fn message(status: Status) -> Option<&'static str> {
    match status {
        Status::Done | Status::Refused => None,
        Status::Usage => Some(USAGE),
        Status::ReadFault => Some("flowspec: read fault"),
        Status::WriteFault => Some("flowspec: write fault"),
        Status::NoMemory => Some("flowspec: no memory"),
    }
}
