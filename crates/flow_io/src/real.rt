ghost use Rattle.std.specs.Prelude.{◌≡◌, None};
ghost use Rattle.std.specs.Io.{ReadsAtMost};

use crate::folder::{Failed, Folder, Part};
use crate::sink::Sink;
use std::io::{ErrorKind, Print, Read, Seek, SeekFrom};
use std::marker::Model;
use std::rt::Files;
use std::{fs, io};

/// The files of the system, by their paths. It tells nothing of them; contracts see the count of its faults alone.
#[derive(Drop)]
pub struct RealFolder<'a, R> {
    rt: &'a R,
    faults: u64,
}

impl<'a, R> Model for RealFolder<'a, R> {
    ghost use Rattle.std.specs.Prelude.{ℕ};

    ghost Value = { ℕ };

    ghost view = { λ folder. folder.faults };
}

impl<'a, R: Files> RealFolder<'a, R> {
    /// The folder of this runtime.
    pub fn new(rt: &'a R) -> RealFolder<'a, R>
        ensures { result ≡ 0 }
    {
        RealFolder { rt, faults: 0 }
    }
}

impl<R: Files> Folder for RealFolder<'_, R> {
    ghost held = { λ _. None };

    ghost faults = { λ folder. folder };

    fn read_part(&mut self, name: &str, from: u64, into: &mut [u8]) -> Result<Part, Failed> {
        match read_at(self.rt, name, from, into) {
            Ok(0) => Ok(Part::End),
            Ok(n) => Ok(Part::Bytes(n)),
            Err(error) if error.kind() == ErrorKind::NotFound => Ok(Part::Missing),
            Err(_) => {
                self.faults = self.faults.saturating_add(1);
                Err(Failed)
            }
        }
    }
}

// The file is opened for each part, so that nothing of it is kept between two calls.
fn read_at<R: Files>(rt: &R, path: &str, from: u64, into: &mut [u8]) -> io::Result<usize>
    ensures { ReadsAtMost result into.new }
{
    let mut file = fs::open(rt, path)?;
    file.seek(SeekFrom::Start(from))?;
    file.read(into)
}

/// Standard output. It tells nothing of what it shows; contracts see the count of its faults alone.
#[derive(Drop)]
pub struct RealSink<'a, R> {
    rt: &'a R,
    faults: u64,
}

impl<'a, R> Model for RealSink<'a, R> {
    ghost use Rattle.std.specs.Prelude.{ℕ};

    ghost Value = { ℕ };

    ghost view = { λ sink. sink.faults };
}

impl<'a, R: Print> RealSink<'a, R> {
    /// The standard output of this runtime.
    pub fn new(rt: &'a R) -> RealSink<'a, R>
        ensures { result ≡ 0 }
    {
        RealSink { rt, faults: 0 }
    }
}

impl<R: Print> Sink for RealSink<'_, R> {
    ghost written = { λ _. None };

    ghost faults = { λ sink. sink };

    /// A write that takes nothing of a piece that isn't empty is a fault.
    fn write(&mut self, piece: &[u8]) -> Result<usize, Failed> {
        if piece.is_empty() {
            return Ok(0);
        }
        match self.rt.write_some(piece) {
            Ok(n) if n > 0 => Ok(n),
            _ => {
                self.faults = self.faults.saturating_add(1);
                Err(Failed)
            }
        }
    }
}
