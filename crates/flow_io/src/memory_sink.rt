ghost use Rattle.std.specs.Prelude.{◌≡◌, ◌↔◌, ◌+◌, ◌<◌, ◌≤◌, ◌++◌, [], Some, length, min, take, vec_capacity, vec_len, IfOk, IsErr, OnErr, OnOk};
ghost use Rattle.flow_io.specs.Faults.{HasRisen, one_more};
ghost use Rattle.flow_io.specs.Memory.{FailsAt};
ghost use Rattle.flow_io.specs.Pieces.{IsTakenOf};

use crate::folder::Failed;
use crate::sink::Sink;
use std::alloc::{AllocError, Global};
use std::marker::Model;

/// A sink in memory, with room for so many bytes, which fails at chosen calls. Its calls are numbered from 0, up to
/// 2^64 - 1, where the number stays; those with an empty piece have none.
#[derive(Drop)]
pub struct MemorySink {
    written: Vec<u8>,
    room: usize,
    failing: Vec<u64>,
    calls: u64,
    faults: u64,
}

impl Model for MemorySink {
    ghost use Rattle.std.specs.Prelude.{◌+◌, ◌≤◌, vec_capacity, vec_len};
    ghost use Rattle.flow_io.specs.Memory.{SinkState};

    ghost Value = { SinkState };

    ghost view = { λ s. record {
      written = s.written.items;
      room = s.room;
      failing = s.failing.items;
      calls = s.calls;
      faults = s.faults;
    } };

    ghost invariant = { λ s. vec_len s.written + s.room ≤ vec_capacity s.written };
}

impl MemorySink {
    /// An empty sink with room for so many bytes, of which the calls with these numbers fail. It takes the memory for
    /// all of the room.
    pub fn new(alloc: Global, room: usize, failing: Vec<u64>) -> Result<MemorySink, AllocError>
        ensures { IfOk result (λ sink. sink
            ≡ record { written = []; room = room; failing = failing.items; calls = 0; faults = 0 }) }
    {
        Ok(MemorySink {
            written: Vec::with_capacity(alloc, room)?,
            room,
            failing,
            calls: 0,
            faults: 0,
        })
    }

    /// The bytes written.
    pub fn written(&self) -> &[u8]
        ensures { result.now ≡ self.now.written }
    {
        self.written.as_slice()
    }
}

impl Sink for MemorySink {
    ghost written = { λ sink. Some sink.written };

    ghost faults = { λ sink. sink.faults };

    fn write(&mut self, piece: &[u8]) -> Result<usize, Failed>
        // As much of the piece as room is left.
        ensures taken { IfOk result (IsTakenOf piece.now) }
        ensures most { IfOk result (λ n. n ≡ min (length piece.now) self.old.room) }
        ensures appended { IfOk result (λ n. self.new.written ≡ self.old.written ++ take n piece.now) }
        ensures room { IfOk result (λ n. self.new.room + n ≡ self.old.room) }
        ensures unchanged { OnErr result ((self.new.written ≡ self.old.written) × (self.new.room ≡ self.old.room)) }

        ensures failed { OnErr result (HasRisen self.old.faults self.new.faults) }
        ensures counted { self.old.faults ≤ self.new.faults }

        // It fails at the chosen calls, or where no room is left, and at no other.
        ensures fails { IsErr result ↔ FailsAt self.old piece.now }
        ensures risen { OnErr result (self.new.faults ≡ one_more self.old.faults) }
        ensures steady { OnOk result (self.new.faults ≡ self.old.faults) }
        ensures never { self.old.failing ≡ [] → length piece.now ≤ self.old.room → self.new.faults ≡ self.old.faults }
        ensures empty { length piece.now ≡ 0 → (result ≡ Ok 0) × (self.new ≡ self.old) }
        ensures number { 0 < length piece.now → self.new.calls ≡ one_more self.old.calls }
        ensures chosen { self.new.failing ≡ self.old.failing }
    {
        if piece.is_empty() {
            return Ok(0);
        }
        let number = self.calls;
        self.calls = number.saturating_add(1);
        if self.room == 0 || self.failing.contains(&number) {
            self.faults = self.faults.saturating_add(1);
            return Err(Failed);
        }
        let n = piece.len().min(self.room);
        self.written.extend_from_slice(&piece[..n]).unwrap();
        self.room -= n;
        Ok(n)
    }
}
