ghost use Rattle.std.specs.Prelude.{◌≡◌, ℕ, ◌≤◌, List, Option, length, take, IfOk, OnErr};
ghost use Rattle.flow_io.specs.Faults.{HasRisen};
ghost use Rattle.flow_io.specs.Pieces.{IsTakenOf, appended};

use crate::folder::Failed;

/// What takes bytes, one after another.
pub trait Sink {
    /// The bytes taken so far, or `None` where the sink doesn't tell.
    ghost written: { Self → Option (List ℕ) };

    /// How many calls have failed; it stops at 2^64 - 1.
    ghost faults: { Self → ℕ };

    /// Takes bytes from the front of the piece, and answers how many: none of an empty piece, else at least one.
    ///
    /// It fails only where the count of faults rises, and then has taken nothing.
    fn write(&mut self, piece: &[u8]) -> Result<usize, Failed>
        ensures taken { IfOk result (IsTakenOf piece.now) }
        ensures appended { IfOk result (λ n. written self.new ≡ appended (written self.old) (take n piece.now)) }
        ensures empty { length piece.now ≡ 0 → (result ≡ Ok 0) × (faults self.new ≡ faults self.old) }
        ensures unchanged { OnErr result (written self.new ≡ written self.old) }

        ensures failed { OnErr result (HasRisen (faults self.old) (faults self.new)) }
        ensures counted { faults self.old ≤ faults self.new };
}
