ghost use Rattle.std.specs.Prelude.{◌≡◌, None};
ghost use Rattle.flow_syntax.specs.declared.fault.SpecFaultKind.{SpecFaultKind as Kind};

use flow_syntax::SpecFaultKind;
use std::marker::Model;

/// The earliest fault that was noted so far, if there was one: its place and its kind.
///
/// A fault of a lesser place is earlier, and of two at one place the one whose kind comes first in the order
/// `Unknown`, `Duplicate`, `Arity`, `Sort`, `Unbound`, `MixedDirection`, `WrongEnd`, `MixedItem`, `Nested`, `Depth`.
#[derive(Debug, Drop)]
pub struct Earliest {
    found: Option<(u64, SpecFaultKind)>,
}

impl Model for Earliest {
    ghost use Rattle.std.specs.Prelude.{ℕ, Option};
    ghost use Rattle.flow_syntax.specs.declared.fault.SpecFaultKind.{SpecFaultKind as Kind};

    ghost Value = { Option (ℕ × Kind) };

    ghost view = { λ e. e.found };
}

impl Earliest {
    ghost use Rattle.std.specs.Prelude.{IsTrue};
    ghost use Rattle.check_base.specs.Earliest.{Gathers, IsFault, IsFaultWhere, earlier_of};

    /// No fault yet.
    pub fn new() -> Earliest
        ensures { result ≡ None }
    {
        Earliest { found: None }
    }

    /// Notes a fault of this kind at this place.
    pub fn note(&mut self, place: u64, kind: SpecFaultKind)
        ensures gathers { Gathers self.old self.new (IsFault place kind) }
        ensures value { self.new ≡ earlier_of self.old (place, kind) }
    {
        let is_earlier = match &self.found {
            Some((other, known)) => is_before(place, kind, *other, *known),
            None => true,
        };
        if is_earlier {
            self.found = Some((place, kind));
        }
    }

    /// Notes a fault of this kind at this place, if it is one.
    pub fn note_if(&mut self, is_fault: bool, place: u64, kind: SpecFaultKind)
        ensures { Gathers self.old self.new (IsFaultWhere (IsTrue is_fault) place kind) }
    {
        if is_fault {
            self.note(place, kind);
        }
    }

    /// The earliest fault.
    pub fn found(&self) -> Option<(u64, SpecFaultKind)>
        ensures { result ≡ self.now }
    {
        self.found
    }
}

ghost use Rattle.check_base.specs.Earliest.{is_before, kind_rank};

/// Whether a fault stands before another one, at a lesser place or with an earlier kind.
fn is_before(place: u64, kind: SpecFaultKind, other: u64, known: SpecFaultKind) -> bool
    ensures { result ≡ is_before (place, kind) (other, known) }
{
    place < other || place == other && rank(kind) < rank(known)
}

/// The place of a kind in the order of the kinds, in which `SpecFaultKind` lists them.
fn rank(kind: SpecFaultKind) -> u8
    ensures { result ≡ kind_rank kind }
{
    kind as u8
}
