//! What evaluates the bodies of a specification's rules.
ghost use Rattle.std.specs.Prelude.{◌≡◌, ◌<◌, ℕ, Bool, List as Sequence, IfOk, IsTrue, length};
ghost use Rattle.flow_syntax.specs.declared.spec.Spec.{Spec as Specification};
ghost use Rattle.flow_syntax.specs.Types.{Typing};
ghost use Rattle.value_domains.specs.Domains.{Domain};
ghost use Rattle.expr_meaning.specs.SpecRanges.{domains_of};
ghost use Rattle.lattice_any.specs.declared.any.AnyL.{AnyL as LatticeValue};
ghost use Rattle.lattice_any.specs.Types.{domain_of_any};
ghost use Rattle.tree_constraints.specs.Laws.{IsAnalysed};
ghost use Rattle.tree_system.specs.Bodies.{AreReadings, CanRead, CanRun, IsBodyValue};

use flow_syntax::Side;
use flow_term::{Bound, List, Value};
use lattice_any::AnyL;
use std::alloc::{AllocError, Global};

/// A property that a body reads, and the side at which it does.
#[derive(Clone, Copy)]
pub struct Reading {
    /// The number of the property, among the declared ones in the order of the text, from 0 on.
    pub property: u32,
    /// The side.
    pub side: Side,
}

/// The values that a body reads.
pub trait Reads {
    ghost use Rattle.flow_term.specs.declared.value.Value.{Value as PropertyValue};
    ghost use Rattle.flow_syntax.specs.declared.expr.Side.{Side as ReadSide};

    // The value of each property, by its number, at each side.
    ghost values: { Self → ℕ → ReadSide → PropertyValue };

    // Which properties, by their numbers, can be read at which sides.
    ghost has: { Self → ℕ → ReadSide → Bool };

    /// The value of a property at a side. Takes no memory.
    fn read(&self, property: u32, side: Side) -> &Value
        requires { IsTrue (has self.now property side) }
        ensures { result.now ≡ values self.now property side };
}

/// The bodies of an accepted specification's rules, ready to be evaluated. It stands for what evaluates expressions.
///
/// # What an implementation gives
///
/// - `spec`, `types`: the specification, and the types of its expressions; `accepted`: it has no fault, its tables are lawful,
///   and its bodies rise with what they read.
/// - `lattice_of`: the lattice of each property; `lattices`: it is that of the property's type.
pub trait Bodies: Drop {
    // The specification.
    ghost spec: { Self → Specification };

    // The types of its expressions.
    ghost types: { Self → Sequence Typing };

    // The lattice of each property, by its number.
    ghost lattice_of: { Self → ℕ → LatticeValue };

    /// The value that the body of a rule gives, where the variables of its pattern stand for these elements. Fails only for
    /// want of memory.
    fn value<R: Reads>(
        &self,
        alloc: Global,
        rule: u32,
        bindings: &[Bound],
        reads: &R,
    ) -> Result<Value, AllocError>
        requires there { rule < length (spec self.now).rules }
        requires suits { CanRun (spec self.now) rule (record { bindings = bindings.now; reads = R.values reads.now }) }
        requires reads { CanRead (spec self.now) rule (R.has reads.now) }
        ensures { IfOk result (IsBodyValue (spec self.now) (types self.now) rule (record { bindings = bindings.now; reads = R.values reads.now })) };

    /// What the body of a rule reads, in order of properties.
    fn readings(&self, rule: u32) -> &List<Reading>
        requires { rule < length (spec self.now).rules }
        ensures { AreReadings (spec self.now) rule result.now };

    /// The lattice of a property.
    fn lattice(&self, property: u32) -> &AnyL
        requires { property < length (spec self.now).properties }
        ensures { result.now ≡ lattice_of self.now property };

    ghost accepted: { (b : Self) → IsAnalysed (spec b) (types b) };

    ghost lattices: { (b : Self) (p : ℕ) → p < length (spec b).properties → domain_of_any (lattice_of b p) ≡ domains_of (spec b) p };
}
