//! The lattice of a type.
ghost use Rattle.std.specs.Prelude.{◌≡◌, ◌↔◌, IsTrue, IfOk};
ghost use Rattle.value_domains.specs.Domains.{IsValueOf, least_of};
ghost use Rattle.lattice_any.specs.Tables.{domain_in};
ghost use Rattle.lattice_any.specs.Types.{domain_of_any};

use crate::copy::{build_lattice, copy_lattice};
use crate::join::{join_values, least_value};
use crate::member::{is_least, is_value};
use crate::named::NamedTable;
use crate::order::is_below;
use crate::same::is_same_value;
use crate::tables::Tables;
use flow_syntax::{ElemSort, LatticeType};
use flow_term::{Boxed, Value};
use lattice_base::Lattice;
use std::alloc::{AllocError, Global};

/// The lattice of a type of a specification. Its values are those of the type: sets rise strictly, a map's keys rise
/// strictly and no key has the bottom of the map's inner lattice, and every element is of its sort.
#[derive(Drop)]
pub enum AnyL {
    /// Sets of elements of a sort, ordered by inclusion and joined by union.
    May(ElemSort),
    /// Sets of elements of a sort, ordered by inclusion turned round and joined by intersection; below all of them
    /// `Unreached`.
    Must(ElemSort),
    /// Elements of a sort side by side, between `Bottom` and `Top`.
    Flat(ElemSort),
    /// Maps from elements of a sort to the values of a lattice, key by key. An absent key stands for bottom.
    Map(ElemSort, Boxed<AnyL>),
    /// Pairs of values of two lattices, part by part.
    Pair(Boxed<AnyL>, Boxed<AnyL>),
    /// The elements of a declared lattice, ordered and joined by its table.
    Table(NamedTable),
}

impl AnyL {
    /// The lattice of the type, with these tables for the lattices that it names; a name that is none of theirs stands for the
    /// lattice of one element. Fails only for want of memory.
    pub fn build(alloc: Global, tables: &Tables, of: &LatticeType) -> Result<AnyL, AllocError>
        ensures { IfOk result (λ lattice. domain_of_any lattice ≡ domain_in tables.now of.now) }
    {
        build_lattice(alloc, tables, of)
    }

    /// An equal lattice. Fails only for want of memory.
    pub fn duplicate(&self, alloc: Global) -> Result<AnyL, AllocError>
        ensures { IfOk result (λ lattice. lattice ≡ self.now) }
    {
        copy_lattice(alloc, self)
    }

    /// Whether the value is one of the lattice. Takes no memory.
    pub fn contains(&self, value: &Value) -> bool
        ensures { IsTrue result ↔ IsValueOf (domain_of_any self.now) value.now }
    {
        is_value(self, value)
    }

    /// Whether the value is the least of the lattice. Takes no memory.
    pub fn is_least(&self, value: &Value) -> bool
        ensures { IsTrue result ↔ (value.now ≡ least_of (domain_of_any self.now)) }
    {
        is_least(self, value)
    }
}

impl Lattice for AnyL {
    ghost use Rattle.value_domains.specs.Domains.{IsBelowIn, least_of, joined_of};
    ghost use Rattle.lattice_any.specs.TypeLaws.{any_laws, any_order};

    type V = Value;

    ghost valid = { λ l v. IsValueOf (domain_of_any l) v };

    ghost least = { λ l. least_of (domain_of_any l) };

    ghost joined = { λ l a b. joined_of (domain_of_any l) a b };

    ghost below = { λ l a b. IsBelowIn (domain_of_any l) a b };

    fn bottom(&self, alloc: Global) -> Result<Value, AllocError> {
        least_value(self, alloc)
    }

    fn join(&self, alloc: Global, a: &Value, b: &Value) -> Result<Value, AllocError> {
        join_values(self, alloc, a, b)
    }

    fn leq(&self, a: &Value, b: &Value) -> bool {
        is_below(self, a, b)
    }

    fn equal(&self, a: &Value, b: &Value) -> bool {
        is_same_value(a, b)
    }

    fn copy(&self, alloc: Global, a: &Value) -> Result<Value, AllocError> {
        a.duplicate(alloc)
    }

    ghost laws = { any_laws };

    ghost order = { any_order };
}
