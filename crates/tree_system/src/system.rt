//! The system of a tree.
ghost use Rattle.std.specs.Prelude.{◌≡◌, ◌<◌, IfOk, OnOk, [], ⊤, length, true, nat_eq};
ghost use Rattle.list_theory.specs.Lists.{has};
ghost use Rattle.tree_system.specs.Tables.{AreBases, AreTables, by_place};
ghost use Rattle.tree_system.specs.TableLaws.{IsInUse};

use crate::bodies::Bodies;
use crate::reading::{Bases, ReadsAt};
use flow_solver::{System, Values};
use flow_term::{List, Unknown, Value};
use lattice_any::AnyL;
use lattice_base::{Lattice, Steps};
use std::alloc::{AllocError, Global};
use std::cmp::Ordering;
use std::sync::ledger::Ledger;
use tree_constraints::{Constraint, Key};

/// The constraints and the unknowns of a tree, each by its number, and all that a solver asks of them by number.
#[derive(Drop)]
pub struct TreeSystem<B: Bodies> {
    pub(crate) bodies: B,
    // Each at the place of its number.
    pub(crate) constraints: List<Constraint>,
    pub(crate) unknowns: List<Unknown>,
    // The numbers in use, in order.
    pub(crate) keys: List<usize>,
    pub(crate) in_use: List<usize>,
    // By key.
    pub(crate) targets: Vec<usize>,
    pub(crate) reads: Vec<List<usize>>,
    pub(crate) bases: Vec<Bases>,
    // By unknown.
    pub(crate) readers: Vec<List<usize>>,
    pub(crate) aiming: Vec<List<usize>>,
    pub(crate) properties: Vec<u32>,
    // By declared property.
    pub(crate) places: Vec<usize>,
    pub(crate) none: List<usize>,
    ghost tables: { AreTables (B.spec bodies) (by_place constraints unknowns keys in_use) (length constraints) (length unknowns) targets.items reads.items readers.items aiming.items properties.items },
    ghost reading: { AreBases (B.spec bodies) (by_place constraints unknowns keys in_use) bases.items places.items },
    ghost of_tree: { ∥ IsInUse (B.spec bodies) (by_place constraints unknowns keys in_use) ∥₁ },
    ghost none_is: { none ≡ [] },
}

/// An edit that changes nothing.
#[derive(Drop)]
pub struct Unchanged;

impl<B: Bodies> TreeSystem<B> {
    ghost use Rattle.std.specs.Prelude.{get_or};
    ghost use Rattle.tree_system.specs.Tables.{no_constraint, no_unknown};

    /// The unknown with a number that is in use.
    pub fn unknown_of(&self, unknown: usize) -> &Unknown
        requires { has nat_eq self.now.in_use unknown ≡ true }
        ensures { result.now ≡ get_or self.now.unknowns unknown no_unknown }
    {
        &self.unknowns.as_slice()[unknown]
    }

    /// The key of the constraint with a number that is in use.
    pub fn key_of(&self, key: usize) -> &Key
        requires { has nat_eq self.now.keys key ≡ true }
        ensures { result.now ≡ (get_or self.now.constraints key no_constraint).key }
    {
        &self.constraints.as_slice()[key].key
    }
}

impl<B: Bodies> System for TreeSystem<B> {
    ghost use Rattle.std.specs.Prelude.{get_or};
    ghost use Rattle.std.specs.Ordering.{nat_cmp};
    ghost use Rattle.constraint_names.specs.Numbering.{numbered};
    ghost use Rattle.expr_meaning.specs.Meaning.{property_number};
    ghost use Rattle.tree_system.specs.Tables.{by_place, no_unknown};
    ghost use Rattle.tree_system.specs.TableLaws.{nothing_changed, system_in, tables_lawful, tables_over, tables_ordered, unchanged};

    type L = AnyL;

    type Edit = Unchanged;

    ghost meaning = { λ s. numbered (system_in (B.spec s.bodies) (B.types s.bodies) (by_place s.constraints s.unknowns s.keys s.in_use)) (by_place s.constraints s.unknowns s.keys s.in_use) };

    ghost lattices = { λ s u. B.lattice_of s.bodies (property_number (B.spec s.bodies) (get_or s.unknowns u no_unknown).property) };

    ghost order = { λ _. nat_cmp };

    ghost change = { λ _. nothing_changed };

    ghost is_edit = { λ _ _. ⊤ };

    ghost next = { λ s _. numbered (system_in (B.spec s.bodies) (B.types s.bodies) (by_place s.constraints s.unknowns s.keys s.in_use)) (by_place s.constraints s.unknowns s.keys s.in_use) };

    ghost is_reserved = { λ _ _. ⊤ };

    fn unknowns(&self) -> &List<usize> {
        &self.in_use
    }

    fn keys(&self) -> &List<usize> {
        &self.keys
    }

    fn lattice(&self, unknown: usize) -> &AnyL {
        self.bodies.lattice(self.properties[unknown])
    }

    fn target(&self, key: usize) -> usize {
        self.targets[key]
    }

    fn reads(&self, key: usize) -> &List<usize> {
        &self.reads[key]
    }

    fn readers(&self, unknown: usize) -> &List<usize> {
        &self.readers[unknown]
    }

    fn aiming(&self, unknown: usize) -> &List<usize> {
        &self.aiming[unknown]
    }

    fn eval<C: Ledger>(
        &self,
        alloc: Global,
        key: usize,
        values: &Values<Value>,
        steps: &mut Steps<C>,
    ) -> Result<Value, AllocError> {
        steps.tick();
        let constraint = &self.constraints.as_slice()[key];
        match constraint.rule {
            Some(rule) => {
                let reads = ReadsAt {
                    values,
                    places: self.places.as_slice(),
                    bases: self.bases[key],
                };
                self.bodies
                    .value(alloc, rule, constraint.bindings.as_slice(), &reads)
            }
            None => values
                .get(self.reads[key].as_slice()[0])
                .unwrap()
                .duplicate(alloc),
        }
    }

    fn compare(&self, a: usize, b: usize) -> Ordering {
        a.cmp(&b)
    }

    fn gone<'a>(&'a self, edit: &'a Unchanged) -> &'a List<usize> {
        &self.none
    }

    fn added<'a>(&'a self, edit: &'a Unchanged) -> &'a List<usize> {
        &self.none
    }

    fn gone_unknowns<'a>(&'a self, edit: &'a Unchanged) -> &'a List<usize> {
        &self.none
    }

    fn added_unknowns<'a>(&'a self, edit: &'a Unchanged) -> &'a List<usize> {
        &self.none
    }

    fn fresh(&self, alloc: Global, edit: &Unchanged, unknown: usize) -> Result<Value, AllocError> {
        self.bodies.lattice(self.properties[unknown]).bottom(alloc)
    }

    fn renamed(&self, edit: &Unchanged) -> bool {
        false
    }

    fn shift(&self, edit: &Unchanged, value: &mut Value) {}

    fn reserve(&mut self, edit: &Unchanged) -> Result<(), AllocError> {
        Ok(())
    }

    fn commit(&mut self, edit: Unchanged) {}

    ghost laws = { λ s. tables_lawful (B.spec s.bodies) (B.types s.bodies) (B.accepted s.bodies) (by_place s.constraints s.unknowns s.keys s.in_use) s.of_tree s.tables };

    ghost over = { λ s u used. tables_over (B.spec s.bodies) (B.types s.bodies) (B.accepted s.bodies) (by_place s.constraints s.unknowns s.keys s.in_use) s.of_tree s.tables (B.lattice_of s.bodies) (B.lattices s.bodies) u used };

    ghost ordered = { λ s. tables_ordered s.keys s.tables.rise };

    ghost edits = { λ s _ _. (tables_lawful (B.spec s.bodies) (B.types s.bodies) (B.accepted s.bodies) (by_place s.constraints s.unknowns s.keys s.in_use) s.of_tree s.tables, unchanged (numbered (system_in (B.spec s.bodies) (B.types s.bodies) (by_place s.constraints s.unknowns s.keys s.in_use)) (by_place s.constraints s.unknowns s.keys s.in_use)) (tables_lawful (B.spec s.bodies) (B.types s.bodies) (B.accepted s.bodies) (by_place s.constraints s.unknowns s.keys s.in_use) s.of_tree s.tables).monotone) };
}
