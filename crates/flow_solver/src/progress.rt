//! The values of a system so far, and the steps that led to them.
ghost use Rattle.std.specs.Prelude.{◌≡◌, ◌+◌, ◌<◌, ◌++◌, ◌∷◌, [], ℕ, length, true, false, cond, filter, if◌then◌else◌, not, IfNone, IfOk, IfSome, OnErr, OnOk, None, Some, slice_index_or};
ghost use Rattle.std.specs.Option.{option_copied};
ghost use Rattle.list_theory.specs.Lists.{has};
ghost use Rattle.constraint_theory.specs.Systems.{Fits, IsKey, IsUnknown, holds, numbers, readers};
ghost use Rattle.constraint_theory.specs.Machine.{joined, replay};
ghost use Rattle.constraint_theory.specs.Edits.{IsTainted};
ghost use Rattle.flow_solver.specs.Engines.{AreReplayed, Replayed, keys_of, trace_of};
ghost use Rattle.flow_solver.specs.Plans.{AreBottoms};

use crate::numbers::{is_marked, reach_mark, reach_marks, unmark_each};
use crate::order;
use crate::system::System;
use crate::turn::number_above;
use crate::values::{Values, clear_each, put_each, reach_each, shift_each};
use flow_term::List;
use index_lists::TraceList;
use lattice_base::{Lattice, Steps};
use std::alloc::{AllocError, Global};
use std::marker::Model;
use std::sync::ledger::Ledger;

/// The least value for each unknown.
fn least_values<S: System>(
    alloc: Global,
    system: &S,
) -> Result<Values<<S::L as Lattice>::V>, AllocError>
    ensures { IfOk result (λ values. AreReplayed (S.meaning system.now) values []) }
{
    let mut values = Values::new(alloc);
    for unknown in system.unknowns().as_slice() {
        let least = order::bottom(alloc, system, *unknown)?;
        values.put(*unknown, least)?;
    }
    Ok(values)
}

/// A system, the steps that were made, and the values that these give.
#[derive(Drop)]
pub(crate) struct Progress<S: System> {
    system: S,
    values: Values<<S::L as Lattice>::V>,
    trace: TraceList,
    /// For each key whether it is among the steps.
    made: Vec<bool>,
}

impl<S: System> Model for Progress<S> {
    ghost use Rattle.std.specs.Prelude.{length};
    ghost use Rattle.flow_solver.specs.Engines.{IsProgress, Replayed, keys_of};

    ghost Value = { Replayed S };

    ghost view = { λ p. record { system = p.system; steps = keys_of p.trace; keys = length p.made.items; unknowns = length p.values } };

    ghost invariant = { λ p. IsProgress (S.meaning p.system) p.values p.trace p.made.items };
}

impl<S: System> Progress<S> {
    /// No steps, and all values are least.
    pub(crate) fn new(alloc: Global, system: S) -> Result<Progress<S>, AllocError>
        ensures system { IfOk result (λ p. p.system ≡ system) }
        ensures steps { IfOk result (λ p. p.steps ≡ []) }
    {
        let values = least_values(alloc, &system)?;
        let mut made = Vec::new(alloc);
        reach_mark(&mut made, number_above(system.keys().as_slice())?)?;
        Ok(Progress {
            system,
            values,
            trace: TraceList::new(alloc),
            made,
        })
    }

    pub(crate) fn system(&self) -> &S
        ensures { result.now ≡ self.now.system }
    {
        &self.system
    }

    /// Each step with its target, from first to last.
    pub(crate) fn trace(&self) -> &TraceList
        ensures { result.now ≡ trace_of (S.meaning self.now.system) self.now.steps }
    {
        &self.trace
    }

    /// The unknown's value. There is none exactly where there is no such unknown.
    pub(crate) fn value(&self, unknown: usize) -> Option<&<S::L as Lattice>::V>
        ensures some { let s = S.meaning self.now.system in
            IsUnknown numbers s unknown → option_copied result ≡ Some (replay numbers s self.now.steps unknown) }
        ensures none { has numbers.unknown (S.meaning self.now.system).unknowns unknown ≡ false
            → option_copied result ≡ None }
    {
        self.values.get(unknown)
    }

    /// The value of an unknown in use.
    fn present(&self, unknown: usize) -> &<S::L as Lattice>::V
        requires { IsUnknown numbers (S.meaning self.now.system) unknown }
        ensures value { result.now ≡ replay numbers (S.meaning self.now.system) self.now.steps unknown }
        ensures fits { Fits (S.meaning self.now.system) unknown result.now }
    {
        self.values.get(unknown).unwrap()
    }

    /// The key's value.
    fn evaluated<C: Ledger>(
        &self,
        alloc: Global,
        key: usize,
        steps: &mut Steps<C>,
    ) -> Result<<S::L as Lattice>::V, AllocError>
        requires { IsKey numbers (S.meaning self.now.system) key }
        ensures value { let s = S.meaning self.now.system in
            IfOk result (λ v. v ≡ s.eval key (replay numbers s self.now.steps)) }
        ensures fits { let s = S.meaning self.now.system in IfOk result (λ v. Fits s (s.target key) v) }
        ensures steps { steps.new ≡ steps.old + 1 }
    {
        self.system.eval(alloc, key, &self.values, steps)
    }

    /// The join of the key's value and its target's, unless the key's is below that.
    fn raised<C: Ledger>(
        &self,
        alloc: Global,
        key: usize,
        steps: &mut Steps<C>,
    ) -> Result<Option<<S::L as Lattice>::V>, AllocError>
        requires { IsKey numbers (S.meaning self.now.system) key }
        ensures held { let s = S.meaning self.now.system in
            IfOk result (λ r. IfNone r (holds numbers s (replay numbers s self.now.steps) key ≡ true)) }
        ensures raised { let s = S.meaning self.now.system in
            IfOk result (λ r. IfSome r (λ v. (holds numbers s (replay numbers s self.now.steps) key ≡ false)
            × (v ≡ joined numbers s (replay numbers s self.now.steps) key (s.target key)))) }
        ensures steps { steps.new ≡ steps.old + 1 }
    {
        let target = self.system.target(key);
        let value = self.evaluated(alloc, key, steps)?;
        let old = self.present(target);
        if order::below(&self.system, target, &value, old) {
            return Ok(None);
        }
        let joined = order::join(alloc, &self.system, target, old, &value)?;
        Ok(Some(joined))
    }

    /// Joins the key's value to its target's where it isn't below it, and answers whether it did.
    pub(crate) fn step<C: Ledger>(
        &mut self,
        alloc: Global,
        key: usize,
        steps: &mut Steps<C>,
    ) -> Result<bool, AllocError>
        requires { IsKey numbers (S.meaning self.old.system) key }
        ensures raised { let s = S.meaning self.old.system in
            IfOk result (λ raised. raised ≡ not (holds numbers s (replay numbers s self.old.steps) key)) }
        ensures made { IfOk result (λ raised. self.new
            ≡ record self.old { steps = if raised then self.old.steps ++ key ∷ [] else self.old.steps }) }
        ensures err { OnErr result (self.new ≡ self.old) }
        ensures steps { steps.new ≡ steps.old + 1 }
    {
        match self.raised(alloc, key, steps)? {
            Some(value) => {
                let target = self.system.target(key);
                self.trace.push(target, key)?;
                self.made[key] = true;
                self.values.set(target, value);
                Ok(true)
            }
            None => Ok(false),
        }
    }

    /// The keys that read the key's target, in the order of keys.
    pub(crate) fn readers(&self, key: usize) -> &List<usize>
        requires { IsKey numbers (S.meaning self.now.system) key }
        ensures { result.now ≡ readers numbers (S.meaning self.now.system) ((S.meaning self.now.system).target key) }
    {
        self.system.readers(self.system.target(key))
    }

    /// Whether the key is among the steps.
    pub(crate) fn has_step(&self, key: usize) -> bool
        ensures { result ≡ has numbers.key self.now.steps key }
    {
        is_marked(&self.made, key)
    }

    /// Takes the memory that an edit needs. Nothing else changes.
    pub(crate) fn reserve(&mut self, edit: &S::Edit) -> Result<(), AllocError>
        requires { S.is_edit self.old.system edit.now }
        ensures steps { self.new.steps ≡ self.old.steps }
        ensures meaning { S.meaning self.new.system ≡ S.meaning self.old.system }
        ensures lattices { S.lattices self.new.system ≡ S.lattices self.old.system }
        ensures order { S.order self.new.system ≡ S.order self.old.system }
        ensures edits { (e : S.Edit) → S.is_edit self.old.system e → S.is_edit self.new.system e }
        ensures next { S.next self.new.system ≡ S.next self.old.system }
        ensures reserved { OnOk result (S.is_reserved self.new.system edit.now) }
        ensures keys { OnOk result ((k : ℕ) → has numbers.key (S.change edit.now).added k ≡ true → k < self.new.keys) }
        ensures unknowns { OnOk result ((u : ℕ) → has numbers.unknown (S.change edit.now).added_unknowns u ≡ true → u < self.new.unknowns) }
    {
        self.system.reserve(edit)?;
        reach_marks(&mut self.made, self.system.added(edit).as_slice())?;
        reach_each(
            &mut self.values,
            self.system.added_unknowns(edit).as_slice(),
        )
    }

    /// Makes the edit: takes out the steps of the tainted unknowns, renames the values of the others, and gives the
    /// bottoms to the unknowns beside them.
    pub(crate) fn retract(
        &mut self,
        edit: S::Edit,
        tainted: &[usize],
        bottoms: &mut Vec<(usize, <S::L as Lattice>::V)>,
    )
        requires edit { S.is_edit self.old.system edit }
        requires reserved { S.is_reserved self.old.system edit }
        requires tainted { IsTainted numbers (S.meaning self.old.system) (S.next self.old.system edit) (S.change edit) self.old.steps (has numbers.unknown tainted.now) }
        requires bottoms { AreBottoms (S.meaning self.old.system) (S.next self.old.system edit) (S.change edit) (has numbers.unknown tainted.now) bottoms.old.items }
        requires keys { (k : ℕ) → has numbers.key (S.change edit).added k ≡ true → k < self.old.keys }
        requires unknowns { (u : ℕ) → has numbers.unknown (S.change edit).added_unknowns u ≡ true → u < self.old.unknowns }
        ensures meaning { S.meaning self.new.system ≡ S.next self.old.system edit }
        ensures steps { self.new.steps ≡ filter (λ k. not (has numbers.unknown tainted.now ((S.meaning self.old.system).target k))) self.old.steps }
    {
        forget_steps(&self.system, &mut self.trace, &mut self.made, tainted);
        clear_each(
            &mut self.values,
            self.system.gone_unknowns(&edit).as_slice(),
        );
        clear_each(&mut self.values, tainted);
        shift_each(&self.system, &edit, &mut self.values);
        put_each(&mut self.values, bottoms);
        self.system.commit(edit);
    }
}

/// Takes out the steps of each of the unknowns.
fn forget_steps<S: System>(
    system: &S,
    trace: &mut TraceList,
    made: &mut Vec<bool>,
    unknowns: &[usize],
)
    requires used { (u : ℕ) → has numbers.unknown unknowns.now u ≡ true → IsUnknown numbers (S.meaning system.now) u }
    requires known { (k : ℕ) → has numbers.key (keys_of trace.old) k ≡ true → IsKey numbers (S.meaning system.now) k }
    requires paired { trace.old ≡ trace_of (S.meaning system.now) (keys_of trace.old) }
    requires marked { (k : ℕ) → slice_index_or made.old.items k false ≡ has numbers.key (keys_of trace.old) k }
    ensures trace { trace.new ≡ filter (λ step. not (has numbers.unknown unknowns.now step.0)) trace.old }
    ensures marked { (k : ℕ) → slice_index_or made.new.items k false ≡ has numbers.key (keys_of trace.new) k }
    ensures len { length made.new.items ≡ length made.old.items }
{
    for unknown in unknowns {
        trace.remove_target(*unknown);
        unmark_each(made, system.aiming(*unknown).as_slice());
    }
}
