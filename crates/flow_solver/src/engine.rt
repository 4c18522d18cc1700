//! The engine.
ghost use Rattle.std.specs.Prelude.{◌≡◌, ◌<◌, ◌≤◌, ◌+◌, [], ℕ, Bool, List, length, slice_index, false, true, IfOk, OnOk, OnErr, Some, None, Err};
ghost use Rattle.std.specs.Option.{option_copied};
ghost use Rattle.list_theory.specs.Lists.{has};
ghost use Rattle.constraint_theory.specs.Systems.{IsLeast, IsMonotone, IsUnknown, bound, numbers, with_test};
ghost use Rattle.constraint_theory.specs.Edits.{AreEditedValues, IsReach, IsRegion, IsTainted, edit_bound, unknown_stays};
ghost use Rattle.constraint_theory.specs.Machine.{IsClosed, IsSound, Legal, begin, bound_within, replay, visited};
ghost use Rattle.flow_solver.specs.Engines.{trace_of};
ghost use Rattle.flow_solver.specs.Plans.{IsEdited, IsReady};
ghost use Rattle.flow_solver.specs.Runs.{IsAsBefore, IsSettled, IsSpent, IsVisit, RefusedRun, visits_of};

use crate::answers::{SettleRefusal, Visited};
use crate::pick::Pick;
use crate::plan::Plan;
use crate::progress::Progress;
use crate::retract::{reserve, retract};
use crate::settle::settle;
use crate::system::System;
use crate::turn::{number_above, push_each, turn};
use index_lists::{TraceList, WorkQueue};
use lattice_base::{Lattice, Steps};
use std::alloc::{AllocError, Global};
use std::marker::Model;
use std::sync::ledger::Ledger;

/// A system, its values so far, and the constraints that wait.
///
/// It is the machine of the theory: its values are the replay of its steps, each constraint that doesn't wait is
/// satisfied, and each visit is the machine's. A visit costs one evaluation, one comparison and work in the number of
/// readers of the target; the one value that is made is the one that is raised.
#[derive(Drop)]
pub struct Engine<S: System, P: Pick> {
    progress: Progress<S>,
    pick: P,
    waiting: WorkQueue,
    plan: Plan<<S::L as Lattice>::V>,
    alloc: Global,
}

impl<S: System, P: Pick> Model for Engine<S, P> {
    ghost use Rattle.flow_solver.specs.Engines.{IsEngine, Solving, state_of};
    ghost use Rattle.flow_solver.specs.Plans.{plan_of, room_of};

    ghost Value = { Solving S P S.L.V };

    ghost view = { λ e. record {
      system = e.progress.system;
      pick = e.pick;
      state = state_of e.progress.steps e.waiting;
      plan = plan_of e.plan.tainted e.plan.renewed e.plan.bottoms.items;
      room = room_of e.progress.keys e.waiting.allowed e.progress.unknowns;
    } };

    ghost invariant = { λ e. IsEngine (S.meaning e.progress.system) e.progress.steps e.waiting };
}

impl<S: System, P: Pick> Engine<S, P> {
    /// All values are bottom, there are no steps, and all constraints wait in the order of keys.
    pub fn new(alloc: Global, system: S, pick: P) -> Result<Engine<S, P>, AllocError>
        ensures system { IfOk result (λ e. e.system ≡ system) }
        ensures pick { IfOk result (λ e. e.pick ≡ pick) }
        ensures begin { IfOk result (λ e. e.state ≡ begin numbers (S.meaning system)) }
        ensures bounded { IfOk result (λ e. (ks : List ℕ) → Legal numbers (S.meaning system) e.state ks
            → length ks ≤ bound numbers (S.meaning system)) }
    {
        let mut waiting = WorkQueue::new(alloc);
        waiting.grow(number_above(system.keys().as_slice())?)?;
        push_each(&mut waiting, system.keys().as_slice());
        Ok(Engine {
            progress: Progress::new(alloc, system)?,
            pick,
            waiting,
            plan: Plan::none(alloc),
            alloc,
        })
    }

    /// Takes out the waiting constraint at the place that the pick chooses, and evaluates it.
    ///
    /// `Idle` comes exactly where nothing waits, and `Held` where the constraint's value is below its target's. `Raised`
    /// joins it to the target's, appends a step, and makes the constraints that read the target wait, in the order of
    /// keys, at the end. Each but `Idle` counts as one step.
    ///
    /// Where memory runs out, all is as before but that the constraint waits last now.
    pub fn visit<C: Ledger>(&mut self, steps: &mut Steps<C>) -> Result<Visited, AllocError>
        ensures system { self.new.system ≡ self.old.system }
        ensures visit { IfOk result (λ v. IsVisit (S.meaning self.old.system) self.old.state v self.new.state) }
        ensures picked { let queue = self.old.state.waiting in 0 < length queue
            → IfOk result (λ _. self.new.state ≡ visited numbers (S.meaning self.old.system) self.old.state
            (slice_index queue (P.chosen self.old.pick queue))) }
        ensures err { let queue = self.old.state.waiting in
            OnErr result (IsAsBefore (slice_index queue (P.chosen self.old.pick queue)) self.old.state self.new.state) }
        ensures steps { IfOk result (λ v. steps.new ≡ steps.old + visits_of v) }
        ensures steps_err { OnErr result ((steps.old ≤ steps.new) × (steps.new ≤ steps.old + 1)) }
        ensures sound { IsSound numbers (S.meaning self.new.system) self.new.state }
    {
        turn(
            self.alloc,
            &mut self.progress,
            &mut self.pick,
            &mut self.waiting,
            steps,
        )
    }

    /// Visits until nothing waits, at most `limit` where one is set.
    ///
    /// `Ok` comes exactly where nothing waits, and the values are the least solution then. `Spent` comes exactly where
    /// `limit` visits were made in this call and something waits; the limit is below the system's bound then. After a
    /// refusal the visits that were made stand, and another call goes on from there.
    pub fn settle<C: Ledger>(
        &mut self,
        limit: Option<u64>,
        steps: &mut Steps<C>,
    ) -> Result<(), SettleRefusal>
        ensures system { self.new.system ≡ self.old.system }
        ensures ok { OnOk result
            (IsSettled (S.meaning self.old.system) self.old.state self.new.state steps.old steps.new) }
        ensures least { let s = S.meaning self.new.system in
            OnOk result (IsLeast numbers s (replay numbers s self.new.state.steps)) }
        ensures spent { (visits : ℕ) → result ≡ Err (SettleRefusal.Spent visits) → (limit ≡ Some visits)
            × IsSpent (S.meaning self.old.system) self.old.state self.new.state steps.old steps.new visits }
        ensures no_memory { result ≡ Err SettleRefusal.NoMemory
            → RefusedRun (S.meaning self.old.system) self.old.state self.new.state steps.old steps.new }
        ensures within { (n : ℕ) → limit ≡ Some n → steps.new ≤ steps.old + n }
        ensures bounded { OnOk result (steps.new ≤ steps.old + bound numbers (S.meaning self.old.system)) }
        ensures bounded_err { steps.new ≤ steps.old + bound numbers (S.meaning self.old.system) + 1 }
        ensures sound { IsSound numbers (S.meaning self.new.system) self.new.state }
    {
        settle(
            self.alloc,
            &mut self.progress,
            &mut self.pick,
            &mut self.waiting,
            limit,
            steps,
        )
    }

    /// Takes all memory for `retract` of this edit, and finds what it taints. Values, steps and queue stay, also where memory
    /// runs out.
    ///
    /// A visit may change what an edit taints, so what is reserved holds up to the next visit.
    pub fn reserve(&mut self, edit: &S::Edit) -> Result<(), AllocError>
        requires { S.is_edit self.old.system edit.now }
        ensures meaning { S.meaning self.new.system ≡ S.meaning self.old.system }
        ensures lattices { S.lattices self.new.system ≡ S.lattices self.old.system }
        ensures order { S.order self.new.system ≡ S.order self.old.system }
        ensures edits { (e : S.Edit) → S.is_edit self.old.system e → S.is_edit self.new.system e }
        ensures next { S.next self.new.system ≡ S.next self.old.system }
        ensures pick { self.new.pick ≡ self.old.pick }
        ensures state { self.new.state ≡ self.old.state }
        ensures reserved { OnOk result (S.is_reserved self.new.system edit.now) }
        ensures ready { OnOk result (IsReady (S.meaning self.new.system) (S.next self.new.system edit.now) (S.change edit.now)
            self.new.state.steps self.new.plan self.new.room) }
    {
        reserve(
            self.alloc,
            &mut self.progress,
            &mut self.waiting,
            &mut self.plan,
            edit,
        )
    }

    /// Makes the machine's edit, in memory that is reserved for it.
    ///
    /// The tainted unknowns are the least set that holds the target of each gone constraint that is among the steps and,
    /// with an unknown, the target of each step whose constraint reads it. Their steps are taken out, and they begin anew at
    /// bottom, as added unknowns do; gone unknowns have no value; each other value is renamed. Gone constraints stop waiting;
    /// then those that are added or aim at a tainted unknown wait, in the order of keys, at the end.
    ///
    /// Where no gone constraint is among the steps, no step is taken out, and each value that stays is renamed. Where nothing
    /// waited before, no legal list of visits from here on is longer than the edit's bound.
    ///
    /// It takes time in the number of tainted unknowns, of their steps, of the constraints that aim at them, and of what is
    /// gone and added, beside `commit` and the order of the renewed keys; and in the number of unknowns where the edit renames.
    pub fn retract(&mut self, edit: S::Edit)
        requires edit { S.is_edit self.old.system edit }
        requires reserved { S.is_reserved self.old.system edit }
        requires ready { IsReady (S.meaning self.old.system) (S.next self.old.system edit) (S.change edit)
            self.old.state.steps self.old.plan self.old.room }
        ensures meaning { S.meaning self.new.system ≡ S.next self.old.system edit }
        ensures pick { self.new.pick ≡ self.old.pick }
        ensures edited { IsEdited (S.meaning self.old.system) (S.next self.old.system edit) (S.change edit) self.old.state self.new.state }
        ensures values { let s = S.meaning self.old.system in let t = S.meaning self.new.system in let e = S.change edit in
            (taint : ℕ → Bool) → IsTainted numbers s t e self.old.state.steps taint
            → AreEditedValues numbers s t e taint (replay numbers s self.old.state.steps) (replay numbers t self.new.state.steps) }
        ensures idle { let s = S.meaning self.old.system in let t = S.meaning self.new.system in let e = S.change edit in
            ((k : ℕ) → has numbers.key self.old.state.steps k ≡ true → has numbers.key e.gone k ≡ false)
            → (self.new.state.steps ≡ self.old.state.steps) × ((u : ℕ) → unknown_stays numbers s t e u ≡ true
            → replay numbers t self.new.state.steps u ≡ e.shift (replay numbers s self.old.state.steps u)) }
        ensures bounded { let s = S.meaning self.old.system in let t = S.meaning self.new.system in let e = S.change edit in
            (region reach : ℕ → Bool) (ks : List ℕ) → self.old.state.waiting ≡ [] → IsRegion numbers s t e region → IsReach numbers s t e region reach
            → Legal numbers t self.new.state ks → length ks ≤ edit_bound numbers s t e region reach }
        ensures sound { IsSound numbers (S.meaning self.new.system) self.new.state }
    {
        retract(&mut self.progress, &mut self.waiting, &mut self.plan, edit);
    }

    /// The unknown's value. There is none exactly where there is no such unknown.
    pub fn value(&self, unknown: usize) -> Option<&<S::L as Lattice>::V>
        ensures some { let s = S.meaning self.now.system in IsUnknown numbers s unknown
            → option_copied result ≡ Some (replay numbers s self.now.state.steps unknown) }
        ensures none { has numbers.unknown (S.meaning self.now.system).unknowns unknown ≡ false
            → option_copied result ≡ None }
    {
        self.progress.value(unknown)
    }

    /// The steps that were made, each with its target, from first to last.
    pub fn trace(&self) -> &TraceList
        ensures { result.now ≡ trace_of (S.meaning self.now.system) self.now.state.steps }
    {
        self.progress.trace()
    }

    /// How many constraints wait. Where none does, the values are the least solution; and the least of all valid solutions,
    /// whatever fits the system, where it is monotone on the valid values.
    ///
    /// No legal list of visits from here on is longer than the system's bound; nor, for each set of unknowns that holds
    /// the targets of what waits and, with an unknown, the targets of its readers, than what waits and, over the set,
    /// height times number of readers.
    pub fn waiting(&self) -> usize
        ensures len { result ≡ length self.now.state.waiting }
        ensures sound { IsSound numbers (S.meaning self.now.system) self.now.state }
        ensures least { let s = S.meaning self.now.system in
            result ≡ 0 → IsLeast numbers s (replay numbers s self.now.state.steps) }
        ensures least_of_valid { let s = S.meaning self.now.system in
            (valid : ℕ → S.L.V → Bool) → IsMonotone numbers (with_test s valid)
            → result ≡ 0 → IsLeast numbers (with_test s valid) (replay numbers s self.now.state.steps) }
        ensures bounded { let s = S.meaning self.now.system in
            (ks : List ℕ) → Legal numbers s self.now.state ks → length ks ≤ bound numbers s }
        ensures bounded_within { let s = S.meaning self.now.system in
            (us ks : List ℕ) → IsClosed numbers s us self.now.state.waiting → Legal numbers s self.now.state ks
            → length ks ≤ bound_within numbers s us self.now.state.waiting }
    {
        self.waiting.len()
    }

    /// What is solved.
    pub fn system(&self) -> &S
        ensures { result.now ≡ self.now.system }
    {
        self.progress.system()
    }
}
