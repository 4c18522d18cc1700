//! What is made ready for an edit, so that it takes no memory.
ghost use Rattle.std.specs.Prelude.{◌≡◌, ◌++◌, ◌||◌, ◌&&◌, ℕ, [], true, false, not, map, filter, OnOk};
ghost use Rattle.list_theory.specs.Lists.{has, push_all};
ghost use Rattle.constraint_theory.specs.Systems.{IsKey, IsUnknown, numbers};
ghost use Rattle.constraint_theory.specs.Edits.{renewed};
ghost use Rattle.flow_solver.specs.Plans.{AreBottoms, IsPlan, plan_of};

use crate::numbers::{NumberSet, insert_each};
use crate::progress::Progress;
use crate::system::System;
use crate::taint::taint;
use lattice_base::Lattice;
use std::alloc::{AllocError, Global};

/// What an edit needs besides the memory of the system and of the lists.
///
/// It is kept from edit to edit, so that its marks are made once.
#[derive(Drop)]
pub(crate) struct Plan<V: Drop> {
    /// The tainted unknowns.
    pub(crate) tainted: NumberSet,
    /// The keys that wait after the edit since they are added or aim at a tainted unknown.
    pub(crate) renewed: NumberSet,
    /// The values of the unknowns that begin anew.
    pub(crate) bottoms: Vec<(usize, V)>,
    /// What the edit takes away, while a plan is made: unknowns first, and then keys.
    pub(crate) gone: NumberSet,
}

impl<V: Drop> Plan<V> {
    /// Nothing is made ready.
    pub(crate) fn none(alloc: Global) -> Plan<V> {
        Plan {
            tainted: NumberSet::new(alloc),
            renewed: NumberSet::new(alloc),
            bottoms: Vec::new(alloc),
            gone: NumberSet::new(alloc),
        }
    }
}

/// Appends the bottoms of the unknowns that aren't gone.
fn fresh_each<S: System>(
    alloc: Global,
    system: &S,
    edit: &S::Edit,
    gone: &NumberSet,
    unknowns: &[usize],
    pairs: &mut Vec<(usize, <S::L as Lattice>::V)>,
) -> Result<(), AllocError>
    requires edit { S.is_edit system.now edit.now }
    requires used { (u : ℕ) → has numbers.unknown unknowns.now u ≡ true → has numbers.unknown gone.now u ≡ false → IsUnknown numbers (S.next system.now edit.now) u }
    ensures { OnOk result (pairs.new.items ≡ pairs.old.items ++ map (λ u. (u, (S.next system.now edit.now).bottom u)) (filter (λ u. not (has numbers.unknown gone.now u)) unknowns.now)) }
{
    for unknown in unknowns {
        if !gone.contains(*unknown) {
            pairs.push((*unknown, system.fresh(alloc, edit, *unknown)?))?;
        }
    }
    Ok(())
}

/// Makes the pairs the bottoms of the unknowns that the edit adds, and of those that it taints and that stay.
fn make_bottoms<S: System>(
    alloc: Global,
    system: &S,
    edit: &S::Edit,
    tainted: &[usize],
    gone: &mut NumberSet,
    pairs: &mut Vec<(usize, <S::L as Lattice>::V)>,
) -> Result<(), AllocError>
    requires edit { S.is_edit system.now edit.now }
    requires used { (u : ℕ) → has numbers.unknown tainted.now u ≡ true → IsUnknown numbers (S.meaning system.now) u }
    ensures { OnOk result (AreBottoms (S.meaning system.now) (S.next system.now edit.now) (S.change edit.now)
        (has numbers.unknown tainted.now) pairs.new.items) }
{
    pairs.clear();
    gone.clear();
    fresh_each(
        alloc,
        system,
        edit,
        gone,
        system.added_unknowns(edit).as_slice(),
        pairs,
    )?;
    insert_each(gone, system.gone_unknowns(edit).as_slice())?;
    fresh_each(alloc, system, edit, gone, tainted, pairs)
}

/// Puts in those of the keys that aren't gone.
fn insert_left(set: &mut NumberSet, gone: &NumberSet, keys: &[usize]) -> Result<(), AllocError>
    ensures { OnOk result (set.new ≡ push_all numbers.key set.old (filter (λ k. not (has numbers.key gone.now k)) keys.now)) }
{
    for key in keys {
        if !gone.contains(*key) {
            set.insert(*key)?;
        }
    }
    Ok(())
}

/// Puts in the keys that aim at the unknowns and aren't gone.
fn insert_aiming<S: System>(
    system: &S,
    unknowns: &[usize],
    gone: &NumberSet,
    set: &mut NumberSet,
) -> Result<(), AllocError>
    requires { (u : ℕ) → has numbers.unknown unknowns.now u ≡ true → IsUnknown numbers (S.meaning system.now) u }
    ensures { let s = S.meaning system.now in OnOk result ((k : ℕ) → has numbers.key set.new k ≡ (has numbers.key set.old k
        || ((has numbers.key s.keys k && not (has numbers.key gone.now k)) && has numbers.unknown unknowns.now (s.target k)))) }
{
    for unknown in unknowns {
        insert_left(set, gone, system.aiming(*unknown).as_slice())?;
    }
    Ok(())
}

/// Makes the set that of the keys that wait after the edit since they are added or aim at a tainted unknown.
fn renew<S: System>(
    system: &S,
    edit: &S::Edit,
    tainted: &[usize],
    gone: &mut NumberSet,
    set: &mut NumberSet,
) -> Result<(), AllocError>
    requires edit { S.is_edit system.now edit.now }
    requires used { (u : ℕ) → has numbers.unknown tainted.now u ≡ true → IsUnknown numbers (S.meaning system.now) u }
    ensures { OnOk result ((k : ℕ) → has numbers.key set.new k ≡ has numbers.key (renewed numbers (S.meaning system.now)
        (S.next system.now edit.now) (S.change edit.now) (has numbers.unknown tainted.now)) k) }
{
    gone.clear();
    insert_each(gone, system.gone(edit).as_slice())?;
    set.clear();
    insert_aiming(system, tainted, gone, set)?;
    insert_each(set, system.added(edit).as_slice())
}

/// Makes the plan that of the edit.
pub(crate) fn make_plan<S: System>(
    alloc: Global,
    progress: &Progress<S>,
    edit: &S::Edit,
    plan: &mut Plan<<S::L as Lattice>::V>,
) -> Result<(), AllocError>
    requires edit { S.is_edit progress.now.system edit.now }
    requires known { (k : ℕ) → has numbers.key progress.now.steps k ≡ true → IsKey numbers (S.meaning progress.now.system) k }
    ensures { OnOk result (IsPlan (S.meaning progress.now.system) (S.next progress.now.system edit.now)
        (S.change edit.now) progress.now.steps (plan_of plan.new.tainted plan.new.renewed plan.new.bottoms.items)) }
{
    taint(progress, edit, &mut plan.tainted)?;
    let system = progress.system();
    let tainted = plan.tainted.items();
    make_bottoms(
        alloc,
        system,
        edit,
        tainted,
        &mut plan.gone,
        &mut plan.bottoms,
    )?;
    renew(system, edit, tainted, &mut plan.gone, &mut plan.renewed)?;
    let _each_once = plan.renewed.items();
    Ok(())
}
