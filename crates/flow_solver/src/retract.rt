//! The machine's edit, over the parts of an engine.
ghost use Rattle.std.specs.Prelude.{◌≡◌, not, filter, OnOk};
ghost use Rattle.list_theory.specs.Lists.{has};
ghost use Rattle.constraint_theory.specs.Systems.{numbers};
ghost use Rattle.flow_solver.specs.Engines.{IsEngine, state_of};
ghost use Rattle.flow_solver.specs.Plans.{IsEdited, IsReady, plan_of, room_of};

use crate::plan::{Plan, make_plan};
use crate::progress::Progress;
use crate::system::System;
use crate::turn::{number_above, push_each};
use index_lists::WorkQueue;
use lattice_base::Lattice;
use std::alloc::{AllocError, Global};

/// Takes the keys out of what waits.
fn remove_each(queue: &mut WorkQueue, keys: &[usize])
    ensures { queue.new ≡ record queue.old { items = filter (λ k. not (has numbers.key keys.now k)) queue.old.items } }
{
    for key in keys {
        let _there = queue.remove(*key);
    }
}

/// Takes all memory that an edit needs.
pub(crate) fn reserve<S: System>(
    alloc: Global,
    progress: &mut Progress<S>,
    waiting: &mut WorkQueue,
    plan: &mut Plan<<S::L as Lattice>::V>,
    edit: &S::Edit,
) -> Result<(), AllocError>
    requires edit { S.is_edit progress.old.system edit.now }
    requires engine { IsEngine (S.meaning progress.old.system) progress.old.steps waiting.old }
    ensures steps { progress.new.steps ≡ progress.old.steps }
    ensures meaning { S.meaning progress.new.system ≡ S.meaning progress.old.system }
    ensures lattices { S.lattices progress.new.system ≡ S.lattices progress.old.system }
    ensures order { S.order progress.new.system ≡ S.order progress.old.system }
    ensures edits { (e : S.Edit) → S.is_edit progress.old.system e → S.is_edit progress.new.system e }
    ensures next { S.next progress.new.system ≡ S.next progress.old.system }
    ensures waiting { waiting.new.items ≡ waiting.old.items }
    ensures reserved { OnOk result (S.is_reserved progress.new.system edit.now) }
    ensures ready { OnOk result (IsReady (S.meaning progress.old.system) (S.next progress.old.system edit.now) (S.change edit.now)
        progress.old.steps (plan_of plan.new.tainted plan.new.renewed plan.new.bottoms.items)
        (room_of progress.new.keys waiting.new.allowed progress.new.unknowns)) }
    ensures engine { IsEngine (S.meaning progress.new.system) progress.new.steps waiting.new }
{
    progress.reserve(edit)?;
    waiting.grow(number_above(progress.system().added(edit).as_slice())?)?;
    make_plan(alloc, progress, edit, plan)
}

/// Makes the edit.
pub(crate) fn retract<S: System>(
    progress: &mut Progress<S>,
    waiting: &mut WorkQueue,
    plan: &mut Plan<<S::L as Lattice>::V>,
    edit: S::Edit,
)
    requires edit { S.is_edit progress.old.system edit }
    requires reserved { S.is_reserved progress.old.system edit }
    requires engine { IsEngine (S.meaning progress.old.system) progress.old.steps waiting.old }
    requires ready { IsReady (S.meaning progress.old.system) (S.next progress.old.system edit) (S.change edit)
        progress.old.steps (plan_of plan.old.tainted plan.old.renewed plan.old.bottoms.items)
        (room_of progress.old.keys waiting.old.allowed progress.old.unknowns) }
    ensures meaning { S.meaning progress.new.system ≡ S.next progress.old.system edit }
    ensures edited { IsEdited (S.meaning progress.old.system) (S.next progress.old.system edit) (S.change edit)
        (state_of progress.old.steps waiting.old) (state_of progress.new.steps waiting.new) }
    ensures engine { IsEngine (S.meaning progress.new.system) progress.new.steps waiting.new }
{
    remove_each(waiting, progress.system().gone(&edit).as_slice());
    progress.retract(edit, plan.tainted.items(), &mut plan.bottoms);
    plan.renewed.sort(progress.system());
    push_each(waiting, plan.renewed.items());
}
