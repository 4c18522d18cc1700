//! Which unknowns an edit taints.
ghost use Rattle.std.specs.Prelude.{◌≡◌, ℕ, true, map, filter, OnOk};
ghost use Rattle.list_theory.specs.Lists.{has, push_all};
ghost use Rattle.constraint_theory.specs.Systems.{IsKey, numbers};
ghost use Rattle.constraint_theory.specs.Edits.{IsTainted};

use crate::numbers::NumberSet;
use crate::progress::Progress;
use crate::system::System;
use std::alloc::AllocError;

/// Puts in the target of each of the keys that is among the steps.
fn taint_targets<S: System>(
    progress: &Progress<S>,
    keys: &[usize],
    tainted: &mut NumberSet,
) -> Result<(), AllocError>
    requires { (k : ℕ) → has numbers.key keys.now k ≡ true → IsKey numbers (S.meaning progress.now.system) k }
    ensures { OnOk result (tainted.new ≡ push_all numbers.unknown tainted.old
        (map (S.meaning progress.now.system).target (filter (has numbers.key progress.now.steps) keys.now))) }
{
    for key in keys {
        if progress.has_step(*key) {
            tainted.insert(progress.system().target(*key))?;
        }
    }
    Ok(())
}

/// Makes the set that of the tainted unknowns: the least one that holds the target of each gone key that is among the
/// steps and, with an unknown, the target of each step that reads it. The work is in the number of gone keys and of
/// readers of the set.
pub(crate) fn taint<S: System>(
    progress: &Progress<S>,
    edit: &S::Edit,
    tainted: &mut NumberSet,
) -> Result<(), AllocError>
    requires edit { S.is_edit progress.now.system edit.now }
    requires known { (k : ℕ) → has numbers.key progress.now.steps k ≡ true → IsKey numbers (S.meaning progress.now.system) k }
    ensures { OnOk result (IsTainted numbers (S.meaning progress.now.system) (S.next progress.now.system edit.now)
        (S.change edit.now) progress.now.steps (has numbers.unknown tainted.new)) }
{
    tainted.clear();
    taint_targets(progress, progress.system().gone(edit).as_slice(), tainted)?;
    let mut done = 0;
    while done < tainted.items().len() {
        let unknown = tainted.items()[done];
        taint_targets(
            progress,
            progress.system().readers(unknown).as_slice(),
            tainted,
        )?;
        done += 1;
    }
    Ok(())
}
