//! Where control gets from a stop over entries and exits.
ghost use Rattle.std.specs.Prelude.{◌≡◌, ◌<◌, Some, length, slice_get, ◌++◌, List as Sequence, IfOk, OnOk, IsTrue, ◌↔◌};
ghost use Rattle.flow_links.specs.inner.Gains.{Gains};
ghost use Rattle.rule_plans.specs.declared.stop.Stop.{Stop as StopValue};
ghost use Rattle.rule_plans.specs.declared.stop.Stop.TheVariants.{ChildEntry, ChildExit};
ghost use Rattle.rule_plans.specs.Hops.{AreReached, IsInnerStop, IsHop, IsPassed, IsPassing, IsStepOf};

use crate::stop::{Step, Stop};
use indexmap::IndexSet;
use std::alloc::{AllocError, Global};

/// The stops to which one or more steps lead from a stop, over entries and exits alone. A child is passed where its bit says so.
pub fn reached(
    alloc: Global,
    steps: &[Step],
    passes: &[bool],
    from: Stop,
) -> Result<IndexSet<Stop>, AllocError>
    ensures { IfOk result (λ found. AreReached steps.now passes.now from found.keys) }
{
    let mut found = IndexSet::new(alloc);
    add_next(steps, passes, from, &mut found)?;
    let mut next = 0;
    while next < found.len() {
        let stop = stop_at(&found, next);
        expand(steps, passes, stop, &mut found)?;
        next += 1;
    }
    Ok(found)
}

fn stop_at(found: &IndexSet<Stop>, at: usize) -> Stop
    requires { at < length found.now.keys }
    ensures { slice_get found.now.keys at ≡ Some result }
{
    found.as_slice()[at]
}

/// Adds what comes next behind an entry or exit.
fn expand(
    steps: &[Step],
    passes: &[bool],
    stop: Stop,
    found: &mut IndexSet<Stop>,
) -> Result<(), AllocError>
    ensures gains { OnOk result (Gains found.old.keys found.new.keys (λ s. IsInnerStop stop × IsHop steps.now passes.now stop s)) }
    ensures order { OnOk result ((more : Sequence StopValue) × (found.new.keys ≡ found.old.keys ++ more)) }
{
    if is_inner(stop) {
        add_next(steps, passes, stop, found)?;
    }
    Ok(())
}

fn is_inner(stop: Stop) -> bool
    ensures { IsTrue result ↔ IsInnerStop stop }
{
    matches!(
        stop,
        Stop::Entry | Stop::Exit | Stop::ChildEntry(_) | Stop::ChildExit(_)
    )
}

/// Adds the stops that come next.
fn add_next(
    steps: &[Step],
    passes: &[bool],
    from: Stop,
    found: &mut IndexSet<Stop>,
) -> Result<(), AllocError>
    ensures gains { OnOk result (Gains found.old.keys found.new.keys (IsHop steps.now passes.now from)) }
    ensures order { OnOk result ((more : Sequence StopValue) × (found.new.keys ≡ found.old.keys ++ more)) }
{
    add_targets(steps, from, found)?;
    add_exit(passes, from, found)
}

/// Adds the targets of the steps from a stop.
fn add_targets(steps: &[Step], from: Stop, found: &mut IndexSet<Stop>) -> Result<(), AllocError>
    ensures gains { OnOk result (Gains found.old.keys found.new.keys (IsStepOf steps.now from)) }
    ensures order { OnOk result ((more : Sequence StopValue) × (found.new.keys ≡ found.old.keys ++ more)) }
{
    for step in steps {
        add_target(*step, from, found)?;
    }
    Ok(())
}

fn add_target(step: Step, from: Stop, found: &mut IndexSet<Stop>) -> Result<(), AllocError>
    ensures gains { OnOk result (Gains found.old.keys found.new.keys (λ s. (step.from ≡ from) × (step.to ≡ s))) }
    ensures order { OnOk result ((more : Sequence StopValue) × (found.new.keys ≡ found.old.keys ++ more)) }
{
    if step.from == from {
        add(step.to, found)?;
    }
    Ok(())
}

/// Adds the exit of a child behind its entry, where the child is passed.
fn add_exit(passes: &[bool], from: Stop, found: &mut IndexSet<Stop>) -> Result<(), AllocError>
    ensures gains { OnOk result (Gains found.old.keys found.new.keys (IsPassing passes.now from)) }
    ensures order { OnOk result ((more : Sequence StopValue) × (found.new.keys ≡ found.old.keys ++ more)) }
{
    let Stop::ChildEntry(child) = from else {
        return Ok(());
    };
    if is_passed(passes, child) {
        add(Stop::ChildExit(child), found)?;
    }
    Ok(())
}

fn is_passed(passes: &[bool], child: u32) -> bool
    ensures { IsTrue result ↔ IsPassed passes.now child }
{
    match passes.get(child as usize) {
        Some(bit) => *bit,
        None => false,
    }
}

fn add(stop: Stop, found: &mut IndexSet<Stop>) -> Result<(), AllocError>
    ensures gains { OnOk result (Gains found.old.keys found.new.keys (λ s. s ≡ stop)) }
    ensures order { OnOk result ((more : Sequence StopValue) × (found.new.keys ≡ found.old.keys ++ more)) }
{
    found.insert(stop)?;
    Ok(())
}
