//! Plans turned round, by which last nodes are found as first nodes are.
ghost use Rattle.std.specs.Prelude.{◌≡◌, IfOk, map};
ghost use Rattle.graph_shape.specs.Mirrored.{AreTurned, mirror, turn};

use crate::plans::Plans;
use flow_term::List;
use rule_plans::{Step, Stop};
use std::alloc::{AllocError, Global};

impl Plans {
    /// These plans with entries and exits exchanged, each step from back to front. Fails only for want of memory.
    pub fn turned(&self, alloc: Global) -> Result<Plans, AllocError>
        ensures { IfOk result (λ turned. AreTurned self.now turned) }
    {
        let rules = turned_rules(alloc, self.rules.as_slice())?;
        let unmatched = turned_steps(alloc, self.unmatched.as_slice())?;
        Ok(Plans { rules, unmatched })
    }
}

fn turned_rules(alloc: Global, rules: &[List<Step>]) -> Result<List<List<Step>>, AllocError>
    ensures { IfOk result (λ turned. turned ≡ map (map turn) rules.now) }
{
    let mut turned = List::new(alloc);
    for steps in rules {
        turned.push(turned_steps(alloc, steps.as_slice())?)?;
    }
    Ok(turned)
}

fn turned_steps(alloc: Global, steps: &[Step]) -> Result<List<Step>, AllocError>
    ensures { IfOk result (λ turned. turned ≡ map turn steps.now) }
{
    let mut turned = List::new(alloc);
    for step in steps {
        turned.push(turned_step(*step))?;
    }
    Ok(turned)
}

fn turned_step(step: Step) -> Step
    ensures { result ≡ turn step }
{
    Step {
        from: mirrored(step.to),
        to: mirrored(step.from),
    }
}

/// The stop with entry and exit exchanged.
pub fn mirrored(stop: Stop) -> Stop
    ensures { result ≡ mirror stop }
{
    match stop {
        Stop::Entry => Stop::Exit,
        Stop::Exit => Stop::Entry,
        Stop::Start => Stop::Start,
        Stop::End => Stop::End,
        Stop::This => Stop::This,
        Stop::ChildEntry(k) => Stop::ChildExit(k),
        Stop::ChildExit(k) => Stop::ChildEntry(k),
        Stop::Child(k) => Stop::Child(k),
    }
}
