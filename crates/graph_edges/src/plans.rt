//! Plans both ways.
ghost use Rattle.std.specs.Prelude.{◌≡◌, IfOk, map};
ghost use Rattle.graph_edges.specs.Owned.{AreBothPlans};

use flow_syntax::FlowRule;
use flow_term::List;
use graph_shape::Plans;
use std::alloc::{AllocError, Global};

/// The steps of the control rules, these turned round, and which of the rules are root rules.
#[derive(Drop)]
pub struct BothPlans {
    /// By which first nodes are found.
    pub forth: Plans,
    /// By which last nodes are found.
    pub back: Plans,
    /// Whether a rule is a root rule, by its number.
    pub roots: List<bool>,
}

impl BothPlans {
    /// The plans of the control rules, both ways. Fails only for want of memory.
    pub fn new(alloc: Global, control: &[FlowRule]) -> Result<BothPlans, AllocError>
        ensures { IfOk result (λ plans. AreBothPlans control.now plans) }
    {
        let forth = Plans::new(alloc, control)?;
        let back = forth.turned(alloc)?;
        let roots = roots(alloc, control)?;
        Ok(BothPlans { forth, back, roots })
    }
}

fn roots(alloc: Global, control: &[FlowRule]) -> Result<List<bool>, AllocError>
    ensures { IfOk result (λ roots. roots ≡ map (λ rule. rule.root) control.now) }
{
    let mut roots = List::new(alloc);
    for rule in control {
        roots.push(rule.root)?;
    }
    Ok(roots)
}
