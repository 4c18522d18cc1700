//! All rules that match at a position.
ghost use Rattle.std.specs.Prelude.{◌≡◌, ◌≢◌, ◌+◌, ◌<◌, ◌^◌, IfOk, None, Some};
ghost use Rattle.std.specs.Option.{option_copied};
ghost use Rattle.flow_term.specs.Trees.{At, term_size};
ghost use Rattle.flow_syntax.specs.Control.{rule_for};
ghost use Rattle.flow_syntax.specs.declared.spec.Spec.{Spec as Specification};
ghost use Rattle.flow_match.specs.Few.{HasFewRules};
ghost use Rattle.flow_match.specs.Matched.{matched_in};

use crate::firsts::first_rule;
use crate::hits::matched_at;
use crate::matched::Matched;
use flow_syntax::{FlowRule, TypedSpec};
use flow_term::{Path, Term};
use lattice_base::Steps;
use std::alloc::{AllocError, Global};
use std::sync::ledger::Ledger;

/// What gives the rules of a specification that match at a position. Each position that is asked for is one step.
pub trait RuleSource {
    // The specification whose rules it gives.
    ghost spec: { Self → Specification };

    /// The rules that match at the position: the control rule, and of each property its first ordinary and its first boundary
    /// rule, with what their variables stand for. Rules that aren't given take no memory. Fails only for want of memory.
    fn rules_at<C: Ledger>(
        &self,
        alloc: Global,
        tree: &Term,
        path: &Path,
        steps: &mut Steps<C>,
    ) -> Result<Matched, AllocError>
        requires small { term_size tree.now < 2 ^ 32 }
        requires position { At tree.now path.now ≢ None }
        requires few { HasFewRules (spec self.now) }
        ensures matched { IfOk result (λ rules. Some rules ≡ matched_in (spec self.now) tree.now path.now) }
        ensures steps { steps.new ≡ steps.old + 1 };

    /// The control rule alone that matches a term, which is the first whose head does. It takes no memory.
    fn control_rule<'a, C: Ledger>(
        &'a self,
        term: &Term,
        steps: &mut Steps<C>,
    ) -> Option<&'a FlowRule>
        ensures rule { option_copied result ≡ rule_for (spec self.now) term.now }
        ensures steps { steps.new ≡ steps.old + 1 };
}

/// The rules of the specification itself, tried one after another.
impl RuleSource for TypedSpec {
    ghost spec = { λ typed. typed.spec };

    fn rules_at<C: Ledger>(
        &self,
        alloc: Global,
        tree: &Term,
        path: &Path,
        steps: &mut Steps<C>,
    ) -> Result<Matched, AllocError> {
        steps.tick();
        matched_at(
            alloc,
            &self.spec,
            self.spec.properties.as_slice(),
            tree,
            path,
        )
    }

    fn control_rule<'a, C: Ledger>(
        &'a self,
        term: &Term,
        steps: &mut Steps<C>,
    ) -> Option<&'a FlowRule> {
        steps.tick();
        first_rule(self.spec.control.as_slice(), term)
    }
}
