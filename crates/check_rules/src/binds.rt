//! What binds names: control rules, rules of properties and messages.
ghost use Rattle.std.specs.Prelude.{◌≡◌, IfOk, map};
ghost use Rattle.flow_syntax.specs.VariableFaults.{binders_of_head, binders_of_message, binders_of_rule};
ghost use Rattle.check_rules.specs.inner.Tables.{binder_by};

use crate::bindings::{Binding, push_binders, push_variables};
use crate::rules::trigger_pattern;
use flow_syntax::{FlowRule, Message, PropRule};
use std::alloc::{AllocError, Global};

/// A rule or message, in which no name is to be bound twice.
pub trait Binds {
    ghost use Rattle.std.specs.Prelude.{List as Sequence};
    ghost use Rattle.flow_syntax.specs.Binders.{Binder};

    // The names that it binds, in the order of the text.
    ghost binders: { Self → Sequence Binder };

    /// The names that it binds, in the order of the text. Fails only for want of memory.
    fn bindings(&self, alloc: Global) -> Result<Vec<Binding<'_>>, AllocError>
        ensures { IfOk result (λ bindings. map binder_by bindings.items ≡ binders self.now) };
}

/// A control rule binds the variables of its head.
impl Binds for FlowRule {
    ghost binders = { binders_of_head };

    fn bindings(&self, alloc: Global) -> Result<Vec<Binding<'_>>, AllocError> {
        let mut bindings = Vec::new(alloc);
        push_variables(&self.head, &mut bindings)?;
        Ok(bindings)
    }
}

/// A rule of a property binds the variables of its pattern and the names of its body.
impl Binds for PropRule {
    ghost binders = { binders_of_rule };

    fn bindings(&self, alloc: Global) -> Result<Vec<Binding<'_>>, AllocError> {
        let mut bindings = Vec::new(alloc);
        push_variables(trigger_pattern(&self.trigger), &mut bindings)?;
        push_binders(&self.body, &mut bindings)?;
        Ok(bindings)
    }
}

/// A message binds the variables of its pattern and the names of its condition.
impl Binds for Message {
    ghost binders = { binders_of_message };

    fn bindings(&self, alloc: Global) -> Result<Vec<Binding<'_>>, AllocError> {
        let mut bindings = Vec::new(alloc);
        push_variables(&self.pattern, &mut bindings)?;
        match &self.condition {
            Some(condition) => {
                push_binders(condition, &mut bindings)?;
                Ok(bindings)
            }
            None => Ok(bindings),
        }
    }
}
