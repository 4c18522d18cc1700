//! What may be named at a place. Nothing here takes memory.
ghost use Rattle.std.specs.Prelude.{◌≡◌};
ghost use Rattle.std.specs.Option.{option_map};
ghost use Rattle.flow_syntax.specs.Scopes.{can_read, variable_named};
ghost use Rattle.check_exprs.specs.inner.Scoping.{scope_of};
ghost use Rattle.check_exprs.specs.inner.Variables.{variable_of};

use crate::variables::{PatternVariables, Variable};
use flow_syntax::Side;
use flow_term::Text;

/// The variables of the whole of a rule or message, and whether `prev` and `next` may be read there.
#[derive(Drop)]
pub struct Whole<'a> {
    pub variables: PatternVariables<'a>,
    pub prev: bool,
    pub next: bool,
}

/// The scope of an expression: that of the whole, or the scope around it with one more variable.
#[derive(Clone, Copy)]
pub enum Scope<'a> {
    Outer(&'a Whole<'a>),
    Inner(&'a Scope<'a>, Variable<'a>),
}

/// The first variable of this name, if there is one.
pub fn variable_named<'s>(scope: &Scope<'s>, name: &Text) -> Option<Variable<'s>>
    ensures { option_map variable_of result ≡ variable_named (scope_of scope.now) name.now }
{
    match scope {
        Scope::Outer(whole) => whole.variables.named(name),
        Scope::Inner(outer, variable) => match variable_named(outer, name) {
            Some(known) => Some(known),
            None => {
                if name == variable.name {
                    Some(*variable)
                } else {
                    None
                }
            }
        },
    }
}

/// Whether properties may be read at this side.
pub fn can_read(scope: &Scope<'_>, side: Side) -> bool
    ensures { result ≡ can_read (scope_of scope.now) side }
{
    match scope {
        Scope::Outer(whole) => match side {
            Side::This => true,
            Side::Prev => whole.prev,
            Side::Next => whole.next,
        },
        Scope::Inner(outer, _) => can_read(outer, side),
    }
}
