ghost use Rattle.std.specs.Prelude.{◌≡◌, IfOk, map};
ghost use Rattle.flow_syntax.specs.Accepted.{HasAppliedHeads, HasDistinctExpressions, HasEvenMaps, HasIdentifiers, HasSmallFunctions};
ghost use Rattle.flow_syntax.specs.Control.{HasLongChains};
ghost use Rattle.flow_syntax.specs.DeclFaults.{directions_of};
ghost use Rattle.flow_syntax.specs.Expressions.{expressions_of};
ghost use Rattle.flow_syntax.specs.ExprTypes.{AreTypes};
ghost use Rattle.flow_syntax.specs.Props.{EachOnce-prop, HasEvenMaps-prop};
ghost use Rattle.flow_syntax.specs.Faults.{HasNoFault};
ghost use Rattle.flow_syntax.specs.Types.{typing_of};

use crate::message::Message;
use crate::property::{Direction, PropDecl, PropRule};
use crate::rule::FlowRule;
use crate::signature::Signature;
use crate::tables::{EnumDecl, FunctionDecl, TableDecl};
use crate::types::ExprType;
use flow_term::{List, Text};
use std::alloc::AllocError;

/// A name, with the offset of its first byte.
#[derive(Debug, Drop)]
pub struct Named {
    /// The name, without quotes.
    pub text: Text,
    /// The offset of its first byte in the text of the specification.
    pub place: u64,
}

impl Named {
    /// An equal name at the same place. Fails only for want of memory.
    pub fn duplicate(&self) -> Result<Named, AllocError>
        ensures { IfOk result (λ named. named ≡ self.now) }
    {
        Ok(Named {
            text: self.text.duplicate()?,
            place: self.place,
        })
    }
}

/// A specification: the name of a module, and its sections. A section that is left out is empty.
#[derive(Drop)]
pub struct Spec {
    /// The name of the module.
    pub name: Named,
    /// Which trees there are. `None`: each tree is allowed.
    pub signature: Option<Signature>,
    /// The sorts of listed elements.
    pub enums: List<EnumDecl>,
    /// The lattices that are given by tables.
    pub lattices: List<TableDecl>,
    /// The functions that are given by tables.
    pub functions: List<FunctionDecl>,
    /// The control rules, in the order of the text.
    pub control: List<FlowRule>,
    /// The properties, in the order of the text.
    pub properties: List<PropDecl>,
    /// The rules of the properties, in the order of the text.
    pub rules: List<PropRule>,
    /// The messages, in the order of the text.
    pub messages: List<Message>,
}

/// A specification without a fault, with what is told of it.
#[derive(Drop)]
pub struct TypedSpec {
    /// The specification.
    pub spec: Spec,
    /// The direction of each property, in the order of their declarations.
    pub directions: List<Direction>,
    /// The type of each expression, an outer one before its parts: those of the rules' bodies, then those of the messages' conditions.
    pub types: List<ExprType>,
    pub ghost faultless: { HasNoFault spec },
    pub ghost applied_heads: { HasAppliedHeads spec },
    pub ghost long_chains: { HasLongChains spec },
    pub ghost small_functions: { HasSmallFunctions spec },
    pub ghost even_maps: { HasEvenMaps spec } by { HasEvenMaps-prop spec },
    pub ghost distinct: { HasDistinctExpressions spec } by { EachOnce-prop (expressions_of spec) },
    pub ghost identifiers: { ∥ HasIdentifiers spec ∥₁ },
    pub ghost directed: { directions ≡ directions_of spec },
    // A mere truth: an expression can have its type in two ways. `expr_typing::types_are_kept` has the fact itself from it.
    pub ghost typed: { ∥ AreTypes spec (map typing_of types) ∥₁ },
}
