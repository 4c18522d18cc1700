ghost use Rattle.std.specs.Prelude.{◌≡◌, ℕ, IfOk, OnOk, map};
ghost use Rattle.check_base.specs.Earliest.{Gathers};
ghost use Rattle.flow_sorts.specs.First.{IfFault, IsFirstFault, IsRefusedAs, IsTypedAs};
ghost use Rattle.expr_typing.specs.Listing.{AreListed};
ghost use Rattle.flow_syntax.specs.DeclFaults.{directions_of};
ghost use Rattle.flow_syntax.specs.ExprTypes.{wholes_of};
ghost use Rattle.flow_syntax.specs.Types.{typing_of};
ghost use Rattle.flow_syntax.specs.Accepted.{HasIdentifiers, IsWellFormed};
ghost use Rattle.flow_syntax.specs.Faults.{HasFault, HasNoFault};
ghost use Rattle.flow_syntax.specs.declared.fault.SpecFaultKind.{SpecFaultKind as Kind};
ghost use Rattle.check_base.specs.Tables.{AreNames};

use crate::refusal::SpecRefusal;
use check_base::{Earliest, Names, names_of};
use check_decls::{check_declarations, directions};
use check_exprs::check_expressions;
use check_rules::{check_rules, check_variables};
use flow_syntax::{Direction, ExprType, Spec, TypedSpec};
use flow_term::List;
use std::alloc::{AllocError, Global};

/// The directions of the properties, and the types with which the expressions are listed.
#[derive(Drop)]
struct Told {
    directions: List<Direction>,
    types: List<ExprType>,
}

/// The specification with the directions of its properties and the types of its expressions, if it has no fault.
///
/// `Fault` exactly where it has one: the one of the least place, and of those at one place the one whose kind comes first in the order
/// of `SpecFaultKind`. The faults are listed in `docs/LANGUAGE.md`.
pub fn check_sorts(alloc: Global, spec: Spec) -> Result<TypedSpec, SpecRefusal>
    requires well_formed { IsWellFormed spec }
    requires identifiers { HasIdentifiers spec }
    ensures found { IfOk result (λ typed. typed.spec ≡ spec) }
    ensures only { HasNoFault spec → IsTypedAs result }
    ensures fault { IfFault result (IsFirstFault spec) }
    ensures first { (place : ℕ) (kind : Kind) → IsFirstFault spec place kind → IsRefusedAs result place kind }
{
    let mut earliest = Earliest::new();
    let told = look_for_faults(alloc, &spec, &mut earliest)?;
    if let Some((place, kind)) = earliest.found() {
        return Err(SpecRefusal::Fault { place, kind });
    }
    let Told { directions, types } = told;
    Ok(TypedSpec {
        spec,
        directions,
        types,
    })
}

/// Notes each fault, and answers the directions of the properties and the types of the expressions.
fn look_for_faults(alloc: Global, spec: &Spec, earliest: &mut Earliest) -> Result<Told, AllocError>
    ensures gathers { OnOk result (Gathers earliest.old earliest.new (HasFault spec.now)) }
    ensures directions { IfOk result (λ told. told.directions ≡ directions_of spec.now) }
    ensures types { IfOk result (λ told. AreListed spec.now (wholes_of spec.now) (map typing_of told.types)) }
{
    let names = names_of(alloc, spec)?;
    look_by_names(alloc, spec, &names, earliest)
}

/// The same, with the names of the specification.
fn look_by_names(
    alloc: Global,
    spec: &Spec,
    names: &Names<'_>,
    earliest: &mut Earliest,
) -> Result<Told, AllocError>
    requires { AreNames spec.now names.now }
    ensures gathers { OnOk result (Gathers earliest.old earliest.new (HasFault spec.now)) }
    ensures directions { IfOk result (λ told. told.directions ≡ directions_of spec.now) }
    ensures types { IfOk result (λ told. AreListed spec.now (wholes_of spec.now) (map typing_of told.types)) }
{
    check_declarations(alloc, spec, names, earliest)?;
    check_rules(alloc, spec, names, earliest)?;
    check_variables(alloc, spec, names, earliest)?;
    let types = check_expressions(alloc, spec, names, earliest)?;
    let directions = directions(alloc, spec, names)?;
    Ok(Told { directions, types })
}
