//! The declarations that names in expressions stand for, and the types that these tell.
ghost use Rattle.std.specs.Prelude.{◌≡◌, IfOk, option_and_then, slice_get};
ghost use Rattle.std.specs.Option.{option_copied};
ghost use Rattle.flow_syntax.specs.Inferred.{property_named, function_named, enum_with, lattice_with, constant_named, is_or_faulty, name_inferred, property_inferred, result_inferred};
ghost use Rattle.flow_syntax.specs.Scopes.{variable_named};
ghost use Rattle.check_base.specs.Tables.{AreNames};
ghost use Rattle.check_exprs.specs.inner.Scoping.{scope_of};
ghost use Rattle.expr_typing.specs.Views.{inferred_of};
ghost use Rattle.check_exprs.specs.inner.Naming.{is_bound};

use crate::scope::{Scope, variable_named};
use check_base::Names;
use expr_typing::{Inferred, inferred_element, inferred_lattice};
use flow_syntax::{
    ElemSort, EnumDecl, ExprType, FunctionDecl, LatticeType, PropDecl, Spec, TableDecl,
};
use flow_term::Text;
use std::alloc::{AllocError, Global};

/// The specification, with its names.
#[derive(Drop)]
pub struct Context<'a> {
    pub alloc: Global,
    pub spec: &'a Spec,
    pub names: &'a Names<'a>,
}

/// What has this number among these, if there is a number.
fn numbered<'a, T>(items: &'a [T], number: Option<usize>) -> Option<&'a T>
    ensures { option_copied result ≡ option_and_then (slice_get items.now) number }
{
    match number {
        Some(at) => items.get(at),
        None => None,
    }
}

/// The property of this name.
pub fn property_named<'a>(cx: &Context<'a>, name: &Text) -> Option<&'a PropDecl>
    requires { AreNames cx.now.spec.now cx.now.names.now }
    ensures { option_copied result ≡ property_named cx.now.spec.now name.now }
{
    numbered(cx.spec.properties.as_slice(), cx.names.property_named(name))
}

/// The function of this name.
pub fn function_named<'a>(cx: &Context<'a>, name: &Text) -> Option<&'a FunctionDecl>
    requires { AreNames cx.now.spec.now cx.now.names.now }
    ensures { option_copied result ≡ function_named cx.now.spec.now name.now }
{
    numbered(cx.spec.functions.as_slice(), cx.names.function_named(name))
}

/// The enum that has this item.
fn enum_with<'a>(cx: &Context<'a>, name: &Text) -> Option<&'a EnumDecl>
    requires { AreNames cx.now.spec.now cx.now.names.now }
    ensures { option_copied result ≡ enum_with cx.now.spec.now name.now }
{
    numbered(cx.spec.enums.as_slice(), cx.names.enum_with_item(name))
}

/// The lattice that has this element.
fn lattice_with<'a>(cx: &Context<'a>, name: &Text) -> Option<&'a TableDecl>
    requires { AreNames cx.now.spec.now cx.now.names.now }
    ensures { option_copied result ≡ lattice_with cx.now.spec.now name.now }
{
    numbered(
        cx.spec.lattices.as_slice(),
        cx.names.lattice_with_element(name),
    )
}

/// The type of an item or element.
fn constant_inferred(cx: &Context<'_>, name: &Text) -> Result<Inferred, AllocError>
    requires { AreNames cx.now.spec.now cx.now.names.now }
    ensures { IfOk result (λ t. inferred_of t ≡ is_or_faulty (constant_named cx.now.spec.now name.now)) }
{
    match enum_with(cx, name) {
        Some(declared) => {
            let named = declared.name.duplicate()?;
            Ok(Inferred::Is(ExprType::Elem(ElemSort::Enum(named))))
        }
        None => match lattice_with(cx, name) {
            Some(declared) => {
                let named = declared.name.duplicate()?;
                Ok(Inferred::Is(ExprType::Lattice(LatticeType::Table(named))))
            }
            None => Ok(Inferred::Faulty),
        },
    }
}

/// The type of a name in an expression.
pub fn name_inferred(
    cx: &Context<'_>,
    scope: &Scope<'_>,
    name: &Text,
) -> Result<Inferred, AllocError>
    requires { AreNames cx.now.spec.now cx.now.names.now }
    ensures { IfOk result (λ t. inferred_of t ≡ name_inferred (variable_named (scope_of scope.now) name.now) (constant_named cx.now.spec.now name.now)) }
{
    match variable_named(scope, name) {
        Some(variable) => match variable.sort {
            Some(sort) => inferred_element(cx.alloc, sort),
            None => Ok(Inferred::Faulty),
        },
        None => constant_inferred(cx, name),
    }
}

/// The type of a property.
pub fn property_inferred(cx: &Context<'_>, name: &Text) -> Result<Inferred, AllocError>
    requires { AreNames cx.now.spec.now cx.now.names.now }
    ensures { IfOk result (λ t. inferred_of t ≡ property_inferred (property_named cx.now.spec.now name.now)) }
{
    match property_named(cx, name) {
        Some(property) => inferred_lattice(cx.alloc, &property.lattice),
        None => Ok(Inferred::Faulty),
    }
}

/// The type of what a function gives.
pub fn result_inferred(cx: &Context<'_>, name: &Text) -> Result<Inferred, AllocError>
    requires { AreNames cx.now.spec.now cx.now.names.now }
    ensures { IfOk result (λ t. inferred_of t ≡ result_inferred (function_named cx.now.spec.now name.now)) }
{
    match function_named(cx, name) {
        Some(function) => {
            let named = function.result.duplicate()?;
            Ok(Inferred::Is(ExprType::Lattice(LatticeType::Table(named))))
        }
        None => Ok(Inferred::Faulty),
    }
}

/// Whether a name is a variable, an item or an element.
pub fn is_bound(cx: &Context<'_>, scope: &Scope<'_>, name: &Text) -> bool
    requires { AreNames cx.now.spec.now cx.now.names.now }
    ensures { result ≡ is_bound cx.now.spec.now (scope_of scope.now) name.now }
{
    variable_named(scope, name).is_some()
        || enum_with(cx, name).is_some()
        || lattice_with(cx, name).is_some()
}
