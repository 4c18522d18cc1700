//! The declared functions of a specification.
ghost use Rattle.std.specs.Prelude.{◌≡◌, ◌<◌, ◌^◌, Contains, IfErr, IfOk, length, map};
ghost use Rattle.flow_eval.specs.Tables.{AreFunctionsOf};
ghost use Rattle.flow_eval.specs.inner.Built.{AreLatticesOf, IsKnown, IsRefusalOf, refused_function};
ghost use Rattle.flow_syntax.specs.Accepted.{HasSmallFunctions};
ghost use Rattle.flow_syntax.specs.Faults.{HasNoFault};
ghost use Rattle.function_laws.specs.Laws.{numbered_function};
ghost use Rattle.lattice_tables.specs.Functions.{IsFunctionRefusal, IsMadeOf};
ghost use Rattle.value_domains.specs.Domains.{place_in, table_named, texts_of};

use crate::lattices::{declaration_named, lattice_named};
use crate::refusal::PrepareRefusal;
use flow_syntax::{FunctionDecl, Named, Spec, TableDecl, TypedSpec};
use flow_term::List;
use lattice_tables::{FunctionRefusal, TableFn, TableL, build_binary, build_unary, number_of};
use std::alloc::{AllocError, Global};

/// The functions of the declarations, in their order, over the declared lattices. The first that isn't monotone is told.
pub(crate) fn build_functions(
    alloc: Global,
    spec: &TypedSpec,
    lattices: &[TableL],
) -> Result<List<TableFn>, PrepareRefusal>
    requires few { length spec.now.spec.functions < 2 ^ 32 }
    requires lattices { AreLatticesOf spec.now.spec.lattices lattices.now }
    ensures built { IfOk result (AreFunctionsOf spec.now.spec spec.now.spec.functions) }
    ensures refused { IfErr result (IsRefusalOf spec.now) }
{
    let mut functions = List::new(alloc);
    for (number, decl) in spec.spec.functions.as_slice().iter().enumerate() {
        match build_function(alloc, &spec.spec, lattices, decl) {
            Ok(function) => functions.push(function)?,
            Err(refusal) => return Err(refused_function(number as u32, refusal)),
        }
    }
    Ok(functions)
}

/// The refusal of a specification for the function of this number.
fn refused_function(function: u32, refusal: FunctionRefusal) -> PrepareRefusal
    ensures { result ≡ refused_function function refusal }
{
    match refusal {
        FunctionRefusal::NotMonotone { lower, higher } => PrepareRefusal::NotMonotone {
            function,
            lower,
            higher,
        },
        FunctionRefusal::NoMemory => PrepareRefusal::NoMemory,
    }
}

/// The function of a declaration.
fn build_function(
    alloc: Global,
    spec: &Spec,
    lattices: &[TableL],
    decl: &FunctionDecl,
) -> Result<TableFn, FunctionRefusal>
    requires faultless { HasNoFault spec.now }
    requires small { HasSmallFunctions spec.now }
    requires among { Contains spec.now.functions decl.now }
    requires lattices { AreLatticesOf spec.now.lattices lattices.now }
    ensures made { IfOk result (IsMadeOf (numbered_function spec.now decl.now)) }
    ensures refused { IfErr result (IsFunctionRefusal (numbered_function spec.now decl.now)) }
{
    let declared = spec.lattices.as_slice();
    let results = results_of(alloc, declared, decl)?;
    let to = lattice_named(declared, lattices, &decl.result);
    let args = decl.args.as_slice();
    let first = &args[0];
    let left = lattice_named(declared, lattices, first);
    match args.get(1) {
        None => build_unary(alloc, left, to, results.as_slice()),
        Some(second) => {
            let right = lattice_named(declared, lattices, second);
            build_binary(alloc, left, right, to, results.as_slice())
        }
    }
}

/// The results of a declaration, by their numbers. Fails only for want of memory.
fn results_of(
    alloc: Global,
    declared: &[TableDecl],
    decl: &FunctionDecl,
) -> Result<List<u8>, AllocError>
    requires known { IsKnown declared.now decl.now.result.text }
    requires few { length (table_named declared.now decl.now.result.text).elements < 2 ^ 8 }
    ensures { IfOk result (λ numbers. numbers ≡ map (place_in (table_named declared.now decl.now.result.text).elements) (texts_of decl.now.table)) }
{
    let elements = declaration_named(declared, &decl.result.text)
        .elements
        .as_slice();
    numbers_of(alloc, elements, decl.table.as_slice())
}

/// The numbers of names among the elements of a lattice. Fails only for want of memory.
fn numbers_of(alloc: Global, elements: &[Named], names: &[Named]) -> Result<List<u8>, AllocError>
    requires { length elements.now < 2 ^ 8 }
    ensures { IfOk result (λ numbers. numbers ≡ map (place_in (texts_of elements.now)) (texts_of names.now)) }
{
    let mut numbers = List::new(alloc);
    for name in names {
        numbers.push(number_of(elements, &name.text))?;
    }
    Ok(numbers)
}
