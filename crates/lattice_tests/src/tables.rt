//! Lattices and functions of tables.
ghost use Rattle.std.specs.Prelude.{◌≡◌, ◌↔◌, ◌<◌, ◌^◌, All, IsTrue, length};
ghost use Rattle.value_domains.specs.Domains.{place_in, texts_of};
ghost use Rattle.table_laws.specs.FunctionTables.{IsTotal};
ghost use Rattle.table_laws.specs.JoinTables.{IsComplete, table_by};
ghost use Rattle.lattice_tables.specs.Functions.{binary, unary};
ghost use Rattle.lattice_tables.specs.Tables.{declared_numbers};

use crate::joins::join_of;
use flow_syntax::{Named, TableDecl};
use flow_term::{List, Text};
use lattice_any::Tables;
use lattice_tables::{
    FunctionRefusal, LawFault, TableFn, TableL, TableRefusal, build, build_binary, build_declared,
    build_unary, number_of,
};
use std::alloc::{AllocError, Global};
use std::test::Fail;

fn is_complete(count: u8, bottom: u8, join: &[u8]) -> bool
    ensures { IsTrue result ↔ IsComplete (table_by count bottom join.now) }
{
    let size = usize::from(count) * usize::from(count);
    bottom < count && join.len() == size && join.iter().all(|entry| *entry < count)
}

fn told_of_fault(alloc: Global, fault: LawFault) -> Result<String, AllocError> {
    match fault {
        LawFault::Idempotent(a) => format!(in alloc; "idempotent {a}"),
        LawFault::Commutative(a, b) => format!(in alloc; "commutative {a} {b}"),
        LawFault::Associative(a, b, c) => format!(in alloc; "associative {a} {b} {c}"),
        LawFault::BottomLaw(a) => format!(in alloc; "bottom {a}"),
    }
}

/// The least element of a copy, and its join with itself.
fn told_of_lattice(alloc: Global, lattice: &TableL) -> Result<String, AllocError> {
    let copy = lattice.duplicate(alloc)?;
    let least = copy.least();
    let count = copy.count();
    match join_of(alloc, &copy, &least, &least)? {
        Some(join) => format!(in alloc; "lattice of {count} from {join}"),
        None => format!(in alloc; "no join"),
    }
}

fn told_of_table(alloc: Global, count: u8, bottom: u8, join: &[u8]) -> Result<String, Fail>
    requires { IsComplete (table_by count bottom join.now) }
{
    match build(alloc, count, bottom, join) {
        Ok(lattice) => Ok(told_of_lattice(alloc, &lattice)?),
        Err(TableRefusal::Law(fault)) => Ok(told_of_fault(alloc, fault)?),
        Err(TableRefusal::NoMemory) => Err("no memory".into()),
    }
}

/// The digits of a text as numbers.
fn digits(alloc: Global, text: &str) -> Result<Vec<u8>, AllocError> {
    let mut numbers = Vec::new(alloc);
    for byte in text.as_bytes() {
        numbers.push(*byte & 15)?;
    }
    Ok(numbers)
}

/// What is told of a table, whose joins are given as digits. It has as many elements as rows.
fn told_of_row(alloc: Global, count: u8, bottom: u8, joins: &str) -> Result<String, Fail> {
    let join = digits(alloc, joins)?;
    if is_complete(count, bottom, join.as_slice()) {
        told_of_table(alloc, count, bottom, join.as_slice())
    } else {
        Err("not complete".into())
    }
}

#[test]
fn the_first_law_that_fails_is_told(rt: HostRuntime) -> Result<(), Fail> {
    let alloc = rt.alloc();
    assert_eq!(rt;
        told_of_row(alloc, 1, 0, "0")?.as_str(),
        "lattice of 1 from 0"
    );
    assert_eq!(rt;
        told_of_row(alloc, 2, 0, "0111")?.as_str(),
        "lattice of 2 from 0"
    );
    assert_eq!(rt; told_of_row(alloc, 2, 0, "0110")?.as_str(), "idempotent 1");
    assert_eq!(rt;
        told_of_row(alloc, 2, 0, "0101")?.as_str(),
        "commutative 0 1"
    );
    assert_eq!(rt;
        told_of_row(alloc, 4, 0, "0123112122233133")?.as_str(),
        "associative 1 2 3"
    );
    assert_eq!(rt; told_of_row(alloc, 2, 1, "0111")?.as_str(), "bottom 0");
    Ok(())
}

/// The joins of 24 elements, each above those before it.
fn chain(alloc: Global) -> Result<Vec<u8>, AllocError> {
    let mut join = Vec::new(alloc);
    for a in 0..24u8 {
        for b in 0..24u8 {
            join.push(if a < b { b } else { a })?;
        }
    }
    Ok(join)
}

#[test]
fn a_lattice_may_have_24_elements(rt: HostRuntime) -> Result<(), Fail> {
    let join = chain(rt.alloc())?;
    if is_complete(24, 0, join.as_slice()) {
        let told = told_of_table(rt.alloc(), 24, 0, join.as_slice())?;
        assert_eq!(rt; told.as_str(), "lattice of 24 from 0");
        Ok(())
    } else {
        Err("not complete".into())
    }
}

fn is_total_unary(from: &TableL, to: &TableL, table: &[u8]) -> bool
    ensures { IsTrue result ↔ IsTotal (unary from.now to.now table.now) }
{
    let count = to.count();
    table.len() == usize::from(from.count()) && table.iter().all(|entry| *entry < count)
}

fn is_total_binary(left: &TableL, right: &TableL, to: &TableL, table: &[u8]) -> bool
    ensures { IsTrue result ↔ IsTotal (binary left.now right.now to.now table.now) }
{
    let size = usize::from(left.count()) * usize::from(right.count());
    let count = to.count();
    table.len() == size && table.iter().all(|entry| *entry < count)
}

fn told_of_refusal(alloc: Global, refusal: FunctionRefusal) -> Result<String, AllocError> {
    match refusal {
        FunctionRefusal::NotMonotone {
            lower: (a, b),
            higher: (c, d),
        } => { format!(in alloc; "from {a} {b} to {c} {d}") }
        FunctionRefusal::NoMemory => format!(in alloc; "no memory"),
    }
}

/// What is told of a function from a lattice to itself; if it is monotone, its least result.
fn told_of_unary(alloc: Global, lattice: &TableL, table: &[u8]) -> Result<String, AllocError>
    requires { IsTotal (unary lattice.now lattice.now table.now) }
{
    match build_unary(alloc, lattice, lattice, table) {
        Ok(function) => {
            let least = function.duplicate(alloc)?.apply(lattice.least(), 0);
            format!(in alloc; "function from {least}")
        }
        Err(refusal) => told_of_refusal(alloc, refusal),
    }
}

/// The same of a function of two arguments.
fn told_of_binary(alloc: Global, lattice: &TableL, table: &[u8]) -> Result<String, AllocError>
    requires { IsTotal (binary lattice.now lattice.now lattice.now table.now) }
{
    match build_binary(alloc, lattice, lattice, lattice, table) {
        Ok(function) => {
            let least = function
                .duplicate(alloc)?
                .apply(lattice.least(), lattice.least());
            format!(in alloc; "function from {least}")
        }
        Err(refusal) => told_of_refusal(alloc, refusal),
    }
}

/// What is told of a table of digits over a lattice, which has results for one argument or for two.
fn told_of_results(alloc: Global, lattice: &TableL, digits_of: &str) -> Result<String, Fail> {
    let table = digits(alloc, digits_of)?;
    if is_total_unary(lattice, lattice, table.as_slice()) {
        return Ok(told_of_unary(alloc, lattice, table.as_slice())?);
    }
    if is_total_binary(lattice, lattice, lattice, table.as_slice()) {
        return Ok(told_of_binary(alloc, lattice, table.as_slice())?);
    }
    Err("not total".into())
}

/// What is told of a function over the lattice of two elements, the first below the second.
fn told_over_two(alloc: Global, digits_of: &str) -> Result<String, Fail> {
    let join = digits(alloc, "0111")?;
    if !is_complete(2, 0, join.as_slice()) {
        return Err("not complete".into());
    }
    match build(alloc, 2, 0, join.as_slice()) {
        Ok(two) => told_of_results(alloc, &two, digits_of),
        Err(_) => Err("no lattice".into()),
    }
}

#[test]
fn the_first_arguments_out_of_order_are_told(rt: HostRuntime) -> Result<(), Fail> {
    let alloc = rt.alloc();
    assert_eq!(rt; told_over_two(alloc, "10")?.as_str(), "from 0 0 to 1 0");
    assert_eq!(rt; told_over_two(alloc, "11")?.as_str(), "function from 1");
    assert_eq!(rt; told_over_two(alloc, "0001")?.as_str(), "function from 0");
    assert_eq!(rt; told_over_two(alloc, "0110")?.as_str(), "from 0 1 to 1 1");
    Ok(())
}

fn named(alloc: Global, text: &str) -> Result<Named, AllocError> {
    let text = Text::from_string(String::from_str(alloc, text)?);
    Ok(Named { text, place: 0 })
}

fn names(alloc: Global, words: &str) -> Result<List<Named>, AllocError> {
    let mut names = List::new(alloc);
    for word in words.split(' ') {
        names.push(named(alloc, word)?)?;
    }
    Ok(names)
}

/// Signs of numbers, as a specification declares them.
fn sign_declaration(alloc: Global) -> Result<TableDecl, AllocError> {
    Ok(TableDecl {
        name: named(alloc, "Sign")?,
        elements: names(alloc, "Bot Neg Pos Top")?,
        bottom: named(alloc, "Bot")?,
        join: names(
            alloc,
            "Bot Neg Pos Top Neg Neg Top Top Pos Top Pos Top Top Top Top Top",
        )?,
    })
}

/// Whether each name is one of the elements.
fn are_elements(elements: &[Named], names: &[Named]) -> bool
    requires { length elements.now < 2 ^ 8 }
    ensures { IsTrue result → All (λ name. place_in (texts_of elements.now) name.text < length elements.now) names.now }
{
    for name in names {
        if usize::from(number_of(elements, &name.text)) >= elements.len() {
            return false;
        }
    }
    true
}

/// Whether there are few elements, bottom is one, and so is each of as many joins as there are pairs.
fn is_well_declared(decl: &TableDecl) -> bool
    ensures few { IsTrue result → length decl.now.elements < 2 ^ 8 }
    ensures complete { IsTrue result → IsComplete (declared_numbers decl.now) }
{
    let elements = decl.elements.as_slice();
    let count = elements.len();
    if count >= 256 || decl.join.len() != count * count {
        return false;
    }
    let bottom = usize::from(number_of(elements, &decl.bottom.text));
    bottom < count && are_elements(elements, decl.join.as_slice())
}

/// Tables with that of the signs.
fn add_sign(alloc: Global, tables: &mut Tables, decl: &TableDecl) -> Result<(), AllocError>
    requires few { length decl.now.elements < 2 ^ 8 }
    requires complete { IsComplete (declared_numbers decl.now) }
{
    match build_declared(alloc, decl) {
        Ok(lattice) => tables.add(decl, lattice),
        Err(_) => Ok(()),
    }
}

/// The tables of a specification that declares the signs alone.
pub(crate) fn sign_tables(alloc: Global) -> Result<Tables, AllocError> {
    let mut tables = Tables::new(alloc);
    let decl = sign_declaration(alloc)?;
    if is_well_declared(&decl) {
        add_sign(alloc, &mut tables, &decl)?;
    }
    Ok(tables)
}
