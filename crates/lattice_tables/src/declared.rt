//! Lattices made of declarations.
ghost use Rattle.std.specs.Prelude.{◌≡◌, ◌<◌, ◌^◌, IfOk, IfErr, length, map};
ghost use Rattle.value_domains.specs.Domains.{place_in, texts_of};
ghost use Rattle.table_laws.specs.JoinTables.{IsComplete};
ghost use Rattle.lattice_tables.specs.Tables.{IsBuiltFrom, IsRefusal, declared_numbers};

use crate::joins::Joins;
use crate::lattice::TableL;
use crate::law_faults::law_fault;
use crate::refusal::TableRefusal;
use flow_syntax::{Named, TableDecl};
use flow_term::{List, Text};
use std::alloc::{AllocError, Global};

/// The number of a name among the elements of a declared lattice, in their order from 0; where it is none of them, how many there
/// are. Takes no memory.
pub fn number_of(elements: &[Named], name: &Text) -> u8
    requires { length elements.now < 2 ^ 8 }
    ensures { result ≡ place_in (texts_of elements.now) name.now }
{
    for (at, element) in elements.iter().enumerate() {
        if element.text == *name {
            return at as u8;
        }
    }
    elements.len() as u8
}

/// The numbers of names. Fails only for want of memory.
fn numbers_of(alloc: Global, elements: &[Named], names: &[Named]) -> Result<List<u8>, AllocError>
    requires { length elements.now < 2 ^ 8 }
    ensures { IfOk result (λ numbers. numbers ≡ map (place_in (texts_of elements.now)) (texts_of names.now)) }
{
    let mut numbers = List::new(alloc);
    for name in names {
        numbers.push(number_of(elements, &name.text))?;
    }
    Ok(numbers)
}

/// The lattice of a declaration, whose elements have the numbers of their names in the order of the declaration, from 0. Refused
/// exactly where its joins break a law of lattices; the first law is told, at the first elements.
///
/// The bottom and each join have to be elements, and there has to be a join for each two elements, as in each specification that
/// `check_sorts` accepts.
pub fn build_declared(alloc: Global, decl: &TableDecl) -> Result<TableL, TableRefusal>
    requires few { length decl.now.elements < 2 ^ 8 }
    requires complete { IsComplete (declared_numbers decl.now) }
    ensures ok { IfOk result (IsBuiltFrom decl.now) }
    ensures err { IfErr result (IsRefusal (declared_numbers decl.now)) }
{
    let elements = decl.elements.as_slice();
    let count = elements.len() as u8;
    let bottom = number_of(elements, &decl.bottom.text);
    let join = numbers_of(alloc, elements, decl.join.as_slice())?;
    let joins = Joins {
        count,
        bottom,
        join: join.as_slice(),
    };
    if let Some(fault) = law_fault(&joins) {
        return Err(TableRefusal::Law(fault));
    }
    Ok(TableL {
        count,
        bottom,
        join,
    })
}
