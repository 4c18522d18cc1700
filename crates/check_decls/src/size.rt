//! The numbers of entries of lattices and functions.
ghost use Rattle.std.specs.Prelude.{◌≡◌, ◌↔◌, ◌*◌, ◌-◌, ◌^◌, min, length, slice_get, IsTrue};
ghost use Rattle.std.specs.Option.{option_copied, option_map};
ghost use Rattle.flow_syntax.specs.DeclFaults.{IsIncomplete, IsMissized, lattice_named, tuple_count};
ghost use Rattle.check_base.specs.Tables.{AreNames};

use check_base::Names;
use flow_syntax::{FunctionDecl, Named, Spec, TableDecl};
use flow_term::Text;

/// How many elements a lattice may have.
const ELEMENT_LIMIT: usize = 24;

/// Whether a lattice has too many elements, or not an entry for each two of them.
pub fn is_missized(lattice: &TableDecl) -> bool
    ensures { IsTrue result ↔ IsMissized lattice.now }
{
    let count = lattice.elements.len();
    count > ELEMENT_LIMIT || lattice.join.len() != count * count
}

fn lattice_at(lattices: &[TableDecl], number: usize) -> Option<&TableDecl>
    ensures { option_copied result ≡ slice_get lattices.now number }
{
    lattices.get(number)
}

/// The lattice that is called so.
fn lattice_called<'a>(spec: &'a Spec, names: &Names<'_>, name: &Text) -> Option<&'a TableDecl>
    requires { AreNames spec.now names.now }
    ensures { option_copied result ≡ lattice_named spec.now name.now }
{
    let number = names.lattice_named(name)?;
    lattice_at(spec.lattices.as_slice(), number)
}

/// How many tuples of arguments there are, if the lattices of all are declared. From 2^128 - 1 on it is that number.
fn tuple_count(spec: &Spec, names: &Names<'_>, args: &[Named]) -> Option<u128>
    requires { AreNames spec.now names.now }
    ensures { result ≡ option_map (λ n. min n (2 ^ 128 - 1)) (tuple_count spec.now args.now) }
{
    let mut count: u128 = 1;
    for name in args {
        let lattice = lattice_called(spec, names, &name.text)?;
        count = count.saturating_mul(lattice.elements.len() as u128);
    }
    Some(count)
}

/// Whether the lattices of all arguments of a function are declared and it has not an entry for each tuple of arguments.
pub fn is_incomplete(spec: &Spec, names: &Names<'_>, function: &FunctionDecl) -> bool
    requires { AreNames spec.now names.now }
    ensures { IsTrue result ↔ IsIncomplete spec.now function.now }
{
    match tuple_count(spec, names, function.args.as_slice()) {
        Some(count) => function.table.len() as u128 != count,
        None => false,
    }
}
