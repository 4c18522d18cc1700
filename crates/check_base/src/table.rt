//! Tables from names to numbers, in which the first of a name counts.
ghost use Rattle.std.specs.Prelude.{◌≡◌, ◌==◌, ◌&&◌, ℕ, length, List as Sequence, IfOk, OnOk, bytes_eq, map, is_some};
ghost use Rattle.std.specs.List.{position_from};
ghost use Rattle.std.specs.Option.{option_copied};
ghost use Rattle.flow_syntax.specs.DeclFaults.{is_tree_sort};
ghost use Rattle.flow_syntax.specs.Inferred.{is_among};
ghost use Rattle.check_base.specs.Names.{element_named, is_called, is_sort};
ghost use Rattle.check_base.specs.Tables.{or_where, shape_in, value_in};

use crate::declared::Declared;
use flow_syntax::{Constructor, EnumDecl, Named, Signature, Spec, TableDecl};
use flow_term::Text;
use indexmap::IndexMap;
use std::alloc::{AllocError, Global};

/// Numbers by name.
pub type NameTable<'a> = IndexMap<&'a str, usize>;

/// The number of a name.
pub fn number_of(table: &NameTable<'_>, name: &Text) -> Option<usize>
    ensures { result ≡ value_in table.now name.now }
{
    table.get(name.as_str()).copied()
}

/// Puts a value for a name, if the name has none yet. Fails only for want of memory.
pub fn put_first<'a, V: Copy>(
    table: &mut IndexMap<&'a str, V>,
    name: &'a Text,
    value: V,
) -> Result<(), AllocError>
    ensures { OnOk result ((x : Sequence ℕ) → value_in table.new x ≡ or_where (value_in table.old x) (bytes_eq x name.now) value) }
{
    let text = name.as_str();
    if !table.contains_key(text) {
        table.insert(text, value)?;
    }
    Ok(())
}

/// Puts a number for each of these names that has none yet.
pub fn put_each<'a>(
    table: &mut NameTable<'a>,
    names: &'a [Named],
    number: usize,
) -> Result<(), AllocError>
    ensures { OnOk result ((x : Sequence ℕ) → value_in table.new x ≡ or_where (value_in table.old x) (is_among x names.now) number) }
{
    for name in names {
        put_first(table, &name.text, number)?;
    }
    Ok(())
}

/// The number of the first declaration of each name.
pub fn number_declared<'a, D: Declared>(
    alloc: Global,
    declarations: &'a [D],
) -> Result<NameTable<'a>, AllocError>
    ensures { IfOk result (λ table. (x : Sequence ℕ) → value_in table x ≡ position_from (λ d. is_called x (D.declared d)) 0 declarations.now) }
{
    let mut table = IndexMap::new(alloc);
    for (number, declaration) in declarations.iter().enumerate() {
        put_first(&mut table, &declaration.declared_name().text, number)?;
    }
    Ok(table)
}

/// The number of the first enum with each item.
pub fn number_items<'a>(alloc: Global, enums: &'a [EnumDecl]) -> Result<NameTable<'a>, AllocError>
    ensures { IfOk result (λ table. (x : Sequence ℕ) → value_in table x ≡ position_from (λ d. is_among x d.items) 0 enums.now) }
{
    let mut table = IndexMap::new(alloc);
    for (number, declaration) in enums.iter().enumerate() {
        put_each(&mut table, declaration.items.as_slice(), number)?;
    }
    Ok(table)
}

/// The number of the first lattice with each element.
pub fn number_elements<'a>(
    alloc: Global,
    lattices: &'a [TableDecl],
) -> Result<NameTable<'a>, AllocError>
    ensures { IfOk result (λ table. (x : Sequence ℕ) → value_in table x ≡ position_from (λ d. is_among x d.elements) 0 lattices.now) }
{
    let mut table = IndexMap::new(alloc);
    for (number, lattice) in lattices.iter().enumerate() {
        put_each(&mut table, lattice.elements.as_slice(), number)?;
    }
    Ok(table)
}

/// The numbers of the elements of each lattice.
pub fn tables_of_elements<'a>(
    alloc: Global,
    lattices: &'a [TableDecl],
) -> Result<Vec<NameTable<'a>>, AllocError>
    ensures { IfOk result (λ tables. (x : Sequence ℕ) → map (λ table. value_in table x) tables.items ≡ map (λ lattice. element_named lattice x) lattices.now) }
{
    let mut tables = Vec::new(alloc);
    for lattice in lattices {
        tables.push(number_declared(alloc, lattice.elements.as_slice())?)?;
    }
    Ok(tables)
}

/// The sorts of a signature, each with some number.
fn number_sorts_of<'a>(alloc: Global, signature: &'a Signature) -> Result<NameTable<'a>, AllocError>
    ensures { IfOk result (λ table. (x : Sequence ℕ) → is_some (value_in table x) ≡ is_tree_sort signature.now x) }
{
    let mut table = IndexMap::new(alloc);
    put_first(&mut table, &signature.start.text, 0)?;
    for constructor in signature.constructors.as_slice() {
        put_first(&mut table, &constructor.result.text, 0)?;
    }
    Ok(table)
}

/// The sorts of the signature of a specification, each with some number.
pub fn number_sorts(alloc: Global, spec: &Spec) -> Result<NameTable<'_>, AllocError>
    ensures { IfOk result (λ table. (x : Sequence ℕ) → is_some (value_in table x) ≡ is_sort spec.now x) }
{
    match &spec.signature {
        Some(signature) => number_sorts_of(alloc, signature),
        None => Ok(IndexMap::new(alloc)),
    }
}

/// Numbers by name and by a count of arguments.
pub type ShapeTable<'a> = IndexMap<(&'a str, usize), usize>;

/// The number of a name with so many arguments.
pub fn number_of_shape(table: &ShapeTable<'_>, name: &Text, count: usize) -> Option<usize>
    ensures { result ≡ shape_in table.now name.now count }
{
    table.get(&(name.as_str(), count)).copied()
}

/// Puts a number for a name with so many arguments, if it has none yet.
pub fn put_first_shape<'a>(
    table: &mut ShapeTable<'a>,
    name: &'a Text,
    count: usize,
    number: usize,
) -> Result<(), AllocError>
    ensures { OnOk result ((x : Sequence ℕ) (n : ℕ) → shape_in table.new x n ≡ or_where (shape_in table.old x n) (bytes_eq x name.now && (n == count)) number) }
{
    let shape = (name.as_str(), count);
    if !table.contains_key(&shape) {
        table.insert(shape, number)?;
    }
    Ok(())
}

/// The number of the first constructor of each name and count of arguments.
pub fn number_shapes<'a>(
    alloc: Global,
    constructors: &'a [Constructor],
) -> Result<ShapeTable<'a>, AllocError>
    ensures { IfOk result (λ table. (x : Sequence ℕ) (n : ℕ) → shape_in table x n ≡ position_from (λ c. is_called x c.name && (n == length c.args)) 0 constructors.now) }
{
    let mut table = IndexMap::new(alloc);
    for (number, constructor) in constructors.iter().enumerate() {
        let count = constructor.args.len();
        put_first_shape(&mut table, &constructor.name.text, count, number)?;
    }
    Ok(table)
}
