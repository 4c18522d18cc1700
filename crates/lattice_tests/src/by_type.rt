//! The lattices of types, by the texts of their values.
ghost use Rattle.lattice_any.specs.Types.{domain_of_any};
ghost use Rattle.value_domains.specs.Domains.{IsValueOf};

use crate::joins::join_of;
use crate::tables::sign_tables;
use flow_syntax::{ElemSort, LatticeType, Named};
use flow_term::{Boxed, List, Text, Value};
use lattice_any::{
    AnyL, declared_types_have_their_domains, map_joins_are_pointwise, read_value,
    set_joins_are_unions_and_intersections,
};
use lattice_base::Lattice;
use std::alloc::{AllocError, Global};
use std::test::Fail;
use value_text::{has_text, write_value};

fn map_type(alloc: Global) -> Result<Boxed<LatticeType>, AllocError> {
    let values = Boxed::new(alloc, LatticeType::Flat(ElemSort::Int))?;
    Boxed::new(alloc, LatticeType::Map(ElemSort::Name, values))
}

fn pair_type(alloc: Global) -> Result<Boxed<LatticeType>, AllocError> {
    let left = Boxed::new(alloc, LatticeType::May(ElemSort::Name))?;
    let right = Boxed::new(alloc, LatticeType::Flat(ElemSort::Int))?;
    Boxed::new(alloc, LatticeType::Pair(left, right))
}

/// Sets of pairs of a name and an integer.
fn pairs_type(alloc: Global) -> Result<Boxed<LatticeType>, AllocError> {
    let first = Boxed::new(alloc, ElemSort::Name)?;
    let second = Boxed::new(alloc, ElemSort::Int)?;
    Boxed::new(alloc, LatticeType::May(ElemSort::Pair(first, second)))
}

/// Sets of the items of an enum.
fn items_type(alloc: Global) -> Result<Boxed<LatticeType>, AllocError> {
    let text = Text::from_string(String::from_str(alloc, "colour")?);
    Boxed::new(
        alloc,
        LatticeType::May(ElemSort::Enum(Named { text, place: 0 })),
    )
}

/// A lattice of this name.
fn table_type(alloc: Global, name: &str) -> Result<Boxed<LatticeType>, AllocError> {
    let text = Text::from_string(String::from_str(alloc, name)?);
    Boxed::new(alloc, LatticeType::Table(Named { text, place: 0 }))
}

/// Maps to the elements of a declared lattice.
fn signs_type(alloc: Global) -> Result<Boxed<LatticeType>, AllocError> {
    let values = table_type(alloc, "Sign")?;
    Boxed::new(alloc, LatticeType::Map(ElemSort::Name, values))
}

/// The type that a row names.
fn type_of(alloc: Global, word: &str) -> Result<Boxed<LatticeType>, AllocError> {
    match word {
        "may" => Boxed::new(alloc, LatticeType::May(ElemSort::Name)),
        "must" => Boxed::new(alloc, LatticeType::Must(ElemSort::Name)),
        "flat" => Boxed::new(alloc, LatticeType::Flat(ElemSort::Int)),
        "map" => map_type(alloc),
        "pair" => pair_type(alloc),
        "pairs" => pairs_type(alloc),
        "items" => items_type(alloc),
        "positions" => Boxed::new(alloc, LatticeType::May(ElemSort::Pos)),
        "signs" => signs_type(alloc),
        name => table_type(alloc, name),
    }
}

fn value_of(alloc: Global, text: &str) -> Result<Boxed<Value>, Fail> {
    match read_value(alloc, text.as_bytes()) {
        Ok(value) => Ok(Boxed::new(alloc, value)?),
        Err(_) => Err("no value".into()),
    }
}

/// The text of the value, if it has one.
fn text_of(alloc: Global, value: &Value) -> Result<List<u8>, AllocError> {
    if has_text(value) {
        write_value(alloc, value)
    } else {
        Ok(List::new(alloc))
    }
}

fn text_of_bottom(alloc: Global, lattice: &AnyL) -> Result<List<u8>, AllocError> {
    let bottom = lattice.bottom(alloc)?;
    text_of(alloc, &bottom)
}

/// The text of the join, if it is above both values.
fn text_of_join(alloc: Global, lattice: &AnyL, a: &Value, b: &Value) -> Result<List<u8>, AllocError>
    requires left { IsValueOf (domain_of_any lattice.now) a.now }
    requires right { IsValueOf (domain_of_any lattice.now) b.now }
{
    match join_of(alloc, lattice, a, b)? {
        Some(join) => text_of(alloc, &join),
        None => Ok(List::new(alloc)),
    }
}

/// The texts of bottom and of the join, if both are values of the lattice.
fn told_by(alloc: Global, lattice: &AnyL, a: &Value, b: &Value) -> Result<Vec<u8>, AllocError> {
    map_joins_are_pointwise(lattice);
    if !lattice.contains(a) || !lattice.contains(b) {
        return Vec::from_slice(alloc, b"no value");
    }
    let mut told = text_of_bottom(alloc, lattice)?.into_vec();
    told.extend_from_slice(b" | ")?;
    told.extend_from_slice(text_of_join(alloc, lattice, a, b)?.as_slice())?;
    Ok(told)
}

/// What a duplicate of the type's lattice tells of two values.
fn told_of_type(
    alloc: Global,
    of: &LatticeType,
    a: &Value,
    b: &Value,
) -> Result<Vec<u8>, AllocError> {
    let tables = sign_tables(alloc)?.duplicate(alloc)?;
    let lattice = AnyL::build(alloc, &tables, of)?.duplicate(alloc)?;
    told_by(alloc, &lattice, a, b)
}

/// What is told of a type and two values.
fn told_of(alloc: Global, row: &str) -> Result<String, Fail> {
    let (of, values) = row.split_once(" | ").ok_or("no values")?;
    let (a, b) = values.split_once(" | ").ok_or("no second value")?;
    let of = type_of(alloc, of)?;
    let a = value_of(alloc, a)?;
    let b = value_of(alloc, b)?;
    let told = told_of_type(alloc, of.get(), a.get(), b.get())?;
    Ok(String::from_utf8(told)?)
}

/// The rows of a table that say something else than what is told, each with what is told. A row is a line
/// `TYPE | VALUE | VALUE => TOLD`.
fn wrong_rows(alloc: Global, table: &str) -> Result<String, Fail> {
    let mut wrong = String::new(alloc);
    for row in table.trim().split('\n') {
        let (values, want) = row.split_once(" => ").ok_or("no row")?;
        let told = told_of(alloc, values)?;
        if told.as_str() != want {
            write!(wrong, "{row}, but {told}\n")?;
        }
    }
    Ok(wrong)
}

/// Bottom and the join of the two values.
const JOINS: &str = r#"
may | {"a", "b"} | {"b", "c"} => {} | {"a", "b", "c"}
must | unreached | {"a"} => unreached | {"a"}
must | {"a", "b"} | {"b"} => unreached | {"b"}
must | {"a"} | {"b"} => unreached | {}
flat | flat(1) | flat(2) => bottom | top
flat | flat(1) | flat(1) => bottom | flat(1)
flat | bottom | flat(2) => bottom | flat(2)
map | ["a" |-> flat(1)] | ["a" |-> flat(2), "b" |-> flat(3)] => [] | ["a" |-> top, "b" |-> flat(3)]
pair | ({"a"}, bottom) | ({"b"}, flat(1)) => ({}, bottom) | ({"a", "b"}, flat(1))
pairs | {("a", 1)} | {("a", 2)} => {} | {("a", 1), ("a", 2)}
items | {red} | {blue} => {} | {blue, red}
positions | {/1} | {/0/1} => {} | {/0/1, /1}
Sign | Neg | Pos => Bot | Top
Sign | Pos | Bot => Bot | Pos
signs | ["a" |-> Neg] | ["a" |-> Pos, "b" |-> Neg] => [] | ["a" |-> Top, "b" |-> Neg]
"#;

/// Values of another sort or type, an entry that is bottom, names that are no elements, and a lattice that isn't declared.
const REFUSED: &str = r#"
may | {'a'} | {} => no value
may | {} | unreached => no value
flat | {1} | bottom => no value
map | ["a" |-> bottom] | [] => no value
pairs | {(1, "a")} | {} => no value
pairs | {"a"} | {} => no value
items | {'red'} | {} => no value
Sign | Zero | Bot => no value
Sign | flat(1) | Bot => no value
signs | ["a" |-> Bot] | [] => no value
Other | Neg | Neg => no value
"#;

#[test]
fn values_join_by_their_type(rt: HostRuntime) -> Result<(), Fail> {
    set_joins_are_unions_and_intersections();
    declared_types_have_their_domains();
    for table in [JOINS, REFUSED] {
        assert_eq!(rt; wrong_rows(rt.alloc(), table)?.as_str(), "");
    }
    Ok(())
}
