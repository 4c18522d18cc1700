//! Names that stand for nothing that is declared.
ghost use Rattle.std.specs.Prelude.{◌≡◌};
ghost use Rattle.std.specs.List.{flat_map};
ghost use Rattle.check_base.specs.Earliest.{Gathers};
ghost use Rattle.flow_syntax.specs.DeclFaults.{enum_names, sort_names, type_enums, type_lattices};
ghost use Rattle.check_decls.specs.inner.Noting.{AreUndeclared, IsUndeclared, knows};

use check_base::{Earliest, Names};
use flow_syntax::{ElemSort, LatticeType, Named, SpecFaultKind, TreeSort};
use flow_term::Text;

/// Where a name is looked up.
#[derive(Clone, Copy)]
pub enum Space {
    /// Among the sorts of the signature.
    Sorts,
    Enums,
    Lattices,
    /// Among the elements of the lattice with this number.
    Elements(usize),
    Properties,
}

fn is_declared(names: &Names<'_>, space: Space, name: &Text) -> bool
    ensures { result ≡ knows names.now space name.now }
{
    match space {
        Space::Sorts => names.is_sort(name),
        Space::Enums => names.enum_named(name).is_some(),
        Space::Lattices => names.lattice_named(name).is_some(),
        Space::Elements(lattice) => names.element_of(lattice, name).is_some(),
        Space::Properties => names.property_named(name).is_some(),
    }
}

/// Notes a name that isn't declared.
pub fn note_unknown(names: &Names<'_>, space: Space, name: &Named, earliest: &mut Earliest)
    ensures { Gathers earliest.old earliest.new (IsUndeclared (knows names.now space) name.now) }
{
    let is_unknown = !is_declared(names, space, &name.text);
    earliest.note_if(is_unknown, name.place, SpecFaultKind::Unknown);
}

/// Notes the names of a list that aren't declared.
pub fn note_all_unknown(names: &Names<'_>, space: Space, list: &[Named], earliest: &mut Earliest)
    ensures { Gathers earliest.old earliest.new (AreUndeclared (knows names.now space) list.now) }
{
    for name in list {
        note_unknown(names, space, name, earliest);
    }
}

/// Notes the names of sorts in a tree sort that aren't declared.
#[cycle(note_sorts)]
fn note_sorts(names: &Names<'_>, sort: &TreeSort, earliest: &mut Earliest)
    ensures { Gathers earliest.old earliest.new (AreUndeclared (knows names.now Space.Sorts) (sort_names sort.now)) }
{
    match sort {
        TreeSort::Sort(name) => note_unknown(names, Space::Sorts, name, earliest),
        TreeSort::Items(inner) => note_sorts(names, inner.get(), earliest),
        TreeSort::Tuple(parts) => note_all_sorts(names, parts.as_slice(), earliest),
        TreeSort::Str => {}
        TreeSort::Int => {}
        TreeSort::Any => {}
    }
}

/// Notes the names of sorts in a list of tree sorts that aren't declared.
#[cycle(note_sorts)]
pub fn note_all_sorts(names: &Names<'_>, sorts: &[TreeSort], earliest: &mut Earliest)
    ensures { Gathers earliest.old earliest.new (AreUndeclared (knows names.now Space.Sorts) (flat_map sort_names sorts.now)) }
{
    for sort in sorts {
        note_sorts(names, sort, earliest);
    }
}

/// Notes the enums in an element sort that aren't declared.
fn note_sort_enums(names: &Names<'_>, sort: &ElemSort, earliest: &mut Earliest)
    ensures { Gathers earliest.old earliest.new (AreUndeclared (knows names.now Space.Enums) (enum_names sort.now)) }
{
    match sort {
        ElemSort::Enum(name) => note_unknown(names, Space::Enums, name, earliest),
        ElemSort::Pair(a, b) => {
            note_sort_enums(names, a.get(), earliest);
            note_sort_enums(names, b.get(), earliest);
        }
        ElemSort::Name => {}
        ElemSort::Pos => {}
        ElemSort::Str => {}
        ElemSort::Int => {}
    }
}

/// Notes the enums in a type that aren't declared.
pub fn note_type_enums(names: &Names<'_>, lattice: &LatticeType, earliest: &mut Earliest)
    ensures { Gathers earliest.old earliest.new (AreUndeclared (knows names.now Space.Enums) (type_enums lattice.now)) }
{
    match lattice {
        LatticeType::May(sort) => note_sort_enums(names, sort, earliest),
        LatticeType::Must(sort) => note_sort_enums(names, sort, earliest),
        LatticeType::Flat(sort) => note_sort_enums(names, sort, earliest),
        LatticeType::Map(key, value) => {
            note_sort_enums(names, key, earliest);
            note_type_enums(names, value.get(), earliest);
        }
        LatticeType::Pair(a, b) => {
            note_type_enums(names, a.get(), earliest);
            note_type_enums(names, b.get(), earliest);
        }
        LatticeType::Table(_) => {}
    }
}

/// Notes the lattices in a type that aren't declared.
pub fn note_type_lattices(names: &Names<'_>, lattice: &LatticeType, earliest: &mut Earliest)
    ensures { Gathers earliest.old earliest.new (AreUndeclared (knows names.now Space.Lattices) (type_lattices lattice.now)) }
{
    match lattice {
        LatticeType::Map(_, value) => note_type_lattices(names, value.get(), earliest),
        LatticeType::Pair(a, b) => {
            note_type_lattices(names, a.get(), earliest);
            note_type_lattices(names, b.get(), earliest);
        }
        LatticeType::Table(name) => note_unknown(names, Space::Lattices, name, earliest),
        LatticeType::May(_) => {}
        LatticeType::Must(_) => {}
        LatticeType::Flat(_) => {}
    }
}
