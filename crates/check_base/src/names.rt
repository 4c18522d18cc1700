//! The names of a specification.
ghost use Rattle.std.specs.Prelude.{◌≡◌, IfOk};
ghost use Rattle.flow_syntax.specs.DeclFaults.{constructors};
ghost use Rattle.check_base.specs.Tables.{AreConstructorNames, AreMemberNames, AreNames, AreSectionNames};

use crate::table::{
    NameTable, ShapeTable, number_declared, number_elements, number_items, number_of,
    number_of_shape, number_shapes, number_sorts, tables_of_elements,
};
use flow_syntax::{Constructor, Spec};
use flow_term::Text;
use std::alloc::{AllocError, Global};

/// The names that a specification declares. Where a name is declared more than once, the first counts.
///
/// Numbers count the declarations of a section, items of enums and elements of lattices from 0, in the order of the text.
#[derive(Drop)]
pub struct Names<'a> {
    sections: SectionNames<'a>,
    members: MemberNames<'a>,
    constructors: ConstructorNames<'a>,
}

/// The names of what the sections declare, and of the properties that rules are of.
#[derive(Drop)]
struct SectionNames<'a> {
    enums: NameTable<'a>,
    lattices: NameTable<'a>,
    functions: NameTable<'a>,
    properties: NameTable<'a>,
    /// The first rule of each property.
    rules: NameTable<'a>,
}

/// The names of items of enums and of elements of lattices.
#[derive(Drop)]
struct MemberNames<'a> {
    /// The enum of each item.
    items: NameTable<'a>,
    /// The lattice of each element.
    elements: NameTable<'a>,
    /// The elements of each lattice.
    elements_of: Vec<NameTable<'a>>,
}

/// The names of constructors and sorts.
#[derive(Drop)]
struct ConstructorNames<'a> {
    names: NameTable<'a>,
    shapes: ShapeTable<'a>,
    sorts: NameTable<'a>,
}

impl Names<'_> {
    ghost use Rattle.check_base.specs.Tables.{constructor_in, element_in, enum_in, enum_of_item_in, first_rule_in, function_in, is_constructor_in, is_sort_in, lattice_in, lattice_of_element_in, property_in};

    /// The number of the enum that is called so.
    pub fn enum_named(&self, name: &Text) -> Option<usize>
        ensures { result ≡ enum_in self.now name.now }
    {
        number_of(&self.sections.enums, name)
    }

    /// The number of the lattice that is called so.
    pub fn lattice_named(&self, name: &Text) -> Option<usize>
        ensures { result ≡ lattice_in self.now name.now }
    {
        number_of(&self.sections.lattices, name)
    }

    /// The number of the function that is called so.
    pub fn function_named(&self, name: &Text) -> Option<usize>
        ensures { result ≡ function_in self.now name.now }
    {
        number_of(&self.sections.functions, name)
    }

    /// The number of the property that is called so.
    pub fn property_named(&self, name: &Text) -> Option<usize>
        ensures { result ≡ property_in self.now name.now }
    {
        number_of(&self.sections.properties, name)
    }

    /// The number of the first rule of the property that is called so.
    pub fn first_rule_of(&self, name: &Text) -> Option<usize>
        ensures { result ≡ first_rule_in self.now name.now }
    {
        number_of(&self.sections.rules, name)
    }

    /// The number of the enum that has this item.
    pub fn enum_with_item(&self, name: &Text) -> Option<usize>
        ensures { result ≡ enum_of_item_in self.now name.now }
    {
        number_of(&self.members.items, name)
    }

    /// The number of the lattice that has this element.
    pub fn lattice_with_element(&self, name: &Text) -> Option<usize>
        ensures { result ≡ lattice_of_element_in self.now name.now }
    {
        number_of(&self.members.elements, name)
    }

    /// The number of an element in the lattice with this number.
    pub fn element_of(&self, lattice: usize, name: &Text) -> Option<usize>
        ensures { result ≡ element_in self.now lattice name.now }
    {
        let table = self.members.elements_of.get(lattice)?;
        number_of(table, name)
    }

    /// The number of the constructor that is called so and has so many arguments.
    pub fn constructor_named(&self, name: &Text, count: usize) -> Option<usize>
        ensures { result ≡ constructor_in self.now name.now count }
    {
        number_of_shape(&self.constructors.shapes, name, count)
    }

    /// Whether a constructor is called so, with any arguments.
    pub fn is_constructor(&self, name: &Text) -> bool
        ensures { result ≡ is_constructor_in self.now name.now }
    {
        number_of(&self.constructors.names, name).is_some()
    }

    /// Whether the signature has this sort.
    pub fn is_sort(&self, name: &Text) -> bool
        ensures { result ≡ is_sort_in self.now name.now }
    {
        number_of(&self.constructors.sorts, name).is_some()
    }
}

fn constructors_of(spec: &Spec) -> &[Constructor]
    ensures { result.now ≡ constructors spec.now }
{
    match &spec.signature {
        Some(signature) => signature.constructors.as_slice(),
        None => &[],
    }
}

fn section_names(alloc: Global, spec: &Spec) -> Result<SectionNames<'_>, AllocError>
    ensures { IfOk result (AreSectionNames spec.now) }
{
    let enums = number_declared(alloc, spec.enums.as_slice())?;
    let lattices = number_declared(alloc, spec.lattices.as_slice())?;
    let functions = number_declared(alloc, spec.functions.as_slice())?;
    let properties = number_declared(alloc, spec.properties.as_slice())?;
    let rules = number_declared(alloc, spec.rules.as_slice())?;
    Ok(SectionNames {
        enums,
        lattices,
        functions,
        properties,
        rules,
    })
}

fn member_names(alloc: Global, spec: &Spec) -> Result<MemberNames<'_>, AllocError>
    ensures { IfOk result (AreMemberNames spec.now) }
{
    let items = number_items(alloc, spec.enums.as_slice())?;
    let elements = number_elements(alloc, spec.lattices.as_slice())?;
    let elements_of = tables_of_elements(alloc, spec.lattices.as_slice())?;
    Ok(MemberNames {
        items,
        elements,
        elements_of,
    })
}

fn constructor_names(alloc: Global, spec: &Spec) -> Result<ConstructorNames<'_>, AllocError>
    ensures { IfOk result (AreConstructorNames spec.now) }
{
    let names = number_declared(alloc, constructors_of(spec))?;
    let shapes = number_shapes(alloc, constructors_of(spec))?;
    let sorts = number_sorts(alloc, spec)?;
    Ok(ConstructorNames {
        names,
        shapes,
        sorts,
    })
}

/// The names of a specification. Fails only for want of memory.
pub fn names_of(alloc: Global, spec: &Spec) -> Result<Names<'_>, AllocError>
    ensures { IfOk result (AreNames spec.now) }
{
    let sections = section_names(alloc, spec)?;
    let members = member_names(alloc, spec)?;
    let constructors = constructor_names(alloc, spec)?;
    Ok(Names {
        sections,
        members,
        constructors,
    })
}
