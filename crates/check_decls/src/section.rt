//! The faults of the declarations of each section.
ghost use Rattle.std.specs.Prelude.{◌≡◌};
ghost use Rattle.check_base.specs.Earliest.{Gathers, SomeHas};
ghost use Rattle.flow_syntax.specs.DeclFaults.{constructors};
ghost use Rattle.check_base.specs.Tables.{AreNames, lattice_in};
ghost use Rattle.check_decls.specs.inner.Noting.{OneHas};
ghost use Rattle.check_decls.specs.inner.Sections.{ConstructorFaults, EntryFaults, FunctionFaults, LatticeFaults, PropertyFaults, RuleFaults, SectionFaults};

use crate::direction::is_turned;
use crate::size::{is_incomplete, is_missized};
use crate::types::{has_loose_int, is_deeper};
use crate::unknown::{
    Space, note_all_sorts, note_all_unknown, note_type_enums, note_type_lattices, note_unknown,
};
use check_base::{Earliest, Names};
use flow_syntax::{
    Constructor, FunctionDecl, Named, PropDecl, PropRule, Spec, SpecFaultKind, TableDecl,
};
use flow_term::Text;

/// How deep a type may be nested.
const TYPE_LIMIT: u8 = 8;

fn note_constructors(names: &Names<'_>, constructors: &[Constructor], earliest: &mut Earliest)
    ensures { Gathers earliest.old earliest.new (OneHas (ConstructorFaults names.now) constructors.now) }
{
    for constructor in constructors {
        note_all_sorts(names, constructor.args.as_slice(), earliest);
    }
}

fn note_signature(names: &Names<'_>, spec: &Spec, earliest: &mut Earliest)
    ensures { Gathers earliest.old earliest.new (OneHas (ConstructorFaults names.now) (constructors spec.now)) }
{
    match &spec.signature {
        Some(signature) => note_constructors(names, signature.constructors.as_slice(), earliest),
        None => {}
    }
}

fn note_lattice(names: &Names<'_>, number: usize, lattice: &TableDecl, earliest: &mut Earliest)
    ensures { Gathers earliest.old earliest.new (LatticeFaults names.now number lattice.now) }
{
    let place = lattice.name.place;
    earliest.note_if(is_missized(lattice), place, SpecFaultKind::Arity);
    let elements = Space::Elements(number);
    note_unknown(names, elements, &lattice.bottom, earliest);
    note_all_unknown(names, elements, lattice.join.as_slice(), earliest);
}

fn note_lattices(names: &Names<'_>, lattices: &[TableDecl], earliest: &mut Earliest)
    ensures { Gathers earliest.old earliest.new (SomeHas (LatticeFaults names.now) lattices.now) }
{
    for (number, lattice) in lattices.iter().enumerate() {
        note_lattice(names, number, lattice, earliest);
    }
}

fn note_entries(names: &Names<'_>, lattice: &Text, entries: &[Named], earliest: &mut Earliest)
    ensures { Gathers earliest.old earliest.new (EntryFaults names.now (lattice_in names.now lattice.now) entries.now) }
{
    match names.lattice_named(lattice) {
        Some(number) => note_all_unknown(names, Space::Elements(number), entries, earliest),
        None => {}
    }
}

fn note_function(spec: &Spec, names: &Names<'_>, function: &FunctionDecl, earliest: &mut Earliest)
    requires { AreNames spec.now names.now }
    ensures { Gathers earliest.old earliest.new (FunctionFaults spec.now names.now function.now) }
{
    note_all_unknown(names, Space::Lattices, function.args.as_slice(), earliest);
    note_unknown(names, Space::Lattices, &function.result, earliest);
    note_entries(
        names,
        &function.result.text,
        function.table.as_slice(),
        earliest,
    );
    let is_fault = is_incomplete(spec, names, function);
    earliest.note_if(is_fault, function.name.place, SpecFaultKind::Arity);
}

fn note_functions(
    spec: &Spec,
    names: &Names<'_>,
    functions: &[FunctionDecl],
    earliest: &mut Earliest,
)
    requires { AreNames spec.now names.now }
    ensures { Gathers earliest.old earliest.new (OneHas (FunctionFaults spec.now names.now) functions.now) }
{
    for function in functions {
        note_function(spec, names, function, earliest);
    }
}

fn note_property(names: &Names<'_>, property: &PropDecl, earliest: &mut Earliest)
    ensures { Gathers earliest.old earliest.new (PropertyFaults names.now property.now) }
{
    let lattice = &property.lattice;
    note_type_enums(names, lattice, earliest);
    note_type_lattices(names, lattice, earliest);
    let place = property.name.place;
    earliest.note_if(has_loose_int(lattice), place, SpecFaultKind::Sort);
    earliest.note_if(is_deeper(lattice, TYPE_LIMIT), place, SpecFaultKind::Depth);
}

fn note_properties(names: &Names<'_>, properties: &[PropDecl], earliest: &mut Earliest)
    ensures { Gathers earliest.old earliest.new (OneHas (PropertyFaults names.now) properties.now) }
{
    for property in properties {
        note_property(names, property, earliest);
    }
}

fn note_rule(spec: &Spec, names: &Names<'_>, rule: &PropRule, earliest: &mut Earliest)
    requires { AreNames spec.now names.now }
    ensures { Gathers earliest.old earliest.new (RuleFaults spec.now names.now rule.now) }
{
    note_unknown(names, Space::Properties, &rule.property, earliest);
    let is_fault = is_turned(spec, names, rule);
    earliest.note_if(is_fault, rule.property.place, SpecFaultKind::MixedDirection);
}

fn note_rules(spec: &Spec, names: &Names<'_>, rules: &[PropRule], earliest: &mut Earliest)
    requires { AreNames spec.now names.now }
    ensures { Gathers earliest.old earliest.new (OneHas (RuleFaults spec.now names.now) rules.now) }
{
    for rule in rules {
        note_rule(spec, names, rule, earliest);
    }
}

/// Notes the faults of the declarations of all sections, but for names that are declared again.
pub fn note_sections(spec: &Spec, names: &Names<'_>, earliest: &mut Earliest)
    requires { AreNames spec.now names.now }
    ensures { Gathers earliest.old earliest.new (SectionFaults spec.now names.now) }
{
    note_signature(names, spec, earliest);
    note_lattices(names, spec.lattices.as_slice(), earliest);
    note_functions(spec, names, spec.functions.as_slice(), earliest);
    note_properties(names, spec.properties.as_slice(), earliest);
    note_rules(spec, names, spec.rules.as_slice(), earliest);
}
