//! Names that are declared again.
ghost use Rattle.std.specs.Prelude.{[], ◌∷◌, length, map, OnOk};
ghost use Rattle.std.specs.List.{flat_map};
ghost use Rattle.check_base.specs.Earliest.{Gathers};
ghost use Rattle.flow_syntax.specs.DeclFaults.{constant_names, constructors, reading_names, type_names};
ghost use Rattle.check_decls.specs.inner.Repeating.{AreRepeated, Meets, RepeatedFaults};

use check_base::{Declared, Earliest};
use flow_syntax::{Constructor, EnumDecl, Named, Spec, SpecFaultKind, TableDecl};
use indexmap::IndexSet;
use std::alloc::{AllocError, Global};

/// The names of a name space that were met: constructors with their numbers of arguments, other names with 0.
type Met<'a> = IndexSet<(&'a str, usize)>;

/// Meets a name with this number of arguments.
fn meet<'a>(
    met: &mut Met<'a>,
    name: &'a Named,
    count: usize,
    earliest: &mut Earliest,
) -> Result<(), AllocError>
    ensures { OnOk result (Meets ((name.now, count) ∷ []) met.old met.new earliest.old earliest.new) }
{
    let is_new = met.insert((name.text.as_str(), count))?;
    earliest.note_if(!is_new, name.place, SpecFaultKind::Duplicate);
    Ok(())
}

/// Meets the names of declarations.
fn meet_declared<'a, D: Declared>(
    met: &mut Met<'a>,
    declarations: &'a [D],
    earliest: &mut Earliest,
) -> Result<(), AllocError>
    ensures { OnOk result (Meets (map (λ d. (D.declared d, 0)) declarations.now) met.old met.new earliest.old earliest.new) }
{
    for declaration in declarations {
        meet(met, declaration.declared_name(), 0, earliest)?;
    }
    Ok(())
}

/// Meets the items of enums.
fn meet_items<'a>(
    met: &mut Met<'a>,
    enums: &'a [EnumDecl],
    earliest: &mut Earliest,
) -> Result<(), AllocError>
    ensures { OnOk result (Meets (flat_map (λ e. map (λ n. (n, 0)) e.items) enums.now) met.old met.new earliest.old earliest.new) }
{
    for declaration in enums {
        meet_declared(met, declaration.items.as_slice(), earliest)?;
    }
    Ok(())
}

/// Meets the elements of lattices.
fn meet_elements<'a>(
    met: &mut Met<'a>,
    lattices: &'a [TableDecl],
    earliest: &mut Earliest,
) -> Result<(), AllocError>
    ensures { OnOk result (Meets (flat_map (λ l. map (λ n. (n, 0)) l.elements) lattices.now) met.old met.new earliest.old earliest.new) }
{
    for lattice in lattices {
        meet_declared(met, lattice.elements.as_slice(), earliest)?;
    }
    Ok(())
}

/// Meets constructors, which are told apart by their names and numbers of arguments.
fn meet_constructors<'a>(
    met: &mut Met<'a>,
    constructors: &'a [Constructor],
    earliest: &mut Earliest,
) -> Result<(), AllocError>
    ensures { OnOk result (Meets (map (λ c. (c.name, length c.args)) constructors.now) met.old met.new earliest.old earliest.new) }
{
    for constructor in constructors {
        meet(met, &constructor.name, constructor.args.len(), earliest)?;
    }
    Ok(())
}

/// Notes enums and lattices that are declared again.
fn note_types(alloc: Global, spec: &Spec, earliest: &mut Earliest) -> Result<(), AllocError>
    ensures { OnOk result (Gathers earliest.old earliest.new (AreRepeated (map (λ n. (n, 0)) (type_names spec.now)))) }
{
    let mut met = IndexSet::new(alloc);
    meet_declared(&mut met, spec.enums.as_slice(), earliest)?;
    meet_declared(&mut met, spec.lattices.as_slice(), earliest)
}

/// Notes functions and properties that are declared again.
fn note_readings(alloc: Global, spec: &Spec, earliest: &mut Earliest) -> Result<(), AllocError>
    ensures { OnOk result (Gathers earliest.old earliest.new (AreRepeated (map (λ n. (n, 0)) (reading_names spec.now)))) }
{
    let mut met = IndexSet::new(alloc);
    meet_declared(&mut met, spec.functions.as_slice(), earliest)?;
    meet_declared(&mut met, spec.properties.as_slice(), earliest)
}

/// Notes items and elements that are declared again.
fn note_constants(alloc: Global, spec: &Spec, earliest: &mut Earliest) -> Result<(), AllocError>
    ensures { OnOk result (Gathers earliest.old earliest.new (AreRepeated (map (λ n. (n, 0)) (constant_names spec.now)))) }
{
    let mut met = IndexSet::new(alloc);
    meet_items(&mut met, spec.enums.as_slice(), earliest)?;
    meet_elements(&mut met, spec.lattices.as_slice(), earliest)
}

/// Notes constructors that are declared again.
fn note_constructors(alloc: Global, spec: &Spec, earliest: &mut Earliest) -> Result<(), AllocError>
    ensures { OnOk result (Gathers earliest.old earliest.new (AreRepeated (map (λ c. (c.name, length c.args)) (constructors spec.now)))) }
{
    let mut met = IndexSet::new(alloc);
    match &spec.signature {
        Some(signature) => {
            meet_constructors(&mut met, signature.constructors.as_slice(), earliest)
        }
        None => Ok(()),
    }
}

/// Notes the names that are declared again in their name space.
pub fn note_repeated(alloc: Global, spec: &Spec, earliest: &mut Earliest) -> Result<(), AllocError>
    ensures { OnOk result (Gathers earliest.old earliest.new (RepeatedFaults spec.now)) }
{
    note_types(alloc, spec, earliest)?;
    note_readings(alloc, spec, earliest)?;
    note_constants(alloc, spec, earliest)?;
    note_constructors(alloc, spec, earliest)
}
