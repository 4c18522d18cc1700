//! Accepted specifications.
ghost use Rattle.std.specs.Prelude.{◌≡◌, ◌↔◌, Contains, IfErr, IfOk, IsTrue};
ghost use Rattle.flow_eval.specs.Tables.{AreFunctionsOf, HasFewTables};
ghost use Rattle.flow_eval.specs.inner.Built.{IsRefusalOf};
ghost use Rattle.flow_match.specs.Few.{HasFewRules};
ghost use Rattle.flow_modes.specs.Modes.{HaveGoodModes};
ghost use Rattle.flow_syntax.specs.declared.tables.FunctionDecl.{FunctionDecl};
ghost use Rattle.flow_syntax.specs.declared.tables.TableDecl.{TableDecl};
ghost use Rattle.function_laws.specs.Laws.{numbered_function};
ghost use Rattle.lattice_any.specs.Tables.{AreDeclared};
ghost use Rattle.lattice_tables.specs.Tables.{declared_numbers};
ghost use Rattle.table_laws.specs.FunctionTables.{IsMonotone};
ghost use Rattle.table_laws.specs.JoinTables.{IsLawful};

use crate::functions::build_functions;
use crate::lattices::{build_lattices, tables_of};
use crate::refusal::PrepareRefusal;
use flow_match::has_few_rules;
use flow_modes::check_modes;
use flow_syntax::{Spec, TypedSpec};
use flow_term::List;
use lattice_any::Tables;
use lattice_tables::TableFn;
use std::alloc::Global;

/// An accepted specification: its declared lattices are lattices, its declared functions monotone, and the body of each of its rules is
/// `Fixed` or `Up`. It keeps the tables of both.
#[derive(Drop)]
pub struct Ready {
    /// The specification.
    pub spec: TypedSpec,
    /// The tables of its lattices.
    pub tables: Tables,
    /// Its functions, in the order of their declarations.
    pub functions: List<TableFn>,
    pub ghost few: { HasFewRules spec.spec },
    pub ghost declared: { ∥ AreDeclared spec.spec.lattices tables ∥₁ },
    pub ghost built: { ∥ AreFunctionsOf spec.spec spec.spec.functions functions ∥₁ },
    pub ghost lawful: { (l : TableDecl) → Contains spec.spec.lattices l → IsLawful (declared_numbers l) },
    pub ghost monotone: { (f : FunctionDecl) → Contains spec.spec.functions f → IsMonotone (numbered_function spec.spec f) },
    pub ghost modes: { HaveGoodModes spec },
}

/// The tables of a specification.
#[derive(Drop)]
struct Parts {
    tables: Tables,
    functions: List<TableFn>,
}

/// The specification with its tables.
fn ready_of(spec: TypedSpec, parts: Parts) -> Ready
    requires declared { AreDeclared spec.spec.lattices parts.tables }
    requires built { AreFunctionsOf spec.spec spec.spec.functions parts.functions }
    requires few { HasFewRules spec.spec }
    requires lawful { (l : TableDecl) → Contains spec.spec.lattices l → IsLawful (declared_numbers l) }
    requires modes { HaveGoodModes spec }
    ensures { result.spec ≡ spec }
{
    let Parts { tables, functions } = parts;
    Ready {
        spec,
        tables,
        functions,
    }
}

/// The tables of a specification, if it is accepted.
fn build_parts(alloc: Global, spec: &TypedSpec) -> Result<Parts, PrepareRefusal>
    ensures declared { IfOk result (λ parts. AreDeclared spec.now.spec.lattices parts.tables) }
    ensures built { IfOk result (λ parts. AreFunctionsOf spec.now.spec spec.now.spec.functions parts.functions) }
    ensures few { IfOk result (λ _. HasFewRules spec.now.spec) }
    ensures lawful { IfOk result (λ _. (l : TableDecl) → Contains spec.now.spec.lattices l → IsLawful (declared_numbers l)) }
    ensures modes { IfOk result (λ _. HaveGoodModes spec.now) }
    ensures refused { IfErr result (IsRefusalOf spec.now) }
{
    if !has_few_rules(&spec.spec) || !has_few_tables(&spec.spec) {
        return Err(PrepareRefusal::NoMemory);
    }
    let lattices = build_lattices(alloc, spec)?;
    let functions = build_functions(alloc, spec, lattices.as_slice())?;
    if let Err(fault) = check_modes(spec) {
        return Err(PrepareRefusal::Mode(fault));
    }
    let tables = tables_of(alloc, spec.spec.lattices.as_slice(), lattices.as_slice())?;
    Ok(Parts { tables, functions })
}

/// Whether the numbers of lattices and of functions fit 32 bits.
fn has_few_tables(spec: &Spec) -> bool
    ensures { IsTrue result ↔ HasFewTables spec.now }
{
    spec.lattices.len() < 1 << 32 && spec.functions.len() < 1 << 32
}

impl Ready {
    ghost use Rattle.std.specs.Prelude.{◌⊎◌};
    ghost use Rattle.flow_eval.specs.Accepted.{IsAccepted, IsRefusedFor};
    ghost use Rattle.flow_eval.specs.Tables.{types_in};
    ghost use Rattle.flow_eval.specs.declared.refusal.PrepareRefusal.{PrepareRefusal};
    ghost use Rattle.flow_eval.specs.declared.refusal.PrepareRefusal.TheVariants.{NoMemory};

    /// The specification with the tables of its lattices and functions, if it is accepted. With each refusal it is handed back.
    ///
    /// `Law` comes exactly where a declared lattice breaks a law of lattices, and tells the first such lattice in the text, with
    /// its first fault. `NotMonotone` comes exactly where all lattices are lawful and a declared function isn't monotone, and tells
    /// the first such function. `Mode` comes exactly where both are as they are to be and the body of a rule is `Down` or `Mixed`,
    /// and tells the first such body. Anything else is taken, unless memory runs out.
    ///
    /// Lattices, functions, properties and rules have numbers of 32 bits; a specification with more is refused as `NoMemory`.
    pub fn prepare(alloc: Global, spec: TypedSpec) -> Result<Ready, (PrepareRefusal, TypedSpec)>
        ensures found { IfOk result (λ ready. ready.spec ≡ spec) }
        ensures only { IsAccepted spec.spec (types_in spec) → IfErr result (λ refusal. refusal.0 ≡ NoMemory) }
        ensures back { IfErr result (λ refusal. refusal.1 ≡ spec) }
        ensures refused { IfErr result (λ refusal. (refusal.0 ≡ NoMemory) ⊎ IsRefusedFor spec.spec (types_in spec) refusal.0) }
        ensures first { (why : PrepareRefusal) → IsRefusedFor spec.spec (types_in spec) why
            → IfOk result (λ _. ⊥) × IfErr result (λ refusal. (refusal.0 ≡ why) ⊎ (refusal.0 ≡ NoMemory)) }
    {
        match build_parts(alloc, &spec) {
            Ok(parts) => Ok(ready_of(spec, parts)),
            Err(refusal) => Err((refusal, spec)),
        }
    }
}
