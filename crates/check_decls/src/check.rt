//! All faults of declarations.
ghost use Rattle.std.specs.Prelude.{OnOk};
ghost use Rattle.check_base.specs.Earliest.{Gathers};
ghost use Rattle.flow_syntax.specs.DeclFaults.{IsFaultyDeclaration};
ghost use Rattle.check_base.specs.Tables.{AreNames};

use crate::repeated::note_repeated;
use crate::section::note_sections;
use check_base::{Earliest, Names};
use flow_syntax::Spec;
use std::alloc::{AllocError, Global};

/// Notes the earliest fault of the declarations of a specification: of signature, sorts, lattices, functions, properties, and of
/// which properties there are rules for. Fails only for want of memory.
pub fn check_declarations(
    alloc: Global,
    spec: &Spec,
    names: &Names<'_>,
    earliest: &mut Earliest,
) -> Result<(), AllocError>
    requires { AreNames spec.now names.now }
    ensures { OnOk result (Gathers earliest.old earliest.new (IsFaultyDeclaration spec.now)) }
{
    note_sections(spec, names, earliest);
    note_repeated(alloc, spec, earliest)
}
