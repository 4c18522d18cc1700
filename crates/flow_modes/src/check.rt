//! The modes of the bodies of rules.
ghost use Rattle.std.specs.Prelude.{◌≡◌, ◌↔◌, List, Ok, Err, Some};
ghost use Rattle.flow_syntax.specs.declared.expr.Expr.{Expr};
ghost use Rattle.flow_syntax.specs.declared.tables.TableDecl.{TableDecl};
ghost use Rattle.expr_meaning.specs.Ranges.{Range};
ghost use Rattle.flow_modes.specs.Modes.{HaveGoodModes, first_fault_by, first_mode_fault, is_refused};
ghost use Rattle.flow_modes.specs.inner.Walked.{AgreeWith, bodies_in};

use crate::walk::walked;
use flow_syntax::{ExprType, Mode, PropRule, TypedSpec};

/// The body of a rule doesn't rise with what it reads.
#[derive(Clone, Copy, Debug, PartialEq, Eq)]
pub struct ModeFault {
    /// The offset of the body's first byte in the text of the specification.
    pub place: u64,
    /// The mode of the body: `Down` or `Mixed`.
    pub mode: Mode,
}

/// Whether the body of each rule of a property is `Fixed` or `Up`. It takes no memory, and time in proportion to the size of
/// the bodies.
///
/// A fault comes exactly where a body is `Down` or `Mixed`, and is that of the first such body in the text. What the modes
/// mean is proved in `expr_meaning`: a body of mode `Up` is increasing, and one of mode `Fixed` fixed.
pub fn check_modes(spec: &TypedSpec) -> Result<(), ModeFault>
    ensures accepted { (result ≡ Ok tt) ↔ HaveGoodModes spec.now }
    ensures refused { (fault : ModeFault) → (result ≡ Err fault) ↔ (first_mode_fault spec.now ≡ Some fault) }
{
    match first_fault(spec.spec.rules.as_slice(), spec.types.as_slice()) {
        None => Ok(()),
        Some(fault) => Err(fault),
    }
}

/// The fault of the first rule whose body is `Down` or `Mixed`. The types are those of the bodies' expressions, in their order, with
/// any behind them.
fn first_fault(rules: &[PropRule], types: &[ExprType]) -> Option<ModeFault>
    ensures { (declared : List TableDecl) (range : Expr → Range) → AgreeWith declared range (bodies_in rules.now) types.now → result ≡ first_fault_by range rules.now }
{
    let mut rest = types;
    for rule in rules {
        let (mode, behind) = walked(&rule.body, rest);
        if is_refused(mode) {
            return Some(ModeFault {
                place: rule.body.place,
                mode,
            });
        }
        rest = behind;
    }
    None
}

/// Whether a body may not have the mode.
fn is_refused(mode: Mode) -> bool
    ensures { result ≡ is_refused mode }
{
    matches!(mode, Mode::Down | Mode::Mixed)
}
