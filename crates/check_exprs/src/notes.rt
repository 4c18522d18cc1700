//! What is kept of the expressions that were looked at: the earliest fault, and the type of each.
ghost use Rattle.std.specs.Prelude.{◌≡◌, ◌<◌, ◌≤◌, ◌∷◌, ◌++◌, [], IfOk, OnOk, length, map, set};
ghost use Rattle.expr_typing.specs.Listing.{listed_type};
ghost use Rattle.flow_syntax.specs.Types.{truth, typing_of};
ghost use Rattle.check_exprs.specs.inner.Noted.{put_behind, inferred_or_expected};
ghost use Rattle.expr_typing.specs.Views.{inferred_of, expected_of};

use check_base::Earliest;
use expr_typing::{Expected, Inferred};
use flow_syntax::ExprType;
use std::alloc::{AllocError, Global};

/// The earliest fault of expressions, and the type of each, an outer one before its parts.
#[derive(Drop)]
pub struct Notes {
    pub earliest: Earliest,
    pub types: Vec<ExprType>,
}

/// How many types are listed.
pub fn count(types: &Vec<ExprType>) -> usize
    ensures { result ≡ length (map typing_of types.now.items) }
{
    types.len()
}

/// Lists a type that is set later, and answers where it stands.
pub fn hold_place(types: &mut Vec<ExprType>) -> Result<usize, AllocError>
    ensures at { IfOk result (λ at. at ≡ length (map typing_of types.old.items)) }
    ensures held { OnOk result (map typing_of types.new.items ≡ map typing_of types.old.items ++ truth ∷ []) }
{
    let at = types.len();
    types.push(ExprType::Truth)?;
    Ok(at)
}

/// Lists another type at a place.
pub fn set_type(types: &mut Vec<ExprType>, at: usize, typing: ExprType)
    requires { at < length (map typing_of types.old.items) }
    ensures { map typing_of types.new.items ≡ set (map typing_of types.old.items) at (typing_of typing) }
{
    types[at] = typing;
}

/// Puts the types that stand from `start` to `middle` behind those that follow them.
pub fn put_behind(types: &mut Vec<ExprType>, start: usize, middle: usize)
    requires from { start ≤ middle }
    requires to { middle ≤ length (map typing_of types.old.items) }
    ensures { map typing_of types.new.items ≡ put_behind start middle (map typing_of types.old.items) }
{
    let (_, turned) = types.as_mut_slice().split_at_mut(start);
    turned.rotate_left(middle - start);
}

/// The type that is inferred, or else truth.
fn inferred_or_expected(alloc: Global, inferred: &Inferred) -> Result<ExprType, AllocError>
    ensures { IfOk result (λ t. typing_of t ≡ inferred_or_expected (inferred_of inferred.now)) }
{
    match inferred {
        Inferred::Is(typing) => typing.duplicate(alloc),
        Inferred::NotInferable | Inferred::Faulty => Ok(ExprType::Truth),
    }
}

/// The type with which an expression is listed: the expected one where that is known, else the one that is inferred.
pub fn listed_type(
    alloc: Global,
    expected: &Expected,
    inferred: &Inferred,
) -> Result<ExprType, AllocError>
    ensures { IfOk result (λ t. typing_of t ≡ listed_type (expected_of expected.now) (inferred_of inferred.now)) }
{
    match expected {
        Expected::Known(typing) => typing.duplicate(alloc),
        Expected::InferredIn(_) | Expected::OwnChoice(_) | Expected::IfInferredIn(_) =>
            inferred_or_expected(alloc, inferred),
    }
}
