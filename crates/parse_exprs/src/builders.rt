//! Expressions from their parts, and what operators and single words stand for.
ghost use Rattle.std.specs.Prelude.{◌≡◌, ◌∷◌, [], IfOk};
ghost use Rattle.spec_grammar.specs.Expressions.{combined, expr_at, operation, suffixed};
ghost use Rattle.flow_syntax.specs.declared.expr.ExprKind.TheVariants.{Bind, If, Minus, Not};
ghost use Rattle.spec_grammar.specs.Parts.{text_of as name_text};
ghost use Rattle.spec_grammar.specs.Kinds.{code_of, kind_of};
ghost use Rattle.spec_grammar.specs.Primaries.{applied_to, literal_of, side_of};

use flow_syntax::{ArithOp, CompareOp, Expr, ExprKind, SetOp, Side, Token};
use flow_term::{Boxed, List};
use spec_grammar::{Kind, number_of, text_of};
use std::alloc::{AllocError, Global};

/// What an operator of a kind makes of its operands.
fn operation(kind: Kind, a: Boxed<Expr>, b: Boxed<Expr>) -> ExprKind
    ensures { result ≡ operation (code_of kind) a b }
{
    match kind {
        Kind::Or => ExprKind::Or(a, b),
        Kind::And => ExprKind::And(a, b),
        Kind::Equal => ExprKind::Compare(CompareOp::Eq, a, b),
        Kind::Unequal => ExprKind::Compare(CompareOp::Ne, a, b),
        Kind::Below => ExprKind::Compare(CompareOp::Lt, a, b),
        Kind::AtMost => ExprKind::Compare(CompareOp::Le, a, b),
        Kind::In => ExprKind::Member(a, b),
        Kind::Join => ExprKind::Set2(SetOp::Join, a, b),
        Kind::Union => ExprKind::Set2(SetOp::Union, a, b),
        Kind::Inter => ExprKind::Set2(SetOp::Inter, a, b),
        Kind::Minus => ExprKind::Set2(SetOp::Minus, a, b),
        Kind::Plus => ExprKind::Arith(ArithOp::Add, a, b),
        Kind::Dash => ExprKind::Arith(ArithOp::Sub, a, b),
        _ => ExprKind::Arith(ArithOp::Mul, a, b),
    }
}

/// An operand with an operator and its right operand.
pub fn combined(
    alloc: Global,
    a: Boxed<Expr>,
    operator: &Token,
    kind: Kind,
    b: Expr,
) -> Result<Expr, AllocError>
    requires { kind_of operator.now ≡ code_of kind }
    ensures { IfOk result (λ e. e ≡ combined a (operator.now, b)) }
{
    let place = a.get().place;
    let b = Boxed::new(alloc, b)?;
    let kind = operation(kind, a, b);
    Ok(Expr { place, kind })
}

/// The value of an expression at a key, or the map with that value replaced.
pub fn suffixed(e: Boxed<Expr>, key: Boxed<Expr>, value: Option<Boxed<Expr>>) -> Expr
    ensures { result ≡ suffixed e (key, value) }
{
    let place = e.get().place;
    let Some(value) = value else {
        let kind = ExprKind::Look(e, key);
        return Expr { place, kind };
    };
    let kind = ExprKind::Update(e, key, value);
    Expr { place, kind }
}

/// What a literal says.
pub fn literal_of(alloc: Global, token: &Token, kind: Kind) -> Result<ExprKind, AllocError>
    requires { kind_of token.now ≡ code_of kind }
    ensures { IfOk result (λ e. e ≡ literal_of token.now) }
{
    if kind.is(Kind::Number) {
        return Ok(ExprKind::Int(number_of(token)));
    }
    if kind.is(Kind::Quoted) {
        return Ok(ExprKind::Str(text_of(alloc, token)?));
    }
    if kind.is(Kind::True) {
        return Ok(ExprKind::Truth(true));
    }
    if kind.is(Kind::False) {
        return Ok(ExprKind::Truth(false));
    }
    if kind.is(Kind::Bottom) {
        return Ok(ExprKind::Bottom);
    }
    if kind.is(Kind::Top) {
        return Ok(ExprKind::Top);
    }
    Ok(ExprKind::Unreached)
}

/// What `flat`, `fst` or `snd` makes of an expression.
pub fn applied_to(kind: Kind, e: Boxed<Expr>) -> ExprKind
    ensures { result ≡ applied_to (code_of kind) e }
{
    if kind.is(Kind::MakeFlat) {
        return ExprKind::MakeFlat(e);
    }
    if kind.is(Kind::Fst) {
        return ExprKind::Fst(e);
    }
    ExprKind::Snd(e)
}

/// The node that `prev`, `next` or `this` names.
pub fn side_of(kind: Kind) -> Side
    ensures { result ≡ side_of (code_of kind) }
{
    if kind.is(Kind::Prev) {
        return Side::Prev;
    }
    if kind.is(Kind::Next) {
        return Side::Next;
    }
    Side::This
}

/// A list of one expression.
pub fn one_element(alloc: Global, e: Expr) -> Result<List<Expr>, AllocError>
    ensures { IfOk result (λ elements. elements ≡ e ∷ []) }
{
    let mut elements = List::new(alloc);
    elements.push(e)?;
    Ok(elements)
}

/// A condition and its two branches.
pub fn conditional_of(
    alloc: Global,
    place: u64,
    condition: Boxed<Expr>,
    yes: Boxed<Expr>,
    no: Expr,
) -> Result<Expr, AllocError>
    ensures { IfOk result (λ e. e ≡ expr_at place (If condition yes no)) }
{
    let no = Boxed::new(alloc, no)?;
    let kind = ExprKind::If(condition, yes, no);
    Ok(Expr { place, kind })
}

/// A flat value whose element is named.
pub fn binding_of(
    alloc: Global,
    place: u64,
    name: &Token,
    value: Boxed<Expr>,
    body: Expr,
) -> Result<Expr, AllocError>
    ensures { IfOk result (λ e. e ≡ expr_at place (Bind (name_text name.now) value body)) }
{
    let body = Boxed::new(alloc, body)?;
    let name = text_of(alloc, name)?;
    let kind = ExprKind::Bind(name, value, body);
    Ok(Expr { place, kind })
}

/// The negation of a truth.
pub fn negated_of(alloc: Global, place: u64, e: Expr) -> Result<Expr, AllocError>
    ensures { IfOk result (λ whole. whole ≡ expr_at place (Not e)) }
{
    let kind = ExprKind::Not(Boxed::new(alloc, e)?);
    Ok(Expr { place, kind })
}

/// A number with the other sign.
pub fn signed_of(alloc: Global, place: u64, e: Expr) -> Result<Expr, AllocError>
    ensures { IfOk result (λ whole. whole ≡ expr_at place (Minus e)) }
{
    let kind = ExprKind::Minus(Boxed::new(alloc, e)?);
    Ok(Expr { place, kind })
}
