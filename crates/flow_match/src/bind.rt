//! What the variables of a pattern stand for.
ghost use Rattle.std.specs.Prelude.{◌≡◌, ◌≢◌, ◌<◌, ◌^◌, ◌++◌, IfOk, OnOk, None, option_map, sum_by};
ghost use Rattle.flow_term.specs.Annotations.{name_of, number_in, term_layer, text_in};
ghost use Rattle.flow_term.specs.Trees.{At, term_size};
ghost use Rattle.flow_term.specs.declared.elem.Elem.TheVariants as elem;
ghost use Rattle.flow_match.specs.Bindings.{bind_all, bindings_at, bound, match_in};
ghost use Rattle.flow_match.specs.inner.Onto.{onto, told};

use crate::matching::is_match;
use flow_syntax::{Pattern, PatternKind};
use flow_term::{Bindings, Bound, Elem, Kind, List, Path, Term, Text, resolved_name, term_at};
use std::alloc::{AllocError, Global};

/// What the variables of a pattern stand for at the position of a tree, in the order of the text. `None` exactly where the
/// pattern doesn't match the term there, and then no memory is taken. Fails only for want of memory.
pub fn matches(
    alloc: Global,
    pattern: &Pattern,
    tree: &Term,
    path: &Path,
) -> Result<Option<Bindings>, AllocError>
    requires small { term_size tree.now < 2 ^ 32 }
    requires position { At tree.now path.now ≢ None }
    ensures { IfOk result (λ found. found ≡ match_in pattern.now tree.now path.now) }
{
    match term_at(tree, path) {
        Some(term) => bindings_of(alloc, pattern, term, path.as_slice()),
        None => Ok(None),
    }
}

/// What the variables of a pattern stand for at a term that stands at a path.
#[tactic(auto, using(crate::proofs::Bindings::unmatched))]
pub(crate) fn bindings_of(
    alloc: Global,
    pattern: &Pattern,
    term: &Term,
    path: &[u32],
) -> Result<Option<Bindings>, AllocError>
    requires { term_size term.now < 2 ^ 32 }
    ensures { IfOk result (λ found. found ≡ bindings_at pattern.now term.now path.now) }
{
    if !is_match(pattern, term) {
        return Ok(None);
    }
    let mut steps = Vec::from_slice(alloc, path)?;
    let mut out = List::new(alloc);
    if bind(alloc, pattern, term, &mut steps, &mut out)? {
        Ok(Some(out))
    } else {
        Ok(None)
    }
}

/// Adds that a variable stands for an element.
fn add(name: &Text, value: Elem, out: &mut Bindings) -> Result<(), AllocError>
    ensures { OnOk result (out.new ≡ out.old ++ bound name.now value) }
{
    let name = name.duplicate()?;
    out.push(Bound { name, value })
}

/// Adds that a variable stands for the position.
fn add_position(
    alloc: Global,
    name: &Text,
    path: &[u32],
    out: &mut Bindings,
) -> Result<(), AllocError>
    ensures { OnOk result (out.new ≡ out.old ++ bound name.now (elem.Pos path.now)) }
{
    let path = Path::from_vec(Vec::from_slice(alloc, path)?);
    add(name, Elem::Pos(path), out)
}

/// Adds that a variable stands for the resolved name of a term, and answers whether the term has one.
fn add_name(name: &Text, term: &Term, out: &mut Bindings) -> Result<bool, AllocError>
    ensures { IfOk result (λ found. told found out.new ≡ onto out.old (option_map (λ n. bound name.now (elem.Name n)) (name_of term.now))) }
{
    match resolved_name(term) {
        Some(text) => {
            add(name, Elem::Name(text.duplicate()?), out)?;
            Ok(true)
        }
        None => Ok(false),
    }
}

/// Adds that a variable stands for the text of a string, and answers whether the term is one.
fn add_text(name: &Text, term: &Term, out: &mut Bindings) -> Result<bool, AllocError>
    ensures { IfOk result (λ found. told found out.new ≡ onto out.old (option_map (λ s. bound name.now (elem.Str s)) (text_in (term_layer term.now)))) }
{
    match &term.kind {
        Kind::Str(text) => {
            add(name, Elem::Str(text.duplicate()?), out)?;
            Ok(true)
        }
        _ => Ok(false),
    }
}

/// Adds that a variable stands for an integer, and answers whether the term is one.
fn add_number(name: &Text, term: &Term, out: &mut Bindings) -> Result<bool, AllocError>
    ensures { IfOk result (λ found. told found out.new ≡ onto out.old (option_map (λ n. bound name.now (elem.Int n)) (number_in (term_layer term.now)))) }
{
    match &term.kind {
        Kind::Int(number) => {
            add(name, Elem::Int(*number), out)?;
            Ok(true)
        }
        _ => Ok(false),
    }
}

/// Adds what the variables of a pattern stand for at a term, and answers whether the pattern matches it. The path is that of
/// the term, and is given back.
#[cycle(bind)]
#[tactic(auto, using(crate::proofs::Layers::bindings_out))]
fn bind(
    alloc: Global,
    pattern: &Pattern,
    term: &Term,
    path: &mut Vec<u32>,
    out: &mut Bindings,
) -> Result<bool, AllocError>
    requires { term_size term.now < 2 ^ 32 }
    ensures bound { IfOk result (λ found. told found out.new ≡ onto out.old (bindings_at pattern.now term.now path.old.items)) }
    ensures path { IfOk result (λ _. path.new.items ≡ path.old.items) }
{
    match &pattern.kind {
        PatternKind::Wild => Ok(true),
        PatternKind::Var(name) => {
            add_position(alloc, name, path, out)?;
            Ok(true)
        }
        PatternKind::NameVar(name) => add_name(name, term, out),
        PatternKind::StrVar(name) => add_text(name, term, out),
        PatternKind::IntVar(name) => add_number(name, term, out),
        PatternKind::IntLit(_) => Ok(is_match(pattern, term)),
        PatternKind::StrLit(_) => Ok(is_match(pattern, term)),
        PatternKind::Apply(name, parts) => match &term.kind {
            Kind::Apply(other, args) if *name == *other => {
                bind_each(alloc, parts.as_slice(), args.as_slice(), path, out)
            }
            _ => Ok(false),
        },
        PatternKind::Tuple(parts) => match &term.kind {
            Kind::Tuple(items) => bind_each(alloc, parts.as_slice(), items.as_slice(), path, out),
            _ => Ok(false),
        },
        PatternKind::Items(parts) => match &term.kind {
            Kind::Items(items) => bind_each(alloc, parts.as_slice(), items.as_slice(), path, out),
            _ => Ok(false),
        },
        PatternKind::Held(name, inner) => {
            add_position(alloc, name, path, out)?;
            bind(alloc, inner.get(), term, path, out)
        }
    }
}

/// The same of patterns and terms of which each is the child of its number.
#[cycle(bind)]
fn bind_each(
    alloc: Global,
    patterns: &[Pattern],
    terms: &[Term],
    path: &mut Vec<u32>,
    out: &mut Bindings,
) -> Result<bool, AllocError>
    requires { sum_by term_size terms.now < 2 ^ 32 }
    ensures bound { IfOk result (λ found. told found out.new ≡ onto out.old (bind_all patterns.now terms.now path.old.items 0)) }
    ensures path { IfOk result (λ _. path.new.items ≡ path.old.items) }
{
    if patterns.len() != terms.len() {
        return Ok(false);
    }
    for (i, pattern) in patterns.iter().enumerate() {
        path.push(i as u32)?;
        let found = bind(alloc, pattern, &terms[i], path, out)?;
        path.pop();
        if !found {
            return Ok(false);
        }
    }
    Ok(true)
}
