//! The links of a tree, position by position.
ghost use Rattle.std.specs.Prelude.{◌≡◌, ◌^◌, ◌<◌, ◌↔◌, Contains, IfOk, OnOk, get_or, length, false};
ghost use Rattle.flow_term.specs.declared.graph.Link.{Link as LinkValue};
ghost use Rattle.flow_term.specs.Orders.{EachOnce};
ghost use Rattle.flow_term.specs.Trees.{children, term_size};
ghost use Rattle.flow_syntax.specs.Graph.{IsLink, below};
ghost use Rattle.flow_links.specs.Below.{Adds, LinksBelow, LinksInChildren};

use crate::here::add_here;
use crate::link_set::LinkSet;
use crate::rules::{entered_children, matching_rule};
use flow_match::RuleIndex;
use flow_syntax::TypedSpec;
use flow_term::{Link, List, Term};
use std::alloc::{AllocError, Global};

/// The links of a tree, each once: the steps between points that the control rules, entered lists and positions that
/// are passed through give. Fails only for want of memory.
pub fn links(alloc: Global, spec: &TypedSpec, tree: &Term) -> Result<List<Link>, AllocError>
    requires { term_size tree.now < 2 ^ 32 }
    ensures exactly { IfOk result (λ links. (link : LinkValue) → Contains links link ↔ IsLink spec.now.spec tree.now link.from link.to) }
    ensures once { IfOk result EachOnce }
{
    let rules = RuleIndex::new(alloc, spec)?;
    links_by(alloc, &rules, tree)
}

/// The links of a tree by these rules.
fn links_by(alloc: Global, rules: &RuleIndex<'_>, tree: &Term) -> Result<List<Link>, AllocError>
    requires { term_size tree.now < 2 ^ 32 }
    ensures exactly { IfOk result (λ links. (link : LinkValue) → Contains links link ↔ IsLink rules.now.spec.now.spec tree.now link.from link.to) }
    ensures once { IfOk result EachOnce }
{
    let mut path = Vec::new(alloc);
    let mut out = LinkSet::new(alloc);
    add_below(alloc, rules, false, tree, &mut path, &mut out)?;
    out.into_list(alloc)
}

/// Adds the links of the positions at and below a term, of which the path is given and given back.
#[cycle(collect)]
fn add_below(
    alloc: Global,
    rules: &RuleIndex<'_>,
    entered: bool,
    term: &Term,
    path: &mut Vec<u32>,
    out: &mut LinkSet,
) -> Result<(), AllocError>
    requires { term_size term.now < 2 ^ 32 }
    ensures links { OnOk result (Adds out.old out.new (LinksBelow rules.now.spec.now.spec entered term.now path.old.items)) }
    ensures path { OnOk result (path.new.items ≡ path.old.items) }
{
    let matching = matching_rule(rules, term);
    add_here(alloc, matching, entered, term, path, out)?;
    let marks = entered_children(alloc, matching, entered, term)?;
    add_children(alloc, rules, marks.as_slice(), term, path, out)
}

/// The mark of the child with this number.
fn is_marked(marks: &[bool], n: u32) -> bool
    requires { n < length marks.now }
    ensures { result ≡ get_or marks.now n false }
{
    marks[n as usize]
}

/// Adds the links of the positions at and below the children of a term, where the marks say which are entered.
#[cycle(collect)]
fn add_children(
    alloc: Global,
    rules: &RuleIndex<'_>,
    marks: &[bool],
    term: &Term,
    path: &mut Vec<u32>,
    out: &mut LinkSet,
) -> Result<(), AllocError>
    requires small { term_size term.now < 2 ^ 32 }
    requires marks { length marks.now ≡ length (children term.now) }
    ensures links { OnOk result (Adds out.old out.new (LinksInChildren rules.now.spec.now.spec marks.now term.now path.old.items (length (children term.now)))) }
    ensures path { OnOk result (path.new.items ≡ path.old.items) }
{
    let mut n: u32 = 0;
    for child in term.children() {
        add_child(alloc, rules, is_marked(marks, n), n, child, path, out)?;
        n += 1;
    }
    Ok(())
}

/// Adds the links of the positions at and below the child with this number.
#[cycle(collect)]
fn add_child(
    alloc: Global,
    rules: &RuleIndex<'_>,
    entered: bool,
    n: u32,
    child: &Term,
    path: &mut Vec<u32>,
    out: &mut LinkSet,
) -> Result<(), AllocError>
    requires { term_size child.now < 2 ^ 32 }
    ensures links { OnOk result (Adds out.old out.new (LinksBelow rules.now.spec.now.spec entered child.now (below path.old.items n))) }
    ensures path { OnOk result (path.new.items ≡ path.old.items) }
{
    path.push(n)?;
    add_below(alloc, rules, entered, child, path, out)?;
    path.pop();
    Ok(())
}
