//! Taking one line at its place.
ghost use Rattle.std.specs.Prelude.{◌≡◌, ◌↔◌, suc, IsTrue};
ghost use Rattle.std.specs.declared.cmp.Ordering.TheVariants.{Less as at_less};
ghost use Rattle.flow_term.specs.Orders.{edge_cmp};
ghost use Rattle.tree_constraints.specs.Orders.{unknown_cmp};
ghost use Rattle.cert_text.specs.declared.place.Place.TheVariants.{Header as at_header, EdgeCount as at_edge_count, Edges as at_edges, Steps as at_steps, Values as at_values, Finished as at_end};
ghost use Rattle.cert_text.specs.Lines.{IsAbove};
ghost use Rattle.cert_text.specs.Texts.{IsEdgeEntry, IsStepEntry, IsValueEntry, value_cmp};
ghost use Rattle.cert_text.specs.inner.Bodies.{edge_body, step_body, value_body};
ghost use Rattle.cert_text.specs.inner.Moves.{Moves};

use crate::entry::{LineRefusal, count_of, edge_of, step_of, valued_of};
use crate::place::{CertFaultKind, Place, Progress};
use crate::refusal::LineFault;
use flow_term::{Edge, Unknown, Valued};
use std::alloc::Global;
use std::cmp::Ordering;
use tree_constraints::Key;

/// Takes a line, without its line feed, at the place where it stands. After a fault the progress is as it was.
pub fn take_line(alloc: Global, progress: &mut Progress, body: &[u8]) -> Result<(), LineFault>
    ensures { Moves progress.old body.now result progress.new }
{
    match progress.place {
        Place::Header => take_header(progress, body),
        Place::EdgeCount => take_edge_count(progress, body),
        Place::Edges(left) => take_at_edges(alloc, progress, left, body),
        Place::Steps(left) => take_at_steps(alloc, progress, left, body),
        Place::Values(left) => take_at_values(alloc, progress, left, body),
        Place::Finished => Err(LineFault::Fault(CertFaultKind::End)),
    }
}

fn take_header(progress: &mut Progress, body: &[u8]) -> Result<(), LineFault>
    requires { progress.old.place ≡ at_header }
    ensures { Moves progress.old body.now result progress.new }
{
    if !is_same(body, b"flowcert 1") {
        return Err(LineFault::Fault(CertFaultKind::Header));
    }
    progress.place = Place::EdgeCount;
    Ok(())
}

fn is_same(body: &[u8], word: &[u8]) -> bool
    ensures { IsTrue result ↔ body.now ≡ word.now }
{
    body == word
}

fn take_edge_count(progress: &mut Progress, body: &[u8]) -> Result<(), LineFault>
    requires { progress.old.place ≡ at_edge_count }
    ensures { Moves progress.old body.now result progress.new }
{
    let Some(count) = count_of(b"edges ", body) else {
        return Err(LineFault::Fault(CertFaultKind::Count));
    };
    progress.place = Place::Edges(count);
    Ok(())
}

fn take_at_edges(
    alloc: Global,
    progress: &mut Progress,
    left: u64,
    body: &[u8],
) -> Result<(), LineFault>
    requires { progress.old.place ≡ at_edges left }
    ensures { Moves progress.old body.now result progress.new }
{
    if left == 0 {
        return take_step_count(progress, body);
    }
    take_edge(alloc, progress, left - 1, body)
}

fn take_step_count(progress: &mut Progress, body: &[u8]) -> Result<(), LineFault>
    requires { progress.old.place ≡ at_edges 0 }
    ensures { Moves progress.old body.now result progress.new }
{
    let Some(count) = count_of(b"steps ", body) else {
        return Err(LineFault::Fault(CertFaultKind::Count));
    };
    progress.place = Place::Steps(count);
    Ok(())
}

fn take_edge(
    alloc: Global,
    progress: &mut Progress,
    others: u64,
    body: &[u8],
) -> Result<(), LineFault>
    requires { progress.old.place ≡ at_edges (suc others) }
    ensures { Moves progress.old body.now result progress.new }
{
    match edge_of(alloc, body) {
        Ok(edge) => push_edge(progress, others, edge),
        Err(LineRefusal::Form) => Err(LineFault::Fault(CertFaultKind::Form)),
        Err(LineRefusal::NoMemory) => Err(LineFault::NoMemory),
    }
}

/// Puts an edge behind the others, if it is above the last of them.
fn push_edge(progress: &mut Progress, others: u64, edge: Edge) -> Result<(), LineFault>
    requires place { progress.old.place ≡ at_edges (suc others) }
    requires entry { IsEdgeEntry edge }
    ensures { Moves progress.old (edge_body edge) result progress.new }
{
    if !edge_is_above(progress.certificate.edges.as_slice(), &edge) {
        return Err(LineFault::Fault(CertFaultKind::Order));
    }
    progress.certificate.edges.push(edge)?;
    progress.place = Place::Edges(others);
    Ok(())
}

fn edge_is_above(edges: &[Edge], edge: &Edge) -> bool
    ensures { IsTrue result ↔ IsAbove edge_cmp edges.now edge.now }
{
    match edges.last() {
        Some(last) => edge_is_below(last, edge),
        None => true,
    }
}

/// By source, and then by target.
fn edge_is_below(a: &Edge, b: &Edge) -> bool
    ensures { IsTrue result ↔ edge_cmp a.now b.now ≡ at_less }
{
    match a.from.cmp(&b.from) {
        Ordering::Less => true,
        Ordering::Equal => a.to.cmp(&b.to).is_lt(),
        Ordering::Greater => false,
    }
}

fn take_at_steps(
    alloc: Global,
    progress: &mut Progress,
    left: u64,
    body: &[u8],
) -> Result<(), LineFault>
    requires { progress.old.place ≡ at_steps left }
    ensures { Moves progress.old body.now result progress.new }
{
    if left == 0 {
        return take_value_count(progress, body);
    }
    take_step(alloc, progress, left - 1, body)
}

fn take_value_count(progress: &mut Progress, body: &[u8]) -> Result<(), LineFault>
    requires { progress.old.place ≡ at_steps 0 }
    ensures { Moves progress.old body.now result progress.new }
{
    let Some(count) = count_of(b"values ", body) else {
        return Err(LineFault::Fault(CertFaultKind::Count));
    };
    progress.place = Place::Values(count);
    Ok(())
}

fn take_step(
    alloc: Global,
    progress: &mut Progress,
    others: u64,
    body: &[u8],
) -> Result<(), LineFault>
    requires { progress.old.place ≡ at_steps (suc others) }
    ensures { Moves progress.old body.now result progress.new }
{
    match step_of(alloc, body) {
        Ok(step) => push_step(progress, others, step),
        Err(LineRefusal::Form) => Err(LineFault::Fault(CertFaultKind::Form)),
        Err(LineRefusal::NoMemory) => Err(LineFault::NoMemory),
    }
}

/// Puts a step behind the others.
fn push_step(progress: &mut Progress, others: u64, step: Key) -> Result<(), LineFault>
    requires place { progress.old.place ≡ at_steps (suc others) }
    requires entry { IsStepEntry step }
    ensures { Moves progress.old (step_body step) result progress.new }
{
    progress.certificate.steps.push(step)?;
    progress.place = Place::Steps(others);
    Ok(())
}

fn take_at_values(
    alloc: Global,
    progress: &mut Progress,
    left: u64,
    body: &[u8],
) -> Result<(), LineFault>
    requires { progress.old.place ≡ at_values left }
    ensures { Moves progress.old body.now result progress.new }
{
    if left == 0 {
        return take_end(progress, body);
    }
    take_value(alloc, progress, left - 1, body)
}

fn take_end(progress: &mut Progress, body: &[u8]) -> Result<(), LineFault>
    requires { progress.old.place ≡ at_values 0 }
    ensures { Moves progress.old body.now result progress.new }
{
    if !is_same(body, b"end") {
        return Err(LineFault::Fault(CertFaultKind::End));
    }
    progress.place = Place::Finished;
    Ok(())
}

fn take_value(
    alloc: Global,
    progress: &mut Progress,
    others: u64,
    body: &[u8],
) -> Result<(), LineFault>
    requires { progress.old.place ≡ at_values (suc others) }
    ensures { Moves progress.old body.now result progress.new }
{
    match valued_of(alloc, body) {
        Ok(valued) => push_value(progress, others, valued),
        Err(LineRefusal::Form) => Err(LineFault::Fault(CertFaultKind::Form)),
        Err(LineRefusal::NoMemory) => Err(LineFault::NoMemory),
    }
}

/// Puts a value behind the others, if its unknown is above that of the last of them.
fn push_value(progress: &mut Progress, others: u64, valued: Valued) -> Result<(), LineFault>
    requires place { progress.old.place ≡ at_values (suc others) }
    requires entry { IsValueEntry valued }
    ensures { Moves progress.old (value_body valued) result progress.new }
{
    if !value_is_above(progress.certificate.values.as_slice(), &valued) {
        return Err(LineFault::Fault(CertFaultKind::Order));
    }
    progress.certificate.values.push(valued)?;
    progress.place = Place::Values(others);
    Ok(())
}

fn value_is_above(values: &[Valued], valued: &Valued) -> bool
    ensures { IsTrue result ↔ IsAbove value_cmp values.now valued.now }
{
    match values.last() {
        Some(last) => is_below(&last.unknown, &valued.unknown),
        None => true,
    }
}

/// By node, and then by the bytes of the property.
fn is_below(a: &Unknown, b: &Unknown) -> bool
    ensures { IsTrue result ↔ unknown_cmp a.now b.now ≡ at_less }
{
    match a.node.cmp(&b.node) {
        Ordering::Less => true,
        Ordering::Equal => a.property.cmp(&b.property).is_lt(),
        Ordering::Greater => false,
    }
}
