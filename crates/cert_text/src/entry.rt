//! Reading what stands in one line.
ghost use Rattle.std.specs.Prelude.{◌≡◌, ◌↔◌, ◌<◌, ◌^◌, IfNone, IfSome, IsTrue, decimal};
ghost use Rattle.std.specs.Prelude.{ℕ};
ghost use Rattle.flow_term.specs.Nodes.{node_text};
ghost use Rattle.flow_term.specs.Paths.{AreSteps};
ghost use Rattle.flow_syntax.specs.Accepted.{IsIdentifier};
ghost use Rattle.value_text.specs.Texts.{HasText, value_text};
ghost use Rattle.cert_text.specs.Texts.{IsCount, IsEdgeEntry, IsFrom, IsStepEntry, IsValueEntry, origin_text};
ghost use Rattle.cert_text.specs.inner.Bodies.{Tells, count_body, edge_body, step_body, value_body};

use flow_term::{Edge, Node, PathRefusal, Text, Unknown, Value, Valued, read_node};
use itoa::Buffer;
use line_theory::{behind, split_at};
use std::alloc::{AllocError, Global};
use tree_constraints::{Key, Origin};
use value_text::{ValueRefusal, is_identifier, read_value, steps_are_small};

/// Why a line isn't of its form.
#[derive(Clone, Copy, Debug, PartialEq, Eq)]
pub enum LineRefusal {
    /// Nothing has this text.
    Form,
    /// Memory ran out.
    NoMemory,
}

impl From<AllocError> for LineRefusal {
    ghost use Rattle.cert_text.specs.declared.entry.LineRefusal.TheVariants.{NoMemory};

    ghost from_gives = { λ _ e. e ≡ NoMemory };

    fn from(_: AllocError) -> LineRefusal {
        LineRefusal::NoMemory
    }
}

/// The number of which the line is the count behind this word.
pub fn count_of(word: &[u8], body: &[u8]) -> Option<u64>
    ensures found { IfSome result (λ n. IsCount n × (count_body word.now n ≡ body.now)) }
    ensures none { IfNone result ((n : ℕ) → IsCount n → count_body word.now n ≡ body.now → ⊥) }
{
    let digits = behind(body, word)?;
    let Some(number) = number_of(digits) else {
        return None;
    };
    if number >= 10_000_000_000_000_000_000 {
        return None;
    }
    Some(number)
}

/// The number of which these bytes are the decimal.
fn number_of(digits: &[u8]) -> Option<u64>
    ensures found { IfSome result (λ n. decimal n ≡ digits.now) }
    ensures none { IfNone result ((n : ℕ) → n < 2 ^ 64 → decimal n ≡ digits.now → ⊥) }
{
    let Ok(text) = str::from_utf8(digits) else {
        return None;
    };
    let Ok(number) = text.parse::<u64>() else {
        return None;
    };
    if !is_decimal(number, digits) {
        return None;
    }
    Some(number)
}

fn is_decimal(number: u64, digits: &[u8]) -> bool
    ensures { IsTrue result ↔ decimal number ≡ digits.now }
{
    let mut buffer = Buffer::new();
    buffer.format(number).as_bytes() == digits
}

/// The edge of which the line is the text.
pub fn edge_of(alloc: Global, body: &[u8]) -> Result<Edge, LineRefusal>
    ensures { Tells IsEdgeEntry edge_body body.now result }
{
    let Some((from, rest)) = split_at(body, b' ') else {
        return Err(LineRefusal::Form);
    };
    let Some(to) = behind(rest, b"-> ") else {
        return Err(LineRefusal::Form);
    };
    let from = node_of(alloc, from)?;
    let to = node_of(alloc, to)?;
    Ok(Edge { from, to })
}

/// The step of which the line is the text.
pub fn step_of(alloc: Global, body: &[u8]) -> Result<Key, LineRefusal>
    ensures { Tells IsStepEntry step_body body.now result }
{
    let Some((property, rest)) = split_at(body, b' ') else {
        return Err(LineRefusal::Form);
    };
    let Some((node, source)) = split_at(rest, b' ') else {
        return Err(LineRefusal::Form);
    };
    let property = name_of(alloc, property)?;
    let node = node_of(alloc, node)?;
    let origin = origin_of(alloc, source)?;
    let target = Unknown { node, property };
    Ok(Key { target, origin })
}

/// The unknown with its value of which the line is the text.
pub fn valued_of(alloc: Global, body: &[u8]) -> Result<Valued, LineRefusal>
    ensures { Tells IsValueEntry value_body body.now result }
{
    let Some((node, rest)) = split_at(body, b' ') else {
        return Err(LineRefusal::Form);
    };
    let Some((property, rest)) = split_at(rest, b' ') else {
        return Err(LineRefusal::Form);
    };
    let Some(value) = behind(rest, b"= ") else {
        return Err(LineRefusal::Form);
    };
    let node = node_of(alloc, node)?;
    let property = name_of(alloc, property)?;
    let value = value_of(alloc, value)?;
    let unknown = Unknown { node, property };
    Ok(Valued { unknown, value })
}

fn value_of(alloc: Global, bytes: &[u8]) -> Result<Value, LineRefusal>
    ensures { Tells HasText value_text bytes.now result }
{
    match read_value(alloc, bytes) {
        Ok(value) => Ok(value),
        Err(ValueRefusal::Form) => Err(LineRefusal::Form),
        Err(ValueRefusal::NoMemory) => Err(LineRefusal::NoMemory),
    }
}

fn origin_of(alloc: Global, bytes: &[u8]) -> Result<Origin, LineRefusal>
    ensures { Tells IsFrom origin_text bytes.now result }
{
    if bytes == b"boundary".as_slice() {
        return Ok(Origin::Boundary);
    }
    Ok(Origin::Along(node_of(alloc, bytes)?))
}

fn node_of(alloc: Global, bytes: &[u8]) -> Result<Node, LineRefusal>
    ensures { Tells (λ n. AreSteps n.path) node_text bytes.now result }
{
    match read_node(alloc, bytes) {
        Ok(node) => {
            steps_are_small(&node.path);
            Ok(node)
        }
        Err(PathRefusal::Form) => Err(LineRefusal::Form),
        Err(PathRefusal::NoMemory) => Err(LineRefusal::NoMemory),
    }
}

fn name_of(alloc: Global, bytes: &[u8]) -> Result<Text, LineRefusal>
    ensures { Tells IsIdentifier (λ text. text) bytes.now result }
{
    let Ok(text) = str::from_utf8(bytes) else {
        return Err(LineRefusal::Form);
    };
    let name = Text::from_string(String::from_str(alloc, text)?);
    if !is_identifier(&name) {
        return Err(LineRefusal::Form);
    }
    Ok(name)
}
