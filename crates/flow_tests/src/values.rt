//! Texts of values, and what holds values.
use crate::rows::{Topic, wrong_rows};
use flow_term::{
    Bindings, Bound, Boxed, Elem, List, Node, Text, Unknown, Value, Valued, read_node, write_node,
};
use std::alloc::{AllocError, Global};
use std::test::Fail;
use value_text::{has_text, read_value, texts_have_one_value, write_value};

/// The text of the value, if it has one.
pub(crate) fn text_of(alloc: Global, value: &Value) -> Result<List<u8>, AllocError> {
    if has_text(value) {
        write_value(alloc, value)
    } else {
        Ok(List::new(alloc))
    }
}

/// Rows of texts of values; a duplicate of what is read is written again.
#[derive(Clone, Copy)]
struct OfValue;

impl Topic for OfValue {
    fn told(&self, alloc: Global, text: &[u8]) -> Result<String, Fail> {
        let written = match read_value(alloc, text) {
            Ok(value) => text_of_duplicate(alloc, &value)?,
            Err(_) => List::from_vec(Vec::from_slice(alloc, b"none")?),
        };
        Ok(String::from_utf8(written.into_vec())?)
    }
}

fn text_of_duplicate(alloc: Global, value: &Value) -> Result<List<u8>, AllocError> {
    text_of(alloc, &value.duplicate(alloc)?)
}

const READ: &str = r#"
unreached => unreached
bottom => bottom
top => top
red => red
flat2 => flat2
{} => {}
{"a", "b"} => {"a", "b"}
{"\000\037\177", "\t\n\r", "'", "\\"} => {"\000\037\177", "\t\n\r", "'", "\\"}
{'"', '\'', '\\', 'é€'} => {'"', '\'', '\\', 'é€'}
{/, /0, /0/1, /1, /4294967295} => {/, /0, /0/1, /1, /4294967295}
{-9223372036854775808, -1, 0, 1, 9223372036854775807} => {-9223372036854775808, -1, 0, 1, 9223372036854775807}
{"z", 'a', /, red, 5, (1, 2)} => {"z", 'a', /, red, 5, (1, 2)}
{(1, (2, 3)), ((1, 2), 3)} => {(1, (2, 3)), ((1, 2), 3)}
flat(/3) => flat(/3)
flat(red) => flat(red)
[] => []
["x" |-> top, "y" |-> flat(-1)] => ["x" |-> top, "y" |-> flat(-1)]
[1 |-> [2 |-> {3}], (1, 2) |-> {}] => [1 |-> [2 |-> {3}], (1, 2) |-> {}]
(bottom, (top, red)) => (bottom, (top, red))
"#;

/// Blanks, orders and spellings that no value has.
const REFUSED: &str = r#"
`0 x` => none
`20`top => none
top`20` => none
{"b", "a"} => none
{"a","b"} => none
{"a", "a"} => none
{"a"  "b"} => none
{"a" "b"} => none
{"a",  "b"} => none
{ "a"} => none
{"a", } => none
{'a', "a"} => none
[1 |-> top, 1 |-> top] => none
[2 |-> top, 1 |-> top] => none
[1|->top] => none
[1 |->  top] => none
flat (1) => none
flat(1)1 => none
(top,bottom) => none
on => none
{on} => none
{01} => none
{-0} => none
{9223372036854775808} => none
{//1} => none
{"\101"} => none
{"`09`"} => none
{'a} => none
{"`ff`"} => none
`17 [1 |-> `top`17 ]` => none
`17 (`top`17 , top)` => none
`16 [1 |-> `{}`16 ]` => none
`16 [1 |-> `flat(1)`16 ]` => none
`16 [1 |-> `[]`16 ]` => none
{`15 (1, `(1, 2)`15 )`} => none
"#;

#[test]
fn a_value_has_one_text(rt: HostRuntime) -> Result<(), Fail> {
    texts_have_one_value();
    for table in [READ, REFUSED] {
        assert_eq!(rt; wrong_rows(rt.alloc(), &OfValue, table)?.as_str(), "");
    }
    Ok(())
}

/// Rows of texts that are read, of which the length is told.
#[derive(Clone, Copy)]
struct OfLength;

impl Topic for OfLength {
    fn told(&self, alloc: Global, text: &[u8]) -> Result<String, Fail> {
        let told = OfValue.told(alloc, text)?;
        let is_same = told.as_bytes() == text;
        Ok(format!(in alloc; "{} {is_same}", text.len())?)
    }
}

/// Brackets nest 16 deep.
const DEEPEST: &str = r#"
`16 [1 |-> `top`16 ]` => 131 true
`16 (`top`16 , top)` => 115 true
`15 [1 |-> `{}`15 ]` => 122 true
`15 [1 |-> `flat(1)`15 ]` => 127 true
`15 [1 |-> `[]`15 ]` => 122 true
{`14 (1, `(1, 2)`14 )`} => 78 true
"#;

#[test]
fn brackets_nest_16_deep(rt: HostRuntime) -> Result<(), Fail> {
    assert_eq!(rt; wrong_rows(rt.alloc(), &OfLength, DEEPEST)?.as_str(), "");
    Ok(())
}

/// Rows of a node and a value, which the property `p` has there; a duplicate is written.
#[derive(Clone, Copy)]
struct OfValued;

impl Topic for OfValued {
    fn told(&self, alloc: Global, text: &[u8]) -> Result<String, Fail> {
        let text = str::from_utf8(text)?;
        let (node, value) = text.split_once(' ').ok_or("no value")?;
        let node = read_node(alloc, node.as_bytes()).ok().ok_or("no node")?;
        let bytes = match read_value(alloc, value.as_bytes()) {
            Ok(value) => text_of_valued(alloc, node, value)?,
            Err(_) => Vec::new(alloc),
        };
        Ok(String::from_utf8(bytes)?)
    }
}

fn text_of_valued(alloc: Global, node: Node, value: Value) -> Result<Vec<u8>, AllocError> {
    let property = Text::new(alloc);
    let unknown = Unknown { node, property };
    let valued = Boxed::new(alloc, Valued { unknown, value })?;
    let again = Boxed::new(alloc, valued.get().duplicate(alloc)?)?;
    let mut bytes = write_node(alloc, &again.get().unknown.node)?.into_vec();
    bytes.extend_from_slice(b" ")?;
    bytes.extend_from_slice(text_of(alloc, &again.get().value)?.as_slice())?;
    Ok(bytes)
}

const VALUED: &str = r#"
/0:node [1 |-> {"a", (/, red)}] => /0:node [1 |-> {"a", (/, red)}]
/:end (unreached, flat('s')) => /:end (unreached, flat('s'))
"#;

#[test]
fn a_value_at_a_node_is_duplicated(rt: HostRuntime) -> Result<(), Fail> {
    assert_eq!(rt; wrong_rows(rt.alloc(), &OfValued, VALUED)?.as_str(), "");
    Ok(())
}

/// Whether the bindings of a name to this number equal a duplicate.
fn is_duplicated(alloc: Global, number: i64) -> Result<bool, AllocError> {
    let mut bindings: Bindings = List::new(alloc);
    let name = Text::from_string(String::from_str(alloc, "x")?);
    let value = Elem::Int(number);
    bindings.push(Bound { name, value })?;
    let again = bindings.duplicate(alloc)?;
    Ok(again.as_slice() == bindings.as_slice())
}

#[test]
fn bindings_are_duplicated(rt: HostRuntime) -> Result<(), Fail> {
    assert!(rt; is_duplicated(rt.alloc(), 3)?);
    Ok(())
}
