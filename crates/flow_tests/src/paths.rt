//! Paths and nodes, and the parts of trees at them.
ghost use Rattle.std.specs.Prelude.{◌<◌, ◌^◌};
ghost use Rattle.flow_term.specs.Trees.{term_size};

use crate::rows::{Topic, wrong_rows};
use aterm_text::{read, write};
use flow_term::{
    List, Path, Term, depth, location, positions, read_node, read_path, replace, resolved_name,
    size, term_at, write_node, write_path,
};
use std::alloc::{AllocError, Global};
use std::test::Fail;

/// Rows of texts of paths, which are written again.
#[derive(Clone, Copy)]
struct OfPath;

impl Topic for OfPath {
    fn told(&self, alloc: Global, text: &[u8]) -> Result<String, Fail> {
        let written = match read_path(alloc, text) {
            Ok(path) => write_path(alloc, &path.duplicate()?)?,
            Err(_) => List::from_vec(Vec::from_slice(alloc, b"none")?),
        };
        Ok(String::from_utf8(written.into_vec())?)
    }
}

const PATHS: &str = r#"
/ => /
/0 => /0
/10/0/7 => /10/0/7
/4294967295 => /4294967295
`0 x` => none
0 => none
// => none
/0/ => none
/00 => none
/01 => none
/+1 => none
/-1 => none
/`20`1 => none
/1`20` => none
/4294967296 => none
/a => none
/0//1 => none
"#;

/// Rows of texts of nodes, which are written again.
#[derive(Clone, Copy)]
struct OfNode;

impl Topic for OfNode {
    fn told(&self, alloc: Global, text: &[u8]) -> Result<String, Fail> {
        let written = match read_node(alloc, text) {
            Ok(node) => write_node(alloc, &node.duplicate()?)?,
            Err(_) => List::from_vec(Vec::from_slice(alloc, b"none")?),
        };
        Ok(String::from_utf8(written.into_vec())?)
    }
}

const NODES: &str = r#"
/:start => /:start
/0/1:node => /0/1:node
/10:end => /10:end
`0 x` => none
:start => none
/ => none
/0 => none
/0: => none
/0:begin => none
/0:Start => none
/0:start`20` => none
/01:node => none
/0:node:end => none
"#;

#[test]
fn a_path_and_a_node_have_one_text(rt: HostRuntime) -> Result<(), Fail> {
    assert_eq!(rt; wrong_rows(rt.alloc(), &OfPath, PATHS)?.as_str(), "");
    assert_eq!(rt; wrong_rows(rt.alloc(), &OfNode, NODES)?.as_str(), "");
    Ok(())
}

/// Rows of trees, of which the name and the place are told.
#[derive(Clone, Copy)]
struct OfAnnotations;

impl Topic for OfAnnotations {
    fn told(&self, alloc: Global, text: &[u8]) -> Result<String, Fail> {
        match read(alloc, text) {
            Ok(tree) => Ok(told_of_annotations(alloc, &tree)?),
            Err(_) => Err("no tree".into()),
        }
    }
}

fn told_of_annotations(alloc: Global, tree: &Term) -> Result<String, AllocError> {
    let name = match resolved_name(tree) {
        Some(name) => name.as_str(),
        None => "-",
    };
    let (line, column) = location(tree).unwrap_or((0, 0));
    format!(in alloc; "{name} {line}:{column}")
}

const ANNOTATIONS: &str = r#"
"x"{Decl("k")} => k 0:0
Set("x",[1]){At("x"),Ref("k"),Decl("m"),At(5,6),At(7,8)} => k 5:6
Set("x"{Ref("k"),At(3,4)}) => - 0:0
f{Ref(k),Decl("a","b"),Use("c"),At(1),At(1,"2"),At(-1,0)} => - -1:0
"#;

#[test]
fn annotations_name_and_place_a_term(rt: HostRuntime) -> Result<(), Fail> {
    let wrong = wrong_rows(rt.alloc(), &OfAnnotations, ANNOTATIONS)?;
    assert_eq!(rt; wrong.as_str(), "");
    Ok(())
}

/// Rows of a path, a tree and a new part, of which the new tree is told, what was taken out or comes back, and what stands at the path.
#[derive(Clone, Copy)]
struct OfReplacing;

impl Topic for OfReplacing {
    fn told(&self, alloc: Global, text: &[u8]) -> Result<String, Fail> {
        let text = str::from_utf8(text)?;
        let (at, rest) = text.split_once(' ').ok_or("no tree")?;
        let (tree, new) = rest.split_once(' ').ok_or("no part")?;
        let bytes = replaced_in_text(alloc, at, tree, new)?;
        Ok(String::from_utf8(bytes)?)
    }
}

fn replaced_in_text(alloc: Global, at: &str, tree: &str, new: &str) -> Result<Vec<u8>, AllocError> {
    match (
        read_path(alloc, at.as_bytes()),
        read(alloc, tree.as_bytes()),
    ) {
        (Ok(path), Ok(mut tree)) => replaced_by_text(alloc, &path, &mut tree, new),
        _ => Ok(Vec::new(alloc)),
    }
}

fn replaced_by_text(
    alloc: Global,
    path: &Path,
    tree: &mut Term,
    new: &str,
) -> Result<Vec<u8>, AllocError> {
    match read(alloc, new.as_bytes()) {
        Ok(new) => replaced(alloc, path, tree, new),
        Err(_) => Ok(Vec::new(alloc)),
    }
}

fn replaced(alloc: Global, path: &Path, tree: &mut Term, new: Term) -> Result<Vec<u8>, AllocError> {
    match replace(tree, path, new) {
        Ok(old) => texts_of(alloc, tree, &old, path),
        Err((_, new)) => texts_of(alloc, tree, &new, path),
    }
}

/// The texts of a tree and a part, and of what the tree has at the path.
fn texts_of(alloc: Global, tree: &Term, part: &Term, path: &Path) -> Result<Vec<u8>, AllocError> {
    let mut bytes = write(alloc, tree)?.into_vec();
    bytes.extend_from_slice(b" ")?;
    bytes.extend_from_slice(write(alloc, part)?.as_slice())?;
    if let Some(found) = term_at(tree, path) {
        bytes.extend_from_slice(b" ")?;
        bytes.extend_from_slice(write(alloc, found)?.as_slice())?;
    }
    Ok(bytes)
}

const REPLACED: &str = r#"
/0/1 Set([1,2{a}],3) f => Set([1,f()],3) 2{a()} f()
/ f(1) 2 => 2 f(1) 2
/1 (1,"a"){b} [] => (1,[]){b()} "a" []
/1 f(1) 2 => f(1) 2
/0/0 f(1) 2 => f(1) 2
"#;

#[test]
fn a_part_is_replaced_and_handed_out(rt: HostRuntime) -> Result<(), Fail> {
    assert_eq!(rt;
        wrong_rows(rt.alloc(), &OfReplacing, REPLACED)?.as_str(),
        ""
    );
    Ok(())
}

/// Rows of trees, of which the number of positions, the size and the depth are told.
#[derive(Clone, Copy)]
struct OfMeasures;

impl Topic for OfMeasures {
    fn told(&self, alloc: Global, text: &[u8]) -> Result<String, Fail> {
        match read(alloc, text) {
            Ok(tree) => Ok(measures(alloc, &tree)?),
            Err(_) => Err("no tree".into()),
        }
    }
}

fn measures(alloc: Global, tree: &Term) -> Result<String, AllocError>
    requires { term_size tree.now < 2 ^ 32 }
{
    format!(in alloc; "{} {} {}", positions(tree), size(tree), depth(tree))
}

/// Annotations are no positions, and count in size and depth.
const MEASURES: &str = r#"
1 => 1 1 1
f => 1 1 1
f(1,[2]{a(3)}) => 4 6 4
(){x,y{z}} => 1 4 3
"#;

#[test]
fn a_tree_has_positions_size_and_depth(rt: HostRuntime) -> Result<(), Fail> {
    assert_eq!(rt; wrong_rows(rt.alloc(), &OfMeasures, MEASURES)?.as_str(), "");
    Ok(())
}
