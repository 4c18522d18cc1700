//! Trees that fit a signature or don't, whole and with a new part.
ghost use Rattle.std.specs.Prelude.{◌<◌, ◌^◌};
ghost use Rattle.flow_term.specs.Trees.{term_size};
ghost use Rattle.flow_syntax.specs.Accepted.{HasIdentifiers, IsWellFormed};

use crate::program::OfTree;
use crate::rows::{Topic, wrong_rows};
use crate::specifications::INTEGERS;
use aterm_text::read;
use flow_parse::parse;
use flow_sorts::{TreeRefusal, check_sorts, check_subtree, check_tree};
use flow_syntax::{Spec, TypedSpec, lex};
use flow_term::{List, Path, Term, read_path, write_path};
use std::alloc::{AllocError, Global};
use std::test::Fail;

/// Each kind of sort, and two constructors of one name.
const PROGRAMS: &str = r#"module programs
signature start P
  Prog: list(int) -> P
  Let: (str, int) * E -> P
  Free: any -> P
  Body: list(P) -> P
  Skip: -> P
  Add: E * E -> E
  Add: E -> E
  Num: int -> E
  Name: str -> E
control
"#;

const WHOLE: &str = r#"
Prog([1,"a"]) => ill-sorted at /0/1
Prog([1,1]) => 0 nodes 0;edges 0;
Prog([]) => 0 nodes 0;edges 0;
Skip => 0 nodes 0;edges 0;
Skip{Unknown} => 0 nodes 0;edges 0;
1 => ill-sorted at /
"a" => ill-sorted at /
[] => ill-sorted at /
Unknown => ill-sorted at /
Num(1) => ill-sorted at /
Prog(1,1) => ill-sorted at /
Prog(1) => ill-sorted at /0
Prog([Num("a")]) => ill-sorted at /0/0
Let(("a",1),Num(1)) => 0 nodes 0;edges 0;
Let(("a",1,1),Num(1)) => ill-sorted at /0
Let((1,"a"),Num(1)) => ill-sorted at /0/0
Let(("a",1),1) => ill-sorted at /1
Free([Unknown,Num("a")]) => 0 nodes 0;edges 0;
Let(("a",1),Add(Num(1),Name("a"))) => 0 nodes 0;edges 0;
Let(("a",1),Add(Num(1))) => 0 nodes 0;edges 0;
Let(("a",1),Add(Num(1),Num(1),Num(1))) => ill-sorted at /1
Let(("a",1),Add(Num("a"),1)) => ill-sorted at /1/0/0
Body([Skip,Body([Skip]),1]) => ill-sorted at /0/2
"#;

#[test]
fn the_least_position_that_does_not_fit_is_told(rt: HostRuntime) -> Result<(), Fail> {
    for (spec, rows) in [
        (PROGRAMS, WHOLE),
        (INTEGERS, "Prog([1,\"a\"]) => ill-sorted at /0/1"),
    ] {
        assert_eq!(rt; wrong_rows(rt.alloc(), &OfTree(spec), rows)?.as_str(), "");
    }
    Ok(())
}

/// Rows of a path, a tree that fits and a new part for it.
#[derive(Clone, Copy)]
struct OfPart;

impl Topic for OfPart {
    fn told(&self, alloc: Global, text: &[u8]) -> Result<String, Fail> {
        let text = str::from_utf8(text)?;
        let (at, rest) = text.split_once(' ').ok_or("no tree")?;
        let (tree, new) = rest.split_once(' ').ok_or("no part")?;
        let tokens = lex(alloc, PROGRAMS.as_bytes())?;
        let told = match parse(alloc, &tokens) {
            Ok(spec) => told_by_spec(alloc, spec, at, tree, new)?,
            Err(_) => none(alloc)?,
        };
        Ok(String::from_utf8(told.into_vec())?)
    }
}

fn none(alloc: Global) -> Result<List<u8>, AllocError> {
    Ok(List::from_vec(Vec::from_slice(alloc, b"none")?))
}

fn told_by_spec(
    alloc: Global,
    spec: Spec,
    at: &str,
    tree: &str,
    new: &str,
) -> Result<List<u8>, AllocError>
    requires well_formed { IsWellFormed spec }
    requires identifiers { HasIdentifiers spec }
{
    match check_sorts(alloc, spec) {
        Ok(spec) => told_by_typed(alloc, &spec, at, tree, new),
        Err(_) => none(alloc),
    }
}

fn told_by_typed(
    alloc: Global,
    spec: &TypedSpec,
    at: &str,
    tree: &str,
    new: &str,
) -> Result<List<u8>, AllocError> {
    match (
        read_path(alloc, at.as_bytes()),
        read(alloc, tree.as_bytes()),
    ) {
        (Ok(path), Ok(tree)) => told_by_tree(alloc, spec, &path, &tree, new),
        _ => none(alloc),
    }
}

fn told_by_tree(
    alloc: Global,
    spec: &TypedSpec,
    path: &Path,
    tree: &Term,
    new: &str,
) -> Result<List<u8>, AllocError>
    requires { term_size tree.now < 2 ^ 32 }
{
    match read(alloc, new.as_bytes()) {
        Ok(new) => told_of_part(alloc, spec, path, tree, &new),
        Err(_) => none(alloc),
    }
}

fn told_of_part(
    alloc: Global,
    spec: &TypedSpec,
    path: &Path,
    tree: &Term,
    new: &Term,
) -> Result<List<u8>, AllocError>
    requires tree { term_size tree.now < 2 ^ 32 }
    requires new { term_size new.now < 2 ^ 32 }
{
    match check_tree(alloc, spec, tree) {
        Ok(()) => told(alloc, check_subtree(alloc, spec, tree, path, new)),
        Err(_) => none(alloc),
    }
}

/// The refused path as a text, or that the tree fits.
fn told(alloc: Global, answer: Result<(), TreeRefusal>) -> Result<List<u8>, AllocError> {
    match answer {
        Ok(()) => Ok(List::from_vec(Vec::from_slice(alloc, b"fits")?)),
        Err(TreeRefusal::IllSorted(path)) => write_path(alloc, &path),
        Err(TreeRefusal::NoMemory) => Err(AllocError),
    }
}

const PARTS: &str = r#"
/0/0 Prog([1]) 2 => fits
/0/0 Prog([1]) "a" => /0/0
/0 Prog([1]) [1,"a"] => /0/1
/0 Prog([1]) 1 => /0
/ Prog([1]) Prog([]) => fits
/ Prog([1]) Num(1) => /
/ Let(("a",1),Add(Num(1),Name("a"))) Prog(["a"]) => /0/0
/1/0 Let(("a",1),Add(Num(1),Name("a"))) Add(Num(1)) => fits
/1/0 Let(("a",1),Add(Num(1),Name("a"))) 1 => /1/0
/1/0 Let(("a",1),Add(Num(1),Name("a"))) Num("a") => /1/0/0
/0/1 Let(("a",1),Add(Num(1),Name("a"))) "a" => /0/1
/0 Free([Num("a")]) Unknown => fits
/0/0 Free([Num("a")]) Unknown(1) => fits
/0/0/0 Free([Num("a")]) () => fits
"#;

#[test]
fn a_new_part_fits_or_is_told_by_its_place_in_the_whole(rt: HostRuntime) -> Result<(), Fail> {
    assert_eq!(rt; wrong_rows(rt.alloc(), &OfPart, PARTS)?.as_str(), "");
    Ok(())
}
