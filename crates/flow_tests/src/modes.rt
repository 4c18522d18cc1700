//! Modes of bodies.
ghost use Rattle.flow_syntax.specs.Accepted.{HasIdentifiers, IsWellFormed};

use crate::rows::{Topic, wrong_rows};
use flow_modes::{Mode, check_modes};
use flow_parse::parse;
use flow_sorts::check_sorts;
use flow_syntax::{Spec, TypedSpec, lex};
use std::alloc::{AllocError, Global};
use std::test::Fail;

/// A body of each row of the table of modes, and what decides between two.
const MODES: &str = r#"
module m control node A() properties a: MaySet(str) b: MaySet(str) rules a(prev -> A()) = {} => accepted
module m control node A() properties a: MaySet(str) b: MaySet(str) rules a(prev -> A()) = {"x"} => accepted
module m control node A() properties a: MaySet(str) b: MaySet(str) rules a(prev -> A()) = bottom => accepted
module m control node A() properties a: MaySet(str) b: MaySet(str) rules a(prev -> A()) = a(prev) => accepted
module m control node A() properties a: MaySet(str) b: MaySet(str) rules a(prev -> A()) = a(prev) join b(prev) => accepted
module m control node A() properties a: MaySet(str) b: MaySet(str) rules a(prev -> A()) = a(prev) union b(prev) => accepted
module m control node A() properties a: MaySet(str) b: MaySet(str) rules a(prev -> A()) = a(prev) inter b(prev) => accepted
module m control node A() properties a: MaySet(str) b: MaySet(str) rules a(prev -> A()) = a(prev) minus {"x"} => accepted
module m control node A() properties a: MaySet(str) b: MaySet(str) rules a(prev -> A()) = a(prev) minus b(prev) => Mixed at 90
module m control node A() properties a: MaySet(str) b: MaySet(str) rules a(prev -> A()) = {"x"} minus b(prev) => Down at 90
module m control node A() properties a: MaySet(str) b: MaySet(str) rules a(prev -> A()) = {"x"} minus ({"y"} minus b(prev)) => accepted
module m control node A() properties a: MaySet(str) b: MaySet(str) rules a(prev -> A()) = {if "x" in b(prev) then "x" else "y"} => Mixed at 90
module m control node A() properties a: MaySet(str) b: MaySet(str) rules a(prev -> A()) = {x for x in a(prev) if x in b(prev)} => accepted
module m control node A() properties a: MaySet(str) b: MaySet(str) rules a(prev -> A()) = {x for x in a(prev) if not x in b(prev)} => Mixed at 90
module m control node A() properties a: MaySet(str) b: MaySet(str) rules a(prev -> A()) = {x for x in a(prev) if x != "x"} => accepted
module m control node A() properties a: MaySet(str) b: MaySet(str) rules a(prev -> A()) = {if "x" in b(prev) then x else "y" for x in a(prev)} => Mixed at 90
module m control node A() properties a: MaySet(str) b: MaySet(str) rules a(prev -> A()) = if "x" == "y" then a(prev) else b(prev) => accepted
module m control node A() properties a: MaySet(str) b: MaySet(str) rules a(prev -> A()) = if "x" in a(prev) then b(prev) else bottom => accepted
module m control node A() properties a: MaySet(str) b: MaySet(str) rules a(prev -> A()) = if "x" in a(prev) then b(prev) else {} => Mixed at 90
module m control node A() properties a: MaySet(str) b: MaySet(str) rules a(prev -> A()) = if not "x" in a(prev) then b(prev) else bottom => Mixed at 90
module m control node A() properties a: MaySet(str) b: MaySet(str) rules a(prev -> A()) = if not "x" in a(prev) then {"y"} else bottom => Down at 90
module m control node A() properties a: MaySet(str) b: MaySet(str) rules a(prev -> A()) = if "x" in a(prev) and "y" in b(prev) then a(prev) else bottom => accepted
module m control node A() properties a: MaySet(str) b: MaySet(str) rules a(prev -> A()) = if "x" in a(prev) or not "y" in b(prev) then a(prev) else bottom => Mixed at 90
module m control node A() properties a: MaySet(str) b: MaySet(str) rules a(prev -> A()) = if not not "x" in a(prev) then a(prev) else bottom => accepted
module m control node A() properties c: MustSet(str) d: MustSet(str) a: MaySet(str) rules c(prev -> A()) = unreached => accepted
module m control node A() properties c: MustSet(str) d: MustSet(str) a: MaySet(str) rules c(prev -> A()) = c(prev) inter d(prev) => accepted
module m control node A() properties c: MustSet(str) d: MustSet(str) a: MaySet(str) rules c(prev -> A()) = c(prev) minus {"x"} => accepted
module m control node A() properties c: MustSet(str) d: MustSet(str) a: MaySet(str) rules c(prev -> A()) = c(prev) minus d(prev) => Mixed at 107
module m control node A() properties c: MustSet(str) d: MustSet(str) a: MaySet(str) rules c(prev -> A()) = {"x"} minus d(prev) => Mixed at 107
module m control node A() properties c: MustSet(str) d: MustSet(str) a: MaySet(str) rules c(prev -> A()) = {x for x in c(prev) if x in d(prev)} => accepted
module m control node A() properties c: MustSet(str) d: MustSet(str) a: MaySet(str) rules c(prev -> A()) = {x for x in c(prev) if not x in d(prev)} => Mixed at 107
module m control node A() properties c: MustSet(str) d: MustSet(str) a: MaySet(str) rules c(prev -> A()) = {x for x in c(prev) if x in a(prev)} => Mixed at 107
module m control node A() properties c: MustSet(str) d: MustSet(str) a: MaySet(str) rules c(prev -> A()) = {x for x in c(prev) if not x in a(prev)} => accepted
module m control node A() properties c: MustSet(str) d: MustSet(str) a: MaySet(str) rules c(prev -> A()) = if "x" in d(prev) then c(prev) else bottom => Mixed at 107
module m control node A() properties c: MustSet(str) d: MustSet(str) a: MaySet(str) rules c(prev -> A()) = if not "x" in d(prev) then c(prev) else bottom => accepted
module m control node A() properties c: MustSet(str) d: MustSet(str) a: MaySet(str) rules c(prev -> A()) = if "x" in d(prev) then {"x"} else bottom => Down at 107
module m control node A() properties f: Flat(int) m: Map(str, Flat(int)) a: MaySet(str) rules f(prev -> A()) = flat(1) => accepted
module m control node A() properties f: Flat(int) m: Map(str, Flat(int)) a: MaySet(str) rules f(prev -> A()) = top => accepted
module m control node A() properties f: Flat(int) m: Map(str, Flat(int)) a: MaySet(str) rules f(prev -> A()) = flat(if "x" in a(prev) then 1 else 2) => Mixed at 111
module m control node A() properties f: Flat(int) m: Map(str, Flat(int)) a: MaySet(str) rules f(prev -> A()) = m(prev)["x"] => accepted
module m control node A() properties f: Flat(int) m: Map(str, Flat(int)) a: MaySet(str) rules f(prev -> A()) = m(prev)[if "x" in a(prev) then "x" else "y"] => Mixed at 111
module m control node A() properties f: Flat(int) m: Map(str, Flat(int)) a: MaySet(str) rules f(prev -> A()) = bind x = f(prev) yield flat(x + 1) => accepted
module m control node A() properties f: Flat(int) m: Map(str, Flat(int)) a: MaySet(str) rules f(prev -> A()) = bind x = f(prev) yield m(prev)["x"] => accepted
module m control node A() properties f: Flat(int) m: Map(str, Flat(int)) a: MaySet(str) rules f(prev -> A()) = bind x = f(prev) yield if x < 1 then flat(-x) else flat(x * 2) => accepted
module m control node A() properties f: Flat(int) m: Map(str, Flat(int)) a: MaySet(str) rules f(prev -> A()) = if 1 <= (if "x" in a(prev) then 1 else 2) then f(prev) else bottom => Mixed at 111
module m control node A() properties m: Map(str, Flat(int)) f: Flat(int) a: MaySet(str) rules m(prev -> A()) = [] => accepted
module m control node A() properties m: Map(str, Flat(int)) f: Flat(int) a: MaySet(str) rules m(prev -> A()) = ["x" |-> f(prev), "y" |-> flat(1)] => accepted
module m control node A() properties m: Map(str, Flat(int)) f: Flat(int) a: MaySet(str) rules m(prev -> A()) = [if "x" in a(prev) then "x" else "y" |-> f(prev)] => Mixed at 111
module m control node A() properties m: Map(str, Flat(int)) f: Flat(int) a: MaySet(str) rules m(prev -> A()) = m(prev)["x" := f(prev)] => accepted
module m control node A() properties m: Map(str, Flat(int)) f: Flat(int) a: MaySet(str) rules m(prev -> A()) = m(prev)[if "x" in a(prev) then "x" else "y" := f(prev)] => Mixed at 111
module m control node A() properties p: Pair(MaySet(str), MaySet(str)) rules p(prev -> A()) = (snd(p(prev)), fst(p(prev))) => accepted
module m control node A() properties p: Pair(MaySet(str), MaySet(str)) rules p(prev -> A()) = ({}, {"x"} minus fst(p(prev))) => Down at 94
module m control node A() properties p: Pair(MaySet(str), MaySet(str)) rules p(prev -> A()) = (fst(p(prev)), {"x"} minus fst(p(prev))) => Mixed at 94
module m lattices T { elements L H bottom L join L H H H } functions id(T): T { L H } both(T, T): T { L L L H } control node A() properties p: T a: MaySet(str) rules p(prev -> A()) = H => accepted
module m lattices T { elements L H bottom L join L H H H } functions id(T): T { L H } both(T, T): T { L L L H } control node A() properties p: T a: MaySet(str) rules p(prev -> A()) = id(p(prev)) => accepted
module m lattices T { elements L H bottom L join L H H H } functions id(T): T { L H } both(T, T): T { L L L H } control node A() properties p: T a: MaySet(str) rules p(prev -> A()) = both(p(prev), H join p(prev)) => accepted
module m lattices T { elements L H bottom L join L H H H } functions id(T): T { L H } both(T, T): T { L L L H } control node A() properties p: T a: MaySet(str) rules p(prev -> A()) = both(p(prev), if not "x" in a(prev) then H else bottom) => Mixed at 183
module m control node A() node B() properties a: MaySet(str) b: MaySet(str) rules a(prev -> A()) = a(prev) b(prev -> A()) = {} minus a(prev) a(prev -> B()) = a(prev) minus b(prev) => Down at 124
module m control node A() properties a: MaySet(name) b: MaySet(name) rules a(prev -> A()) = a(prev) minus b(prev) => Mixed at 92
module m control node A() properties a: MustSet(str) b: MaySet(str) rules b(prev -> A()) = if "x" in a(prev) then b(prev) else bottom => Mixed at 91
"#;

/// Rows of specifications, whose modes are checked.
#[derive(Clone, Copy)]
struct OfModes;

impl Topic for OfModes {
    fn told(&self, alloc: Global, text: &[u8]) -> Result<String, Fail> {
        let tokens = lex(alloc, text)?;
        Ok(match parse(alloc, &tokens) {
            Ok(spec) => told_by_spec(alloc, spec)?,
            Err(_) => String::from_str(alloc, "no specification")?,
        })
    }
}

fn told_by_spec(alloc: Global, spec: Spec) -> Result<String, AllocError>
    requires well_formed { IsWellFormed spec }
    requires identifiers { HasIdentifiers spec }
{
    match check_sorts(alloc, spec) {
        Ok(spec) => told_of_modes(alloc, &spec),
        Err(_) => String::from_str(alloc, "a fault"),
    }
}

/// The mode and the place of the first body that doesn't rise.
fn told_of_modes(alloc: Global, spec: &TypedSpec) -> Result<String, AllocError> {
    match check_modes(spec) {
        Ok(()) => String::from_str(alloc, "accepted"),
        Err(fault) => format!(in alloc; "{} at {}", name_of(fault.mode), fault.place),
    }
}

fn name_of(mode: Mode) -> &'static str {
    match mode {
        Mode::Fixed => "Fixed",
        Mode::Up => "Up",
        Mode::Down => "Down",
        Mode::Mixed => "Mixed",
    }
}

#[test]
fn each_mode_is_told(rt: HostRuntime) -> Result<(), Fail> {
    assert_eq!(rt; wrong_rows(rt.alloc(), &OfModes, MODES)?.as_str(), "");
    Ok(())
}
