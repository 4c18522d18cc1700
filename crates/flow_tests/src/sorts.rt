//! Faults of sorts, and expressions that have none.
use crate::program::{OfSpecification, told_of_graph};
use crate::rows::{Topic, wrong_rows};
use std::alloc::Global;
use std::test::Fail;

/// Names that are unknown, declared or bound twice, of another number of parts, or not bound.
const NAMES: &str = r#"
module m signature start P F: Q -> P control => Unknown at 30
module m control properties p: MaySet(E) => Unknown at 38
module m control properties p: T => Unknown at 31
module m functions f(T): T { A } control => Unknown at 21
module m lattices T { elements A bottom B join A } control => Unknown at 40
module m lattices T { elements A bottom A join B } control => Unknown at 47
module m lattices T { elements A bottom A join A } functions f(T): T { B } control => Unknown at 71
module m control rules p(_.start) = {} => Unknown at 23
module m control properties p: MaySet(name) rules p(prev -> _) = q(prev) => Unknown at 65
module m control properties p: MaySet(name) rules p(prev -> _) = f(p(prev)) => Unknown at 65
module m signature start P F: -> P control root G() = start -> end => Unknown at 48
module m lattices T { elements A bottom A join A } functions f(T): U { A } control => Unknown at 67
module m sorts E = A E = B control => Duplicate at 21
module m lattices T { elements A bottom A join A } functions f(T): T { A } control properties f: T => Duplicate at 94
module m sorts E = A | A control => Duplicate at 23
module m signature start P F: -> P F: -> P control => Duplicate at 35
module m control F(x, x) = entry -> exit => Duplicate at 22
module m control properties p: MaySet(name) rules p(prev -> F(name n)) = {n for n in p(prev)} => Duplicate at 73
module m sorts E = A control F(A) = entry -> exit => Duplicate at 31
module m control properties p: Map(name, Flat(int)) rules p(prev -> F(name n)) = p(prev)[n := bind n = p(prev)[n] yield flat(1)] => Duplicate at 94
module m lattices T { elements A B bottom A join A } control => Arity at 18
module m lattices T { elements A bottom A join A } functions f(T): T { A A } control => Arity at 61
module m lattices T { elements A bottom A join A } functions f(T): T { A } control properties p: T rules p(prev -> _) = f(p(prev), p(prev)) => Arity at 120
module m signature start P F: -> P control root F(_) = start -> end => Arity at 48
module m lattices T { elements A B C D E F G H I J K L M N O P Q R S T U V W X Y bottom A join A } control => Arity at 18
module m control properties p: MaySet(name) rules p(prev -> _) = {x} => Unbound at 66
module m control properties p: MaySet(name) rules p(prev -> _) = {x for x in p(prev)} join {x} => Unbound at 92
module m control F(_) = entry -> x -> exit => Unbound at 33
module m control messages note x on _ => Unbound at 31
module m control properties p: MaySet(name) rules p(prev -> _) = p(next) => Unbound at 65
module m control properties p: MaySet(name) rules p(_ -> next) = p(prev) => Unbound at 65
module m control properties p: MaySet(name) rules p(_.start) = p(prev) => Unbound at 63
"#;

/// Types that are other than expected, can't be told or are nested too deep.
const TYPES: &str = r#"
module m control properties p: MaySet(name) rules p(prev -> _) = 1 => Sort at 65
module m control properties p: MaySet(name) rules p(prev -> _) = if {} == 1 then {} else {} => Sort at 68
module m control properties p: MaySet(name) rules p(prev -> _) = if fst(([][1 := top], 1)) == 1 then {} else {} => Sort at 73
module m control properties p: MaySet(int) => Sort at 28
module m control F(name x) = entry -> x -> exit => Sort at 38
module m control properties p: MaySet(name) q: MaySet(pos) rules p(prev -> _) = q(next) => Sort at 80
module m control properties p: MaySet((name, pos)) rules p(prev -> x @ F(str s)) = {(s, x)} => Sort at 85
module m control properties p: MaySet(((pos, name), pos)) rules p(prev -> x @ F(str s)) = {((x, s), x)} => Sort at 96
module m control properties p: Pair(MaySet(name), MaySet(pos)) rules p(prev -> x @ F(name n)) = (n, {x}) => Sort at 97
module m control node A() properties a: MaySet(str) m: MustSet(name) rules a(prev -> A()) = {x for x in m(prev)} => Sort at 104
module m control node A() properties a: MustSet(str) m: MaySet(name) rules a(prev -> A()) = {x for x in m(prev)} => Sort at 104
module m control node A() properties a: MaySet(str) m: MustSet(name) rules a(prev -> A()) = {fst(x) for x in m(prev)} => Sort at 109
module m control node A() properties a: MaySet(str) b: MaySet(name) rules a(prev -> A()) = {x for x in b(prev)} => Sort at 92
module m control properties z: Flat(int) A: Map(pos, Flat(int)) rules z(prev -> _) = (A(this) join z(this)) => Sort at 86
module m control properties z: Map(name, Flat(int)) A: Map(pos, Flat(int)) rules z(prev -> _) = (A(prev)[1 := top]) => Sort at 97
module m control properties s: MaySet(name) z: MaySet(pos) rules s(prev -> _) = (s(prev) join (z(prev) join z(prev))) => Sort at 95
module m control properties s: MaySet(name) z: Flat(int) rules s(prev -> _) = ((z(prev) join s(prev)) join s(prev)) => Sort at 80
module m control properties s: MaySet(name) z: Flat(int) rules z(prev -> _) = (s(prev) union s(prev)) => Sort at 78
module m control A(B(C(D(E(F(G(H(I(J()))))))))) = entry -> exit => Depth at 17
module m control properties p: Map(name, Map(name, Map(name, Map(name, Map(name, Map(name, Map(name, Map(name, Flat(int))))))))) => Depth at 28
"#;

/// Directions of properties and items of chains.
const FLOW: &str = r#"
module m control properties p: MaySet(name) rules p(prev -> _) = {} p(_ -> next) = {} => MixedDirection at 68
module m control F(x) = entry -> x -> entry -> exit => WrongEnd at 38
module m control F(x) = start -> x -> exit => WrongEnd at 24
module m control F(x) = entry -> exit -> x => WrongEnd at 33
module m control node A() root B() = entry -> exit => WrongEnd at 37
module m control F(x) = entry -> x -> node x -> exit => MixedItem at 38
module m control F(G(x)) = entry -> x -> exit => Nested at 36
"#;

/// Of two faults at one place the one whose kind comes first.
const ORDER: &str = r#"
module m control properties p: MaySet(name) p: MaySet(int) => Duplicate at 44
module m control properties p: Map(int, Map(name, Map(name, Map(name, Map(name, Map(name, Map(name, Map(name, Flat(int))))))))) => Sort at 28
"#;

#[test]
fn each_fault_is_told_at_its_place(rt: HostRuntime) -> Result<(), Fail> {
    for table in [NAMES, TYPES, FLOW, ORDER] {
        assert_eq!(rt;
            wrong_rows(rt.alloc(), &OfSpecification, table)?.as_str(),
            ""
        );
    }
    Ok(())
}

/// Operators on sets group to the left: `p(prev) minus {} join p(prev)` is taken.
const LATER: &str = r#"
module m control properties p: MaySet(name) rules p(prev -> _) = p(prev) minus {} join p(prev) => 0 nodes 0;edges 0;
module m control properties p: MaySet(name) rules p(prev -> _) = p(prev) minus ({} join p(prev)) => not yet at 65
module m control properties p: MaySet(name) rules p(prev -> _) = {} => 0 nodes 0;edges 0;
module m control properties p: MaySet(name) rules p(prev -> _) = p(prev) inter {} => not yet at 65
module m control A(1) = entry -> exit => 0 nodes 0;edges 0;
module m lattices T { elements A bottom A join A } control => not yet at 18
module m control A(_, x) = entry -> x -> exit => 0 nodes 0;edges 0;
"#;

#[test]
fn what_is_not_taken_yet_is_told_at_its_place(rt: HostRuntime) -> Result<(), Fail> {
    assert_eq!(rt;
        wrong_rows(rt.alloc(), &OfSpecification, LATER)?.as_str(),
        ""
    );
    Ok(())
}

/// Rows of conditions of a message.
#[derive(Clone, Copy)]
struct OfCondition;

impl Topic for OfCondition {
    fn told(&self, alloc: Global, text: &[u8]) -> Result<String, Fail> {
        let mut spec = Vec::from_slice(alloc, FRONT.as_bytes())?;
        spec.extend_from_slice(text)?;
        Ok(told_of_graph(alloc, "specification", spec.as_slice(), b"f")?)
    }
}

const FRONT: &str = r#"module m sorts E = A | B control
properties
  p: MaySet(name)
  e: Pair(MaySet(E), MustSet(pos))
  m: Map(name, Pair(MustSet(name), Map(name, Flat(int))))
messages note n on F(name n, int i, str s, x) if "#;

/// Each form of an expression.
const CONDITIONS: &str = r#"
true => 0 nodes 0;edges 0;
not true and false or not (i < 2) => 0 nodes 0;edges 0;
-i * 2 + 3 - 1 == i and i <= 2 and i != 3 => 0 nodes 0;edges 0;
s == "t" and A != B and n == n and x == x => 0 nodes 0;edges 0;
n in p(prev) join p(next) union {n} inter {} minus p(this) => 0 nodes 0;edges 0;
n in p(this) join {m for m in p(this) if m != n} union {k for k in p(this)} => 0 nodes 0;edges 0;
(n, x) == (n, x) and fst((n, x)) == n and snd(((n, s), x)) == x => 0 nodes 0;edges 0;
A in fst(e(this)) and x in snd(e(this)) join unreached => 0 nodes 0;edges 0;
n in fst(m(this)[n]) and n in fst(m(prev)[n := (bottom, [n |-> top, n |-> flat(1)])][n]) => 0 nodes 0;edges 0;
n in fst(m(this)[n := (unreached, [])][n := (if i < 2 then {n, n} else {}, snd(m(this)[n]))][n]) => 0 nodes 0;edges 0;
n in fst(m(this)[n := ({}, [n |-> bind y = snd(m(this)[n])[n] yield flat(y + i)])][n]) => 0 nodes 0;edges 0;
"#;

#[test]
fn each_form_of_an_expression_is_accepted(rt: HostRuntime) -> Result<(), Fail> {
    assert_eq!(rt;
        wrong_rows(rt.alloc(), &OfCondition, CONDITIONS)?.as_str(),
        ""
    );
    Ok(())
}
