//! Faults of syntax, and how operators group.
use crate::program::OfSpecification;
use crate::rows::wrong_rows;
use std::test::Fail;

/// Sections in another order, cut off or gone on with.
const SECTIONS: &str = r#"
`0 x` => syntax fault at 0
control => syntax fault at 0
module => syntax fault at 6
module control => syntax fault at 7
module m => syntax fault at 8
module m m => syntax fault at 9
module m rules control => syntax fault at 9
module m sorts sorts control => syntax fault at 15
module m sorts signature start S control => syntax fault at 15
module m lattices sorts control => syntax fault at 18
module m functions lattices control => syntax fault at 19
module m signature control => syntax fault at 19
module m control node A( => syntax fault at 24
module m control node A() x => syntax fault at 27
module m control A() = entry , exit => syntax fault at 29
module m control control => syntax fault at 17
module m control sorts => syntax fault at 17
module m control properties properties => syntax fault at 28
module m control rules properties p: MaySet(name) => syntax fault at 23
module m control messages rules => syntax fault at 26
module m control rules a(prev -> _) minus => syntax fault at 36
module m control rules a(prev -> _] = 1 => syntax fault at 34
module m control rules a(prev -> _) = 1 1 => syntax fault at 40
module m control rules a(prev -> _) = 1 == 1 == 1 => syntax fault at 45
module m control messages warning x, on x => syntax fault at 37
module m control messages warning x on x if => syntax fault at 43
module m control messages warning x on x if 1 if 1 => syntax fault at 46
module m control messages if => syntax fault at 26
"#;

/// In signatures, sorts, lattices, functions and types.
const DECLARATIONS: &str = r#"
module m signature P => syntax fault at 19
module m signature start P A -> S => syntax fault at 29
module m signature start P A : str, int -> S => syntax fault at 34
module m signature start P A : str -> str => syntax fault at 38
module m signature start P A : () => syntax fault at 32
module m signature start P A : list int => syntax fault at 36
module m signature start P A : (str,) => syntax fault at 36
module m sorts Colour =  => syntax fault at 24
module m sorts Colour = red | => syntax fault at 29
module m lattices S { elements bottom a join a } => syntax fault at 31
module m lattices S { elements a bottom a b join a } => syntax fault at 42
module m functions f() : T { x } => syntax fault at 21
module m functions f(S, T, U) : T { x } => syntax fault at 25
module m functions f(S) : T { } => syntax fault at 30
module m control properties live MaySet(name) => syntax fault at 33
module m control properties p: MaySet( => syntax fault at 38
module m control properties p: MaySet name => syntax fault at 38
module m control properties p: Map(MaySet(int), name) => syntax fault at 35
module m control properties p: Flat((int)) => syntax fault at 40
module m control properties p: name => syntax fault at 31
module m control properties p: MaySet((name, int, pos)) => syntax fault at 48
"#;

/// In heads, control rules, triggers and expressions.
const RULES: &str = r#"
module m control node A(x @ y => syntax fault at 29
module m control node A(name exit => syntax fault at 29
module m control node A(- - 1 => syntax fault at 26
module m control node A(A(a,) => syntax fault at 28
module m control node A((a] => syntax fault at 26
module m control node A(x y => syntax fault at 26
module m control node Ref => syntax fault at 25
module m control A() = entry => syntax fault at 28
module m control root node A() => syntax fault at 22
module m control rules a(_ -> _ => syntax fault at 30
module m control rules a(prev => syntax fault at 29
module m control rules a(prev -> _) = 1 + => syntax fault at 41
module m control rules a(prev -> _) = a + not b => syntax fault at 42
module m control rules a(prev -> _) = f(a, b, c) => syntax fault at 44
module m control rules a(prev -> _) = (a, b, c) => syntax fault at 43
module m control rules a(prev -> _) = m[a := b => syntax fault at 46
module m control rules a(prev -> _) = {a, b for x in s} => syntax fault at 44
module m control rules a(prev -> _) = [a |-> b, => syntax fault at 47
module m control rules a(prev -> _) = if a then b => syntax fault at 49
module m control rules a(prev -> _) = a == b == c => syntax fault at 45
module m control rules a(prev -> _) = {f(x) for x in s if x < 3} next => syntax fault at 65
"#;

#[test]
fn the_first_token_that_cannot_go_on_is_told(rt: HostRuntime) -> Result<(), Fail> {
    for table in [SECTIONS, DECLARATIONS, RULES] {
        assert_eq!(rt;
            wrong_rows(rt.alloc(), &OfSpecification, table)?.as_str(),
            ""
        );
    }
    Ok(())
}
