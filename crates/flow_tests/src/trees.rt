//! Texts of trees.
use crate::program::OfTree;
use crate::rows::{Topic, wrong_rows};
use aterm_text::{read, write};
use flow_term::{List, Term};
use std::alloc::{AllocError, Global};
use std::test::Fail;

/// A specification with which each tree has the empty graph.
const ANY: &str = "module m control";

/// Each kind of fault, and what comes first.
const FAULTS: &str = r#"
`0 x` => Unexpected at 0
`20``20` => Unexpected at 2
f( => Unexpected at 2
f(,) => Unexpected at 2
f(1,) => Unexpected at 4
f(1, => Unexpected at 4
f(1 => Unexpected at 3
f(1] => Unexpected at 3
(1] => Unexpected at 2
[1) => Unexpected at 2
[1} => Unexpected at 2
f{1) => Unexpected at 3
f(1)) => Unexpected at 4
f(1) g => Unexpected at 5
f g => Unexpected at 2
f(1 2) => Unexpected at 4
f()() => Unexpected at 3
f{1}(2) => Unexpected at 4
f{}{} => Unexpected at 3
{} => Unexpected at 0
] => Unexpected at 0
, => Unexpected at 0
1 (2) => Unexpected at 2
1a => Unexpected at 1
1- => Unexpected at 1
- => Unexpected at 1
-a => Unexpected at 1
- 1 => Unexpected at 1
--1 => Unexpected at 1
+1 => Unexpected at 0
1 .5 => Unexpected at 2
1 e => Unexpected at 2
f. => Unexpected at 1
f: => Unexpected at 1
f! => Unexpected at 1
f(1!) => Unexpected at 3
f< => Unexpected at 1
\ => Unexpected at 0
f\ => Unexpected at 1
"a => Unexpected at 2
" => Unexpected at 1
"a""b" => Unexpected at 3
é => Unexpected at 0
f(é) => Unexpected at 2
fé => Unexpected at 1
f(1.5) => Real at 2
1. => Real at 0
1e => Real at 0
[-1E5] => Real at 1
[99999999999999999999.5] => Real at 1
<int> => Placeholder at 0
f(< => Placeholder at 2
!f => Shared at 0
[ !1] => Shared at 2
3:abc => Blob at 0
f(-3: => Blob at 2
"a\q" => BadEscape at 2
"a\ => BadEscape at 2
"\0 => BadEscape at 1
"\01 => BadEscape at 1
"\01" => BadEscape at 1
"\018" => BadEscape at 1
"\200" => BadEscape at 1
"\777" => BadEscape at 1
"\8" => BadEscape at 1
"\N" => BadEscape at 1
f("\n\\\ => BadEscape at 7
9223372036854775808 => IntRange at 0
-9223372036854775809 => IntRange at 0
[1,18446744073709551616] => IntRange at 3
[1,18446744073709551617] => IntRange at 3
[99999999999999999999x => IntRange at 1
[99999999999999999999 => IntRange at 1
[99999999999999999999 . => IntRange at 1
"`ff`" => NotUtf8 at 1
`ff` => NotUtf8 at 0
)f`c3` => NotUtf8 at 2
"`e2``82`" => NotUtf8 at 1
"`c0``80`" => NotUtf8 at 1
"`ed``a0``80`" => NotUtf8 at 1
"`f4``90``80``80`" => NotUtf8 at 1
f`80` => NotUtf8 at 1
"\q`e9`" => NotUtf8 at 3
"#;

/// Trees within the limits of depth and size and beyond, and what comes before the limit.
const LIMITS: &str = r#"
`512 [``512 ]` => 0 nodes 0;edges 0;
`513 [``513 ]` => TooDeep at 512
[`1048574 1,`1] => 0 nodes 0;edges 0;
[`1048575 1,`1] => TooMany at 2097151
`10000000 [` => TooDeep at 512
`512 [`1.5 => TooDeep at 512
`512 [`- => TooDeep at 512
`512 [`" => TooDeep at 512
`512 [`99999999999999999999 => TooDeep at 512
`512 [`! => Shared at 512
`512 [`< => Placeholder at 512
`512 [`, => Unexpected at 512
"#;

#[test]
fn the_first_fault_of_a_tree_is_told(rt: HostRuntime) -> Result<(), Fail> {
    for table in [FAULTS, LIMITS] {
        assert_eq!(rt; wrong_rows(rt.alloc(), &OfTree(ANY), table)?.as_str(), "");
    }
    Ok(())
}

/// Rows of trees that are copied and written.
#[derive(Clone, Copy)]
struct OfWriting;

impl Topic for OfWriting {
    fn told(&self, alloc: Global, text: &[u8]) -> Result<String, Fail> {
        let written = match read(alloc, text) {
            Ok(tree) => copied_text(alloc, &tree)?,
            Err(_) => List::new(alloc),
        };
        Ok(String::from_utf8(written.into_vec())?)
    }
}

/// The text of a copy of the tree.
fn copied_text(alloc: Global, tree: &Term) -> Result<List<u8>, AllocError> {
    let copy = tree.duplicate(alloc)?;
    write(alloc, &copy)
}

/// Blanks, parentheses, names with and without quotes, numbers, escapes and annotations.
const FORMS: &str = r#"
f => f()
f() => f()
f( ) => f()
"f" (1) => f(1)
"a b"(1) => "a b"(1)
""() => ""()
"1a"() => "1a"()
f{} => f()
f { }`20` => f()
f(){x} => f(){x()}
[1, -02]{At(1,2),x} => [1,-2]{At(1,2),x()}
() => ()
(1) => (1)
( 1 ,`09`2`0d``0a`) => (1,2)
[] => []
[[],()] => [[],()]
`20`_a-+*$9`20` => _a-+*$9()
007 => 7
-0 => 0
-00 => 0
9223372036854775807 => 9223372036854775807
-9223372036854775808 => -9223372036854775808
00000000000000000000000000000000000000001 => 1
1{2} => 1{2}
1 {2{3}} => 1{2{3}}
"x"{Decl("x")} => "x"{Decl("x")}
"" => ""
"a\"b\\c" => "a\"b\\c"
"\n\t\r" => "\n\t\r"
"`0a``09``0d`" => "\n\t\r"
"\012\011\015" => "\n\t\r"
"\000\037\177" => "\000\037\177"
"`00``1f``7f`" => "\000\037\177"
"\101\040\042" => "A \""
"{<!('" => "{<!('"
"é€" => "é€"
"é\n€"(1) => "é\n€"(1)
"a\n"() => "a\n"()
e(E1,-1) => e(E1(),-1)
Prog([While(Ref("x"),[Int(1)])]) => Prog([While(Ref("x"),[Int(1)])])
f(1){a,b(2){c}} => f(1){a(),b(2){c()}}
"#;

#[test]
fn a_tree_is_written_in_one_form(rt: HostRuntime) -> Result<(), Fail> {
    assert_eq!(rt; wrong_rows(rt.alloc(), &OfWriting, FORMS)?.as_str(), "");
    Ok(())
}
