//! Tokens of specifications.
use crate::program::{OfBoth, OfSpecification};
use crate::rows::wrong_rows;
use std::test::Fail;

/// What begins no token, isn't closed, is no escape or integer, or no UTF-8.
const FAULTS: &str = r#"
a`00` => BadCharacter at 1
a / b => BadCharacter at 2
a ! => BadCharacter at 2
ab é => BadCharacter at 3
"é" # => BadCharacter at 5
`ef``bb``bf`module => BadCharacter at 0
// c`0a`$ => BadCharacter at 5
module m ? => BadCharacter at 9
x " => Unclosed at 2
"a\" => Unclosed at 0
"a" "b => Unclosed at 4
" 9223372036854775808 => Unclosed at 0
"a\q => BadEscape at 2
"abc\ => BadEscape at 4
"\200" => BadEscape at 1
"\12 => BadEscape at 1
"\x41" => BadEscape at 1
"é\é" => BadEscape at 3
1 "\8" 9223372036854775808 => BadEscape at 3
module "\q" => BadEscape at 8
9223372036854775808 => IntRange at 0
9223372036854775808a " => IntRange at 0
`ff` => NotUtf8 at 0
module `c3` => NotUtf8 at 7
# 99999999999999999999 `80` => NotUtf8 at 23
// `ed``a0``80` => NotUtf8 at 3
"`e2``82` => NotUtf8 at 1
"#;

#[test]
fn the_first_lexical_fault_is_told(rt: HostRuntime) -> Result<(), Fail> {
    assert_eq!(rt;
        wrong_rows(rt.alloc(), &OfSpecification, FAULTS)?.as_str(),
        ""
    );
    Ok(())
}

/// Comments, reserved words, the longest symbols and integers.
const TOKENS: &str = r#"
// é " # \`0a`module m control // the last line => 0 nodes 0;edges 0;
`0d``0a``09`module m//c`0a`control`0a` => 0 nodes 0;edges 0;
module modules control => 0 nodes 0;edges 0;
module MAYSET control => 0 nodes 0;edges 0;
module a_1 control => 0 nodes 0;edges 0;
module module control => syntax fault at 7
module MaySet control => syntax fault at 7
module on control => syntax fault at 7
module snd control => syntax fault at 7
module m control node F(12ab) => syntax fault at 26
module m control node F(_x) => syntax fault at 25
module m control A() = entry--> exit => syntax fault at 28
module m control messages note "t" on _ if 1<=2 and 1<2 and 1!=2 and 1==2 => 0 nodes 0;edges 0;
module m control messages note "t" on _ if 1< =2 => syntax fault at 46
module m control properties p: Map(name, Flat(int)) rules p(prev -> F(name n)) = [n|->flat(2)] => 0 nodes 0;edges 0;
module m control node F(9223372036854775807) => 0 nodes 0;edges 0;
module m control node F(000000000000000000000000000000001) => 0 nodes 0;edges 0;
"#;

#[test]
fn the_longest_token_is_read(rt: HostRuntime) -> Result<(), Fail> {
    assert_eq!(rt;
        wrong_rows(rt.alloc(), &OfSpecification, TOKENS)?.as_str(),
        ""
    );
    Ok(())
}

/// The name of a root, by which the root of the tree has a graph or none.
const QUOTED: &str = r#"
module m control root "a"() = start -> end & "a"() => 0 nodes 2;/:start;/:end;edges 1;/:start -> /:end;
module m control root "a"() = start -> end & a => 0 nodes 2;/:start;/:end;edges 1;/:start -> /:end;
module m control root a() = start -> end & "a"() => 0 nodes 2;/:start;/:end;edges 1;/:start -> /:end;
module m control root "a"() = start -> end & b() => 0 nodes 0;edges 0;
module m control root "a\"\\\n\t\r\101"() = start -> end & "a\"\\`0a``09``0d`A"() => 0 nodes 2;/:start;/:end;edges 1;/:start -> /:end;
module m control root "\000\1777"() = start -> end & "`00``7f`7"() => 0 nodes 2;/:start;/:end;edges 1;/:start -> /:end;
module m control root "//é`0a`"() = start -> end & "//é\n"() => 0 nodes 2;/:start;/:end;edges 1;/:start -> /:end;
module m control root "\101"() = start -> end & "\\101"() => 0 nodes 0;edges 0;
"#;

#[test]
fn names_in_quotes_are_read_with_their_escapes(rt: HostRuntime) -> Result<(), Fail> {
    assert_eq!(rt; wrong_rows(rt.alloc(), &OfBoth, QUOTED)?.as_str(), "");
    Ok(())
}
