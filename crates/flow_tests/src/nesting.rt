//! How deep a specification may nest, and which operators bind more tightly.
use crate::program::OfSpecification;
use crate::rows::wrong_rows;
use std::test::Fail;

/// Types, sorts and patterns: each nested as deep as may be, which has another fault, and once more.
const DECLARATIONS: &str = r#"
module m control properties p: `255 Map(name,`MaySet(name)`255 )` => Depth at 28
module m control properties p: `256 Map(name,`MaySet(name)`256 )` => too deep at 2341
module m control properties p: `256 Pair(a,`a`256 )` => Depth at 28
module m control properties p: `257 Pair(a,`a`257 )` => too deep at 1827
module m signature start S A: `256 list(`any`256 )`-> S control => 1 tree: ill-sorted at /;
module m signature start S A: `257 list(`any`257 )`-> S control => too deep at 1314
module m signature start S A: `256 (`any`256 )`-> S control => 1 tree: ill-sorted at /;
module m signature start S A: `257 (`any`257 )`-> S control => too deep at 286
module m control properties p: MaySet(`255 (`a`255 ,a)`) => Depth at 28
module m control properties p: MaySet(`256 (`a`256 ,a)`) => too deep at 293
module m control node A(`255 (`_`255 )`) => Depth at 22
module m control node A(`256 (`_`256 )`) => too deep at 279
module m control node A(`254 (`-1`254 )`) => Depth at 22
module m control node A(`255 (`-1`255 )`) => too deep at 279
module m control node A(`127 x@(``127 )`) => Depth at 22
module m control node A(`128 x@(``128 )`) => too deep at 407
module m control rules a(prev -> `255 [`_`255 ]`) = 1 => Unknown at 23
module m control rules a(prev -> `256 [`_`256 ]`) = 1 => too deep at 288
module m control rules a(prev -> `255 A(`_`255 )`) = 1 => Unknown at 23
module m control rules a(prev -> `256 A(`_`256 )`) = 1 => too deep at 544
"#;

/// The same with operators that stand in a chain, suffixes and prefixes.
const OPERATORS: &str = r#"
module m control rules a(prev -> _) = `256 1+`1 => Unknown at 23
module m control rules a(prev -> _) = `257 1+`1 => too deep at 552
module m control rules a(prev -> _) = `256 1-`1 => Unknown at 23
module m control rules a(prev -> _) = `257 1-`1 => too deep at 552
module m control rules a(prev -> _) = `256 1*`1 => Unknown at 23
module m control rules a(prev -> _) = `257 1*`1 => too deep at 552
module m control rules a(prev -> _) = `256 1or `1 => Unknown at 23
module m control rules a(prev -> _) = `257 1or `1 => too deep at 1066
module m control rules a(prev -> _) = `256 1and `1 => Unknown at 23
module m control rules a(prev -> _) = `257 1and `1 => too deep at 1323
module m control rules a(prev -> _) = `256 1join `1 => Unknown at 23
module m control rules a(prev -> _) = `257 1join `1 => too deep at 1580
module m control rules a(prev -> _) = `256 1union `1 => Unknown at 23
module m control rules a(prev -> _) = `257 1union `1 => too deep at 1837
module m control rules a(prev -> _) = `256 1inter `1 => Unknown at 23
module m control rules a(prev -> _) = `257 1inter `1 => too deep at 1837
module m control rules a(prev -> _) = `256 1minus `1 => Unknown at 23
module m control rules a(prev -> _) = `257 1minus `1 => too deep at 1837
module m control rules a(prev -> _) = `255 f(a)+`f(a) => Unknown at 23
module m control rules a(prev -> _) = `256 f(a)+`f(a) => too deep at 1319
module m control rules a(prev -> _) = a`256 [1]` => Unknown at 23
module m control rules a(prev -> _) = a`257 [1]` => too deep at 807
module m control rules a(prev -> _) = a`256 [1:=1]` => Unknown at 23
module m control rules a(prev -> _) = a`257 [1:=1]` => too deep at 1575
module m control rules a(prev -> _) = `256 not `true => Unknown at 23
module m control rules a(prev -> _) = `257 not `true => too deep at 1062
module m control rules a(prev -> _) = `256 -`1 => Unknown at 23
module m control rules a(prev -> _) = `257 -`1 => too deep at 294
module m control rules a(prev -> _) = `256 if 1 then 1 else `1 => Unknown at 23
module m control rules a(prev -> _) = `257 if 1 then 1 else `1 => too deep at 4390
module m control rules a(prev -> _) = `256 bind x=1 yield `1 => Unknown at 23
module m control rules a(prev -> _) = `257 bind x=1 yield `1 => too deep at 3878
"#;

/// The same with brackets, and with brackets behind operators.
const BRACKETS: &str = r#"
module m control rules a(prev -> _) = `256 (`1`256 )` => Unknown at 23
module m control rules a(prev -> _) = `257 (`1`257 )` => too deep at 294
module m control rules a(prev -> _) = `256 [1|->`1`256 ]` => Unknown at 23
module m control rules a(prev -> _) = `257 [1|->`1`257 ]` => too deep at 1318
module m control rules a(prev -> _) = `128 {1 for x in y if `1`128 }` => Unknown at 23
module m control rules a(prev -> _) = `129 {1 for x in y if `1`129 }` => too deep at 2214
module m control rules a(prev -> _) = `250 1+`((((((1)))))) => Unknown at 23
module m control rules a(prev -> _) = `251 1+`((((((1)))))) => too deep at 545
module m control rules a(prev -> _) = `254 1+`[1|->[1|->1]] => Unknown at 23
module m control rules a(prev -> _) = `255 1+`[1|->[1|->1]] => too deep at 553
module m control rules a(prev -> _) = `254 1+`{1 for x in y if 1} => Unknown at 23
module m control rules a(prev -> _) = `255 1+`{1 for x in y if 1} => too deep at 562
module m control rules a(prev -> _) = `254 1or `1==(1) => Unknown at 23
module m control rules a(prev -> _) = `255 1or `1==(1) => too deep at 1061
module m control messages note x on _ if `255 1+`1 => Unbound at 31
module m control messages note x on _ if `256 1+`1 => too deep at 553
module m control rules a(prev -> _) = `256 f(`1`256 )` => Unknown at 23
module m control rules a(prev -> _) = `257 f(`1`257 )` => too deep at 551
module m control rules a(prev -> _) = `256 flat(`1`256 )` => Unknown at 23
module m control rules a(prev -> _) = `257 flat(`1`257 )` => too deep at 1322
module m control rules a(prev -> _) = `256 fst(`1`256 )` => Unknown at 23
module m control rules a(prev -> _) = `257 fst(`1`257 )` => too deep at 1065
module m control rules a(prev -> _) = `256 snd(`1`256 )` => Unknown at 23
module m control rules a(prev -> _) = `257 snd(`1`257 )` => too deep at 1065
"#;

/// A chain of operators that bind less tightly is open in one of those that bind more tightly, and not the other way round.
const LEVELS: &str = r#"
module m control rules a(prev -> _) = `200 1or ``200 1and `1 => too deep at 1123
module m control rules a(prev -> _) = `200 1and ``200 1or `1 => Unknown at 23
module m control rules a(prev -> _) = `200 1and ``200 1join `1 => too deep at 1380
module m control rules a(prev -> _) = `200 1join ``200 1and `1 => Unknown at 23
module m control rules a(prev -> _) = `200 1join ``200 1+`1 => too deep at 1352
module m control rules a(prev -> _) = `200 1+``200 1join `1 => Unknown at 23
module m control rules a(prev -> _) = `200 1minus ``200 1-`1 => too deep at 1552
module m control rules a(prev -> _) = `200 1-``200 1minus `1 => Unknown at 23
module m control rules a(prev -> _) = `200 1+``200 1*`1 => too deep at 552
module m control rules a(prev -> _) = `200 1*``200 1+`1 => Unknown at 23
module m control rules a(prev -> _) = `200 1and ``200 not `1 => too deep at 1262
module m control rules a(prev -> _) = `200 not ``200 1and `1 => Unknown at 23
module m control rules a(prev -> _) = `200 not `1 == `200 -`1 => too deep at 898
module m control rules a(prev -> _) = `200 1*``200 -`1 => too deep at 494
module m control rules a(prev -> _) = `200 -``200 1*`1 => Unknown at 23
module m control rules a(prev -> _) = `200 -`a`200 [1]` => too deep at 407
module m control rules a(prev -> _) = `200 1join ``200 1minus `1 => too deep at 1637
module m control rules a(prev -> _) = `200 1union ``200 1inter `1 => too deep at 1837
module m control rules a(prev -> _) = `200 1+``200 1-`1 => too deep at 552
module m control rules a(prev -> _) = `200 1-``200 1+`1 => too deep at 552
"#;

#[test]
fn nesting_ends_at_256(rt: HostRuntime) -> Result<(), Fail> {
    for table in [DECLARATIONS, OPERATORS, BRACKETS, LEVELS] {
        assert_eq!(rt;
            wrong_rows(rt.alloc(), &OfSpecification, table)?.as_str(),
            ""
        );
    }
    Ok(())
}
