//! The graphs of trees.
use crate::program::{OfTree, told_of_graph};
use crate::rows::wrong_rows;
use crate::specifications::{
    CONSTANTS, DECLARED, DEFINITIONS, FIRST_MATCH, INITIALISED, INTEGERS, LIVE,
};
use std::test::Fail;

/// Empty lists and loops, a condition, a node that isn't looked into, a nested root, and a tree without a root.
const LIVE_ROWS: &str = r#"
Prog([]) => 0 nodes 2;/:start;/:end;edges 1;/:start -> /:end;
Prog([Loop([])]) => 0 nodes 2;/:start;/:end;edges 1;/:start -> /:end;
Prog([While(Ref("x"),[Int(1)])]) => 0 nodes 4;/:start;/:end;/0/0/0:node;/0/0/1/0:node;edges 4;/:start -> /0/0/0:node;/0/0/0:node -> /:end;/0/0/0:node -> /0/0/1/0:node;/0/0/1/0:node -> /0/0/0:node;
Prog([Cond(Add(Ref("x"),Int(1)),[])]) => 0 nodes 3;/:start;/:end;/0/0/0:node;edges 2;/:start -> /0/0/0:node;/0/0/0:node -> /:end;
Prog([Fun([Int(1)]),Int(2)]) => 0 nodes 6;/:start;/:end;/0/0:start;/0/0:end;/0/0/0/0:node;/0/1:node;edges 4;/:start -> /0/1:node;/0/0:start -> /0/0/0/0:node;/0/0/0/0:node -> /0/0:end;/0/1:node -> /:end;
f(1) => 0 nodes 0;edges 0;
"#;

/// Two branches, and a statement behind which nothing is reached.
const INITIALISED_ROWS: &str = r#"
Prog([If([Stop(),Set("b",1)],[Set("a",1)]),Use("a")]) => 0 nodes 6;/:start;/:end;/0/0/0/0:node;/0/0/0/1:node;/0/0/1/0:node;/0/1:node;edges 5;/:start -> /0/0/0/0:node;/:start -> /0/0/1/0:node;/0/0/0/1:node -> /0/1:node;/0/0/1/0:node -> /0/1:node;/0/1:node -> /:end;
"#;

/// A head for each kind of pattern.
const PATTERNS: &str = r#"module p
control
  root P(s) = start -> s -> end
  node A(name n)
  node B(str s)
  node C(int i)
  node D(7, "a")
  node E((_, x), [_, y])
  node F(x @ G(_))
"#;

const PATTERN_ROWS: &str = r#"
P([A("x"{Ref("x")}),A("x")]) => 0 nodes 3;/:start;/:end;/0/0:node;edges 2;/:start -> /0/0:node;/0/0:node -> /:end;
P([B("x"),B(1)]) => 0 nodes 3;/:start;/:end;/0/0:node;edges 2;/:start -> /0/0:node;/0/0:node -> /:end;
P([C(1),C("x")]) => 0 nodes 3;/:start;/:end;/0/0:node;edges 2;/:start -> /0/0:node;/0/0:node -> /:end;
P([D(7,"a"),D(8,"a"),D(7,"b")]) => 0 nodes 3;/:start;/:end;/0/0:node;edges 2;/:start -> /0/0:node;/0/0:node -> /:end;
P([E((1,2),[3,4]),E((1,2),[3]),E([1,2],[3,4])]) => 0 nodes 3;/:start;/:end;/0/0:node;edges 2;/:start -> /0/0:node;/0/0:node -> /:end;
P([F(G(1)),F(H(1))]) => 0 nodes 3;/:start;/:end;/0/0:node;edges 2;/:start -> /0/0:node;/0/0:node -> /:end;
"#;

const FIRST_MATCH_ROWS: &str = r#"
Prog([While(Not(True()),[Int(2)])]) => 0 nodes 2;/:start;/:end;edges 1;/:start -> /:end;
Prog([While(Not(Int(1)),[Int(2)])]) => 0 nodes 5;/:start;/:end;/0/0/0:node;/0/0/0/0:node;/0/0/1/0:node;edges 5;/:start -> /0/0/0/0:node;/0/0/0:node -> /:end;/0/0/0:node -> /0/0/1/0:node;/0/0/0/0:node -> /0/0/0:node;/0/0/1/0:node -> /0/0/0/0:node;
"#;

#[test]
fn the_graph_of_a_tree_is_written(rt: HostRuntime) -> Result<(), Fail> {
    for (spec, rows) in [
        (LIVE, LIVE_ROWS),
        (INITIALISED, INITIALISED_ROWS),
        (FIRST_MATCH, FIRST_MATCH_ROWS),
        (PATTERNS, PATTERN_ROWS),
    ] {
        assert_eq!(rt; wrong_rows(rt.alloc(), &OfTree(spec), rows)?.as_str(), "");
    }
    Ok(())
}

#[test]
fn a_whole_specification_is_read(rt: HostRuntime) -> Result<(), Fail> {
    for (spec, told) in [
        (LIVE, "0 nodes 0;edges 0;"),
        (DEFINITIONS, "not yet at 204"),
        (CONSTANTS, "not yet at 224"),
        (INITIALISED, "0 nodes 0;edges 0;"),
        (FIRST_MATCH, "0 nodes 0;edges 0;"),
        (DECLARED, "not yet at 126"),
        (INTEGERS, "1 tree: ill-sorted at /;"),
    ] {
        let got = told_of_graph(rt.alloc(), "specification", spec.as_bytes(), b"f")?;
        assert_eq!(rt; got.as_str(), told, "{spec}");
    }
    Ok(())
}
