//! Specifications of small languages.

/// A control rule for each form that a chain may have, and a property that is read backward.
pub(crate) const LIVE: &str = r#"module live
control
  root Prog(s) = start -> s -> end
  root Fun(s) = start -> s -> end
  While(c, b) = entry -> c -> b -> c -> exit
  Loop(b) = entry -> b -> b -> exit
  Cond(c, b) = entry -> node c -> b -> exit
  Assign(_, e) = entry -> e -> this -> exit
  Print(e) = entry -> e -> this -> exit
  Lt(a, b) = entry -> a -> b -> this -> exit
  Add(a, b) = entry -> a -> b -> this -> exit
  node Ref(_)
  node Int(_)
properties live: MaySet(name)
rules
  live(Ref(name n) -> next) = live(next) join {n}
  live(Assign(name n, _) -> next) = live(next) minus {n}
  live(_.end) = {}
messages
  warning "dead assignment to ", n on Assign(name n, _) if not n in live(next)
"#;

/// A property whose rule chooses from a set.
pub(crate) const DEFINITIONS: &str = r#"module defs
control
  root Prog(s) = start -> s -> end
  Loop(b) = entry -> b -> b -> exit
  node Set(_, _)
  node Skip()
properties reach: MaySet((name, pos))
rules
  reach(prev -> x @ Set(name n, _)) = {d for d in reach(prev) if fst(d) != n} join {(n, x)}
  reach(_.start) = {}
"#;

/// A property whose rules update a map.
pub(crate) const CONSTANTS: &str = r#"module const
control
  root Prog(s) = start -> s -> end
  If(s, t) = entry -> s -> exit, entry -> t -> exit
  node Set(_, _)
  node Sum(_, _, _)
properties val: Map(name, Flat(int))
rules
  val(prev -> Set(name n, int i)) = val(prev)[n := flat(i)]
  val(prev -> Sum(name n, name a, name b)) =
    val(prev)[n := bind x = val(prev)[a] yield bind y = val(prev)[b] yield flat(x + y)]
  val(_.start) = []
"#;

/// Branches, and a statement behind which nothing is reached.
pub(crate) const INITIALISED: &str = r#"module init
control
  root Prog(s) = start -> s -> end
  If(s, t) = entry -> s -> exit, entry -> t -> exit
  node Set(_, _)
  node Use(_)
  Stop() = entry -> this
properties init: MustSet(name)
rules
  init(prev -> Set(name n, _)) = init(prev) union {n}
  init(_.start) = {}
"#;

/// A head that looks into its argument.
pub(crate) const FIRST_MATCH: &str = r#"module w
control
  root Prog(s) = start -> s -> end
  While(Not(True()), _) = entry -> exit
  While(c, b) = entry -> c -> b -> c -> exit
  Not(e) = entry -> e -> this -> exit
  node Int(_)
"#;

/// Something in each section.
pub(crate) const DECLARED: &str = r#"module all
signature start P Prog: list(int) -> P "x y": (str, any) * P -> P
sorts Colour = red | green Size = small
lattices Two { elements Lo Hi bottom Lo join Lo Hi Hi Hi }
functions id(Two): Two { Lo Hi } both(Two, Two): Two { Lo Hi Hi Hi }
control node Prog(_)
properties p: Two q: Pair(Two, MaySet(Colour))
rules p(prev -> _) = if red == green then Lo else both(id(p(prev)), bottom)
messages error x on x note "a" on "x y"(_, -1) if false
"#;

/// A signature of programs that are lists of integers.
pub(crate) const INTEGERS: &str =
    "module s signature start P Prog: list(int) -> P control root Prog(s) = start -> s -> end";
