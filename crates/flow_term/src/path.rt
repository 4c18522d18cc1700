//! Paths: where a position of a tree is.
ghost use Rattle.std.specs.Prelude.{◌≡◌, ◌==◌, ◌++◌, IfOk, OnOk, string_bytes};
ghost use Rattle.std.proofs.Common.{rules};
ghost use Rattle.std.specs.Cmp.{partial_order_from_own_ties};
ghost use Rattle.std.specs.Cmp.Rules.{comparing, hashing};
ghost use Rattle.std.specs.Cmp.Lexicographic.{pointwise};
ghost use Rattle.std.specs.Hash as fed;
ghost use Rattle.std.specs.List.{flat_map};
ghost use Rattle.std.specs.Ordering.{as_partial_cmp};
ghost use Rattle.flow_term.specs.Paths.{path_cmp, path_text, step_text};

use crate::list::List;
use std::alloc::{AllocError, Global};
use std::cmp::Ordering;
use std::hash::{Hash, Hasher};
use std::marker::Model;

/// A path, seen as the list of its child numbers.
#[derive(Debug, Drop)]
pub struct Path {
    steps: Vec<u32>,
}

impl Model for Path {
    ghost use Rattle.std.specs.Prelude.{List, ℕ};

    ghost Value = { List ℕ };

    ghost view = { λ p. p.steps.items };
}

impl Path {
    /// The path of these child numbers, from the root on.
    pub fn from_vec(steps: Vec<u32>) -> Path
        ensures { result ≡ steps.items }
    {
        Path { steps }
    }

    /// An equal path. Fails only for want of memory.
    pub fn duplicate(&self) -> Result<Path, AllocError>
        ensures { IfOk result (λ path. path ≡ self.now) }
    {
        Ok(Path {
            steps: self.steps.clone()?,
        })
    }

    /// The child numbers, from the root on.
    pub fn as_slice(&self) -> &[u32]
        ensures { result.now ≡ self.now }
    {
        self.steps.as_slice()
    }
}

impl PartialEq for Path {
    ghost eq = { pointwise ◌==◌ };

    ghost laws = { Prim.search (comparing, rules) };

    fn eq(&self, other: &Path) -> bool {
        self.steps == other.steps
    }
}

impl Eq for Path {
    ghost laws = { Prim.search (comparing, rules) };
}

impl Ord for Path {
    ghost cmp = { path_cmp };

    ghost total = { Prim.search (comparing, rules) };

    ghost matches_partial_cmp = { Prim.search (comparing, rules) };

    ghost matches_eq = { Prim.search (comparing, rules) };

    fn cmp(&self, other: &Path) -> Ordering {
        self.steps.cmp(&other.steps)
    }
}

impl PartialOrd for Path {
    ghost partial_cmp = { as_partial_cmp path_cmp };

    ghost laws = { partial_order_from_own_ties (Prim.search (comparing, rules)) (Prim.search (comparing, rules)) };

    fn partial_cmp(&self, other: &Path) -> Option<Ordering> {
        Some(self.cmp(other))
    }
}

impl Hash for Path {
    ghost hash_input = { fed.slice fed.u32 };

    ghost respects_eq = { Prim.search (hashing, rules) };

    fn hash<H: Hasher>(&self, state: &mut H) {
        self.steps.hash(state);
    }
}

/// The text of a path: `/` for the root, else `/` and the child number for each step.
/// Fails only for want of memory.
pub fn write_path(alloc: Global, path: &Path) -> Result<List<u8>, AllocError>
    ensures { IfOk result (λ bytes. bytes ≡ path_text path.now) }
{
    let mut text = String::new(alloc);
    push_path(&mut text, path)?;
    Ok(List::from_vec(text.into_bytes()))
}

/// Adds the text of a path. After want of memory a part of it may be there.
pub fn push_path(text: &mut String, path: &Path) -> Result<(), AllocError>
    ensures { OnOk result (string_bytes text.new ≡ string_bytes text.old ++ path_text path.now) }
{
    push_steps(text, path.as_slice())
}

fn push_steps(text: &mut String, steps: &[u32]) -> Result<(), AllocError>
    ensures { OnOk result (string_bytes text.new ≡ string_bytes text.old ++ path_text steps.now) }
{
    if steps.is_empty() {
        return text.push_str("/");
    }
    push_each(text, steps)
}

fn push_each(text: &mut String, steps: &[u32]) -> Result<(), AllocError>
    ensures { OnOk result (string_bytes text.new ≡ string_bytes text.old ++ flat_map step_text steps.now) }
{
    for step in steps {
        write!(text, "/{step}")?;
    }
    Ok(())
}
