//! Reading the text of a path.
ghost use Rattle.std.specs.Prelude.{◌≡◌, ◌<◌, ◌≤◌, ◌^◌, ◌∷◌, ◌++◌, [], ℕ, List as Sequence, IfOk, IfSome, OnOk, Some, true, false, decimal, drop, length, take};
ghost use Rattle.std.specs.Char.{is_ascii_digit};
ghost use Rattle.std.specs.List.{prefix_len};
ghost use Rattle.std.specs.Str.{all_ascii_digits};
ghost use lib.ListN.{get_or};
ghost use Rattle.flow_term.specs.Paths.{AreSteps, BeginsStep, IsReadAs, path_text, step_text};

use crate::path::Path;
use std::alloc::{AllocError, Global};

/// Why bytes are no path, or no node.
#[derive(Clone, Copy, Debug, PartialEq, Eq)]
pub enum PathRefusal {
    /// No path, or no node, has this text.
    Form,
    /// Memory ran out.
    NoMemory,
}

impl From<AllocError> for PathRefusal {
    ghost use Rattle.flow_term.specs.declared.path_text.PathRefusal.TheVariants.{NoMemory};

    ghost from_gives = { λ _ e. e ≡ NoMemory };

    fn from(_: AllocError) -> PathRefusal {
        PathRefusal::NoMemory
    }
}

/// The path of which these bytes are the text: `/` for the root, else `/` and a child number for each step, in decimal
/// without leading zeros, each below 2^32. `Form` exactly where no path has this text.
pub fn read_path(alloc: Global, bytes: &[u8]) -> Result<Path, PathRefusal>
    ensures found { IfOk result (λ path. path_text path ≡ bytes.now) }
    ensures only { (path : Sequence ℕ) → AreSteps path → path_text path ≡ bytes.now → IsReadAs result path }
{
    if bytes == b"/".as_slice() {
        return Ok(Path::from_vec(Vec::new(alloc)));
    }
    read_steps(alloc, bytes)
}

/// A path of one or more steps.
fn read_steps(alloc: Global, bytes: &[u8]) -> Result<Path, PathRefusal>
    ensures found { IfOk result (λ path. path_text path ≡ bytes.now) }
    ensures only { (first : ℕ) (path : Sequence ℕ) → AreSteps (first ∷ path) → path_text (first ∷ path) ≡ bytes.now → IsReadAs result (first ∷ path) }
{
    let mut steps = Vec::new(alloc);
    let mut rest = bytes;
    while !rest.is_empty() {
        let Some((step, len)) = first_step(rest) else {
            return Err(PathRefusal::Form);
        };
        push_step(&mut steps, step)?;
        rest = behind(rest, len);
    }
    if steps.is_empty() {
        return Err(PathRefusal::Form);
    }
    Ok(Path::from_vec(steps))
}

/// What stands behind so many bytes.
fn behind(bytes: &[u8], len: usize) -> &[u8]
    requires { len ≤ length bytes.now }
    ensures { result.now ≡ drop len bytes.now }
{
    &bytes[len..]
}

fn push_step(steps: &mut Vec<u32>, step: u32) -> Result<(), AllocError>
    ensures { OnOk result (steps.new.items ≡ steps.old.items ++ step ∷ []) }
{
    steps.push(step)?;
    Ok(())
}

/// The step in front of the bytes, and the length of its text, if there is one.
fn first_step(bytes: &[u8]) -> Option<(u32, usize)>
    ensures found { IfSome result (λ x. (take x.1 bytes.now ≡ step_text x.0) × (0 < x.1) × (x.1 ≤ length bytes.now)) }
    ensures only { (n : ℕ) (rest : Sequence ℕ) → n < 2 ^ 32 → BeginsStep rest → bytes.now ≡ step_text n ++ rest → result ≡ Some (n, length (step_text n)) }
{
    let [b'/', rest @ ..] = bytes else {
        return None;
    };
    let len = digits_len(rest);
    let step = number_of(&rest[..len])?;
    Some((step, len + 1))
}

/// How many digits stand in front of the bytes.
fn digits_len(bytes: &[u8]) -> usize
    ensures { result ≡ prefix_len is_ascii_digit bytes.now }
{
    bytes
        .iter()
        .take_while(|byte| byte.is_ascii_digit())
        .count()
}

/// The number of which these digits are the text, if it is below 2^32.
#[tactic(auto, using(crate::proofs::StepTexts::utf8_digits))]
fn number_of(digits: &[u8]) -> Option<u32>
    requires { all_ascii_digits digits.now ≡ true }
    ensures found { IfSome result (λ n. decimal n ≡ digits.now) }
    ensures only { (n : ℕ) → n < 2 ^ 32 → digits.now ≡ decimal n → result ≡ Some n }
{
    if has_leading_zero(digits) {
        return None;
    }
    let Ok(text) = str::from_utf8(digits) else {
        unreachable!()
    };
    match text.parse::<u32>() {
        Ok(number) => Some(number),
        Err(_) => None,
    }
}

fn has_leading_zero(digits: &[u8]) -> bool
    ensures yes { result ≡ true → (get_or digits.now 0 0 ≡ 48) × (1 < length digits.now) }
    ensures no { result ≡ false → get_or digits.now 0 0 ≡ 48 → length digits.now ≤ 1 }
{
    matches!(digits, [b'0', _, ..])
}
