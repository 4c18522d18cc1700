//! Splitting bytes at the first byte of a kind, or behind a front.
ghost use Rattle.std.specs.Prelude.{◌≡◌, ◌≢◌, ◌==◌, ◌≤◌, ◌++◌, ℕ, List, IfNone, IfSome, length, not, true};
ghost use Rattle.std.specs.List.{prefix_len};
ghost use Rattle.line_theory.specs.Lines.{IsSplit, lacks};

/// What stands before the first such byte, and what stands behind it. `None` where there is none. Takes no memory.
pub fn split_at(bytes: &[u8], byte: u8) -> Option<(&[u8], &[u8])>
    ensures found { IfSome result (λ x. IsSplit byte bytes.now x.0.now x.1.now) }
    ensures none { IfNone result (lacks byte bytes.now ≡ true) }
{
    let len = len_before(bytes, byte);
    if len == bytes.len() {
        return None;
    }
    Some((&bytes[..len], &bytes[len + 1..]))
}

/// How many bytes stand before the first such byte, or in all.
fn len_before(bytes: &[u8], byte: u8) -> usize
    ensures len { result ≡ prefix_len (λ b. not (b == byte)) bytes.now }
    ensures within { result ≤ length bytes.now }
{
    bytes.iter().take_while(|b| **b != byte).count()
}

/// What stands behind this front. `None` where the bytes don't begin with it. Takes no memory.
pub fn behind<'a>(bytes: &'a [u8], front: &[u8]) -> Option<&'a [u8]>
    ensures found { IfSome result (λ rest. bytes.now ≡ front.now ++ rest.now) }
    ensures none { IfNone result ((rest : List ℕ) → bytes.now ≢ front.now ++ rest) }
{
    bytes.strip_prefix(front)
}
