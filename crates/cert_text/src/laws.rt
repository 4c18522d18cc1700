//! What bytes are the text of.
ghost use Rattle.std.specs.Prelude.{List, ℕ};
ghost use Rattle.cert_text.specs.Laws.{HasOneAnswer};

/// Bytes are the text of one certificate at most, have one first fault at most, and not both.
pub fn certificates_have_one_answer()
    ensures { (bytes : List ℕ) → HasOneAnswer bytes }
{}
