ghost use Rattle.std.specs.Prelude.{ℕ, List};
ghost use Rattle.aterm_text.specs.Laws.{HasOneAnswer};

/// Bytes are a text of one term at most, have one first fault at most, and never both.
pub fn texts_have_one_answer()
    ensures { (bytes : List ℕ) → HasOneAnswer bytes }
{}
