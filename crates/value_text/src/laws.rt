ghost use Rattle.std.specs.Prelude.{ℕ, List};
ghost use Rattle.value_text.specs.Laws.{HasOneValue};

/// Bytes are the text of one value at most.
pub fn texts_have_one_value()
    ensures { (bytes : List ℕ) → HasOneValue bytes }
{}
