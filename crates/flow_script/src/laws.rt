ghost use Rattle.std.specs.Prelude.{ℕ, List};
ghost use Rattle.flow_script.specs.Laws.{HasOneAnswer};

/// Bytes are a text of one script at most, have one first fault at most, and never both.
pub fn scripts_have_one_answer()
    ensures { (bytes : List ℕ) → HasOneAnswer bytes }
{}
