//! What requests that take files have in common.
ghost use Rattle.std.specs.Prelude.{List, ℕ};
ghost use Rattle.session_theory.specs.Files.{Ends, FileKind};
ghost use Rattle.session_theory.specs.Laws.{NoRefusalsEndAlike, RequestsEndAlike};

/// A request that takes a file and goes on with what it holds.
pub trait Taking {
    /// What a file of this kind holds.
    type Held;

    /// How an output ends.
    type How;

    ghost ends: { Ends Self.How };

    // What is accepted and refused of a content.
    ghost kind: { FileKind Self.Held };

    // The output, by what is held.
    ghost Then: { Self.Held → List ℕ → Self.How → Type 0 };
}

/// Two whole outputs of a request over the same content are refusals both, or neither is, where this is so of what follows.
pub fn requests_end_alike<R: Taking>()
    ensures { RequestsEndAlike R.ends R.kind R.Then }
{}

/// Outputs of which none is a refusal end alike.
pub fn no_refusals_end_alike<R: Taking>()
    ensures { (x : R.Held) → NoRefusalsEndAlike R.ends (R.Then x) }
{}
