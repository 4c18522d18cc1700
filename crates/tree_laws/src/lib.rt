//! What replacements in a tree leave: laws on `At` and `Put`, the definitions that `flow_term::replace` meets.
//!
//! Each function states a law as its contract and does nothing. A caller's proof has the law by calling it.
#![tactic(auto)]

ghost use Rattle.tree_laws.specs.Laws.{WhatIsPutIsThere, WhatWasThereIsBack};

/// A term that is put where another stood, and then the other one put back, leave the tree as it was. So an edit that can't be
/// finished is taken back by one more replacement.
#[tactic(auto, using(crate::proofs::Putting::was_there_is_back))]
pub fn what_was_there_is_back()
    ensures { WhatWasThereIsBack }
{}

/// What is put at a position stands there: so the replacement that takes it back doesn't fail.
#[tactic(auto, using(crate::proofs::Putting::is_put_is_there))]
pub fn what_is_put_is_there()
    ensures { WhatIsPutIsThere }
{}
