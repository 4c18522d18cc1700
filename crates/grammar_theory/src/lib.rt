//! Grammars as data: their texts, what begins a text, the first fault, and when one token of choice is enough to read them.
//!
//! Definitions and laws alone. A reader's contract names `IsText` and `IsFirstFault` of its grammar.
#![tactic(auto)]

ghost use Rattle.grammar_theory.specs.Laws.{HasOneFault, IsBegunByCases, IsReadExactly};

/// Why tokens can't go on as a text.
#[derive(Clone, Copy, Debug, PartialEq, Eq)]
pub enum Cause {
    /// No text begins with the tokens up to this one; or they end where no text ends.
    Unexpected,
    /// A text begins with the tokens up to this one, and in each such text a token among them is nested too deep.
    TooDeep,
}

/// Any grammar, for the laws that hold of each.
pub trait Syntax {
    ghost use Rattle.grammar_theory.specs.Texts.{Grammar};

    /// The named symbols.
    type Symbol;

    /// What texts are lists of.
    type Token;

    // The type of what each symbol is read as.
    ghost value: { Self.Symbol → Type 0 };

    ghost grammar: { Grammar Self.Symbol Self.Token value };
}

/// Tokens have at most one first fault, and none where they are a text.
pub fn first_fault_is_unique<S: Syntax>()
    ensures { HasOneFault S.grammar }
{}

/// Where one token of choice is enough, the reading that the grammar gives answers a value exactly where there is a text of it,
/// and otherwise the first fault.
pub fn reading_is_exact<S: Syntax>()
    ensures { IsReadExactly S.grammar }
{}

/// Where one token of choice is enough, some text begins with the tokens exactly where they begin the symbol by cases of its
/// productions: whole texts of none or more of its first parts, and then what begins the next.
pub fn beginnings_are_by_cases<S: Syntax>()
    ensures { IsBegunByCases S.grammar }
{}
