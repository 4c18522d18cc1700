//! That what the program writes is a function of its words and its files. Laws, and no code.
#![tactic(auto)]

ghost use Rattle.whole_outputs.specs.Laws.{
  GraphsHaveOneText,
  RequestsHaveOneOutput,
  SpecificationsHaveOneAnswer,
  TreesHaveOneAnswer,
};

/// Over the same files, words have at most one whole output, and it ends in one way.
pub fn requests_have_one_output()
    ensures { RequestsHaveOneOutput }
{}

/// A tree has at most one text of its graph by a specification.
pub fn graphs_have_one_text()
    ensures { GraphsHaveOneText }
{}

/// The content of a name is accepted as one specification at most, or refused with one line at most, and never both.
pub fn specifications_have_one_answer()
    ensures { SpecificationsHaveOneAnswer }
{}

/// The content of a name is accepted as one tree at most, or refused with one line at most, and never both.
pub fn trees_have_one_answer()
    ensures { TreesHaveOneAnswer }
{}
