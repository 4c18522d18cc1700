//! What there is at most one of.
ghost use Rattle.flow_report.specs.Laws.{GraphsHaveOneText, PrintsAreOne, PrintsBeginWithGraphs};

/// A tree has at most one text of its graph by a specification.
pub fn graphs_have_one_text()
    ensures { GraphsHaveOneText }
{}

/// A tree has at most one print by a specification: how its values were worked out does not enter.
pub fn prints_are_one()
    ensures { PrintsAreOne }
{}

/// A print begins with the text of the graph.
pub fn prints_begin_with_graphs()
    ensures { PrintsBeginWithGraphs }
{}
