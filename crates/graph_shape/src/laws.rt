//! What a shape says of a tree, and plans of a position. Each function states a law as its contract and does nothing.
ghost use Rattle.graph_shape.specs.Laws.{KnownByStops, OuterNodesAreByShape, PlansCanBeTurned, ShapesStayShapes};

/// The first and last nodes that are listed by descent in the shape are those of the entered position.
pub fn outer_nodes_are_by_shape()
    ensures { OuterNodesAreByShape }
{}

/// First nodes, last nodes, passing and owned edges of an entered position are found by a search over its stops, with the first and last nodes of its children.
pub fn positions_are_known_by_stops()
    ensures { KnownByStops }
{}

/// What leads to a stop is what its mirror leads to by the mirrored steps: so last nodes are found as first nodes are.
pub fn plans_can_be_turned()
    ensures { PlansCanBeTurned }
{}

/// Where the new part is the shape of the new term, and the summaries above it are those of the new tree, the changed shape is that of the new tree.
pub fn shapes_stay_shapes()
    ensures { ShapesStayShapes }
{}
