//! The edges of the rules.

ghost use Rattle.cases.specs.Edges.{Edges};

// It does nothing. Its contract says what the rules give at their edges, in every state of which the words of each case
// hold.
pub fn edges_hold()
    ensures { Edges }
{}
