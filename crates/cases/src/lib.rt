//! Cases of the laws: sample histories on which they hold, and histories of wrong stations that they refute. And the
//! edges of the rules.

#![tactic(auto)]

pub mod edges;

ghost use Rattle.cases.specs.Made.{alike};
ghost use Rattle.cases.specs.Samples.{Samples};
ghost use Rattle.cases.specs.Notions.{Notions};
ghost use Rattle.cases.specs.Refuted.{Refuted};

// It does nothing. Its contract says of four tasks, all with the written level 2: the laws hold of the samples, their
// notions have the values there that one expects, and each of the wrong histories breaks a law in every state.
pub fn laws_bite()
    ensures samples { Samples (alike 2) }
    ensures notions { Notions (alike 2) }
    ensures refuted { Refuted (alike 2) }
{}
