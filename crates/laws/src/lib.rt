//! The laws of the station: what holds of everything that was asked and told since power-up, proved from the rules
//! alone, for any station that keeps them.

#![tactic(auto)]

ghost use Rattle.rules.specs.State.{Setup};
ghost use Rattle.laws.specs.Laws.{Numbered, Always};

// It does nothing: its contract is the theorem that the laws hold of every history that the rules can produce, over
// every book whose tasks are numbered 1 to 127.
pub fn laws_hold()
    ensures { (b : Setup) → Numbered b → Always b }
{}
