// A rule under way is never stuck.
//
// Proved, for every rule of which the checks tell the facts of `Checked`: it is at its end or has a next act in every state that it comes
// to, whatever the book means.
#![tactic(auto)]

ghost use Rattle.soundness.specs.Sound.{NeverStuck, NeverStuckLater};

/// A checked rule is never stuck on its way from its origin. The call does nothing: its contract is that.
pub fn never_stuck_stands()
    ensures { NeverStuck }
{}

/// Nor is it in several stretches, between which the book is changed. The call does nothing: its contract is that.
pub fn never_stuck_later_stands()
    ensures { NeverStuckLater }
{}
