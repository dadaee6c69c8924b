// What filling slots comes to.
ghost use Rattle.tree.specs.Runs.{FillingIsArranging};

/// Children fill the slots of a kind exactly if they stand in runs, one for each slot. The call does nothing: its contract is that.
pub fn slots_stand()
    ensures { FillingIsArranging }
{}
