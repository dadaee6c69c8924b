// What follows from the definitions.
ghost use Rattle.rules.specs.Accepted.{AcceptedKeeps};
ghost use Rattle.rules.specs.Shaped.{TablesShaped};

/// The table of every file without a fault has the facts of `Shaped`. The call does nothing: its contract is that.
pub fn tables_stand()
    ensures { TablesShaped }
{}

/// Where there is no violation, no rule is broken at any node, and the fields have their cells. The call does nothing: its
/// contract is that.
pub fn rules_stand()
    ensures { AcceptedKeeps }
{}
