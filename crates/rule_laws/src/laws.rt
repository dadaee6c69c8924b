// What follows from the definitions.
ghost use Rattle.rule_laws.specs.Accepted.{AcceptedKeeps};
ghost use Rattle.rule_laws.specs.Shaped.{TablesShaped};
ghost use Rattle.rule_laws.specs.Typed.{AcceptedTyped};

/// The table of every file without a fault has the facts of `Shaped`. The call does nothing: its contract is that.
pub fn tables_stand()
    ensures { TablesShaped }
{}

/// Where there is no violation, no rule is broken at any node, and the fields have their cells. The call does nothing: its
/// contract is that.
pub fn rules_stand()
    ensures { AcceptedKeeps }
{}

/// Where there is no violation, every expression has a type, but for a call of a void method that is a statement. The call does
/// nothing: its contract is that.
pub fn types_stand()
    ensures { AcceptedTyped }
{}
