// What follows from the definitions.
ghost use Rattle.semantics.specs.Laws.{Laws};

/// Next act, go and course of calls are each one; and a rule under way between calls has a node that is next to begin. The call does
/// nothing: its contract is that.
pub fn laws_stand()
    ensures { Laws }
{}
