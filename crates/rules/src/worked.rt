// The worked cases.
ghost use Rattle.rules.specs.Worked.{Cases};

/// What the definitions say of small rules. The call does nothing: its contract is the cases.
pub fn cases_stand()
    ensures { Cases }
{}
