// What follows from acceptance.
ghost use Rattle.acceptance.specs.Acceptance.{AcceptedChecked};
ghost use Rattle.acceptance.specs.Never.{RuleNeverStuck, CourseNeverStuck};

/// Of every file without a fault and without a violation, `Checked` holds, with the types that the rules of the language give. The call
/// does nothing: its contract is that.
pub fn acceptance_stands()
    ensures { AcceptedChecked }
{}

/// No accepted rule is stuck in any state that it reaches from its origin, whatever its book. The call does nothing: its contract is
/// that.
pub fn rules_never_stuck()
    ensures { RuleNeverStuck }
{}

/// Nor is a rule that is under way after any calls of a new runner. The call does nothing: its contract is that.
pub fn courses_never_stuck()
    ensures { CourseNeverStuck }
{}
