// The violations of the rules, and the number by which each is answered: those of `node_rules`.
ghost use Rattle.std.specs.Prelude.{◌≡◌};
ghost use Rattle.rules.specs.Violations.{number_of};

use finding::Numbered;
pub use node_rules::violation::Violation;

/// The number by which a violation is answered.
pub fn number_of(violation: Violation) -> u32
    ensures { result ≡ number_of violation }
{
    violation.number_of()
}
