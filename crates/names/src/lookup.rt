// What a name means among the names in force, and the cells that these take.
ghost use Rattle.std.specs.Prelude.{◌≡◌, ◌≤◌, if◌then◌else◌, not, ◌||◌, length, None, ◌==◌};
ghost use Rattle.node_rules.specs.Scopes.{inner, chosen, node_of, cells_in};

use node_rules::binding::Binding;

// Of two bindings of a name, the one of the inner scope; of one scope the first that was met.
fn innermost(best: Option<Binding>, binding: Binding) -> Option<Binding>
    ensures { result ≡ inner best binding }
{
    match best {
        Some(other) if other.scope >= binding.scope => best,
        _ => Some(binding),
    }
}

// What a name means by the bindings before this one, and by it, if it is of that name.
fn chosen_of(best: Option<Binding>, binding: &Binding, name: u8) -> Option<Binding>
    ensures { result ≡ (if binding.now.name == name then inner best binding.now else best) }
{
    if binding.name == name {
        innermost(best, *binding)
    } else {
        best
    }
}

// The binding that a name means.
fn chosen(in_force: &[Binding], name: u8) -> Option<Binding>
    ensures { result ≡ chosen name None in_force.now }
{
    in_force
        .iter()
        .fold(None, |best, binding| chosen_of(best, binding, name))
}

/// The declaration that a name means.
pub(crate) fn meaning(in_force: &[Binding], name: u8) -> Option<usize>
    ensures { result ≡ node_of (chosen name None in_force.now) }
{
    Some(chosen(in_force, name)?.node)
}

// Whether a binding's cells count: those of all variables, or of those that are no fields.
fn counts(binding: &Binding, all: bool) -> bool
    ensures { result ≡ (all || not (binding.now.scope == 0)) }
{
    all || binding.scope != 0
}

// The cells of a binding that count.
fn counted(binding: &Binding, all: bool) -> u64
    ensures value { result ≡ (if all || not (binding.now.scope == 0) then binding.now.cells else 0) }
    ensures bound { result ≤ 4294967295 }
{
    if counts(binding, all) {
        binding.cells as u64
    } else {
        0
    }
}

/// The cells of the variables in force: of all of them, or of those that are no fields.
pub(crate) fn cells_in_force(in_force: &[Binding], all: bool) -> u64
    requires { length in_force.now ≤ 1024 }
    ensures { result ≡ cells_in all in_force.now }
{
    in_force.iter().map(|binding| counted(binding, all)).sum()
}
