// A rule file is accepted, or refused at its first fault or its first violation of the rules.
//
// Proved of `check`, whatever the bytes: it refuses with exactly the first fault of the layout; where there is none, with exactly the
// first violation of the definitions (the lowest node at which a rule is broken, and of that node the lowest rule; and then too many
// cells); or it gives the rule with what a run needs, each exactly as defined: for every node the declaration that its name means, its
// type, a variable's place among the cells, and a method's body block. What acceptance gives of every node is said in `rule_laws`.
#![tactic(auto)]

ghost use Rattle.std.specs.Prelude.{◌≡◌};
ghost use Rattle.layout.specs.Readers.{file_of};
ghost use Rattle.names.specs.Resolved.{NamesTold};
ghost use Rattle.node_rules.specs.Tables.{nodes_of, table_of};
ghost use Rattle.node_rules.specs.Rules.{first_violation};
ghost use Rattle.checker.specs.Kin.{TypedFrom};
ghost use Rattle.finding.specs.Checks.{passes_unless};
ghost use Rattle.checker.specs.Checked.{Judging, Checking};
ghost use Rattle.checker.specs.declared.Refusal.TheVariants as refusal;

use entry::has_main;
use finding::Finding;
use layout::fault::FileFault;
use layout::reader::Reader;
use names::nested::Nodes;
use names::{MOST_NODES, Resolved, resolve};
use node_rules::types::Ty;
use node_rules::violation::Violation;
use pass::{Resolution, find_bodies};
use rule::Rule;

mod entry;
mod kin;
mod pass;

/// Why a file is refused: a fault of its layout, or a violation of the rules.
#[derive(Clone, Copy, PartialEq, Eq, Debug)]
pub enum Refusal {
    Fault(Finding<FileFault>),
    Violation(Finding<Violation>),
}

impl From<Finding<FileFault>> for Refusal {
    ghost from_gives = { λ fault refused. refused ≡ refusal.Fault fault };

    fn from(fault: Finding<FileFault>) -> Refusal {
        Refusal::Fault(fault)
    }
}

// Kept: a conversion for each of the two causes, as `?` needs them.
impl From<Finding<Violation>> for Refusal {
    ghost from_gives = { λ violation refused. refused ≡ refusal.Violation violation };

    fn from(violation: Finding<Violation>) -> Refusal {
        Refusal::Violation(violation)
    }
}

// Refused at the first violation of a file's nodes; on the way the types of all nodes are written down.
#[tactic(auto, unfolding(node_rules::specs::Tables::table_of))]
fn study(
    reader: &Reader,
    resolution: Resolution<'_>,
    types: &mut [Option<Ty>; MOST_NODES],
) -> Result<(), Finding<Violation>>
    requires { resolution.nodes.list.now ≡ nodes_of (file_of reader.now) }
    ensures first { result ≡ passes_unless (first_violation (table_of (file_of reader.now))) }
    ensures types { TypedFrom (table_of (file_of reader.now)) types.new 0 }
{
    let main = has_main(reader, resolution.nodes);
    resolution.check(main, types)
}

// The rule that a file's nodes are, or their first violation.
fn judge<'f>(resolved: Resolved<'f>) -> Result<Rule<'f>, Finding<Violation>>
    requires { NamesTold resolved (file_of resolved.reader) }
    ensures { Judging result (file_of resolved.entry.reader) }
{
    let Resolved {
        reader,
        count,
        nodes,
        contexts,
    } = resolved;
    let resolution = Resolution {
        nodes: Nodes {
            list: &nodes[..count],
        },
        contexts: &contexts,
    };
    // Kept: checking cannot fail for memory, so the types are an array of the most nodes.
    let mut types = [None; MOST_NODES];
    study(&reader, resolution, &mut types)?;
    let bodies = find_bodies(resolution.nodes);
    Ok(Rule {
        reader,
        count,
        nodes,
        contexts,
        types,
        bodies,
    })
}

/// Checks a rule file: the rule, or why it is refused.
// Kept: two matches, since each `?` on a value as large as a rule costs one more table that is cleared and copied.
pub fn check(file: &[u8]) -> Result<Rule<'_>, Refusal>
    ensures { Checking result file.now }
{
    match resolve(file) {
        Err(fault) => Err(Refusal::from(fault)),
        Ok(resolved) => match judge(resolved) {
            Err(violation) => Err(Refusal::from(violation)),
            Ok(rule) => Ok(rule),
        },
    }
}
