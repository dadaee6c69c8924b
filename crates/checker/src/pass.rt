// The pass over the nodes, from the last to the first: facts, the lowest broken rule of each node, and types.
ghost use Rattle.std.specs.Prelude.{◌≡◌, ℕ, ◌<◌, ◌≤◌, length, None, slice_index};
ghost use Rattle.names.specs.Walk.{Known};
ghost use Rattle.node_rules.specs.Tables.{parts};
ghost use Rattle.node_rules.specs.Scopes.{repeated, body};
ghost use Rattle.node_rules.specs.Rules.{declared, matching, facts, found, first_from, or_cells, first_violation};
ghost use Rattle.checker.specs.Kin.{told, table, TypedFrom, Placed};
ghost use Rattle.finding.specs.Checks.{passes_unless};

use crate::kin::{Typing, body_of, sum_cells};
use finding::Finding;
use names::MOST_NODES;
use names::nested::Nodes;
use node_rules::context::Context;
use node_rules::facts::{Declared, Facts};
use node_rules::types::{Ty, type_of_tag};
use node_rules::violation::Violation;
use std::array;

/// The most cells that the program's own variables may need.
const MOST_CELLS: u64 = 2048;

/// The nodes of a rule, and the context of each.
#[derive(Clone, Copy)]
pub(crate) struct Resolution<'n> {
    pub nodes: Nodes<'n>,
    pub contexts: &'n [Context],
    pub ghost known: { Known nodes.list.now contexts.now (length nodes.list.now) },
    pub ghost room: { length nodes.list.now ≤ length contexts.now },
}

// What a declaration is, for the nodes that mean it.
fn declared_at(nodes: Nodes<'_>, means: Option<usize>) -> Option<Declared>
    ensures { result ≡ declared nodes.entry.list.now means }
{
    let node = nodes.node(means?);
    Some(Declared {
        kind: node.kind,
        ty: type_of_tag(node.tag),
    })
}

// Whether the arguments of node i match the parameters of the method that it means.
fn is_matching(typing: Typing<'_>, i: usize, means: Option<usize>) -> bool
    ensures { result ≡ matching typing.entry.nodes.list.now (told typing.entry.types.now) (parts typing.entry.nodes.list.now i) means }
{
    let Some(m) = means else {
        return true;
    };
    typing.do_match(m, i)
}

// What was found at node i, before what was found later.
// Kept: a broken rule ends nothing here, since the types of all nodes are written down, so it is a value and no error.
fn earlier(
    i: usize,
    broken: Option<Violation>,
    later: Option<Finding<Violation>>,
) -> Option<Finding<Violation>>
    requires { i < 1024 }
    ensures { result ≡ found i broken later }
{
    broken.map(|rule| Finding::new(i as u32, rule)).or(later)
}

// Kept: that node i is there is asked of each call, since the same nodes are asked for any i.
impl Resolution<'_> {
    // The context of node i.
    #[tactic(auto, using(crate::proofs::Placing::placed))]
    fn context(self, i: usize) -> Context
        requires { i < length self.nodes.list.now }
        ensures { Placed self.entry.nodes.list.now i result }
    {
        self.contexts[i]
    }

    // Whether the scope of the declaration i has its name already.
    #[tactic(auto, unfolding(node_rules::specs::Scopes::repeated))]
    fn is_repeated(self, i: usize) -> bool
        requires { i < length self.nodes.list.now }
        ensures { result ≡ repeated self.entry.nodes.list.now i }
    {
        let context = self.context(i);
        let Some(d) = context.means else {
            return false;
        };
        self.context(d).scope == context.scope
    }

    // What the rules look at, of node i.
    fn facts(self, types: &[Option<Ty>], main: bool, i: usize) -> Facts
        requires { i < length self.nodes.list.now }
        ensures { result ≡ facts (table self.entry.nodes.list.now main) (told types.now) i }
    {
        let nodes = self.nodes;
        let typing = Typing { nodes, types };
        let context = self.context(i);
        let parent = self.context(context.parent);
        Facts {
            node: nodes.node(i),
            repeats: self.is_repeated(i),
            main,
            means: declared_at(nodes, context.means),
            held: typing.gather(i),
            matching: is_matching(typing, i, context.means),
            parent: nodes.node(context.parent).kind,
            callee: declared_at(nodes, parent.means),
            result: type_of_tag(nodes.node(context.method).tag),
            looped: context.looped,
        }
    }

    // The first broken rule of all nodes; on the way the types of all nodes are written down.
    // Kept: it goes on past a broken rule, since all types are written down; and by numbers, since the types above i are read as i's goes in.
    fn first_broken(
        self,
        main: bool,
        types: &mut [Option<Ty>; MOST_NODES],
    ) -> Option<Finding<Violation>>
        ensures first { result ≡ first_from (table self.entry.nodes.list.now main) 0 (length self.entry.nodes.list.now) }
        ensures types { TypedFrom (table self.entry.nodes.list.now main) types.new 0 }
    {
        let mut first = None;
        for i in (0..self.nodes.list.len()).rev() {
            let facts = self.facts(types, main, i);
            let broken = facts.first_broken();
            types[i] = facts.type_unless(broken);
            first = earlier(i, broken, first);
        }
        first
    }

    /// Refused at the first violation; on the way the types of all nodes are written down.
    #[tactic(auto, unfolding(node_rules::specs::Rules::first_violation))]
    pub(crate) fn check(
        self,
        main: bool,
        types: &mut [Option<Ty>; MOST_NODES],
    ) -> Result<(), Finding<Violation>>
        ensures first { result ≡ passes_unless (first_violation (table self.entry.nodes.list.now main)) }
        ensures types { TypedFrom (table self.entry.nodes.list.now main) types.new 0 }
    {
        match self.first_broken(main, types) {
            Some(finding) => Err(finding),
            None => check_cells(sum_cells(self.nodes)),
        }
    }
}

// Refused where the program's own variables need too many cells.
fn check_cells(cells: u64) -> Result<(), Finding<Violation>>
    ensures { result ≡ passes_unless (or_cells cells None) }
{
    if cells > MOST_CELLS {
        return Err(Finding::new(0, Violation::TooManyCells));
    }
    Ok(())
}

/// The body blocks of all methods.
pub(crate) fn find_bodies(nodes: Nodes<'_>) -> [usize; MOST_NODES]
    ensures { (k : ℕ) → k < length nodes.entry.list.now → slice_index result k ≡ body nodes.entry.list.now k }
{
    array::from_fn(|i| body_of(nodes, i))
}
