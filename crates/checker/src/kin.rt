// What is gathered from the children of a node.
ghost use Rattle.std.specs.Prelude.{◌≡◌, length, slice_get};
ghost use Rattle.std.specs.List.{list_all};
ghost use Rattle.node_rules.specs.Tables.{node, parts};
ghost use Rattle.node_rules.specs.Scopes.{first_block, body};
ghost use Rattle.node_rules.specs.Types.{has_type};
ghost use Rattle.node_rules.specs.Rules.{same_kind, held, takes, matches, field_cells};
ghost use Rattle.checker.specs.Kin.{told, told_of, is_typed};

use names::nested::Nodes;
use node_rules::cells::cells_of;
use node_rules::facts::Held;
use node_rules::types::{Ty, is_asked, type_of_tag};
use nodes::kind::Kind;
use nodes::node::Node;

/// The nodes of a rule, and their types as far as they are told.
#[derive(Clone, Copy)]
pub(crate) struct Typing<'n> {
    pub nodes: Nodes<'n>,
    pub types: &'n [Option<Ty>],
}

// Kept: `Nodes` is of the crate below, so what only the checker asks of a node's children are functions over it.
// How many children node i has.
fn count_children(nodes: Nodes<'_>, i: usize) -> usize
    ensures { result ≡ length (parts nodes.entry.list.now i) }
{
    nodes.children(i).count()
}

// Whether a child of a method is a parameter that takes an argument of this type.
fn does_take(parameter: Node, ty: Option<Ty>) -> bool
    ensures { result ≡ takes parameter ty }
{
    parameter.kind == Kind::Parameter && is_asked(type_of_tag(parameter.tag), ty)
}

impl Typing<'_> {
    // The type of node j, as far as it is told.
    fn told(self, j: usize) -> Option<Ty>
        ensures { result ≡ told self.entry.types.now j }
    {
        *self.types.get(j)?
    }

    // The type of the child of node i that has k others before it.
    fn type_of_child(self, i: usize, k: usize) -> Option<Ty>
        ensures { result ≡ told_of self.entry.types.now (slice_get (parts self.entry.nodes.list.now i) k) }
    {
        self.told(self.nodes.children(i).nth(k)?)
    }

    // Whether node j has a type, or is a string, which needs none.
    fn is_typed(self, j: usize) -> bool
        ensures { result ≡ is_typed self.entry.nodes.list.now self.entry.types.now j }
    {
        self.nodes.node(j).kind == Kind::Text || self.told(j).is_some()
    }

    // Whether each child of node i has a type, or is a string.
    fn are_typed(self, i: usize) -> bool
        ensures { result ≡ list_all (is_typed self.entry.nodes.list.now self.entry.types.now) (parts self.entry.nodes.list.now i) }
    {
        self.nodes.children(i).all(|j| self.is_typed(j))
    }

    /// How many children node i has, the types of the first two, and whether each expression among them has one.
    #[tactic(auto, using(crate::proofs::Kinship::held_is))]
    pub(crate) fn gather(self, i: usize) -> Held
        ensures { result ≡ held self.entry.nodes.list.now (told self.entry.types.now) (parts self.entry.nodes.list.now i) }
    {
        Held {
            count: count_children(self.nodes, i),
            first: self.type_of_child(i, 0),
            second: self.type_of_child(i, 1),
            typed: self.are_typed(i),
        }
    }

    /// Whether the children of the method m and the call i match: each argument fits a parameter, and none is left over.
    pub(crate) fn do_match(self, m: usize, i: usize) -> bool
        ensures { result ≡ matches self.entry.nodes.list.now (told self.entry.types.now) (parts self.entry.nodes.list.now m) (parts self.entry.nodes.list.now i) }
    {
        let mut parameters = self.nodes.children(m);
        for j in self.nodes.children(i) {
            let Some(p) = parameters.next() else {
                return false;
            };
            if !does_take(self.nodes.node(p), self.told(j)) {
                return false;
            }
        }
        let Some(p) = parameters.next() else {
            return true;
        };
        self.nodes.node(p).kind != Kind::Parameter
    }
}

/// The cells of the program's own variables.
pub(crate) fn sum_cells(nodes: Nodes<'_>) -> u64
    ensures { result ≡ field_cells nodes.entry.list.now }
{
    nodes
        .children(0)
        .map(|j| cells_of(nodes.node(j)) as u64)
        .sum()
}

// The first block among the children of node i, or 0.
// Kept: the definitions give 0 where there is none, node 0 being the program, which is no body.
fn find_block(nodes: Nodes<'_>, i: usize) -> usize
    ensures { result ≡ first_block nodes.entry.list.now (parts nodes.entry.list.now i) }
{
    nodes
        .children(i)
        .find(|j| nodes.node(*j).kind == Kind::Block)
        .unwrap_or(0)
}

/// The body block of node i, where it is a method; else 0.
#[tactic(auto, unfolding(node_rules::specs::Scopes::body))]
pub(crate) fn body_of(nodes: Nodes<'_>, i: usize) -> usize
    ensures { result ≡ body nodes.entry.list.now i }
{
    if nodes.node(i).kind == Kind::Method {
        find_block(nodes, i)
    } else {
        0
    }
}
