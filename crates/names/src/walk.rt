// One walk over the nodes, in their order, with the names in force on a stack.
ghost use Rattle.std.specs.Prelude.{◌≡◌, ℕ, ◌+◌, ◌<◌, ◌≤◌, true, false, ◌||◌, [], length, slice_set};
ghost use Rattle.nodes.specs.Kinds.{between};
ghost use Rattle.node_rules.specs.Tables.{kind_at, end};
ghost use Rattle.node_rules.specs.Scopes.{declares, binding, meant, place, context};
ghost use Rattle.names.specs.Walk.{Known, Ready, Entered, Walked};
ghost use Rattle.names.specs.Visit.{Before, After};

use crate::MOST_NODES;
use crate::lookup::{cells_in_force, meaning};
use crate::nested::Nodes;
use crate::place::Place;
use node_rules::binding::Binding;
use node_rules::cells::cells_of;
use node_rules::context::Context;
use nodes::kind::Kind;
use stack::push;

// What the walk writes: the names in force, as a stack, and the context of each node.
// Kept: walking cannot fail for memory, so both are arrays of the most nodes, and the stack's count is guarded apart.
#[derive(Drop)]
struct Names {
    bindings: [Binding; MOST_NODES],
    contexts: [Context; MOST_NODES],
}

// How many names are in force.
// Kept: a guard holds the count alone, and sets it back, while the stack's slots are read and written.
#[derive(Clone, Copy, PartialEq, Eq, Debug)]
struct Count {
    used: usize,
}

// A node under way whose children may declare names: on leaving it, the count goes back to the mark.
struct Scope<'a> {
    count: &'a mut Count,
    mark: usize,
}

impl Drop for Scope<'_> {
    fn drop(self)
        ensures { self.exit.0.now.used ≡ self.entry.mark }
    {
        self.count.used = self.mark;
        let Scope { count: _, mark: _ } = self;
    }
}

// Writes down the context of a node, of which is known what its name means and where its cells begin.
fn enter(at: Place<'_>, means: Option<usize>, cell: u64, names: &mut Names)
    requires known { (Known at.nodes.list.now names.old.contexts at.i) × (length names.old.contexts ≡ 1024) }
    requires told { (means ≡ meant at.nodes.list.now at.i) × (cell ≡ place at.nodes.list.now at.i) }
    ensures contexts { names.new.contexts ≡ slice_set names.old.contexts at.entry.i (context at.entry.nodes.list.now at.entry.i) }
    ensures bindings { names.new.bindings ≡ names.old.bindings }
{
    names.contexts[at.i] = at.context(names.contexts[at.parent], means, cell);
}

// The binding of a declaration, whose context is written down.
fn declare(at: Place<'_>, names: &mut Names, used: usize) -> Binding
    requires ready { Ready at.nodes.list.now names.old.bindings names.old.contexts used at.i }
    requires kind { declares at.nodes.list.now at.i ≡ true }
    ensures binding { result ≡ binding at.entry.nodes.list.now at.entry.i }
    ensures contexts { names.new.contexts ≡ slice_set names.old.contexts at.entry.i (context at.entry.nodes.list.now at.entry.i) }
    ensures bindings { names.new.bindings ≡ names.old.bindings }
{
    let node = at.node();
    let in_force = &names.bindings[..used];
    let means = meaning(in_force, node.name);
    let cell = if node.kind.is_variable() {
        cells_in_force(in_force, at.parent == 0)
    } else {
        0
    };
    enter(at, means, cell, names);
    Binding {
        name: node.name,
        scope: names.contexts[at.i].scope,
        node: at.i,
        cells: cells_of(node),
    }
}

// Kept: names and count are two parameters of each visit, since the guard holds the count alone. What each asks and leaves is said
// in two words, `Before` and `After`, for the recursion has no one place for it.
// A node of any kind, and all below it.
#[cycle(visiting)]
fn visit(at: Place<'_>, names: &mut Names, count: &mut Count)
    requires { Before at names.old count.old }
    ensures { After at.entry names.old count.old names.new count.new }
{
    match at.node().kind {
        Kind::Import
        | Kind::ScalarDeclaration
        | Kind::ArrayDeclaration
        | Kind::Method
        | Kind::Parameter => declaration(at, names, count),
        Kind::Block => block(at, names, count),
        Kind::Program
        | Kind::Assignment
        | Kind::Step
        | Kind::CallStatement
        | Kind::If
        | Kind::For
        | Kind::While
        | Kind::Return
        | Kind::Break
        | Kind::Continue => statement(at, names, count),
        Kind::ScalarLocation
        | Kind::ArrayLocation
        | Kind::Literal
        | Kind::Unary
        | Kind::Cast
        | Kind::Call
        | Kind::Len
        | Kind::Binary
        | Kind::Text => expression(at, names, count),
    }
}

// A declaration: its name is in force from here on. A method holds parameters and its body.
#[cycle(visiting)]
fn declaration(at: Place<'_>, names: &mut Names, count: &mut Count)
    requires ready { Before at names.old count.old }
    requires kind { declares at.nodes.list.now at.i ≡ true }
    ensures { After at.entry names.old count.old names.new count.new }
{
    let binding = declare(at, names, count.used);
    push(&mut names.bindings, &mut count.used, binding).unwrap();
    children(at.nodes, at.i, names, count);
}

// A block: nothing of its own is named.
#[cycle(visiting)]
fn block(at: Place<'_>, names: &mut Names, count: &mut Count)
    requires ready { Before at names.old count.old }
    requires kind { kind_at at.nodes.list.now at.i ≡ 7 }
    ensures { After at.entry names.old count.old names.new count.new }
{
    enter(at, None, 0, names);
    children(at.nodes, at.i, names, count);
}

// A statement: a for names its index.
#[cycle(visiting)]
fn statement(at: Place<'_>, names: &mut Names, count: &mut Count)
    requires ready { Before at names.old count.old }
    requires kind { (declares at.nodes.list.now at.i ≡ false) × (kind_at at.nodes.list.now at.i ≤ 16) }
    ensures { After at.entry names.old count.old names.new count.new }
{
    let node = at.node();
    let means = if node.kind == Kind::For {
        meaning(&names.bindings[..count.used], node.name)
    } else {
        None
    };
    enter(at, means, 0, names);
    children(at.nodes, at.i, names, count);
}

// An expression or a string: locations, calls and len use a name.
#[cycle(visiting)]
fn expression(at: Place<'_>, names: &mut Names, count: &mut Count)
    requires ready { Before at names.old count.old }
    requires kind { 16 < kind_at at.nodes.list.now at.i }
    ensures { After at.entry names.old count.old names.new count.new }
{
    let node = at.node();
    let means = if node.kind.is_named_expression() {
        meaning(&names.bindings[..count.used], node.name)
    } else {
        None
    };
    enter(at, means, 0, names);
    children(at.nodes, at.i, names, count);
}

// The children of a node: the names that they declare are in force to its end.
#[cycle(visiting)]
fn children(nodes: Nodes<'_>, i: usize, names: &mut Names, count: &mut Count)
    requires inside { i < length nodes.list.now }
    requires entered { Entered nodes.list.now names.old.bindings names.old.contexts count.old.used i }
    ensures { Walked nodes.entry.list.now (end nodes.entry.list.now i) [] names.old.bindings count.old.used names.new.bindings names.new.contexts count.new.used }
{
    let mark = count.used;
    let scope = Scope { count, mark };
    for j in nodes.children(i) {
        let child = Place {
            nodes,
            i: j,
            parent: i,
        };
        visit(child, names, scope.count);
    }
}

/// The contexts of all nodes.
// Kept: what is made here are the arrays of `Names`, for the reason there.
pub(crate) fn find_contexts(nodes: Nodes<'_>) -> [Context; MOST_NODES]
    ensures known { Known nodes.entry.list.now result (length nodes.entry.list.now) }
    ensures long { length result ≡ 1024 }
{
    let vacant = Context {
        parent: 0,
        scope: 0,
        method: 0,
        looped: false,
        means: None,
        place: 0,
    };
    let unused = Binding {
        name: 0,
        scope: 0,
        node: 0,
        cells: 0,
    };
    let mut names = Names {
        bindings: [unused; MOST_NODES],
        contexts: [vacant; MOST_NODES],
    };
    let mut count = Count { used: 0 };
    children(nodes, 0, &mut names, &mut count);
    names.contexts
}
