// The cells of variables.
ghost use Rattle.std.specs.Prelude.{◌≡◌};
ghost use Rattle.node_rules.specs.Scopes.{cells_of};

use nodes::kind::Kind;
use nodes::node::Node;

/// The cells of a variable: one for a scalar, its length for an array; none for another node, or a length past 32 bits.
pub fn cells_of(node: Node) -> u32
    ensures { result ≡ cells_of node }
{
    match node.kind {
        Kind::ScalarDeclaration | Kind::Parameter => 1,
        Kind::ArrayDeclaration => {
            i32::try_from(node.value).map_or(0, |length| length.max(0) as u32)
        }
        _ => 0,
    }
}
