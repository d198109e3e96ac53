ghost use Rattle.std.specs.Prelude.{◌≡◌};
ghost use Rattle.trie.specs.Nodes.{link, with_child, unlinked as fresh};

use crate::node::Node;
use bits::front::Front;
use bits::halves::Halves;

// The link to the node beneath on the side of that bit, if there is one. By a jump for each side, which the processor foretells where a
// prefix is sought again, so that it need not wait for the bit.
pub fn child(node: &Node, side: bool) -> Option<u16>
    ensures { result ≡ link side node.now }
{
    if side {
        Some(node.right?)
    } else {
        Some(node.left?)
    }
}

// The same without a jump: the bits of the addresses that are looked up cannot be foretold.
pub fn child_without_jump(node: &Node, side: bool) -> Option<u16>
    ensures { result ≡ link side node.now }
{
    let link = if side { &node.right } else { &node.left };
    *link
}

// The node with another link on that side.
pub fn linked(node: Node, side: bool, link: Option<u16>) -> Node
    ensures { result ≡ with_child side node link }
{
    if side {
        Node {
            right: link,
            ..node
        }
    } else {
        Node { left: link, ..node }
    }
}

// A node with nothing beneath it.
pub fn unlinked(prefix: Front, hop: Option<Halves>) -> Node
    ensures { result ≡ fresh prefix hop }
{
    Node {
        prefix,
        hop,
        left: None,
        right: None,
    }
}
