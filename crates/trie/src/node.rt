ghost use Rattle.std.specs.Prelude.{◌≡◌};
ghost use Rattle.trie.specs.Nodes.{blank as unused};

use bits::front::Front;
use bits::halves::Halves;

// A node: its prefix, the next hop of its route (a branch has none), and the slots of the nodes below it, the
// left one for the next bit 0 and the right one for the next bit 1.
#[derive(Clone, Copy, PartialEq, Eq, Debug)]
pub struct Node {
    pub prefix: Front,
    pub hop: Option<Halves>,
    pub left: Option<u16>,
    pub right: Option<u16>,
}

impl Node {
    // A node to make an array of.
    pub fn blank() -> Node
        ensures { result ≡ unused }
    {
        let zero = Halves { hi: 0, lo: 0 };
        Node {
            prefix: Front { bits: zero, len: 0 },
            hop: None,
            left: None,
            right: None,
        }
    }
}
