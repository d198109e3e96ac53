ghost use Rattle.std.specs.Prelude.{◌≡◌, ◌≤◌, ◌&&◌, nat_le};
ghost use Rattle.bits.specs.Bits.{order, covers};
ghost use Rattle.bits.specs.Halves.{word, front, stands};
ghost use Rattle.sorted.specs.Rows.{key, unused};

use bits::front::Front;
use bits::halves::Halves;
use std::cmp::Ordering;

// A row of the list: a prefix with its next hop.
#[derive(Clone, Copy)]
pub struct Row {
    pub prefix: Front,
    pub hop: Halves,
}

impl Row {
    // A row to make an array of; the node of a trie has such a maker too, of its own fields.
    pub fn blank() -> Row
        ensures { result ≡ unused }
    {
        let zero = Halves { hi: 0, lo: 0 };
        Row {
            prefix: Front { bits: zero, len: 0 },
            hop: zero,
        }
    }

    // How the row stands to the prefix.
    pub(crate) fn order(self, prefix: Front) -> Ordering
        requires { prefix.len ≤ 128 }
        ensures { stands result ≡ order (key self) (front prefix.len prefix.bits) }
    {
        self.prefix.capped().order(prefix)
    }

    // Whether the row's prefix is that of the bits sought, or begins them.
    pub(crate) fn matches(self, sought: Front) -> bool
        requires { sought.len ≤ 128 }
        ensures { result ≡ (nat_le self.prefix.len sought.len && covers (key self) (word sought.bits)) }
    {
        self.prefix.len <= sought.len && self.prefix.covers(sought.bits)
    }
}
