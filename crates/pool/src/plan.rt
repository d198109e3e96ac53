ghost use Rattle.std.specs.Prelude.{◌≡◌, ◌+◌, ◌≤◌, length, Some, nat_le};
ghost use Rattle.trie.specs.Trie.{Compressed};
ghost use Rattle.pool.specs.Plans.{Meets, Suits, wanted as nodes_wanted, Planned};

use bits::halves::Halves;
use trie::node::Node;
use trie::search::{End, seek};

// How a prefix stands to that of the node where the search for it ends.
#[derive(Clone, Copy, PartialEq, Eq, Debug)]
pub enum Meeting {
    // it is the same
    Same,
    // it goes on from the node's
    Below,
    // the node's goes on from it
    Above,
    // they part
    Apart,
}

// How prefixes of so many bits stand to one another that have the first `shared` bits in common.
fn meet(node: u8, key: u8, shared: u8) -> Meeting
    ensures { Meets node key shared result }
{
    match (shared < node, shared < key) {
        (false, false) => Meeting::Same,
        (false, true) => Meeting::Below,
        (true, false) => Meeting::Above,
        (true, true) => Meeting::Apart,
    }
}

// What a new route does to the trie, with the place where the search for it ended.
#[derive(Clone, Copy, PartialEq, Eq, Debug)]
pub enum Plan {
    // it is the first node of all
    Root,
    // its prefix has a node, of a route or a branch, which takes the hop
    Set(End),
    // it is a leaf beneath that node
    Leaf(End),
    // it is put above that node, on the edge that leads there
    Middle(End),
    // it parts from that node: a branch is put above both
    Fork(End),
}

impl Plan {
    // How many nodes it takes.
    fn wanted(self) -> usize
        ensures { result ≡ nodes_wanted self }
    {
        match self {
            Plan::Root => 1,
            Plan::Set(_) => 0,
            Plan::Leaf(_) => 1,
            Plan::Middle(_) => 1,
            Plan::Fork(_) => 2,
        }
    }
}

// How the prefix of `key` goes into the trie.
fn suited(ns: &[Node], key: &Node) -> Plan
    requires trie { Compressed ns.now (length ns.now) }
    requires short { key.now.prefix.len ≤ 128 }
    ensures { Suits ns.now (length ns.now) key.now result }
{
    if ns.is_empty() {
        return Plan::Root;
    }
    let end = seek(ns, key);
    match meet(ns[end.slot].prefix.len, key.prefix.len, end.shared) {
        Meeting::Same => Plan::Set(end),
        Meeting::Below => Plan::Leaf(end),
        Meeting::Above => Plan::Middle(end),
        Meeting::Apart => Plan::Fork(end),
    }
}

// Whether the pool has room for so many nodes more.
fn has_room(used: usize, room: usize, more: usize) -> bool
    requires { used ≤ room }
    ensures { result ≡ nat_le (used + more) room }
{
    more <= room - used
}

// How the route of `key` to the hop goes into the trie, or none where there is no room for it.
pub fn decide(ns: &[Node], used: usize, room: usize, key: &Node, hop: Halves) -> Option<Plan>
    requires trie { Compressed ns.now used }
    requires fits { used ≤ room }
    requires short { key.now.prefix.len ≤ 128 }
    requires some { key.now.hop ≡ Some hop }
    ensures { Planned ns.now used room key.now hop result }
{
    let plan = suited(&ns[..used], key);
    if has_room(used, room, plan.wanted()) {
        Some(plan)
    } else {
        None
    }
}
