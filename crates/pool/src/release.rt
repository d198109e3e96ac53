ghost use Rattle.std.specs.Prelude.{◌≡◌, ◌-◌, ◌<◌, ◌≤◌, Bool, ◌≢◌, length, None};
ghost use Rattle.trie.specs.Nodes.{at, child as next};
ghost use Rattle.trie.specs.Trie.{Trie, Leaf};
ghost use Rattle.trie.specs.Changes.{swapped, Moved, Parent, Loose, Pruned, Unlinked};

use trie::links::{child, child_without_jump, linked};
use trie::node::Node;

// The link from a slot on one side.
#[derive(Clone, Copy, PartialEq, Eq, Debug)]
pub struct Edge {
    pub slot: usize,
    pub side: bool,
}

// The link that leads to `slot`, which is not the root.
fn parent(ns: &[Node], slot: usize) -> Edge
    requires trie { Trie (at ns.now) (length ns.now) }
    requires slot { slot < length ns.now }
    requires lower { 0 < slot }
    ensures { Parent ns.now (length ns.now) slot result.slot result.side }
{
    let key = ns[slot].prefix.bits;
    let mut above = 0usize;
    loop {
        let node = &ns[above];
        let side = key.bit_at(node.prefix.len);
        let next = usize::from(child_without_jump(node, side).unwrap());
        if next == slot {
            return Edge { slot: above, side };
        }
        above = next;
    }
}

// Exchanges `slot`, which is not the root, with the last one in use; the links follow.
fn exchange(ns: &mut [Node], used: usize, slot: usize)
    requires trie { Trie (at ns.old) used }
    requires within { used ≤ length ns.old }
    requires slot { slot < used }
    requires lower { 0 < slot }
    ensures { Moved ns.old ns.new used slot (used - 1) }
{
    let last = used - 1;
    if slot == last {
        return;
    }
    let to_last = parent(&ns[..used], last);
    let to_slot = parent(&ns[..used], slot);
    ns[to_last.slot] = linked(ns[to_last.slot], to_last.side, Some(slot as u16));
    ns[to_slot.slot] = linked(ns[to_slot.slot], to_slot.side, Some(last as u16));
    ns.swap(slot, last);
}

// Where `slot` is once slots `a` and `b` have changed places.
fn moved(slot: usize, a: usize, b: usize) -> usize
    ensures { result ≡ swapped a b slot }
{
    if slot == a {
        b
    } else if slot == b {
        a
    } else {
        slot
    }
}

// Puts the one node beneath `slot`, which has no route, into its place. How many nodes are then in use.
fn pull(ns: &mut [Node], used: usize, slot: usize, side: bool) -> usize
    requires loose { Loose ns.old used slot }
    requires slot { slot < used }
    requires none { (at ns.old slot).hop ≡ None }
    requires one { next side (at ns.old slot) ≢ 65535 }
    requires other { (b : Bool) → b ≢ side → next b (at ns.old slot) ≡ 65535 }
    ensures { Pruned ns.old used ns.new result }
{
    let lower = usize::from(child(&ns[slot], side).unwrap());
    let last = used - 1;
    exchange(ns, used, lower);
    let to = moved(slot, lower, last);
    ns[to] = ns[last];
    last
}

// Takes `slot`, a leaf without a route, from under the node above it. The link that led there, now none.
fn unlink(ns: &mut [Node], used: usize, slot: usize) -> Edge
    requires loose { Loose ns.old used slot }
    requires slot { slot < used }
    requires lower { 0 < slot }
    requires none { (at ns.old slot).hop ≡ None }
    requires leaf { Leaf (at ns.old slot) }
    ensures { Unlinked ns.old used ns.new result.slot result.side }
{
    let edge = parent(&ns[..used], slot);
    let last = used - 1;
    exchange(ns, used, slot);
    let to = moved(edge.slot, slot, last);
    ns[to] = linked(ns[to], edge.side, None);
    Edge {
        slot: to,
        side: edge.side,
    }
}

// Releases `slot`, a leaf without a route, and the branch above it that is left with one node beneath. How many nodes are then in use.
fn remove_leaf(ns: &mut [Node], used: usize, slot: usize) -> usize
    requires loose { Loose ns.old used slot }
    requires slot { slot < used }
    requires none { (at ns.old slot).hop ≡ None }
    requires leaf { Leaf (at ns.old slot) }
    ensures { Pruned ns.old used ns.new result }
{
    if slot == 0 {
        return 0;
    }
    let edge = unlink(ns, used, slot);
    match ns[edge.slot].hop {
        Some(_) => used - 1,
        None => pull(ns, used - 1, edge.slot, !edge.side),
    }
}

// Releases `slot`, whose route is gone, unless it stays as a branch, and the branch above it that is left with one node beneath.
// How many nodes are then in use.
pub fn release(ns: &mut [Node], used: usize, slot: usize) -> usize
    requires loose { Loose ns.old used slot }
    requires slot { slot < used }
    requires none { (at ns.old slot).hop ≡ None }
    ensures { Pruned ns.old used ns.new result }
{
    match (ns[slot].left, ns[slot].right) {
        (Some(_), Some(_)) => used,
        (Some(_), None) => pull(ns, used, slot, false),
        (None, Some(_)) => pull(ns, used, slot, true),
        (None, None) => remove_leaf(ns, used, slot),
    }
}
