ghost use Rattle.std.specs.Prelude.{◌≡◌, ◌<◌, ◌≤◌, ◌&&◌, length, None, ◌==◌, nat_le};
ghost use Rattle.bits.specs.Bits.{covers};
ghost use Rattle.bits.specs.Halves.{word, front};
ghost use Rattle.trie.specs.Nodes.{at, key as prefix_of, holds, unlinked as fresh};
ghost use Rattle.trie.specs.Trie.{Trie, Compressed};
ghost use Rattle.trie.specs.Search.{Found, Located, Stepped, First, Best};

use crate::links::{child, child_without_jump};
use crate::node::Node;
use bits::front::Front;
use bits::halves::Halves;

// Where a search for a prefix ends: a slot, and how many first bits its node has in common with the prefix.
#[derive(Clone, Copy, PartialEq, Eq, Debug)]
pub struct End {
    pub slot: usize,
    pub shared: u8,
}

// Whether two prefixes of so many bits are the same that have the first `shared` bits in common.
fn is_exact(node: u8, key: u8, shared: u8) -> bool
    ensures { result ≡ (shared == node && shared == key) }
{
    shared == node && shared == key
}

// Searches for the prefix of `key`, from the root down its bits.
pub fn seek(ns: &[Node], key: &Node) -> End
    requires trie { Trie (at ns.now) (length ns.now) }
    requires some { 0 < length ns.now }
    requires short { key.now.prefix.len ≤ 128 }
    ensures { Found (at ns.now) (length ns.now) key.now result.slot result.shared }
{
    let mut slot = 0usize;
    loop {
        let node = &ns[slot];
        let both = node.prefix.common_len(key.prefix);
        if both < node.prefix.len || both >= key.prefix.len {
            return End { slot, shared: both };
        }
        let Some(next) = child(node, key.prefix.bits.bit_at(both)) else {
            return End { slot, shared: both };
        };
        slot = usize::from(next);
    }
}

// The slot of the route of `key`, if the trie holds it.
pub fn locate(ns: &[Node], key: &Node) -> Option<usize>
    requires trie { Compressed ns.now (length ns.now) }
    requires short { key.now.prefix.len ≤ 128 }
    ensures { Located ns.now (length ns.now) (prefix_of key.now) result }
{
    if ns.is_empty() {
        return None;
    }
    let end = seek(ns, key);
    let node = &ns[end.slot];
    if is_exact(node.prefix.len, key.prefix.len, end.shared) && node.hop.is_some() {
        Some(end.slot)
    } else {
        None
    }
}

// The hop of the route of `key`, if the trie holds it.
pub fn find(ns: &[Node], key: &Node) -> Option<Halves>
    requires trie { Compressed ns.now (length ns.now) }
    requires short { key.now.prefix.len ≤ 128 }
    ensures { result ≡ holds ns.now (length ns.now) (prefix_of key.now) }
{
    let slot = locate(ns, key)?;
    ns[slot].hop
}

// Whether the prefix is that of the bits sought, or begins them.
fn matches(prefix: Front, sought: Front) -> bool
    requires { prefix.len ≤ 128 }
    ensures { result ≡ (nat_le prefix.len sought.len && covers (front prefix.len prefix.bits) (word sought.bits)) }
{
    prefix.len <= sought.len && prefix.covers(sought.bits)
}

// The slot of the node beneath that is next on the way of the bits sought; none where they go no further, or there is no node.
fn below(ns: &[Node], slot: usize, sought: Front) -> Option<usize>
    requires slot { slot < length ns.now }
    requires short { sought.len ≤ 128 }
    ensures { Stepped (at ns.now) (fresh sought None) slot result }
{
    let node = &ns[slot];
    let len = node.prefix.len;
    if len >= sought.len {
        return None;
    }
    child_without_jump(node, sought.bits.bit_at(len)).map(usize::from)
}

// The slot of the first route on the way of the bits sought from that slot on, if there is one: branches are passed unseen.
fn route(ns: &[Node], from: usize, sought: Front) -> Option<usize>
    requires trie { Compressed ns.now (length ns.now) }
    requires slot { from < length ns.now }
    requires short { sought.len ≤ 128 }
    ensures { First (at ns.now) (length ns.now) (fresh sought None) from result }
{
    let mut slot = from;
    loop {
        if ns[slot].hop.is_some() {
            return Some(slot);
        }
        slot = below(ns, slot, sought)?;
    }
}

// The slot of the longest route that begins the bits sought. Only at routes is the prefix compared: a route that does not match has none
// beneath it that does, and beneath a branch that does not match no route does.
pub fn best(ns: &[Node], sought: Front) -> Option<usize>
    requires trie { Compressed ns.now (length ns.now) }
    requires short { sought.len ≤ 128 }
    ensures { Best (at ns.now) (length ns.now) (fresh sought None) result }
{
    let mut known = None;
    if ns.is_empty() {
        return known;
    }
    let mut from = 0usize;
    loop {
        let Some(slot) = route(ns, from, sought) else {
            return known;
        };
        if !matches(ns[slot].prefix, sought) {
            return known;
        }
        known = Some(slot);
        let Some(next) = below(ns, slot, sought) else {
            return known;
        };
        from = next;
    }
}
