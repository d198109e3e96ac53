ghost use Rattle.std.specs.Prelude.{◌≡◌, ◌≤◌, [], length};
ghost use Rattle.model.specs.Room.{nodes as nodes_of};
ghost use Rattle.model.specs.Tables.{usable, nodes_room};
ghost use Rattle.model.specs.Stack.{table as leaf};
ghost use Rattle.model.proofs.RoomLaws.{nodes_room as nodes_law};
ghost use Rattle.trie.specs.Nodes.{key as prefix_of, routes};
ghost use Rattle.trie.specs.Trie.{Leaf};
ghost use Rattle.trie.specs.Well.{WellFormed};
ghost use Rattle.trie.proofs.Planes.{plane_sound};

use address::kind::Address;
use bits::front::Front;
use bits::halves::Halves;
use pool::edit::{insert, remove};
use std::marker::PhantomData;
use table::borrowed::{hop_in, room_in};
use table::calls::Refusal;
use table::one_plane::OnePlane;
use trie::links::unlinked;
use trie::node::Node;
use trie::search::{best, find};

// A PATRICIA table in borrowed nodes: the first `used` are one for each route and one for each branch, the root in slot 0.
// A rule of the project: the nodes are borrowed, so their number in use stands beside them, and that they are well-formed is a premise.
// It is made and given back as the sorted list is; one type for both would name the two meanings of storage in each of its clauses.
#[derive(Drop)]
pub struct Patricia<'a, A: Address> {
    nodes: &'a mut [Node],
    used: usize,
    kind: PhantomData<A>,
}

impl<'a, A: Address> Patricia<'a, A> {
    // An empty table in these nodes, whatever they hold.
    pub fn new(nodes: &'a mut [Node]) -> Patricia<'a, A>
        ensures valid { WellFormed A.Address.WIDTH result.used result.nodes.now }
        ensures empty { routes A.Address.WIDTH result.used result.nodes.now ≡ [] }
        ensures room { nodes_room (length result.nodes.now) ≡ nodes_room (length nodes.old) }
        ensures nodes { result.nodes.now ≡ nodes.old }
    {
        Patricia {
            nodes,
            used: 0,
            kind: PhantomData,
        }
    }

    // The nodes, as they stand.
    pub fn into_nodes(self) -> &'a mut [Node]
        ensures { result.now ≡ self.entry.nodes.now }
    {
        let Patricia {
            nodes,
            used: _,
            kind: _,
        } = self;
        nodes
    }

    // How many nodes are in use: as many as there are routes and branches.
    pub fn node_count(&self) -> usize
        requires { WellFormed A.Address.WIDTH self.now.used self.now.nodes.now }
        ensures { result ≡ nodes_of (routes A.Address.WIDTH self.now.used self.now.nodes.now) }
    {
        self.used // each node in use is of a route or a branch
    }
}

// A node for the prefix, with nothing beneath it.
fn key_of<A: Address>(prefix: A::Prefix, hop: Option<Halves>) -> Node
    ensures prefix { prefix_of result ≡ A.Address.pbits prefix }
    ensures short { result.prefix.len ≤ 128 }
    ensures hop { result.hop ≡ hop }
    ensures leaf { Leaf result }
{
    unlinked(A::front(prefix), hop)
}

impl<'a, A: Address> OnePlane for Patricia<'a, A> {
    type Kind = A;

    ghost routes = { λ s. routes A.Address.WIDTH s.used s.nodes.now };

    ghost room = { λ s. nodes_room (length s.nodes.now) };

    ghost well = { λ s. WellFormed A.Address.WIDTH s.used s.nodes.now };

    ghost roomy = { λ s i. nodes_law (usable (length s.nodes.now)) };

    ghost sound = { λ s v. plane_sound A.Address.WIDTH s.used s.nodes.now v };

    fn insert(&mut self, prefix: A::Prefix, hop: A) -> Result<(), Refusal> {
        let halves = hop.to_halves();
        let key = key_of::<A>(prefix, Some(halves));
        let nodes = self.nodes.len();
        let room = room_in(nodes);
        self.used = insert(self.nodes, self.used, room, key, halves).ok_or(Refusal::NoRoom)?;
        Ok(())
    }

    fn remove(&mut self, prefix: A::Prefix) -> Result<(), Refusal> {
        let key = key_of::<A>(prefix, None);
        self.used = remove(self.nodes, self.used, &key).ok_or(Refusal::NotHeld)?;
        Ok(())
    }

    fn hop_of(&self, prefix: A::Prefix) -> Option<A> {
        let key = key_of::<A>(prefix, None);
        let hop = find(&self.nodes[..self.used], &key)?;
        Some(hop_in(hop))
    }

    fn longest(&self, address: A, bound: u8) -> Option<(u8, A)> {
        let sought = Front {
            bits: address.to_halves(),
            len: bound,
        };
        let slot = best(&self.nodes[..self.used], sought)?;
        let node = self.nodes[slot];
        let hop = node.hop?;
        Some((node.prefix.len, hop_in(hop)))
    }
}
