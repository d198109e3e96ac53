// The smallest table, and the example for whoever writes another of one plane. It implements `OnePlane`, which gives it `Table`, by
// - `routes`: the prefix map that its storage stands for, here one of at most one route (`plane_of`);
// - `room`: which maps fit, here those of at most one route (`one_room`);
// - `well`: what the calls need of the storage, here nothing;
// - the laws `roomy` and `sound`, as terms: of the model's proofs, OnePlane and RoomLaws have them for tables of one plane, OneRoute for
//   planes of at most one route;
// - `insert`, `remove`, `hop_of` and `longest`, each proved with no more said, or by a lemma that it names.
// A table of more planes, or one that shows them otherwise, implements `Table` itself, as the layers do.
ghost use Rattle.std.specs.Prelude.{◌≡◌, ◌&&◌, [], ◌∷◌, length, nat_le, refl};
ghost use Rattle.bits.specs.Bits.{covers, equal};
ghost use Rattle.model.specs.Maps.{put};
ghost use Rattle.model.specs.Machine.{Hop};
ghost use Rattle.model.proofs.OneRoute.{few, few_sound};
ghost use Rattle.model.proofs.RoomLaws.{rows_room as rows_law};
ghost use Rattle.minimal.specs.Held.{plane_of, one_room};

use address::kind::Address;
use address::prefixes::{covers_address, order_prefixes};
use table::calls::Refusal;
use table::one_plane::OnePlane;

// A prefix with its next hop.
#[derive(Clone, Copy)]
pub struct Route<A, P> {
    prefix: P,
    hop: A,
}

// A table with room for one route.
#[derive(Drop)]
pub struct OneRoute<A: Address> {
    route: Option<Route<A, A::Prefix>>,
}

// Whether the two are one prefix.
fn is_same<A: Address>(p: A::Prefix, q: A::Prefix) -> bool
    ensures { result ≡ equal (A.Address.pbits p) (A.Address.pbits q) }
{
    order_prefixes::<A>(p, q).is_eq()
}

// Whether the prefix covers the address and is no longer than the bound.
fn matches<A: Address>(prefix: A::Prefix, address: A, bound: u8) -> bool
    ensures { result ≡ (nat_le (length (A.Address.pbits prefix)) bound && covers (A.Address.pbits prefix) (A.Address.bits address)) }
{
    A::len(prefix) <= bound && covers_address::<A>(prefix, address)
}

impl<A: Address> OneRoute<A> {
    // An empty table.
    pub fn new() -> OneRoute<A>
        ensures { plane_of A.Address.bits A.Address.pbits result.route ∷ [] ≡ [] ∷ [] }
    {
        OneRoute { route: None }
    }

    // Whether no more than one route is held once the prefix is announced.
    fn has_room(&self, prefix: A::Prefix) -> bool
        ensures { (h : Hop) → result ≡ one_room 0 (put (plane_of A.Address.bits A.Address.pbits self.now.route) (A.Address.pbits prefix) h) }
    {
        self.route
            .is_none_or(|route| is_same::<A>(prefix, route.prefix))
    }
}

impl<A: Address> OnePlane for OneRoute<A> {
    type Kind = A;

    ghost routes = { λ s. plane_of A.Address.bits A.Address.pbits s.route };

    ghost room = { λ s. one_room };

    ghost well = { λ s. Unit {0} };

    ghost roomy = { λ s i. rows_law 1 };

    ghost sound = { λ s v. few_sound (plane_of A.Address.bits A.Address.pbits s.route) (few (plane_of A.Address.bits A.Address.pbits) refl (λ r. refl) s.route) };

    fn insert(&mut self, prefix: A::Prefix, hop: A) -> Result<(), Refusal> {
        if !self.has_room(prefix) {
            return Err(Refusal::NoRoom);
        }
        self.route = Some(Route { prefix, hop });
        Ok(())
    }

    fn remove(&mut self, prefix: A::Prefix) -> Result<(), Refusal> {
        if self.hop_of(prefix).is_none() {
            return Err(Refusal::NotHeld);
        }
        self.route = None;
        Ok(())
    }

    fn hop_of(&self, prefix: A::Prefix) -> Option<A> {
        self.route
            .filter(|route| is_same::<A>(prefix, route.prefix))
            .map(|route| route.hop)
    }

    #[tactic(auto, using(crate::proofs::OneFound::answer_one))]
    fn longest(&self, address: A, bound: u8) -> Option<(u8, A)> {
        self.route
            .filter(|route| matches::<A>(route.prefix, address, bound))
            .map(|route| (A::len(route.prefix), route.hop))
    }
}
