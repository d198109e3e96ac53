ghost use Rattle.std.specs.Prelude.{◌≡◌, ℕ, ◌≤◌, false, [], ◌∷◌, is_ok, ◌==◌};
ghost use Rattle.model.specs.Laws.{Sound};
ghost use Rattle.model.specs.Longest.{answer};
ghost use Rattle.model.specs.Machine.{Plane, Room, on, announce, withdraw};
ghost use Rattle.model.specs.Maps.{held};
ghost use Rattle.model.specs.Room.{RoomLaw};
ghost use Rattle.model.specs.Single.{Single};
ghost use Rattle.model.specs.Stack.{table as leaf};
ghost use Rattle.model.specs.Tables.{plain};
ghost use Rattle.model.proofs.OnePlane.{one_described};
ghost use Rattle.model.proofs.SoundLaws.{plain_local};
ghost use Rattle.table.specs.Meaning.{of_update, as_hop, as_answer};

use crate::calls::Refusal;
use crate::interface::Table;
use address::kind::Address;

// A table of one plane, number 0, that is visible as it is. It gives what it does with that plane, and has the table interface.
pub trait OnePlane {
    type Kind: Address;

    // the plane
    ghost routes: { Self → Plane };
    // which maps fit it
    ghost room: { Self → Room };
    // the storage is well-formed
    ghost well: { Self → Type 0 };

    // laws, which each implementation proves
    ghost roomy: { (s : Self) (i : ℕ) → RoomLaw (room s i) };

    ghost sound: { (s : Self) → well s → Sound (room s) (routes s ∷ []) };

    // Puts the prefix with this hop in, in the place of an older hop.
    fn insert(
        &mut self,
        prefix: <Self::Kind as Address>::Prefix,
        hop: Self::Kind,
    ) -> Result<(), Refusal>
        requires { well self.old }
        ensures well { well self.new }
        ensures room { room self.new ≡ room self.old }
        ensures plane { Single (room self.old) (routes self.old) (routes self.new) (on 0 (announce (Self.Kind.Address.pbits prefix) (Self.Kind.Address.bits hop))) (of_update result) }
        ensures refused { is_ok result ≡ false → self.new ≡ self.old };

    // Takes the prefix out.
    fn remove(&mut self, prefix: <Self::Kind as Address>::Prefix) -> Result<(), Refusal>
        requires { well self.old }
        ensures well { well self.new }
        ensures room { room self.new ≡ room self.old }
        ensures plane { Single (room self.old) (routes self.old) (routes self.new) (on 0 (withdraw (Self.Kind.Address.pbits prefix))) (of_update result) }
        ensures refused { is_ok result ≡ false → self.new ≡ self.old };

    // The hop of the prefix, if it is held.
    fn hop_of(&self, prefix: <Self::Kind as Address>::Prefix) -> Option<Self::Kind>
        requires { well self.now }
        ensures { as_hop Self.Kind.Address.bits result ≡ held (routes self.now) (Self.Kind.Address.pbits prefix) };

    // The length and hop of the longest prefix that covers the address and is no longer than the bound.
    fn longest(&self, address: Self::Kind, bound: u8) -> Option<(u8, Self::Kind)>
        requires well { well self.now }
        requires within { bound ≤ Self.Kind.Address.WIDTH }
        ensures { as_answer Self.Kind.Address.bits result ≡ answer (held (routes self.now)) (Self.Kind.Address.bits address) bound };
}

// How many planes there are.
const PLANES: u16 = 1;

// Whether the table has the plane.
fn has_plane(plane: u16) -> bool
    ensures { result ≡ (plane == 0) }
{
    plane < PLANES
}

impl<S: OnePlane> Table for S {
    type Addr = S::Kind;

    ghost planes = { λ s. S.OnePlane.routes s ∷ [] };

    ghost view = { λ s. plain };

    ghost room = { λ s. S.OnePlane.room s };

    ghost stack = { λ s. leaf (S.OnePlane.routes s ∷ []) plain (S.OnePlane.room s) };

    ghost valid = { λ s. S.OnePlane.well s };

    ghost described = { λ s. one_described (S.OnePlane.routes s) (S.OnePlane.room s) };

    ghost local = { λ s. plain_local };

    ghost roomy = { λ s. S.OnePlane.roomy s };

    ghost sound = { λ s v. S.OnePlane.sound s v };

    ghost current = { λ s v. tt };

    fn plane_count(&self) -> u16 {
        PLANES
    }

    fn announce(
        &mut self,
        plane: u16,
        prefix: <S::Kind as Address>::Prefix,
        hop: S::Kind,
    ) -> Result<(), Refusal> {
        if !has_plane(plane) {
            return Err(Refusal::NoPlane);
        }
        self.insert(prefix, hop)
    }

    fn withdraw(
        &mut self,
        plane: u16,
        prefix: <S::Kind as Address>::Prefix,
    ) -> Result<(), Refusal> {
        if !has_plane(plane) {
            return Err(Refusal::NoPlane);
        }
        self.remove(prefix)
    }

    fn fetch(
        &mut self,
        plane: u16,
        prefix: <S::Kind as Address>::Prefix,
    ) -> Result<Option<S::Kind>, Refusal> {
        if !has_plane(plane) {
            return Err(Refusal::NoPlane);
        }
        Ok(self.hop_of(prefix))
    }

    fn lookup(&mut self, address: S::Kind, bound: u8) -> Result<Option<(u8, S::Kind)>, Refusal> {
        if bound > S::Kind::WIDTH {
            return Err(Refusal::BoundTooLong);
        }
        Ok(self.longest(address, bound))
    }
}
