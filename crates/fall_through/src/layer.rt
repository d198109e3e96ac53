ghost use Rattle.std.specs.Prelude.{◌≡◌, ◌-◌, ◌≤◌, ◌++◌, false, length, is_ok, IfOk, MatchResult, SomeIff, nat_le};
ghost use Rattle.model.specs.Laws.{Does};
ghost use Rattle.model.specs.Longest.{answer};
ghost use Rattle.model.specs.Machine.{on, announce, withdraw, fetch, lookup};
ghost use Rattle.model.specs.Stack.{fall, fall_view, fall_room};
ghost use Rattle.table.specs.Meaning.{of_update, of_fetch, of_lookup};
ghost use Rattle.fall_through.specs.Others.{OtherStays, LowerStays};
ghost use Rattle.model.proofs.FallLaws.{fall_described, fall_local, fall_roomy, fall_sound};

use crate::planes::{few_enough, together};
use crate::refusal::TooManyPlanes;
use address::kind::Address;
use table::calls::Refusal;
use table::interface::Table;

// A fall-through: the upper table's planes, then the lower's.
#[derive(Drop)]
pub struct FallThrough<U: Table, L: Table<Addr = U::Addr>> {
    upper: U,
    lower: L,
}

impl<U: Table, L: Table<Addr = U::Addr>> Table for FallThrough<U, L> {
    type Addr = U::Addr;

    ghost planes = { λ s. U.Table.planes s.upper ++ L.Table.planes s.lower };

    ghost view = { λ s. fall_view (length (U.Table.planes s.upper)) (U.Table.view s.upper) (L.Table.view s.lower) };

    ghost room = { λ s. fall_room (length (U.Table.planes s.upper)) (U.Table.room s.upper) (L.Table.room s.lower) };

    ghost stack = { λ s. fall (U.Table.stack s.upper) (L.Table.stack s.lower) };

    ghost valid = { λ s. U.Table.valid s.upper × L.Table.valid s.lower × (length (U.Table.planes s.upper ++ L.Table.planes s.lower) ≤ 8) };

    ghost described = { λ s. fall_described (U.Table.described s.upper) (L.Table.described s.lower) };

    ghost local = { λ s. fall_local (length (U.Table.planes s.upper)) (U.Table.view s.upper) (L.Table.view s.lower) (U.Table.local s.upper) (L.Table.local s.lower) };

    ghost roomy = { λ s. fall_roomy (length (U.Table.planes s.upper)) (U.Table.room s.upper) (L.Table.room s.lower) (U.Table.roomy s.upper) (L.Table.roomy s.lower) };

    ghost sound = { λ s g. fall_sound (U.Table.room s.upper) (L.Table.room s.lower) (U.Table.planes s.upper) (L.Table.planes s.lower) (U.Table.sound s.upper g.0) (L.Table.sound s.lower g.1) g.2 };

    ghost current = { λ s g. (U.Table.current s.upper g.0, L.Table.current s.lower g.1) };

    fn plane_count(&self) -> u16 {
        together(self.upper.plane_count(), self.lower.plane_count())
    }

    fn announce(
        &mut self,
        plane: u16,
        prefix: <U::Addr as Address>::Prefix,
        hop: U::Addr,
    ) -> Result<(), Refusal>
        requires { ⟦<FallThrough<U, L> as Table>⟧.valid self.old }
        ensures valid { ⟦<FallThrough<U, L> as Table>⟧.valid self.new }
        ensures does { Does ⟦<FallThrough<U, L> as Table>⟧.planes ⟦<FallThrough<U, L> as Table>⟧.view ⟦<FallThrough<U, L> as Table>⟧.room ⟦<FallThrough<U, L> as Table>⟧.stack self.old self.new (on plane (announce (U.Addr.Address.pbits prefix) (U.Addr.Address.bits hop))) (of_update result) }
        ensures refused { is_ok result ≡ false → self.new ≡ self.old }
        ensures other { OtherStays (length (U.Table.planes self.old.upper)) plane (self.new.upper ≡ self.old.upper) (self.new.lower ≡ self.old.lower) }
    {
        match self.lower_plane(plane) {
            None => self.upper.announce(plane, prefix, hop),
            Some(i) => self.lower.announce(i, prefix, hop),
        }
    }

    fn withdraw(&mut self, plane: u16, prefix: <U::Addr as Address>::Prefix) -> Result<(), Refusal>
        requires { ⟦<FallThrough<U, L> as Table>⟧.valid self.old }
        ensures valid { ⟦<FallThrough<U, L> as Table>⟧.valid self.new }
        ensures does { Does ⟦<FallThrough<U, L> as Table>⟧.planes ⟦<FallThrough<U, L> as Table>⟧.view ⟦<FallThrough<U, L> as Table>⟧.room ⟦<FallThrough<U, L> as Table>⟧.stack self.old self.new (on plane (withdraw (U.Addr.Address.pbits prefix))) (of_update result) }
        ensures refused { is_ok result ≡ false → self.new ≡ self.old }
        ensures other { OtherStays (length (U.Table.planes self.old.upper)) plane (self.new.upper ≡ self.old.upper) (self.new.lower ≡ self.old.lower) }
    {
        match self.lower_plane(plane) {
            None => self.upper.withdraw(plane, prefix),
            Some(i) => self.lower.withdraw(i, prefix),
        }
    }

    fn fetch(
        &mut self,
        plane: u16,
        prefix: <U::Addr as Address>::Prefix,
    ) -> Result<Option<U::Addr>, Refusal>
        requires { ⟦<FallThrough<U, L> as Table>⟧.valid self.old }
        ensures valid { ⟦<FallThrough<U, L> as Table>⟧.valid self.new }
        ensures does { Does ⟦<FallThrough<U, L> as Table>⟧.planes ⟦<FallThrough<U, L> as Table>⟧.view ⟦<FallThrough<U, L> as Table>⟧.room ⟦<FallThrough<U, L> as Table>⟧.stack self.old self.new (on plane (fetch (U.Addr.Address.pbits prefix))) (of_fetch U.Addr.Address.bits result) }
        ensures refused { is_ok result ≡ false → self.new ≡ self.old }
        ensures other { OtherStays (length (U.Table.planes self.old.upper)) plane (self.new.upper ≡ self.old.upper) (self.new.lower ≡ self.old.lower) }
    {
        match self.lower_plane(plane) {
            None => self.upper.fetch(plane, prefix),
            Some(i) => self.lower.fetch(i, prefix),
        }
    }

    // Asks the upper table, and the lower where the upper has none.
    fn lookup(&mut self, address: U::Addr, bound: u8) -> Result<Option<(u8, U::Addr)>, Refusal>
        requires { ⟦<FallThrough<U, L> as Table>⟧.valid self.old }
        ensures valid { ⟦<FallThrough<U, L> as Table>⟧.valid self.new }
        ensures does { Does ⟦<FallThrough<U, L> as Table>⟧.planes ⟦<FallThrough<U, L> as Table>⟧.view ⟦<FallThrough<U, L> as Table>⟧.room ⟦<FallThrough<U, L> as Table>⟧.stack self.old self.new (lookup (U.Addr.Address.bits address) bound) (of_lookup U.Addr.Address.bits result) }
        ensures refused { is_ok result ≡ false → self.new ≡ self.old }
        ensures lower { LowerStays (answer (U.Table.view self.old.upper (U.Table.planes self.old.upper)) (U.Addr.Address.bits address) bound) (self.new.lower ≡ self.old.lower) }
    {
        match self.upper.lookup(address, bound)? {
            Some(found) => Ok(Some(found)),
            None => self.lower.lookup(address, bound),
        }
    }
}

impl<U: Table, L: Table<Addr = U::Addr>> FallThrough<U, L> {
    // Puts the upper table over the lower one, or hands both back where there would be more than eight planes.
    // The layer's planes, view, room and stack are the fall-through of those handed in.
    pub fn new(upper: U, lower: L) -> Result<FallThrough<U, L>, TooManyPlanes<U, L>>
        requires upper { U.Table.valid upper }
        requires lower { L.Table.valid lower }
        ensures when { is_ok result ≡ nat_le (length (U.Table.planes upper ++ L.Table.planes lower)) 8 }
        ensures parts { MatchResult result (λ f. (f.upper ≡ upper) × (f.lower ≡ lower)) (λ e. (e.upper ≡ upper) × (e.lower ≡ lower)) }
        ensures planes { IfOk result (λ f. U.Table.planes f.upper ++ L.Table.planes f.lower ≡ U.Table.planes upper ++ L.Table.planes lower) }
        ensures view { IfOk result (λ f. fall_view (length (U.Table.planes f.upper)) (U.Table.view f.upper) (L.Table.view f.lower) ≡ fall_view (length (U.Table.planes upper)) (U.Table.view upper) (L.Table.view lower)) }
        ensures room { IfOk result (λ f. fall_room (length (U.Table.planes f.upper)) (U.Table.room f.upper) (L.Table.room f.lower) ≡ fall_room (length (U.Table.planes upper)) (U.Table.room upper) (L.Table.room lower)) }
        ensures stack { IfOk result (λ f. fall (U.Table.stack f.upper) (L.Table.stack f.lower) ≡ fall (U.Table.stack upper) (L.Table.stack lower)) }
        ensures valid { IfOk result (λ f. U.Table.valid f.upper × L.Table.valid f.lower × (length (U.Table.planes f.upper ++ L.Table.planes f.lower) ≤ 8)) }
    {
        if few_enough(upper.plane_count(), lower.plane_count()) {
            Ok(FallThrough { upper, lower })
        } else {
            Err(TooManyPlanes { upper, lower })
        }
    }

    // The number that the plane has in the lower table; none for a plane of the upper.
    fn lower_plane(&self, plane: u16) -> Option<u16>
        requires { U.Table.valid self.now.upper }
        ensures { SomeIff result (length (U.Table.planes self.now.upper) ≤ plane) (plane - length (U.Table.planes self.now.upper)) }
    {
        plane.checked_sub(self.upper.plane_count())
    }

    // The two tables, exactly as they stand.
    pub fn into_parts(self) -> (U, L)
        ensures { (result.0 ≡ self.upper) × (result.1 ≡ self.lower) }
    {
        let FallThrough { upper, lower } = self;
        (upper, lower)
    }

    pub fn upper(&self) -> &U
        ensures { result.now ≡ self.now.upper }
    {
        &self.upper
    }

    pub fn lower(&self) -> &L
        ensures { result.now ≡ self.now.lower }
    {
        &self.lower
    }
}
