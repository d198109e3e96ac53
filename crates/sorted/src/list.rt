ghost use Rattle.std.specs.Prelude.{◌≡◌, ◌≤◌, false, [], length, take, is_ok};
ghost use Rattle.std.specs.List.{slice_get};
ghost use Rattle.bits.specs.Halves.{front, Aligned, Fit};
ghost use Rattle.model.specs.Tables.{usable, rows_room};
ghost use Rattle.model.proofs.RoomLaws.{rows_room as rows_law};
ghost use Rattle.model.proofs.OnePlane.{rows_sound};
ghost use Rattle.sorted.specs.Rows.{key, route_of, routes, as_route, RowOk, WellFormed};
ghost use Rattle.sorted.specs.Places.{InOrder, Inserted, Removed};

use crate::row::Row;
use crate::search::{best, find, place_of};
use crate::shift::{insert_at, remove_at};
use address::kind::Address;
use bits::front::Front;
use bits::halves::Halves;
use std::marker::PhantomData;
use table::borrowed::{hop_in, room_in};
use table::calls::Refusal;
use table::one_plane::OnePlane;

// A sorted list of routes in borrowed rows: the first `used` hold one route each, in rising order of their prefixes.
// A rule of the project: the rows are borrowed, so their number in use stands beside them, and that they are well-formed is a premise.
#[derive(Drop)]
pub struct Sorted<'a, A: Address> {
    rows: &'a mut [Row],
    used: usize,
    kind: PhantomData<A>,
}

impl<'a, A: Address> Sorted<'a, A> {
    // An empty list in these rows, whatever they hold.
    pub fn new(rows: &'a mut [Row]) -> Sorted<'a, A>
        ensures valid { WellFormed A.Address.WIDTH result.used result.rows.now }
        ensures empty { routes A.Address.WIDTH result.used result.rows.now ≡ [] }
        ensures room { rows_room (length result.rows.now) ≡ rows_room (length rows.old) }
        ensures rows { result.rows.now ≡ rows.old }
    {
        Sorted {
            rows,
            used: 0,
            kind: PhantomData,
        }
    }

    // The rows, as they stand.
    pub fn into_rows(self) -> &'a mut [Row]
        ensures { result.now ≡ self.entry.rows.now }
    {
        let Sorted {
            rows,
            used: _,
            kind: _,
        } = self;
        rows
    }

    // How many routes there are.
    #[tactic(auto, using(crate::proofs::Planes::each_one))]
    pub fn route_count(&self) -> usize
        requires { WellFormed A.Address.WIDTH self.now.used self.now.rows.now }
        ensures { result ≡ length (routes A.Address.WIDTH self.now.used self.now.rows.now) }
    {
        self.used // each row in use holds one route
    }

    // The route at place `i` of the order, from 0, if there are so many.
    #[tactic(auto, using(crate::proofs::Nth::nth_here, crate::proofs::Nth::nth_past))]
    pub fn route(&self, i: usize) -> Option<(A::Prefix, A)>
        requires { WellFormed A.Address.WIDTH self.now.used self.now.rows.now }
        ensures { as_route A.Address.bits A.Address.pbits result ≡ slice_get (routes A.Address.WIDTH self.now.used self.now.rows.now) i }
    {
        let row = *self.in_use().get(i)?;
        Some((prefix_of::<A>(row), next_hop(row)))
    }

    // The rows in use.
    fn in_use(&self) -> &[Row]
        requires { WellFormed A.Address.WIDTH self.now.used self.now.rows.now }
        ensures rows { result.now ≡ take self.now.used self.now.rows.now }
        ensures rising { InOrder result.now }
    {
        &self.rows[..self.used]
    }

    // Puts the row in the place of the row of its prefix, or else between the others if there is room.
    #[tactic(auto, using(crate::proofs::Editing::written, crate::proofs::Editing::entered))]
    fn put_row(&mut self, row: Row) -> Result<(), Refusal>
        requires valid { WellFormed A.Address.WIDTH self.old.used self.old.rows.now }
        requires proper { RowOk A.Address.WIDTH row }
        ensures long { length self.new.rows.now ≡ length self.old.rows.now }
        ensures put { Inserted (usable (length self.old.rows.now)) row self.old.used self.old.rows.now self.new.used self.new.rows.now result }
        ensures refused { is_ok result ≡ false → self.new ≡ self.old }
    {
        match place_of(self.in_use(), row.prefix) {
            Ok(i) => self.rows[i] = row,
            Err(i) => {
                if self.used == room_in(self.rows.len()) {
                    return Err(Refusal::NoRoom);
                }
                insert_at(self.rows, i, self.used, row);
                self.used += 1;
            }
        }
        Ok(())
    }

    // Takes the row of the prefix out.
    #[tactic(auto, using(crate::proofs::Editing::taken, crate::proofs::Editing::some_used, crate::proofs::Editing::was_held))]
    fn take_row(&mut self, prefix: Front) -> Result<(), Refusal>
        requires valid { WellFormed A.Address.WIDTH self.old.used self.old.rows.now }
        requires short { prefix.len ≤ 128 }
        ensures long { length self.new.rows.now ≡ length self.old.rows.now }
        ensures taken { Removed (front prefix.len prefix.bits) self.old.used self.old.rows.now self.new.used self.new.rows.now result }
        ensures refused { is_ok result ≡ false → self.new ≡ self.old }
    {
        let Ok(i) = place_of(self.in_use(), prefix) else {
            return Err(Refusal::NotHeld);
        };
        remove_at(self.rows, i, self.used);
        self.used -= 1;
        Ok(())
    }
}

// The bits of the prefix.
#[tactic(auto, using(bits::proofs::Fronts::prefix_front, crate::proofs::Calls::start_clear))]
fn front_of<A: Address>(prefix: A::Prefix) -> Front
    ensures bits { front result.len result.bits ≡ A.Address.pbits prefix }
    ensures short { result.len ≤ A.Address.WIDTH }
    ensures clear { Aligned result.len result.bits }
    ensures fits { Fit result.bits }
{
    A::front(prefix)
}

// The row of the prefix with this hop.
fn row_of<A: Address>(prefix: A::Prefix, hop: A) -> Row
    ensures key { key result ≡ A.Address.pbits prefix }
    ensures hop { front A.Address.WIDTH result.hop ≡ A.Address.bits hop }
    ensures proper { RowOk A.Address.WIDTH result }
{
    Row {
        prefix: front_of::<A>(prefix),
        hop: hop.to_halves(),
    }
}

// The prefix of a row.
#[tactic(auto, using(bits::proofs::Fronts::aligned_wider, crate::proofs::Nth::never_refused))]
fn prefix_of<A: Address>(row: Row) -> A::Prefix
    requires { RowOk A.Address.WIDTH row }
    ensures { A.Address.pbits result ≡ key row }
{
    let Ok(prefix) = address_in::<A>(row.prefix.bits).prefix(row.prefix.len) else {
        unreachable()
    };
    prefix
}

// The next hop of a row.
fn next_hop<A: Address>(row: Row) -> A
    requires { RowOk A.Address.WIDTH row }
    ensures { A.Address.bits result ≡ front A.Address.WIDTH row.hop }
{
    address_in(row.hop)
}

// The address in these halves.
fn address_in<A: Address>(halves: Halves) -> A
    requires clear { Aligned A.Address.WIDTH halves }
    requires fits { Fit halves }
    ensures { A.Address.bits result ≡ front A.Address.WIDTH halves }
{
    hop_in(halves)
}

impl<'a, A: Address> OnePlane for Sorted<'a, A> {
    type Kind = A;

    ghost routes = { λ s. routes A.Address.WIDTH s.used s.rows.now };

    ghost room = { λ s. rows_room (length s.rows.now) };

    ghost well = { λ s. WellFormed A.Address.WIDTH s.used s.rows.now };

    ghost roomy = { λ s i. rows_law (usable (length s.rows.now)) };

    ghost sound = { λ s v. rows_sound (route_of A.Address.WIDTH) (length s.rows.now) s.used s.rows.now v.few v.rising };

    fn insert(&mut self, prefix: A::Prefix, hop: A) -> Result<(), Refusal> {
        self.put_row(row_of(prefix, hop))
    }

    fn remove(&mut self, prefix: A::Prefix) -> Result<(), Refusal> {
        self.take_row(front_of::<A>(prefix))
    }

    #[tactic(auto, using(crate::proofs::Calls::fetched, crate::proofs::Calls::none_fetched))]
    fn hop_of(&self, prefix: A::Prefix) -> Option<A> {
        let row = find(self.in_use(), front_of::<A>(prefix))?;
        Some(next_hop(row))
    }

    fn longest(&self, address: A, bound: u8) -> Option<(u8, A)> {
        let sought = Front {
            bits: address.to_halves(),
            len: bound,
        };
        let rows = self.in_use();
        let row = rows[best(rows, sought)?];
        Some((row.prefix.len, next_hop(row)))
    }
}
