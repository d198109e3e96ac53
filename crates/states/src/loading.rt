ghost use Rattle.std.specs.Prelude.{◌≡◌};

use crate::forwarding::Forwarding;
use crate::staged::Staged;
use table::interface::Table;

// The state of a stack that is being loaded.
pub struct Loads;

// A stack that is being loaded: it takes announcements, withdrawals and fetches, and no lookup.
pub type Loading<T> = Staged<T, Loads>;

impl<T: Table> Staged<T, Loads> {
    // A stack starts in this state.
    pub fn new(table: T) -> Loading<T>
        ensures { result.table ≡ table }
    {
        Staged::of(table)
    }

    // Opens the stack: the very same one, and from now on it takes lookups. There is no other way to a forwarding stack.
    pub fn open(self) -> Forwarding<T>
        ensures { result.table ≡ self.table }
    {
        Staged::of(self.into_table())
    }
}
