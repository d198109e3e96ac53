ghost use Rattle.std.specs.Prelude.{◌<◌, ◌≤◌, length};
ghost use Rattle.sorted.specs.Places.{PutIn, TakenOut};

use crate::row::Row;

// Puts the row in at place `i`, before the rows from there up to `used`, which move one place up.
pub fn insert_at(rows: &mut [Row], i: usize, used: usize, row: Row)
    requires place { i ≤ used }
    requires room { used < length rows.old }
    ensures { PutIn i used row rows.old rows.new }
{
    rows.copy_within(i..used, i + 1);
    rows[i] = row;
}

// Takes the row at place `i` out of the first `used`: those past it move one place down.
pub fn remove_at(rows: &mut [Row], i: usize, used: usize)
    requires place { i < used }
    requires within { used ≤ length rows.old }
    ensures { TakenOut i used rows.old rows.new }
{
    rows.copy_within(i + 1..used, i);
}
