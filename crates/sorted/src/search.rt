ghost use Rattle.std.specs.Prelude.{◌≡◌, ◌≤◌};
ghost use Rattle.bits.specs.Halves.{word, front};
ghost use Rattle.model.specs.Maps.{held};
ghost use Rattle.sorted.specs.Rows.{entries};
ghost use Rattle.sorted.specs.Places.{InOrder, Located, InMap, LastMatch};

use crate::row::Row;
use bits::front::Front;
use bits::halves::Halves;

// Where the prefix is among the rows: in the row at this place, or in none, and so many rows stand before it.
pub fn locate(rows: &[Row], prefix: Front) -> Result<usize, usize>
    requires rising { InOrder rows.now }
    requires short { prefix.len ≤ 128 }
    ensures { Located rows.now (front prefix.len prefix.bits) result }
{
    rows.binary_search_by(|row| row.order(prefix))
}

// Where the prefix is in the map that the rows are.
#[tactic(auto, using(crate::proofs::Entries::in_map))]
pub fn place_of(rows: &[Row], prefix: Front) -> Result<usize, usize>
    requires rising { InOrder rows.now }
    requires short { prefix.len ≤ 128 }
    ensures { InMap rows.now (front prefix.len prefix.bits) result }
{
    locate(rows, prefix)
}

// The row of the prefix, if there is one.
pub fn find(rows: &[Row], prefix: Front) -> Option<Row>
    requires rising { InOrder rows.now }
    requires short { prefix.len ≤ 128 }
    ensures { result ≡ held (entries rows.now) (front prefix.len prefix.bits) }
{
    let i = place_of(rows, prefix).ok()?;
    Some(rows[i])
}

// The last of the rows that is that of the bits sought, or begins them.
fn last_match(rows: &[Row], sought: Front) -> Option<usize>
    requires { sought.len ≤ 128 }
    ensures { LastMatch rows.now (word sought.bits) sought.len result }
{
    rows.iter().rposition(|row| row.matches(sought))
}

// The last of the rows that is that of the bits sought, or begins them: no row past their place does.
#[tactic(auto, using(crate::proofs::Reaching::reaches_held, crate::proofs::Reaching::reaches_absent))]
pub fn best(rows: &[Row], sought: Front) -> Option<usize>
    requires rising { InOrder rows.now }
    requires short { sought.len ≤ 128 }
    ensures { LastMatch rows.now (word sought.bits) sought.len result }
{
    match locate(rows, sought) {
        Ok(i) => last_match(&rows[..=i], sought),
        Err(i) => last_match(&rows[..i], sought),
    }
}
