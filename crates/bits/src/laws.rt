ghost use Rattle.bits.specs.Laws.{OrderLaws, CoverLaws};

// The order of prefixes is one order, by address and then by length.
pub fn order_laws() -> u8
    ensures { OrderLaws }
{
    0
}

// A prefix covers what starts with its bits, and the common prefix is the longest that covers both.
pub fn cover_laws() -> u8
    ensures { CoverLaws }
{
    0
}
