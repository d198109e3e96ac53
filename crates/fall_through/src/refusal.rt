ghost use Rattle.std.specs.Prelude.{◌≡◌};
ghost use Rattle.fall_through.specs.Refusals.{number};

// The two tables have more than eight planes together; both are handed back.
#[derive(Drop)]
pub struct TooManyPlanes<U, L> {
    pub upper: U,
    pub lower: L,
}

impl<U, L> TooManyPlanes<U, L> {
    // The number under which the refusal is reported.
    // A method and no `From`: it is a fact about the refusal, which the refusal does not turn into.
    pub fn number(&self) -> u8
        ensures { result ≡ number self.now }
    {
        18
    }
}
