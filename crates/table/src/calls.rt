ghost use Rattle.std.specs.Prelude.{◌≡◌};
ghost use Rattle.table.specs.Meaning.{number};
ghost use Rattle.table.specs.declared.calls.Call.TheVariants.{Announce, Withdraw, Fetch, Lookup};

pub mod text;

// Why a call on a table is refused.
#[derive(Clone, Copy, PartialEq, Eq, Debug)]
pub enum Refusal {
    // the plane does not exist
    NoPlane,
    // the lookup's bound exceeds the address width
    BoundTooLong,
    // the prefix to withdraw is not held
    NotHeld,
    // the plane with the announced prefix would not fit
    NoRoom,
}

impl Refusal {
    // The number under which the refusal is reported.
    // A method and no `From`: it is a fact about the refusal, which the refusal does not turn into.
    pub fn number(self) -> u8
        ensures { result ≡ number self }
    {
        match self {
            Refusal::NoPlane => 6,
            Refusal::BoundTooLong => 12,
            Refusal::NotHeld => 14,
            Refusal::NoRoom => 15,
        }
    }
}

// A call on a table, over addresses A and their prefixes P.
#[derive(Clone, Copy, PartialEq, Eq, Debug)]
pub enum Call<A, P> {
    Announce { plane: u16, prefix: P, hop: A },
    Withdraw { plane: u16, prefix: P },
    Fetch { plane: u16, prefix: P },
    Lookup { address: A, bound: u8 },
}

impl<A, P> Call<A, P> {
    pub fn announce(plane: u16, prefix: P, hop: A) -> Call<A, P>
        ensures { result ≡ Announce plane prefix hop }
    {
        Call::Announce { plane, prefix, hop }
    }

    pub fn withdraw(plane: u16, prefix: P) -> Call<A, P>
        ensures { result ≡ Withdraw plane prefix }
    {
        Call::Withdraw { plane, prefix }
    }

    pub fn fetch(plane: u16, prefix: P) -> Call<A, P>
        ensures { result ≡ Fetch plane prefix }
    {
        Call::Fetch { plane, prefix }
    }

    pub fn lookup(address: A, bound: u8) -> Call<A, P>
        ensures { result ≡ Lookup address bound }
    {
        Call::Lookup { address, bound }
    }
}

// What an accepted call gives.
#[derive(Clone, Copy, PartialEq, Eq, Debug)]
pub enum Granted<A> {
    Done,
    Holds(Option<A>),
    Found(Option<(u8, A)>),
}

// The reply to a call.
pub type Reply<A> = Result<Granted<A>, Refusal>;

// A call with a place for its reply.
#[derive(Clone, Copy)]
pub struct Exchange<A, P> {
    pub call: Call<A, P>,
    pub reply: Option<Reply<A>>,
}
