ghost use Rattle.std.specs.Prelude.{Some, codes, decimal, ◌++◌};
ghost use Rattle.table.specs.Meaning.{number};
ghost use Rattle.table.specs.Text.{call_text, granted_text};

use super::{Call, Granted, Refusal};
use std::fmt;

// A refusal by its number.
impl fmt::Display for Refusal {
    ghost output = { λ x. Some (codes "refused " ++ decimal (number x)) };

    fn fmt<W: fmt::Write>(&self, f: &mut fmt::Formatter<W>) -> fmt::Result {
        let number = self.number();
        write!(f, "refused {number}")
    }
}

// A call, as the programs print it.
impl<A: fmt::Display, P: fmt::Display> fmt::Display for Call<A, P> {
    ghost output = { call_text A.output P.output };

    fn fmt<W: fmt::Write>(&self, f: &mut fmt::Formatter<W>) -> fmt::Result {
        match self {
            Call::Announce { plane, prefix, hop } => {
                write!(f, "announce {prefix} via {hop} on plane {plane}")
            }
            Call::Withdraw { plane, prefix } => write!(f, "withdraw {prefix} on plane {plane}"),
            Call::Fetch { plane, prefix } => write!(f, "fetch {prefix} on plane {plane}"),
            Call::Lookup { address, bound } => write!(f, "lookup {address} at bound {bound}"),
        }
    }
}

// What an accepted call gives, as the programs print it.
impl<A: fmt::Display> fmt::Display for Granted<A> {
    ghost output = { granted_text A.output };

    fn fmt<W: fmt::Write>(&self, f: &mut fmt::Formatter<W>) -> fmt::Result {
        match self {
            Granted::Done => write!(f, "done"),
            Granted::Holds(Some(hop)) => write!(f, "{hop}"),
            Granted::Found(Some((len, hop))) => write!(f, "length {len} via {hop}"),
            Granted::Holds(None) | Granted::Found(None) => write!(f, "none"),
        }
    }
}
