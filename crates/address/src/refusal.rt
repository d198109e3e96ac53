ghost use Rattle.std.specs.Prelude.{Some};
ghost use Rattle.address.specs.Text.{refused};
ghost use Rattle.address.specs.Prefixes.{number};

use std::error::Error;
use std::fmt;

// Why an address and a length are no prefix.
#[derive(Clone, Copy, PartialEq, Eq, Debug)]
pub enum PrefixRefusal {
    // the length exceeds the width of the addresses
    TooLong,
    // a bit beyond the length is set
    StrayBits,
}

impl fmt::Display for PrefixRefusal {
    ghost output = { λ x. Some (refused (number x)) };

    fn fmt<W: fmt::Write>(&self, f: &mut fmt::Formatter<W>) -> fmt::Result {
        let number = self.number();
        write!(f, "refused {number}")
    }
}

impl Error for PrefixRefusal {}
