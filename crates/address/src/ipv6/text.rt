ghost use Rattle.std.specs.Prelude.{Some};
ghost use Rattle.address.specs.Text.{colons, slashed};

use super::{Ipv6, Prefix6};
use crate::text::Groups;
use std::fmt;

impl fmt::Display for Ipv6 {
    ghost output = { λ x. Some (colons x.hi x.lo) };

    fn fmt<W: fmt::Write>(&self, f: &mut fmt::Formatter<W>) -> fmt::Result {
        let hi = Groups(self.hi);
        let lo = Groups(self.lo);
        write!(f, "{hi}:{lo}")
    }
}

impl fmt::Display for Prefix6 {
    ghost output = { λ x. Some (slashed (colons x.address.hi x.address.lo) x.len) };

    fn fmt<W: fmt::Write>(&self, f: &mut fmt::Formatter<W>) -> fmt::Result {
        let address = self.address;
        let len = self.len;
        write!(f, "{address}/{len}")
    }
}
