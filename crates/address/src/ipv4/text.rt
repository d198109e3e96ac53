ghost use Rattle.std.specs.Prelude.{Some};
ghost use Rattle.address.specs.Text.{dotted, slashed};

use super::{Ipv4, Prefix4};
use std::fmt;

impl fmt::Display for Ipv4 {
    ghost output = { λ x. Some (dotted x.bits) };

    fn fmt<W: fmt::Write>(&self, f: &mut fmt::Formatter<W>) -> fmt::Result {
        let a = self.bits >> 24;
        let b = (self.bits >> 16) % 256;
        let c = (self.bits >> 8) % 256;
        let d = self.bits % 256;
        write!(f, "{a}.{b}.{c}.{d}")
    }
}

impl fmt::Display for Prefix4 {
    ghost output = { λ x. Some (slashed (dotted x.address.bits) x.len) };

    fn fmt<W: fmt::Write>(&self, f: &mut fmt::Formatter<W>) -> fmt::Result {
        let address = self.address;
        let len = self.len;
        write!(f, "{address}/{len}")
    }
}
