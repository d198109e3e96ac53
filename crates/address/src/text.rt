ghost use Rattle.std.specs.Prelude.{◌<◌, Some};
ghost use Rattle.address.specs.Text.{group, groups};

use std::fmt;

// Sixteen bits as four hexadecimal digits.
#[derive(Clone, Copy)]
pub struct Group(pub u16);

impl fmt::Display for Group {
    ghost output = { λ x. Some (group x.0) };

    fn fmt<W: fmt::Write>(&self, f: &mut fmt::Formatter<W>) -> fmt::Result {
        let group = self.0;
        write!(f, "{group:04x}")
    }
}

// Sixty-four bits as four groups with colons between.
#[derive(Clone, Copy)]
pub struct Groups(pub u64);

impl fmt::Display for Groups {
    ghost output = { λ x. Some (groups x.0) };

    fn fmt<W: fmt::Write>(&self, f: &mut fmt::Formatter<W>) -> fmt::Result {
        let a = Group(((self.0 >> 48) % 65536) as u16);
        let b = Group(((self.0 >> 32) % 65536) as u16);
        let c = Group(((self.0 >> 16) % 65536) as u16);
        let d = Group((self.0 % 65536) as u16);
        write!(f, "{a}:{b}:{c}:{d}")
    }
}
