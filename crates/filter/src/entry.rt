use crate::rule::Action;
use bits::front::Front;

// A rule as a policy keeps it: its prefix is a front.
#[derive(Clone, Copy)]
pub(crate) struct Entry {
    pub(crate) action: Action,
    pub(crate) prefix: Front,
    pub(crate) ge: u8,
    pub(crate) le: u8,
}
