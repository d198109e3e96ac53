// An address with the answer that a lookup at the full width got for it.
#[derive(Clone, Copy)]
pub struct Entry<A> {
    pub address: A,
    pub answer: Option<(u8, A)>,
}
