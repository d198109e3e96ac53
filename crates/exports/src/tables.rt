ghost use Rattle.std.specs.Prelude.{◌≤◌, length};

use crate::wire::{CALL, REPLY, call_in, refused, reply_bytes};
use table::interface::Table;
use table::run::perform;

// Makes the call. The bytes of its reply; a call whose prefix is refused is not made.
fn answer<T: Table>(table: &mut T, call: &[u8; CALL]) -> [u8; REPLY]
    requires { T.Table.valid table.old }
    ensures { T.Table.valid table.new }
{
    match call_in::<T::Addr>(call) {
        Ok(call) => reply_bytes(perform(table, call)),
        Err(refusal) => refused(refusal.number()),
    }
}

// Makes the whole calls in turn, as far as there is room for their replies, and writes these. How many bytes were written.
pub fn answer_all<T: Table>(table: &mut T, calls: &[u8], out: &mut [u8]) -> usize
    requires valid { T.Table.valid table.old }
    ensures valid { T.Table.valid table.new }
    ensures written { result ≤ length out.old }
{
    let (calls, _) = calls.as_chunks::<CALL>();
    let (replies, _) = out.as_chunks_mut::<REPLY>();
    let count = calls.len().min(replies.len());
    for (call, reply) in calls.iter().zip(replies) {
        *reply = answer(table, call);
    }
    count * REPLY
}
