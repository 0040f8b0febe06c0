// The messages in flight, rising by number: nothing else touches their places.
#![tactic(auto, using(crate::proofs::Store::rows_held))]

ghost use Rattle.std.specs.Prelude.{[], ◌≡◌, ◌+◌, ◌*◌, ◌<◌, ◌≤◌, length};
ghost use Rattle.limits.specs.Limits.{most_in_flight, store_size};
ghost use Rattle.model.specs.Platform.{message_at};
ghost use Rattle.store.specs.Columns.{cell_out};
ghost use Rattle.store.specs.Store.{encode, plan_in, state_in};
ghost use Rattle.store.specs.Inside.{Sized, Held, flying, without_message, with_flight, with_message, message_of};

use crate::layout::Field;
use crate::{Flight, layout};

// How many messages are in flight.
pub fn message_count(s: &[u8]) -> usize
    requires { length s.now ≡ store_size }
    ensures { result ≡ length (state_in s.now).flight }
{
    layout::MESSAGE_COUNT.get(s, 0) as usize
}

// The message at a place.
pub fn message_at(s: &[u8], i: usize) -> Flight
    requires sized { Sized s.now }
    requires i_in_bounds { i < length (state_in s.now).flight }
    ensures { result ≡ flying (message_at (state_in s.now) i) }
{
    Flight {
        number: layout::MESSAGE_NUMBERS.get(s, i),
        due: layout::MESSAGE_DUES.get(s, i) as u32,
        kind: layout::MESSAGE_KINDS.get(s, i) as u8,
        from: layout::MESSAGE_SENDERS.get(s, i) as u8,
        to: layout::MESSAGE_RECEIVERS.get(s, i) as u8,
        subject: layout::MESSAGE_SUBJECTS.get(s, i) as u8,
        list: layout::MESSAGE_LISTS.get(s, i),
    }
}

// When the message at a place is due.
pub fn due_at(s: &[u8], i: usize) -> u32
    requires sized { Sized s.now }
    requires i_in_bounds { i < length (state_in s.now).flight }
    ensures { result ≡ (message_at (state_in s.now) i).due }
{
    layout::MESSAGE_DUES.get(s, i) as u32
}

// The number at place i of n is taken out of a field, and those after it move down.
fn close_gap(s: &mut [u8], field: Field, i: usize, n: usize)
    requires { (i < n) × (field.at + field.width * n ≤ length s.old) }
    ensures { s.new ≡ cell_out s.old field i n }
{
    let gap = field.at + field.width * i;
    let end = field.at + field.width * n;
    s.copy_within(gap + field.width..end, gap);
    fields::clear(s, end - field.width, end);
}

// The message at a place is taken out, and those after it move down.
pub fn take_message(s: &mut [u8], i: usize)
    requires held { Held s.old }
    requires i_in_bounds { i < length (state_in s.old).flight }
    ensures { s.new ≡ encode (plan_in s.old) (without_message (state_in s.old) i) }
{
    let n = message_count(s);
    for field in &layout::MESSAGE_FIELDS {
        close_gap(s, *field, i, n);
    }
    layout::MESSAGE_COUNT.put(s, 0, (n - 1) as u64);
}

// A message is put after the last, with its own number.
pub fn put_message(s: &mut [u8], m: Flight)
    requires held { Held s.old }
    requires s_len_bound { length (state_in s.old).flight < most_in_flight }
    ensures { s.new ≡ encode (plan_in s.old) (with_message (state_in s.old) (message_of m)) }
{
    let n = message_count(s);
    layout::MESSAGE_NUMBERS.put(s, n, m.number);
    layout::MESSAGE_DUES.put(s, n, m.due as u64);
    layout::MESSAGE_KINDS.put(s, n, m.kind as u64);
    layout::MESSAGE_SENDERS.put(s, n, m.from as u64);
    layout::MESSAGE_RECEIVERS.put(s, n, m.to as u64);
    layout::MESSAGE_SUBJECTS.put(s, n, m.subject as u64);
    layout::MESSAGE_LISTS.put(s, n, m.list);
    layout::MESSAGE_COUNT.put(s, 0, (n + 1) as u64);
}

// All messages are cleared away: none is in flight.
pub fn clear_messages(s: &mut [u8])
    requires { Held s.old }
    ensures { s.new ≡ encode (plan_in s.old) (with_flight (state_in s.old) []) }
{
    let n = message_count(s);
    for field in &layout::MESSAGE_FIELDS {
        fields::clear(s, field.at, field.at + field.width * n);
    }
    layout::MESSAGE_COUNT.put(s, 0, 0);
}
