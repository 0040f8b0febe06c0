// The P line, the ring's order, the rows of C and L lines, the last event's tick, the next message number and how many crash rows are done.
#![tactic(auto, using(crate::proofs::Store::rows_held, crate::proofs::States::changes), unfolding(crate::specs::Store::plan_in, crate::specs::Store::state_in))]

ghost use Rattle.std.specs.Prelude.{◌≡◌, ◌+◌, ◌^◌, ◌<◌, ◌≤◌, length, get_or, true};
ghost use Rattle.ring.specs.Ring.{numbers};
ghost use Rattle.plans.specs.Plan.{plan_test, delay_order, order_of};
ghost use Rattle.model.specs.Platform.{crashed_list, delay_of};
ghost use Rattle.plans.specs.Plain.{row_at};
ghost use Rattle.limits.specs.Limits.{store_size, most_nodes};
ghost use Rattle.store.specs.Store.{encode, plan_in, state_in};
ghost use Rattle.store.specs.Inside.{Sized, Held, FirstRow, crash_row, delay_at, delay_row, with_tick, crashed, number_taken};

use crate::{CrashRow, DelayRow, layout};

// N: how many nodes.
pub fn node_count(s: &[u8]) -> usize
    requires { length s.now ≡ store_size }
    ensures { result ≡ (plan_in s.now).n }
{
    layout::NODE_COUNT.get(s, 0) as usize
}

// D: the delay of a message that has no L line, and the longest.
pub fn longest_delay(s: &[u8]) -> u32
    requires { length s.now ≡ store_size }
    ensures { result ≡ (plan_in s.now).d }
{
    layout::LONGEST_DELAY.get(s, 0) as u32
}

// H: the heartbeat period.
pub fn period(s: &[u8]) -> u32
    requires { length s.now ≡ store_size }
    ensures { result ≡ (plan_in s.now).h }
{
    layout::PERIOD.get(s, 0) as u32
}

// W: the time-out.
pub fn time_out(s: &[u8]) -> u32
    requires { length s.now ≡ store_size }
    ensures { result ≡ (plan_in s.now).w }
{
    layout::TIME_OUT.get(s, 0) as u32
}

// The end tick.
pub fn end_tick(s: &[u8]) -> u32
    requires { length s.now ≡ store_size }
    ensures { result ≡ (plan_in s.now).end }
{
    layout::END_TICK.get(s, 0) as u32
}

// The last event's tick, 0 at opening.
pub fn last_tick(s: &[u8]) -> u32
    requires { length s.now ≡ store_size }
    ensures { result ≡ (state_in s.now).last }
{
    layout::LAST_TICK.get(s, 0) as u32
}

// The number of the next message.
pub fn next_number(s: &[u8]) -> u64
    requires { length s.now ≡ store_size }
    ensures { result ≡ (state_in s.now).next }
{
    layout::NEXT_NUMBER.get(s, 0)
}

// How many C rows are done.
pub fn crashes_done(s: &[u8]) -> usize
    requires { length s.now ≡ store_size }
    ensures { result ≡ (state_in s.now).done }
{
    layout::CRASHES_DONE.get(s, 0) as usize
}

// How many numbers the Q line has, 0 where there is none.
pub fn ring_size(s: &[u8]) -> usize
    requires { length s.now ≡ store_size }
    ensures { result ≡ length (plan_in s.now).ring }
{
    layout::RING_SIZE.get(s, 0) as usize
}

// How many C rows there are.
pub fn crash_count(s: &[u8]) -> usize
    requires { length s.now ≡ store_size }
    ensures { result ≡ length (plan_in s.now).crashes }
{
    layout::CRASH_COUNT.get(s, 0) as usize
}

// How many L rows there are.
pub fn delay_count(s: &[u8]) -> usize
    requires { length s.now ≡ store_size }
    ensures { result ≡ length (plan_in s.now).delays }
{
    layout::DELAY_COUNT.get(s, 0) as usize
}

// The number at a place of the Q line.
pub fn ring_at(s: &[u8], i: usize) -> u8
    requires sized { Sized s.now }
    requires i_in_bounds { i < length (plan_in s.now).ring }
    ensures { result ≡ get_or (plan_in s.now).ring i 0 }
{
    layout::RING_NODES.get(s, i) as u8
}

// The ring's order: the store's own part with the numbers of the Q line, or, where there is none, the first N of all, which are in number order.
#[tactic(auto, using(crate::proofs::Orders::no_ring_line))]
pub fn ring_order<'a>(s: &'a [u8], all: &'a [u8]) -> &'a [u8]
    requires sized { Sized s.now }
    requires all_value { all.now ≡ numbers 0 most_nodes }
    ensures { result.now ≡ order_of (plan_in s.now) }
{
    let size = ring_size(s);
    if size == 0 {
        let n = node_count(s);
        return &all[..n];
    }
    let first = layout::RING_NODES.at;
    &s[first..first + size]
}

// The C row at a place. C and L rows have a function each, as they are of two types.
pub fn crash_at(s: &[u8], i: usize) -> CrashRow
    requires sized { Sized s.now }
    requires i_in_bounds { i < length (plan_in s.now).crashes }
    ensures { result ≡ crash_row (row_at (plan_in s.now) i) }
{
    CrashRow {
        tick: layout::CRASH_TICKS.get(s, i) as u32,
        node: layout::CRASH_NODES.get(s, i) as u8,
    }
}

// The crashed nodes as a dead list.
pub fn crashed_list(s: &[u8]) -> u64
    requires sized { Sized s.now }
    requires s_value { plan_test (plan_in s.now) ≡ true }
    requires s_in_bounds { (state_in s.now).done ≤ length (plan_in s.now).crashes }
    ensures { result ≡ crashed_list (plan_in s.now) (state_in s.now).done }
{
    let mut dead: u64 = 0;
    for i in 0..crashes_done(s) {
        dead = ring::with_listed(dead, crash_at(s, i).node);
    }
    dead
}

// The L row at a place.
pub fn delay_at(s: &[u8], i: usize) -> DelayRow
    requires sized { Sized s.now }
    requires i_in_bounds { i < length (plan_in s.now).delays }
    ensures { result ≡ delay_row (delay_at (plan_in s.now) i) }
{
    DelayRow {
        number: layout::DELAY_NUMBERS.get(s, i) as u32,
        delay: layout::DELAY_TICKS.get(s, i) as u8,
    }
}

// The first L row whose number is not below `number`. The numbers stand in the store as bytes, where `partition_point` finds no slice to search.
fn first_row(s: &[u8], number: u64) -> usize
    requires sized { Sized s.now }
    requires s_value { delay_order (plan_in s.now).delays ≡ true }
    ensures { FirstRow (plan_in s.now).delays number result }
{
    let mut low = 0;
    let mut high = delay_count(s);
    while low < high {
        let middle = low + (high - low) / 2;
        let here = layout::DELAY_NUMBERS.get(s, middle);
        if here < number {
            low = middle + 1;
        } else {
            high = middle;
        }
    }
    low
}

// The delay of a message: that of its L row, or D. Rows rise by number, so that most messages are above the last one.
pub fn delay_of(s: &[u8], number: u64) -> u32
    requires sized { Sized s.now }
    requires s_value { delay_order (plan_in s.now).delays ≡ true }
    ensures { result ≡ delay_of (plan_in s.now) number }
{
    let rows = delay_count(s);
    if rows == 0 || layout::DELAY_NUMBERS.get(s, rows - 1) < number {
        return longest_delay(s);
    }
    let i = first_row(s, number);
    if i == rows || layout::DELAY_NUMBERS.get(s, i) != number {
        return longest_delay(s);
    }
    layout::DELAY_TICKS.get(s, i) as u32
}

// The last event's tick becomes t.
pub fn set_tick(s: &mut [u8], t: u32)
    requires { Held s.old }
    ensures { s.new ≡ encode (plan_in s.old) (with_tick (state_in s.old) t) }
{
    layout::LAST_TICK.put(s, 0, t as u64);
}

// One C row more is done.
pub fn crash_done(s: &mut [u8])
    requires { Held s.old }
    ensures { s.new ≡ encode (plan_in s.old) (crashed (state_in s.old)) }
{
    let done = crashes_done(s) as u64;
    layout::CRASHES_DONE.put(s, 0, done + 1);
}

// The next message number is given away.
pub fn number_taken(s: &mut [u8])
    requires held { Held s.old }
    requires s_bound { (state_in s.old).next + 1 < 256 ^ 8 }
    ensures { s.new ≡ encode (plan_in s.old) (number_taken (state_in s.old)) }
{
    let number = next_number(s);
    layout::NEXT_NUMBER.put(s, 0, number + 1);
}
