// Number 7's test of a lent store: its length, its counts, what it holds, and that its unused bytes are zero.
#![tactic(auto)]

pub mod rows; // rows.rt: whether the P line, the Q line and the rows of C and L lines are those of a run file
pub mod state; // state.rt: whether the state is in range

ghost use Rattle.std.specs.Prelude.{◌≡◌, ◌+◌, ◌*◌, ◌≤◌, length};
ghost use Rattle.limits.specs.Limits.{store_size};
ghost use Rattle.store.specs.Columns.{rest_zero, room_test, unused_test};
ghost use Rattle.store.specs.Store.{columns, plan_in, state_in, store_in_range};
ghost use Rattle.store.specs.Inside.{Sized};
ghost use Rattle.lent.specs.Rests.{AllRoomy, rests_zero};

use store::layout::Field;
use store::{layout, messages, plan};

// No more numbers of the Q line, nodes, rows and messages than there are places.
fn counts_fit(s: &[u8]) -> bool
    requires { length s.now ≡ store_size }
    ensures { result ≡ room_test (columns (plan_in s.now) (state_in s.now)) }
{
    plan::ring_size(s) <= layout::MOST_NODES
        && plan::node_count(s) <= layout::MOST_NODES
        && plan::crash_count(s) <= layout::MOST_NODES
        && plan::delay_count(s) <= layout::MOST_DELAYS
        && messages::message_count(s) <= layout::MOST_IN_FLIGHT
}

// The bytes of a field beyond its first n numbers are zero.
fn rest_zero(s: &[u8], field: Field, n: usize) -> bool
    requires { (n ≤ field.places) × (field.at + field.width * field.places ≤ length s.now) }
    ensures { result ≡ rest_zero s.now field n }
{
    fields::is_zero(
        s,
        field.at + field.width * n,
        field.at + field.width * field.places,
    )
}

// The bytes of fields beyond the first n numbers of each are zero.
#[tactic(auto, unfolding(crate::specs::Rests::rests_zero))]
fn rests_zero(s: &[u8], fields: &[Field], n: usize) -> bool
    requires { AllRoomy fields.now n (length s.now) }
    ensures { result ≡ rests_zero s.now fields.now n }
{
    fields.iter().all(|field| rest_zero(s, *field, n))
}

// Every unused byte is zero.
fn unused_zero(s: &[u8]) -> bool
    requires { Sized s.now }
    ensures { result ≡ unused_test s.now (columns (plan_in s.now) (state_in s.now)) }
{
    rest_zero(s, layout::SPARE_HEAD, 0)
        && rest_zero(s, layout::RING_NODES, plan::ring_size(s))
        && rests_zero(s, &layout::NODE_FIELDS, plan::node_count(s))
        && rests_zero(s, &layout::CRASH_FIELDS, plan::crash_count(s))
        && rests_zero(s, &layout::DELAY_FIELDS, plan::delay_count(s))
        && rests_zero(s, &layout::MESSAGE_FIELDS, messages::message_count(s))
        && rest_zero(s, layout::SPARE_TAIL, 0)
}

// Whether these bytes are a store in range.
pub fn in_range(s: &[u8]) -> bool
    ensures { result ≡ store_in_range s.now }
{
    s.len() == layout::STORE_SIZE
        && counts_fit(s)
        && rows::plan_in_range(s)
        && state::state_in_range(s)
        && unused_zero(s)
}
