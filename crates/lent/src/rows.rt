// The first half of number 7's test of a lent store: whether the P line, the Q line and the rows of C and L lines are those of a run file.
ghost use Rattle.std.specs.Prelude.{◌≡◌, ◌&&◌, ◌+◌, ◌<◌, length, drop};
ghost use Rattle.plans.specs.Plan.{crash_range, delay_range, rising, later, above, hits, none_twice, delay_order, every, start_ranges, crash_test};
ghost use Rattle.plans.specs.Plan.{ring_range, ring_test, delay_test, plan_test};
ghost use Rattle.ring.specs.Ring.{each_once};
ghost use Rattle.plans.specs.Plain.{row_at};
ghost use Rattle.limits.specs.Limits.{store_size};
ghost use Rattle.store.specs.Store.{plan_in};
ghost use Rattle.store.specs.Inside.{Sized, delay_at};

use store::{layout, plan};

// The most that H, W, D, the end tick and a row's message number may be, in the widths that a store's have.
const MOST_H: u32 = limits::MOST_H as u32;

const MOST_W: u32 = limits::MOST_W as u32;

const MOST_D: u32 = limits::MOST_D as u32;

const MOST_TICK: u32 = limits::MOST_TICK as u32;

const MOST_NUMBER: u32 = limits::MOST_NUMBER as u32;

// Whether the values of the P line are in range.
#[tactic(auto, unfolding(plans::specs::Plan::start_ranges, plans::specs::Plan::within))]
fn values_in_range(s: &[u8]) -> bool
    requires { length s.now ≡ store_size }
    ensures { result ≡ start_ranges (plan_in s.now) }
{
    (1..=layout::MOST_NODES).contains(&plan::node_count(s))
        && (1..=MOST_H).contains(&plan::period(s))
        && (1..=MOST_W).contains(&plan::time_out(s))
        && (1..=MOST_D).contains(&plan::longest_delay(s))
        && plan::end_tick(s) <= MOST_TICK
}

// Whether the numbers of the Q line are nodes, and none stands twice.
fn ring_nodes_once(s: &[u8]) -> bool
    requires { Sized s.now }
    ensures { result ≡ (ring_range (plan_in s.now) (plan_in s.now).ring && each_once (plan_in s.now).ring) }
{
    let n = plan::node_count(s);
    let mut seen: u64 = 0;
    for i in 0..plan::ring_size(s) {
        let k = plan::ring_at(s, i);
        if n <= k as usize {
            return false;
        }
        if ring::is_listed(seen, k) {
            return false;
        }
        seen = ring::with_listed(seen, k);
    }
    true
}

// Whether a run file may hold the Q line, or there is none.
#[tactic(auto, unfolding(plans::specs::Plan::ring_test, plans::specs::Plan::ring_count))]
fn ring_in_range(s: &[u8]) -> bool
    requires { Sized s.now }
    ensures { result ≡ ring_test (plan_in s.now) }
{
    let size = plan::ring_size(s);
    size == 0 || (size == plan::node_count(s) && ring_nodes_once(s))
}

// Whether the C row at a place is in range.
#[tactic(auto, unfolding(plans::specs::Plan::crash_range))]
fn crash_in_range(s: &[u8], i: usize) -> bool
    requires sized { Sized s.now }
    requires i_in_bounds { i < length (plan_in s.now).crashes }
    ensures { result ≡ crash_range (plan_in s.now) (row_at (plan_in s.now) i) }
{
    let row = plan::crash_at(s, i);
    row.tick <= plan::end_tick(s) && (row.node as usize) < plan::node_count(s)
}

// Whether the C rows are in range.
fn crashes_in_range(s: &[u8]) -> bool
    requires { Sized s.now }
    ensures { result ≡ every (crash_range (plan_in s.now)) (plan_in s.now).crashes }
{
    (0..plan::crash_count(s)).all(|i| crash_in_range(s, i))
}

// Whether the C row after a place is later than the one at it.
#[tactic(auto, unfolding(plans::specs::Plan::later))]
fn crash_rises(s: &[u8], i: usize) -> bool
    requires sized { Sized s.now }
    requires i_in_bounds { i + 1 < length (plan_in s.now).crashes }
    ensures { result ≡ later (row_at (plan_in s.now) i) (row_at (plan_in s.now) (i + 1)) }
{
    plan::crash_at(s, i) < plan::crash_at(s, i + 1)
}

// Whether the C rows rise by tick, then node.
fn crashes_rise(s: &[u8]) -> bool
    requires { Sized s.now }
    ensures { result ≡ rising later (plan_in s.now).crashes }
{
    (1..plan::crash_count(s)).all(|i| crash_rises(s, i - 1))
}

// Whether a C row from the place first on is of this node.
fn crashes_from(s: &[u8], first: usize, node: u8) -> bool
    requires { Sized s.now }
    ensures { result ≡ hits (drop first (plan_in s.now).crashes) node }
{
    (first..plan::crash_count(s)).any(|i| plan::crash_at(s, i).node == node)
}

// Whether no two C rows are of one node.
fn crashes_once(s: &[u8]) -> bool
    requires { Sized s.now }
    ensures { result ≡ none_twice (plan_in s.now).crashes }
{
    (0..plan::crash_count(s)).all(|i| !crashes_from(s, i + 1, plan::crash_at(s, i).node))
}

// Whether a run file may hold the C rows.
#[tactic(auto, unfolding(plans::specs::Plan::crash_test, plans::specs::Plan::crash_order))]
fn crash_rows_in_range(s: &[u8]) -> bool
    requires { Sized s.now }
    ensures { result ≡ crash_test (plan_in s.now) }
{
    crashes_in_range(s) && crashes_rise(s) && crashes_once(s)
}

// Whether the L row at a place is in range.
#[tactic(auto, unfolding(plans::specs::Plan::delay_range, plans::specs::Plan::within))]
fn delay_in_range(s: &[u8], i: usize) -> bool
    requires sized { Sized s.now }
    requires i_in_bounds { i < length (plan_in s.now).delays }
    ensures { result ≡ delay_range (plan_in s.now) (delay_at (plan_in s.now) i) }
{
    let row = plan::delay_at(s, i);
    row.number <= MOST_NUMBER && (1..=plan::longest_delay(s)).contains(&u32::from(row.delay))
}

// Whether the L rows are in range.
fn delays_in_range(s: &[u8]) -> bool
    requires { Sized s.now }
    ensures { result ≡ every (delay_range (plan_in s.now)) (plan_in s.now).delays }
{
    (0..plan::delay_count(s)).all(|i| delay_in_range(s, i))
}

// Whether the L row after a place has a higher number than the one at it.
fn delay_rises(s: &[u8], i: usize) -> bool
    requires sized { Sized s.now }
    requires i_in_bounds { i + 1 < length (plan_in s.now).delays }
    ensures { result ≡ above (delay_at (plan_in s.now) i) (delay_at (plan_in s.now) (i + 1)) }
{
    plan::delay_at(s, i).number < plan::delay_at(s, i + 1).number
}

// Whether the L rows rise by number.
fn delays_rise(s: &[u8]) -> bool
    requires { Sized s.now }
    ensures { result ≡ delay_order (plan_in s.now).delays }
{
    (1..plan::delay_count(s)).all(|i| delay_rises(s, i - 1))
}

// Whether a run file may hold the L rows. That there are no more than 2,048 is known from Sized.
fn delay_rows_in_range(s: &[u8]) -> bool
    requires { Sized s.now }
    ensures { result ≡ delay_test (plan_in s.now) }
{
    delays_in_range(s) && delays_rise(s)
}

// Whether a run file may hold the plan.
#[tactic(auto, unfolding(plans::specs::Plan::plan_test))]
pub fn plan_in_range(s: &[u8]) -> bool
    requires { Sized s.now }
    ensures { result ≡ plan_test (plan_in s.now) }
{
    values_in_range(s) && ring_in_range(s) && crash_rows_in_range(s) && delay_rows_in_range(s)
}
