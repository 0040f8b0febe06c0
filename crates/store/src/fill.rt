// A store is filled: zeros and the P line, the numbers of the Q line, then, after its nodes, the rows of C and L lines one after another.
ghost use Rattle.std.specs.Prelude.{◌≡◌, ◌<◌, ◌≤◌, length};
ghost use Rattle.limits.specs.Limits.{most_nodes, most_delays, store_size};
ghost use Rattle.store.specs.Filling.{put_start, put_ring, put_node, put_crash, put_delay, unopened};
ghost use Rattle.plans.specs.Plan.{start_plan};
ghost use Rattle.store.specs.Columns.{cell_put};
ghost use Rattle.store.specs.Store.{dead_lists, marks, encode};

use crate::layout;
use node::Node;

// The P line.
#[tactic(auto, unfolding(crate::specs::Filling::put_start, crate::specs::Columns::numbers_put))]
fn put_start(s: &mut [u8], n: u64, h: u64, w: u64, d: u64, end: u64)
    requires { length s.old ≡ store_size }
    ensures { s.new ≡ put_start s.old n h w d end }
{
    layout::NODE_COUNT.put(s, 0, n);
    layout::LONGEST_DELAY.put(s, 0, d);
    layout::PERIOD.put(s, 0, h);
    layout::TIME_OUT.put(s, 0, w);
    layout::END_TICK.put(s, 0, end);
}

// Node i.
#[tactic(auto, unfolding(crate::specs::Filling::put_node, crate::specs::Columns::each_part, crate::specs::Store::node_parts))]
pub fn put_node(s: &mut [u8], i: usize, a: Node)
    requires { (i < most_nodes) × (length s.old ≡ store_size) }
    ensures { s.new ≡ put_node s.old i a }
{
    layout::EMITTERS.put(s, i, a.emitter as u64);
    layout::OBSERVERS.put(s, i, a.observer as u64);
    layout::WATCHES.put(s, i, a.watch as u64);
    layout::HEARTBEATS.put(s, i, a.heartbeat as u64);
    layout::DEAD_LISTS.put(s, i, a.list);
    layout::MARKS.put(s, i, a.mark);
}

// Zeros and the P line: a store without rows, whose nodes are not opened yet.
pub fn begin(s: &mut [u8], n: u64, h: u64, w: u64, d: u64, end: u64)
    requires { (n ≤ most_nodes) × (length s.old ≡ store_size) }
    ensures { s.new ≡ encode (start_plan n h w d end) (unopened (start_plan n h w d end)) }
{
    fields::clear(s, 0, layout::STORE_SIZE);
    put_start(s, n, h, w, d, end);
}

// A number of the Q line after the first i.
#[tactic(auto, unfolding(crate::specs::Filling::put_ring, crate::specs::Columns::each_part, crate::specs::Store::ring_parts))]
pub fn put_ring(s: &mut [u8], i: usize, k: u64)
    requires { (i < most_nodes) × (length s.old ≡ store_size) }
    ensures { s.new ≡ put_ring s.old i k }
{
    layout::RING_NODES.put(s, i, k);
    layout::RING_SIZE.put(s, 0, i as u64 + 1);
}

// A C row after the first i. C and L rows have a function each, as their fields and the definitions of them have names of their own.
#[tactic(auto, unfolding(crate::specs::Filling::put_crash, crate::specs::Columns::each_part, crate::specs::Store::crash_parts))]
pub fn put_crash(s: &mut [u8], i: usize, tick: u64, node: u64)
    requires { (i < most_nodes) × (length s.old ≡ store_size) }
    ensures { s.new ≡ put_crash s.old i tick node }
{
    layout::CRASH_TICKS.put(s, i, tick);
    layout::CRASH_NODES.put(s, i, node);
    layout::CRASH_COUNT.put(s, 0, i as u64 + 1);
}

// An L row after the first i.
#[tactic(auto, unfolding(crate::specs::Filling::put_delay, crate::specs::Columns::each_part, crate::specs::Store::delay_parts))]
pub fn put_delay(s: &mut [u8], i: usize, number: u64, delay: u64)
    requires { (i < most_delays) × (length s.old ≡ store_size) }
    ensures { s.new ≡ put_delay s.old i number delay }
{
    layout::DELAY_NUMBERS.put(s, i, number);
    layout::DELAY_TICKS.put(s, i, delay);
    layout::DELAY_COUNT.put(s, 0, i as u64 + 1);
}
