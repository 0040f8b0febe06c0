// A look for the next message and the next timer. Of the store it asks for the plan, the crashes done and the nodes only.
ghost use Rattle.std.specs.Prelude.{List, ◌≡◌, ◌≤◌, ◌<◌};
ghost use Rattle.model.specs.Platform.{InFlight, crashed_list};
ghost use Rattle.store.specs.Store.{plan_in, state_in};
ghost use Rattle.event.specs.Acting.{Acting};
ghost use Rattle.store.specs.declared.Flight.{Flight};
ghost use Rattle.queue.specs.Holds.{Holds};
ghost use Rattle.course.specs.Look.{FirstDue, Timers, DueNow, FirstTimer, SoonerOf};

use event::search;
use store::{Flight, nodes, plan};

// The tick of the first message of a queue, if there is one.
pub fn message_tick(q: &[Flight], start: usize, end: usize) -> Option<u32>
    requires { (flight : List InFlight) × Holds q.now start end flight }
    ensures { (flight : List InFlight) → Holds q.now start end flight → FirstDue q.now start end flight result }
{
    q[start..end].first().map(|m| m.due)
}

// Whether a timer of node i is due at tick t, where it is live.
fn is_due(b: &[u8], dead: u64, t: u32, i: usize) -> bool
    requires acting { Acting b.now }
    requires dead_value { dead ≡ crashed_list (plan_in b.now) (state_in b.now).done }
    requires t_bound { t ≤ (plan_in b.now).end }
    requires i_bound { i < (plan_in b.now).n }
    ensures { DueNow (plan_in b.now) (state_in b.now) t i result }
{
    if ring::is_listed(dead, i as u8) {
        return false;
    }
    let a = nodes::node_at(b, i);
    a.watch == t + 1 || a.heartbeat == t + 1
}

// The first node from x on with a timer that is due at tick t, if there is one.
pub fn timer_node(b: &[u8], dead: u64, t: u32, x: usize) -> Option<usize>
    requires acting { Acting b.now }
    requires dead_value { dead ≡ crashed_list (plan_in b.now) (state_in b.now).done }
    requires t_bound { t ≤ (plan_in b.now).end }
    requires timers { Timers (plan_in b.now) (state_in b.now) t x }
    ensures { FirstTimer (plan_in b.now) (state_in b.now) t result }
{
    let n = plan::node_count(b);
    for i in x..n {
        if is_due(b, dead, t, i) {
            return Some(i);
        }
    }
    None
}

// The earliest of `least` and the ticks of node i's timers, where it is live.
fn sooner_of(b: &[u8], dead: u64, i: usize, least: u32) -> u32
    requires acting { Acting b.now }
    requires dead_value { dead ≡ crashed_list (plan_in b.now) (state_in b.now).done }
    requires i_bound { i < (plan_in b.now).n }
    ensures { SoonerOf (plan_in b.now) (state_in b.now) i least result }
{
    if ring::is_listed(dead, i as u8) {
        return least;
    }
    let a = nodes::node_at(b, i);
    let watch = search::earlier_timer(least, a.watch);
    search::earlier_timer(watch, a.heartbeat)
}

// A tick after t, up to the one after the end, before which no timer is due, where none is up to t.
pub fn least_timer(b: &[u8], dead: u64, t: u32) -> u32
    requires acting { Acting b.now }
    requires dead_value { dead ≡ crashed_list (plan_in b.now) (state_in b.now).done }
    requires t_bound { t ≤ (plan_in b.now).end }
    requires timers { Timers (plan_in b.now) (state_in b.now) t (plan_in b.now).n }
    ensures { (t < result) × Timers (plan_in b.now) (state_in b.now) result 0 }
{
    let n = plan::node_count(b);
    let mut least = plan::end_tick(b) + 1;
    for i in 0..n {
        least = sooner_of(b, dead, i, least);
    }
    least
}
