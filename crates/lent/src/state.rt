// The state that a store's bytes hold, tested against its plan: the half of number 7 that is about the state.
ghost use Rattle.std.specs.Prelude.{◌≡◌, true, ◌&&◌, ◌<◌, ◌≤◌, length, leb, drop};
ghost use Rattle.plans.specs.Plan.{plan_test};
ghost use Rattle.node.specs.Range.{node_test, live_test, not_overdue, timers_test, kind_test, carried_test};
ghost use Rattle.model.specs.Platform.{crashed_list, node_of};
ghost use Rattle.limits.specs.Limits.{most_nodes, most_next};
ghost use Rattle.model.specs.Range.{node_here, nodes_test, message_test, flight_test, undone_test, sound_test};
ghost use Rattle.store.specs.Store.{plan_in, state_in};
ghost use Rattle.store.specs.Inside.{Sized, message_of};
ghost use Rattle.lent.specs.Planned.{Planned};

use limits::MOST_NEXT;
use node::Node;
use store::{Flight, messages, nodes, plan};

// ---- the nodes

// Whether a node's fields are in range, where t is the last event's tick.
fn node_fits(s: &[u8], t: u32, a: Node) -> bool
    requires { Planned s.now t }
    ensures { result ≡ node_test (plan_in s.now).n (plan_in s.now).h (plan_in s.now).w t a }
{
    let n = plan::node_count(s) as u8;
    let h = plan::period(s);
    let w = plan::time_out(s);
    node::node_in_range(n, h, w, t, a)
}

// Whether a timer is off, or not before t.
#[tactic(auto, unfolding(node::specs::Range::not_overdue))]
fn timer_fits(t: u32, timer: u32) -> bool
    ensures { result ≡ not_overdue t timer }
{
    timer == 0 || t < timer
}

// Whether node x, which is live, has nothing about itself and no timer before t.
#[tactic(auto, unfolding(node::specs::Range::timers_test))]
fn live_fits(t: u32, x: u8, a: Node) -> bool
    ensures { result ≡ (live_test x a && timers_test t a) }
{
    node::live_in_range(x, a) && timer_fits(t, a.watch) && timer_fits(t, a.heartbeat)
}

// Whether node x is in range.
fn node_in_range(s: &[u8], t: u32, dead: u64, x: usize) -> bool
    requires planned { Planned s.now t }
    requires dead_value { dead ≡ crashed_list (plan_in s.now) (state_in s.now).done }
    requires x_bound { x < (plan_in s.now).n }
    ensures { result ≡ node_here (plan_in s.now) (state_in s.now).done t x (node_of (state_in s.now) x) }
{
    let a = nodes::node_at(s, x);
    node_fits(s, t, a) && (ring::is_listed(dead, x as u8) || live_fits(t, x as u8, a))
}

// Whether all nodes are in range, where no more crashes are done than planned.
fn nodes_in_range(s: &[u8], t: u32) -> bool
    requires planned { Planned s.now t }
    requires done { (state_in s.now).done ≤ length (plan_in s.now).crashes }
    ensures { result ≡ nodes_test (plan_in s.now) (state_in s.now).done t 0 (state_in s.now).nodes }
{
    let dead = plan::crashed_list(s);
    (0..plan::node_count(s)).all(|x| node_in_range(s, t, dead, x))
}

// ---- the messages in flight

// Whether a letter is a message's kind.
#[tactic(auto, unfolding(node::specs::Range::kind_test))]
fn is_kind(letter: u8) -> bool
    ensures { result ≡ kind_test letter }
{
    matches!(letter, b'H' | b'O' | b'R')
}

// Whether a message of a kind may carry a list, in a ring of n nodes.
fn is_carried(n: u8, kind: u8, list: u64) -> bool
    requires { (1 ≤ n) × (n ≤ most_nodes) }
    ensures { result ≡ carried_test n kind list }
{
    list <= ring::all_nodes(n) && (kind == b'H' || list == 0)
}

// Whether a message is in range.
#[tactic(auto, unfolding(model::specs::Range::message_test))]
fn message_fits(s: &[u8], t: u32, m: Flight) -> bool
    requires { Planned s.now t }
    ensures { result ≡ message_test (plan_in s.now) t (message_of m) }
{
    let n = plan::node_count(s) as u8;
    is_kind(m.kind)
        && m.from < n
        && m.to < n
        && m.subject < n
        && m.from != m.to
        && t <= m.due
        && m.due <= t + plan::longest_delay(s)
        && is_carried(n, m.kind, m.list)
}

// Whether all messages are in range and their numbers rise and are below `next`.
fn messages_in_range(s: &[u8], t: u32, next: u64) -> bool
    requires { Planned s.now t }
    ensures { result ≡ flight_test (plan_in s.now) t 0 next (state_in s.now).flight }
{
    let mut low: u64 = 0;
    for i in 0..messages::message_count(s) {
        let m = messages::message_at(s, i);
        if m.number < low || next <= m.number || !message_fits(s, t, m) {
            return false;
        }
        low = m.number + 1;
    }
    true
}

// ---- the whole

// Whether the first undone crash is not before t.
#[tactic(auto, unfolding(model::specs::Range::undone_test))]
fn undone_in_range(s: &[u8], t: u32) -> bool
    requires { Sized s.now }
    ensures { result ≡ undone_test t (drop (state_in s.now).done (plan_in s.now).crashes) }
{
    let done = plan::crashes_done(s);
    plan::crash_count(s) <= done || t <= plan::crash_at(s, done).tick
}

// Whether the state is in range.
pub fn state_in_range(s: &[u8]) -> bool
    requires sized { Sized s.now }
    requires s_value { plan_test (plan_in s.now) ≡ true }
    ensures { result ≡ (sound_test (plan_in s.now) (state_in s.now) && leb (state_in s.now).next most_next) }
{
    let t = plan::last_tick(s);
    let next = plan::next_number(s);
    plan::crashes_done(s) <= plan::crash_count(s)
        && t <= plan::end_tick(s)
        && next <= MOST_NEXT
        && nodes_in_range(s, t)
        && messages_in_range(s, t, next)
        && undone_in_range(s, t)
}
