// One step of a run: an event, or a later tick for the timers.
ghost use Rattle.std.specs.Prelude.{List, ℕ, ◌+◌, ◌≤◌};
ghost use Rattle.limits.specs.Limits.{most_sent};
ghost use Rattle.store.specs.declared.Flight.{Flight};
ghost use Rattle.queue.specs.Rows.{places};
ghost use Rattle.course.specs.Progress.{Underway, Going, Stepped, SteppedAs};
ghost use Rattle.course.specs.Choose.{Quiet, Waiting};

use crate::{Progress, Step, act, look};
use event::search;
use limits::{MOST_SENT, Refusal};
use store::{Flight, nodes, plan};

// Crashes and messages are later than the tick that the run has come to: a timer at that tick, or a later tick.
fn timers(b: &mut [u8], q: &mut [Flight], c: &mut Progress) -> Result<Step, Refusal>
    requires { Waiting b.old q.old c.old }
    ensures { (whole : List ℕ) → Underway b.old q.old c.old whole → Quiet c.old whole
        → SteppedAs whole c.old result b.new q.new c.new }
{
    let t = c.bound;
    let Some(x) = look::timer_node(b, c.dead, t, c.x) else {
        c.bound = look::least_timer(b, c.dead, t);
        c.x = 0;
        return Ok(Step::Waits);
    };
    let a = nodes::node_at(b, x);
    let from = c.x;
    c.x = x;
    let step = if a.watch == t + 1 {
        act::do_watch(b, q, c)
    } else {
        act::do_heartbeat(b, q, c)
    };
    if step.is_err() {
        c.x = from;
    }
    step
}

// The next event is done, if there is one at the tick that the run has come to or before.
pub fn step(b: &mut [u8], q: &mut [Flight], c: &mut Progress) -> Result<Step, Refusal>
    requires { Going b.old q.old c.old }
    ensures { Stepped b.old q.old c.old result b.new q.new c.new }
{
    let end = plan::end_tick(b);
    let crash = search::earliest_crash(b);
    let due = look::message_tick(q, c.start, c.end).unwrap_or(end + 1);
    if crash <= due {
        if c.bound < crash {
            return timers(b, q, c);
        }
        if end < crash {
            return Ok(Step::Ended);
        }
        return Ok(Step::Did(act::do_crash(b, c, crash)));
    }
    if c.bound < due {
        return timers(b, q, c);
    }
    act::do_message(b, q, c, due)
}

// The queue gets room for what an event sends: it is moved down where it has none.
pub fn make_room(q: &mut [Flight], c: &mut Progress)
    requires { (b : List ℕ) × (whole : List ℕ) × Underway b q.old c.old whole }
    ensures { (b whole : List ℕ) → Underway b q.old c.old whole
        → Underway b q.new c.new whole × (c.new.end + most_sent ≤ places) }
{
    if c.end + MOST_SENT <= queue::PLACES {
        return;
    }
    q.copy_within(c.start..c.end, 0);
    c.end -= c.start;
    c.start = 0;
}
