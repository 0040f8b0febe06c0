// A turn taken or refused, and how far the run is after it.
ghost use Rattle.std.specs.Prelude.{◌+◌, ◌≤◌};
ghost use Rattle.store.specs.declared.Flight.{Flight};
ghost use Rattle.queue.specs.Rows.{places};
ghost use Rattle.limits.specs.Limits.{most_sent};
ghost use Rattle.course.specs.Progress.{Settling, Settled, Later};

use crate::{Progress, turn};
use event::search;
use limits::{MOST_IN_FLIGHT, Refusal};
use node::{Node, Turned};
use store::Flight;

// How far the run is after a turn that sent `count` messages and left node a.
fn later(c: Progress, count: usize, a: Node) -> Progress
    requires { (c.end + most_sent ≤ places) × (count ≤ most_sent) }
    ensures { Later c result count a }
{
    let watch = search::earlier_timer(c.bound, a.watch);
    let bound = search::earlier_timer(watch, a.heartbeat);
    let x = if bound < c.bound { 0 } else { c.x };
    Progress {
        end: c.end + count,
        bound,
        x,
        ..c
    }
}

// Node y takes its turn at tick t, unless too many messages would be in flight.
pub fn settle(
    b: &mut [u8],
    q: &mut [Flight],
    c: &mut Progress,
    t: u32,
    y: u8,
    u: Turned,
) -> Result<(), Refusal>
    requires { Settling b.old q.old c.old t y u }
    ensures { Settled b.old q.old c.old t y u result b.new q.new c.new }
{
    if MOST_IN_FLIGHT < c.end - c.start + u.count {
        return Err(Refusal::TooMany);
    }
    turn::take_turn(b, q, c.start, c.end, t, y, u);
    *c = later(*c, u.count, u.node);
    Ok(())
}
