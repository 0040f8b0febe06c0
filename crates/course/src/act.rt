// The events. What each does to its node, what it sends and what is told of it is as for a step; here it is written beside the queue.
ghost use Rattle.std.specs.Prelude.{List, ℕ, Ok};
ghost use Rattle.model.specs.Platform.{crash, watch, heartbeat};
ghost use Rattle.store.specs.declared.Flight.{Flight};
ghost use Rattle.event.specs.Event.{NextIs};
ghost use Rattle.course.specs.declared.Step.TheVariants.{Did};
ghost use Rattle.course.specs.Progress.{Underway, SteppedAs};
ghost use Rattle.course.specs.Act.{Acts, ActsCrash, Delivers, ActsMessage};

use crate::{Progress, Step, settle};
use event::turn;
use limits::Refusal;
use model::Deed;
use store::{Flight, plan};

// The heartbeat of node x is due, at the tick that the run has come to. Heartbeats and watches have a function each: one over a rule and a deed
// would have a harder contract than both.
pub fn do_heartbeat(b: &mut [u8], q: &mut [Flight], c: &mut Progress) -> Result<Step, Refusal>
    requires { Acts b.old q.old c.old (heartbeat c.old.x) }
    ensures { (whole : List ℕ) → Underway b.old q.old c.old whole → NextIs whole c.old.bound (heartbeat c.old.x)
        → SteppedAs whole c.old result b.new q.new c.new }
{
    let t = c.bound;
    let x = c.x;
    let u = turn::heartbeat_turn(b, t, x);
    let deed = turn::heartbeat_deed(b, t, x, u);
    settle::settle(b, q, c, t, x as u8, u)?;
    Ok(Step::Did(deed))
}

// The watch of node x is due, at the tick that the run has come to.
pub fn do_watch(b: &mut [u8], q: &mut [Flight], c: &mut Progress) -> Result<Step, Refusal>
    requires { Acts b.old q.old c.old (watch c.old.x) }
    ensures { (whole : List ℕ) → Underway b.old q.old c.old whole → NextIs whole c.old.bound (watch c.old.x)
        → SteppedAs whole c.old result b.new q.new c.new }
{
    let t = c.bound;
    let x = c.x;
    let u = turn::watch_turn(b, t, x);
    let deed = turn::watch_deed(b, t, x, u);
    settle::settle(b, q, c, t, x as u8, u)?;
    Ok(Step::Did(deed))
}

// A crash is next: that of the first C row that is not done.
pub fn do_crash(b: &mut [u8], c: &mut Progress, t: u32) -> Deed
    requires { ActsCrash b.old c.old t }
    ensures { (q : List Flight) (whole : List ℕ) (k : ℕ) → Underway b.old q c.old whole → NextIs whole t (crash k)
        → SteppedAs whole c.old (Ok (Did result)) b.new q c.new }
{
    let row = plan::crash_at(b, plan::crashes_done(b));
    let deed = turn::crash(b, t, row.node);
    c.dead = plan::crashed_list(b);
    c.x = 0;
    deed
}

// The first message of the queue is next: it is delivered; to a crashed node it is dropped.
pub fn do_message(b: &mut [u8], q: &mut [Flight], c: &mut Progress, t: u32) -> Result<Step, Refusal>
    requires { ActsMessage b.old q.old c.old t }
    ensures { (whole : List ℕ) → Underway b.old q.old c.old whole → Delivers q.old c.old t whole
        → SteppedAs whole c.old result b.new q.new c.new }
{
    let f = q[c.start];
    let u = turn::message_turn(b, c.dead, t, f);
    let deed = turn::message_deed(b, t, f, ring::is_listed(c.dead, f.to), u);
    let mut d = *c;
    d.start += 1;
    d.x = 0;
    settle::settle(b, q, &mut d, t, f.to, u)?;
    *c = d;
    Ok(Step::Did(deed))
}
