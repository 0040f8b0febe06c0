// Events of a store that is ready for them: one with its lines, for a step, or a budget of them, for a run.
ghost use Rattle.std.specs.Prelude.{◌≡◌, ◌≤◌, length};
ghost use Rattle.limits.specs.Limits.{log_room};
ghost use Rattle.event.specs.Ready.{Ready};
ghost use Rattle.queue.specs.Rows.{places};
ghost use Rattle.platform.specs.Calls.{step_next, run_next, budget_answer};

use crate::{Ran, RunRefusal, Stepped};
use event::{lines, search};
use limits::Refusal;
use store::{Flight, messages};
use text::Writer;

// The next event and its lines, or the last line where none is left.
pub fn step_ready(store: &mut [u8], log: &mut [u8]) -> Result<Stepped, Refusal>
    requires ready { Ready store.old }
    requires log_room_in_bounds { log_room ≤ length log.old }
    ensures value { result ≡ (step_next store.old log.old).answer }
    ensures store_after { store.new ≡ (step_next store.old log.old).store }
    ensures log_after { log.new ≡ (step_next store.old log.old).log }
{
    match event::do_event(store)? {
        Some(deed) => {
            let mut out = Writer::new(log);
            lines::put_lines(deed, &mut out);
            Ok(Stepped::Did(lines::own_line(deed), out.at))
        }
        None => {
            let line = lines::last_line(store, messages::message_count(store) as u64);
            let mut out = Writer::new(log);
            logline::put_line(line, &mut out);
            Ok(Stepped::Done(line, out.at))
        }
    }
}

// What a run whose whole budget is done answers: whether another event remains.
fn after_budget(store: &[u8], budget: u64) -> Ran
    requires { Ready store.now }
    ensures { result ≡ budget_answer store.now budget }
{
    match search::next_event(store) {
        Some(_) => Ran::Spent(budget),
        None => Ran::Done(budget),
    }
}

// Events up to a budget, to the last one or to one that is refused, each found as for a step.
fn run_searching(store: &mut [u8], budget: u64) -> Result<Ran, RunRefusal>
    requires { Ready store.old }
    ensures value { result ≡ (run_next store.old budget).answer }
    ensures store_after { store.new ≡ (run_next store.old budget).store }
{
    for done in 0..budget {
        match event::do_event(store) {
            Ok(Some(_)) => {}
            Ok(None) => return Ok(Ran::Done(done)),
            Err(refusal) => {
                return Err(RunRefusal {
                    refusal,
                    events: done,
                });
            }
        }
    }
    Ok(after_budget(store, budget))
}

// The same, with the messages in flight in a queue in q. One function over a closure that finds the next event would be no plainer than
// run_searching and run_queued: they differ in what they hold beside the store and give back at each exit.
fn run_queued(store: &mut [u8], q: &mut [Flight], budget: u64) -> Result<Ran, RunRefusal>
    requires ready { Ready store.old }
    requires q_len { length q.old ≡ places }
    ensures value { result ≡ (run_next store.old budget).answer }
    ensures store_after { store.new ≡ (run_next store.old budget).store }
{
    let mut c = course::begin(store, q);
    for events in 0..budget {
        match course::next(store, q, &mut c) {
            Ok(Some(_)) => {}
            Ok(None) => {
                course::finish(store, q, c);
                return Ok(Ran::Done(events));
            }
            Err(refusal) => {
                course::finish(store, q, c);
                return Err(RunRefusal { refusal, events });
            }
        }
    }
    course::finish(store, q, c);
    Ok(after_budget(store, budget))
}

// From how many events on a queue is worth filling and giving back.
const QUEUED: u64 = 12;

// Events up to a budget, to the last one or to one that is refused, in the quicker of the two ways.
pub fn run_ready(store: &mut [u8], budget: u64) -> Result<Ran, RunRefusal>
    requires { Ready store.old }
    ensures value { result ≡ (run_next store.old budget).answer }
    ensures store_after { store.new ≡ (run_next store.old budget).store }
{
    if budget < QUEUED {
        return run_searching(store, budget);
    }
    let mut q = [queue::NO_MESSAGE; queue::PLACES];
    run_queued(store, &mut q, budget)
}
