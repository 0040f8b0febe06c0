// The platform for planners' own programs in C or Rust: opening, step, run, the run-file writer and the dispatcher on numbers and byte slices.
// C has numbers and pointers, so the calls answer a refusal's number, 0 for none, and 1 or 0 for whether a budget is spent.
// A refused call leaves the numbers behind its pointers too. include/kelbraut.h says how to use them.
#![tactic(auto)]

ghost use Rattle.std.specs.Prelude.{◌≡◌};
ghost use Rattle.platform.specs.Calls.{open_file, step, run, write_file, run_refusal};
ghost use Rattle.limits.specs.Refusals.{answer_of};
ghost use Rattle.planner.specs.Answers.{number_and_line, step_letter, step_tick, step_node, step_other, step_size};
ghost use Rattle.planner.specs.Answers.{run_events, run_spent, write_size};
ghost use Rattle.planner.specs.Answers.{dispatch_turns, dispatch_events, dispatch_stopped};
ghost use Rattle.dispatcher.specs.Dispatch.{dispatch};

use limits::Refusal;
use platform::{Ran, Stepped};

// Opens a store from a run file. Answers 0, or the number of the refusal and 256 times its line.
#[tactic(auto, unfolding(crate::specs::Answers::number_and_line))]
#[unsafe(no_mangle)]
pub extern "C" fn kelbraut_open(file: &[u8], store: &mut [u8]) -> u64
    ensures value { result ≡ number_and_line (open_file file.now store.old).answer }
    ensures store_after { store.new ≡ (open_file file.now store.old).store }
{
    match platform::open_store(file, store) {
        Ok(()) => 0,
        Err(refused) => refused.refusal.number() + 256 * refused.line,
    }
}

// Does up to so many events. Answers the number of the refusal, 0 where there is none. Puts the events done, also at an event that is refused,
// and 1 where the budget is spent and another event remains.
#[tactic(auto, unfolding(crate::specs::Answers::run_events, crate::specs::Answers::run_spent, platform::specs::Calls::run_refusal))]
#[unsafe(no_mangle)]
pub extern "C" fn kelbraut_run(
    store: &mut [u8],
    budget: u64,
    events: &mut u64,
    spent: &mut u64,
) -> u64
    ensures value { result ≡ run_refusal (run store.old budget).answer }
    ensures events_after { events.new ≡ run_events (run store.old budget).answer events.old }
    ensures spent_after { spent.new ≡ run_spent (run store.old budget).answer spent.old }
    ensures store_after { store.new ≡ (run store.old budget).store }
{
    match platform::run(store, budget) {
        Ok(Ran::Done(done)) => {
            *events = done;
            *spent = 0;
            0
        }
        Ok(Ran::Spent(done)) => {
            *events = done;
            *spent = 1;
            0
        }
        Err(refused) => {
            if refused.refusal == Refusal::TooMany {
                *events = refused.events;
            }
            refused.refusal.number()
        }
    }
}

// Puts the store's run file into a lent part. Answers the number of the refusal, 0 where there is none. Puts the file's length.
#[tactic(auto, unfolding(crate::specs::Answers::write_size))]
#[unsafe(no_mangle)]
pub extern "C" fn kelbraut_write(store: &[u8], out: &mut [u8], size: &mut u64) -> u64
    ensures value { result ≡ answer_of (write_file store.now out.old).answer }
    ensures size_after { size.new ≡ write_size (write_file store.now out.old).answer size.old }
    ensures out_after { out.new ≡ (write_file store.now out.old).out }
{
    match platform::write_file(store, out) {
        Ok(bytes) => {
            *size = bytes as u64;
            0
        }
        Err(refusal) => refusal.number(),
    }
}

// Does one event and writes its line. Answers the number of the refusal, 0 where there is none. Puts the letter of the event's line, E or F
// where none is left, its tick, node and other, and the length of the line.
#[tactic(auto, unfolding(crate::specs::Answers::step_letter, crate::specs::Answers::step_tick, crate::specs::Answers::step_node, crate::specs::Answers::step_other, crate::specs::Answers::step_size))]
#[unsafe(no_mangle)]
pub extern "C" fn kelbraut_step(
    store: &mut [u8],
    log: &mut [u8],
    letter: &mut u64,
    tick: &mut u64,
    node: &mut u64,
    other: &mut u64,
    size: &mut u64,
) -> u64
    ensures value { result ≡ answer_of (step store.old log.old).answer }
    ensures letter_after { letter.new ≡ step_letter (step store.old log.old).answer letter.old }
    ensures tick_after { tick.new ≡ step_tick (step store.old log.old).answer tick.old }
    ensures node_after { node.new ≡ step_node (step store.old log.old).answer node.old }
    ensures other_after { other.new ≡ step_other (step store.old log.old).answer other.old }
    ensures size_after { size.new ≡ step_size (step store.old log.old).answer size.old }
    ensures store_after { store.new ≡ (step store.old log.old).store }
    ensures log_after { log.new ≡ (step store.old log.old).log }
{
    match platform::step(store, log) {
        Ok(Stepped::Did(line, bytes) | Stepped::Done(line, bytes)) => {
            *letter = line.letter as u64;
            *tick = line.tick;
            *node = line.node;
            *other = line.other;
            *size = bytes as u64;
            0
        }
        Err(refusal) => refusal.number(),
    }
}

// Gives `turns` turns of `each` events to the stores of a part. Answers the number of the refusal, 0 where there is none. Puts the turns given,
// the events of each of eight stores, and which stores are stopped, bit i for store i.
#[tactic(auto, unfolding(crate::specs::Answers::dispatch_turns, crate::specs::Answers::dispatch_events, crate::specs::Answers::dispatch_stopped))]
#[unsafe(no_mangle)]
pub extern "C" fn kelbraut_dispatch(
    stores: &mut [u8],
    each: u64,
    turns: u64,
    given: &mut u64,
    events: &mut [u64; 8],
    stopped: &mut u64,
) -> u64
    ensures value { result ≡ answer_of (dispatch stores.old each turns).answer }
    ensures given_after { given.new ≡ dispatch_turns (dispatch stores.old each turns).answer given.old }
    ensures events_after { events.new ≡ dispatch_events (dispatch stores.old each turns).answer events.old }
    ensures stopped_after { stopped.new ≡ dispatch_stopped (dispatch stores.old each turns).answer stopped.old }
    ensures stores_after { stores.new ≡ (dispatch stores.old each turns).part }
{
    match dispatcher::dispatch(stores, each, turns) {
        Ok(dispatched) => {
            *given = dispatched.turns;
            let done = dispatched.events;
            *events = done;
            *stopped = dispatched.stopped;
            0
        }
        Err(refused) => refused.number(),
    }
}
