// The rehearsal platform: opening, step, run and the run-file writer, on a store of 65,536 lent bytes.
#![tactic(auto)]

mod fill; // fill.rt: the store that opening makes
mod write; // write.rt: the run file of a store
pub mod advance; // advance.rt: events of a store that is ready for them, for a step, for a run and for a turn of the dispatcher

ghost use Rattle.std.specs.Prelude.{◌≡◌};
ghost use Rattle.platform.specs.Calls.{open_file, step, run, write_file};

use event::lines;
use limits::{FILE_ROOM, LOG_ROOM, Refusal, STORE_SIZE};
use logline::Line;
use runfile::FileRefusal;

// What a step came to: the event done, as its own line tells it, or that none is left, with the last line; each with the length of the text
// that was written.
#[derive(Clone, Copy)]
pub enum Stepped {
    Did(Line, usize),
    Done(Line, usize),
}

// What a run came to, with the events that it did: none is left, or the budget is spent.
#[derive(Clone, Copy, Debug, PartialEq, Eq)]
pub enum Ran {
    Done(u64),
    Spent(u64),
}

// Why a run is refused, and the events that it did before.
#[derive(Clone, Copy, Debug, PartialEq, Eq)]
pub struct RunRefusal {
    pub refusal: Refusal,
    pub events: u64,
}

// Opens a store from a run file.
pub fn open_store(file: &[u8], store: &mut [u8]) -> Result<(), FileRefusal>
    ensures value { result ≡ (open_file file.now store.old).answer }
    ensures store_after { store.new ≡ (open_file file.now store.old).store }
{
    let outline = runfile::read_file(file)?;
    if store.len() != STORE_SIZE {
        return Err(FileRefusal {
            refusal: Refusal::BadStore,
            line: 0,
        });
    }
    fill::fill(store, file, outline);
    Ok(())
}

// Does the next event of a store and writes its lines at the start of a log part, or the last line where none is left.
#[tactic(auto, unfolding(crate::specs::Calls::step))]
pub fn step(store: &mut [u8], log: &mut [u8]) -> Result<Stepped, Refusal>
    ensures value { result ≡ (step store.old log.old).answer }
    ensures store_after { store.new ≡ (step store.old log.old).store }
    ensures log_after { log.new ≡ (step store.old log.old).log }
{
    if !lent::in_range(store) {
        return Err(Refusal::BadStore);
    }
    if log.len() < LOG_ROOM {
        return Err(Refusal::ShortPart);
    }
    advance::step_ready(store, log)
}

// Does the next events of a store, as many as a budget allows.
pub fn run(store: &mut [u8], budget: u64) -> Result<Ran, RunRefusal>
    ensures value { result ≡ (run store.old budget).answer }
    ensures store_after { store.new ≡ (run store.old budget).store }
{
    if !lent::in_range(store) {
        return Err(RunRefusal {
            refusal: Refusal::BadStore,
            events: 0,
        });
    }
    advance::run_ready(store, budget)
}

// Writes the run file of a store at the start of a lent part.
pub fn write_file(store: &[u8], out: &mut [u8]) -> Result<usize, Refusal>
    ensures value { result ≡ (write_file store.now out.old).answer }
    ensures out_after { out.new ≡ (write_file store.now out.old).out }
{
    if !lent::in_range(store) {
        return Err(Refusal::BadStore);
    }
    if out.len() < FILE_ROOM {
        return Err(Refusal::ShortPart);
    }
    Ok(write::put_file(store, out))
}
