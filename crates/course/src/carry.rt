// The messages in flight taken out of a store into a queue, and put back.
ghost use Rattle.std.specs.Prelude.{List, ◌≡◌, ℕ, length};
ghost use Rattle.store.specs.Store.{state_in};
ghost use Rattle.store.specs.Inside.{Held};
ghost use Rattle.store.specs.declared.Flight.{Flight};
ghost use Rattle.event.specs.Ready.{Ready};
ghost use Rattle.queue.specs.Rows.{places};
ghost use Rattle.course.specs.Apart.{Apart};
ghost use Rattle.course.specs.Carry.{Listed, Emptied};

use queue::Key;
use store::{Flight, messages};

// The messages of a store, in their own order, put into a queue from place 0 on. Answers how many there are.
fn list(b: &[u8], q: &mut [Flight]) -> usize
    requires held { Held b.now }
    requires q_len { length q.old ≡ places }
    ensures { Listed q.new result (state_in b.now).flight }
{
    let n = messages::message_count(b);
    for i in 0..n {
        q[i] = messages::message_at(b, i);
    }
    n
}

// The messages of a store are taken out, and stand in a queue from place 0 on. Answers where it ends.
pub fn take_out(b: &mut [u8], q: &mut [Flight]) -> usize
    requires held { Held b.old }
    requires q_len { length q.old ≡ places }
    ensures { Apart b.new q.new 0 result b.old }
{
    let n = list(b, q);
    queue::sort(&mut q[..n], Key::Due);
    messages::clear_messages(b);
    n
}

// Messages in order of number are put into a store that has none.
fn append(b: &mut [u8], flying: &[Flight])
    requires { (whole : List ℕ) × Emptied b.old flying.now whole }
    ensures { (whole : List ℕ) → Emptied b.old flying.now whole → b.new ≡ whole }
{
    for m in flying {
        messages::put_message(b, *m);
    }
}

// The messages of a queue are put back into the store that they were taken out of.
pub fn put_back(b: &mut [u8], q: &mut [Flight], start: usize, end: usize)
    requires { (whole : List ℕ) × Ready whole × Apart b.old q.old start end whole }
    ensures { (whole : List ℕ) → Ready whole → Apart b.old q.old start end whole → b.new ≡ whole }
{
    let flying = &mut q[start..end];
    queue::sort(flying, Key::Number);
    append(b, flying);
}
