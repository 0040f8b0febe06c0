// Writes the run file of a store.
ghost use Rattle.std.specs.Prelude.{◌+◌, ◌≤◌, length};
ghost use Rattle.text.specs.Put.{Put, Writes};
ghost use Rattle.text.specs.Field.{field};
ghost use Rattle.runfile.specs.Text.{ring_text, head_text, crash_text, delay_text, rows_text, plan_text};
ghost use Rattle.store.specs.Store.{plan_in};
ghost use Rattle.store.specs.Inside.{Held};

use store::plan;
use text::Writer;

// The numbers of the Q line.
fn put_numbers(store: &[u8], out: &mut Writer)
    requires held { Held store.now }
    requires room { out.old.at + length (rows_text field (plan_in store.now).ring) ≤ length out.old.out.now }
    ensures { Writes out.old out.new (rows_text field (plan_in store.now).ring) }
{
    for i in 0..plan::ring_size(store) {
        out.field(plan::ring_at(store, i) as u64);
    }
}

// The Q line, where there is one.
fn put_ring(store: &[u8], out: &mut Writer)
    requires held { Held store.now }
    requires room { out.old.at + length (ring_text (plan_in store.now).ring) ≤ length out.old.out.now }
    ensures { Writes out.old out.new (ring_text (plan_in store.now).ring) }
{
    if plan::ring_size(store) == 0 {
        return;
    }
    out.byte(b'Q');
    put_numbers(store, out);
    out.byte(b'\n');
}

// The P line and the Q line.
fn put_head(store: &[u8], out: &mut Writer)
    requires held { Held store.now }
    requires room { out.old.at + length (head_text (plan_in store.now)) ≤ length out.old.out.now }
    ensures { Writes out.old out.new (head_text (plan_in store.now)) }
{
    runfile::put_start(
        out,
        plan::node_count(store) as u64,
        plan::period(store) as u64,
        plan::time_out(store) as u64,
        plan::longest_delay(store) as u64,
        plan::end_tick(store) as u64,
    );
    put_ring(store, out);
}

// The C lines. They and the L lines have a function each, as rows have a type, a reader and a text of their own.
fn put_crashes(store: &[u8], out: &mut Writer)
    requires held { Held store.now }
    requires room { out.old.at + length (rows_text crash_text (plan_in store.now).crashes) ≤ length out.old.out.now }
    ensures { Writes out.old out.new (rows_text crash_text (plan_in store.now).crashes) }
{
    for i in 0..plan::crash_count(store) {
        let row = plan::crash_at(store, i);
        runfile::put_crash(out, row.tick as u64, row.node as u64);
    }
}

// The L lines.
fn put_delays(store: &[u8], out: &mut Writer)
    requires held { Held store.now }
    requires room { out.old.at + length (rows_text delay_text (plan_in store.now).delays) ≤ length out.old.out.now }
    ensures { Writes out.old out.new (rows_text delay_text (plan_in store.now).delays) }
{
    for i in 0..plan::delay_count(store) {
        let row = plan::delay_at(store, i);
        runfile::put_delay(out, row.number as u64, row.delay as u64);
    }
}

// The whole file, from the start of out on. Answers its length.
pub fn put_file(store: &[u8], out: &mut [u8]) -> usize
    requires held { Held store.now }
    requires store_in_bounds { length (plan_text (plan_in store.now)) ≤ length out.old }
    ensures { Put out.old 0 (plan_text (plan_in store.now)) result out.new }
{
    let mut writer = Writer::new(out);
    put_head(store, &mut writer);
    put_crashes(store, &mut writer);
    put_delays(store, &mut writer);
    writer.at
}
