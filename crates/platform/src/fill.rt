// Fills a store from an accepted file: the P line, the numbers of the Q line, the nodes, then the rows one after another.
ghost use Rattle.std.specs.Prelude.{◌≡◌, length};
ghost use Rattle.runfile.specs.Text.{start_text};
ghost use Rattle.runfile.specs.Reader.{outline_of, ring_place, crash_place, delay_place};
ghost use Rattle.model.specs.Platform.{start};
ghost use Rattle.limits.specs.Limits.{store_size};
ghost use Rattle.store.specs.Store.{encode};
ghost use Rattle.platform.specs.Accepts.{plan_of, Accepts};
ghost use Rattle.store.specs.Filling.{begun, filled};

use runfile::Outline;

// One function for add_numbers, add_crashes and add_delays would be no plainer: each has a reader, a writer and a contract of its own.

// The numbers of the file's Q line, the first of which stands at the place first. Answers the place after them.
fn add_numbers(s: &mut [u8], file: &[u8], first: usize, count: usize) -> usize
    requires accepts { Accepts file.now }
    requires first_value { (first ≡ ring_place (plan_of file.now) 0) × (count ≡ length (plan_of file.now).ring) }
    requires s_value { (s.old ≡ begun (plan_of file.now) 0) × (length s.old ≡ store_size) }
    ensures value { result ≡ ring_place (plan_of file.now) count }
    ensures s_after { s.new ≡ begun (plan_of file.now) count }
{
    let mut at = first;
    for i in 0..count {
        let Some((number, next)) = text::read_field(file, at) else {
            unreachable!()
        };
        store::fill::put_ring(s, i, number);
        at = next;
    }
    at
}

// The file's Q line, which has so many numbers and stands at the place first, or nothing where there is none. Answers the place after it.
fn add_ring(s: &mut [u8], file: &[u8], first: usize, count: usize) -> usize
    requires accepts { Accepts file.now }
    requires first_value { (first ≡ length (start_text (plan_of file.now))) × (count ≡ length (plan_of file.now).ring) }
    requires s_value { (s.old ≡ begun (plan_of file.now) 0) × (length s.old ≡ store_size) }
    ensures value { result ≡ crash_place (plan_of file.now) 0 }
    ensures s_after { s.new ≡ begun (plan_of file.now) count }
{
    if count == 0 {
        return first;
    }
    let end = add_numbers(s, file, first + 1, count);
    end + 1
}

// The store of the file's P line and Q line, with all nodes as they are opened. Answers the place of the first row in the file.
fn begin(s: &mut [u8], file: &[u8], o: Outline) -> usize
    requires accepts { Accepts file.now }
    requires o_value { (o ≡ outline_of (plan_of file.now)) × (length s.old ≡ store_size) }
    ensures value { result ≡ crash_place (plan_of file.now) 0 }
    ensures s_after { s.new ≡ filled (plan_of file.now) 0 0 }
{
    store::fill::begin(s, o.n, o.h, o.w, o.d, o.end);
    let rows = add_ring(s, file, o.rows, o.ring);
    store::nodes::open_nodes(s);
    rows
}

// The C rows of the file, the first of which stands at the place first. Answers the place after them.
fn add_crashes(s: &mut [u8], file: &[u8], first: usize, count: usize) -> usize
    requires accepts { Accepts file.now }
    requires first_value { (first ≡ crash_place (plan_of file.now) 0) × (count ≡ length (plan_of file.now).crashes) }
    requires s_value { (s.old ≡ filled (plan_of file.now) 0 0) × (length s.old ≡ store_size) }
    ensures value { result ≡ crash_place (plan_of file.now) count }
    ensures s_after { s.new ≡ filled (plan_of file.now) count 0 }
{
    let mut at = first;
    for i in 0..count {
        let Some((tick, node, next)) = runfile::row_at(file, at) else {
            unreachable!()
        };
        store::fill::put_crash(s, i, tick, node);
        at = next;
    }
    at
}

// The L rows of the file, the first of which stands at the place first.
fn add_delays(s: &mut [u8], file: &[u8], first: usize, count: usize)
    requires accepts { Accepts file.now }
    requires first_value { (first ≡ delay_place (plan_of file.now) 0) × (count ≡ length (plan_of file.now).delays) }
    requires s_value { (s.old ≡ filled (plan_of file.now) (length (plan_of file.now).crashes) 0) × (length s.old ≡ store_size) }
    ensures { s.new ≡ filled (plan_of file.now) (length (plan_of file.now).crashes) count }
{
    let mut at = first;
    for i in 0..count {
        let Some((number, delay, next)) = runfile::row_at(file, at) else {
            unreachable!()
        };
        store::fill::put_delay(s, i, number, delay);
        at = next;
    }
}

// The store of an accepted file, of which the reader gave the outline o.
pub fn fill(s: &mut [u8], file: &[u8], o: Outline)
    requires accepts { Accepts file.now }
    requires o_value { (o ≡ outline_of (plan_of file.now)) × (length s.old ≡ store_size) }
    ensures { s.new ≡ encode (plan_of file.now) (start (plan_of file.now)) }
{
    let rows = begin(s, file, o);
    let delays = add_crashes(s, file, rows, o.crashes);
    add_delays(s, file, delays, o.delays);
}
