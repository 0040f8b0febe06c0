// Dead lists, the ring in any order, forward targets and the forwarding table. The ring is lent as its order, node numbers
// from the first place to the last; a place is an index of it.
#![tactic(auto)]

ghost use Rattle.std.specs.Prelude.{◌≡◌, ◌-◌, ◌^◌, ◌<◌, ◌≤◌, length, get_or};
ghost use Rattle.limits.specs.Limits.{most_nodes};
ghost use Rattle.ring.specs.Ring.{numbers, listed, listing, unlisting, merging, part_of, unlisted_set, place, round, ahead, back, next, count, jumps};
ghost use Rattle.ring.specs.Ring.{targets, row, table_answer, table_row, table_rows};

use limits::{MOST_NODES, Refusal};

// The targets in a row.
pub const ROW_SIZE: usize = 6;

// The target where there is none. The searches answer it, and no `None`, since `row`, `opening` and `leaving` have 255 there: each caller would put it back.
pub const NONE: u8 = 255;

// The forwarding table, or why it is refused: its rows are empty then.
#[derive(Drop)]
pub struct Table {
    pub answer: Result<(), Refusal>,
    pub rows: [[u8; ROW_SIZE]; MOST_NODES],
}

// The answer of the search for the node before: that node, and how many listed nodes were passed on the way to it.
#[derive(Drop)]
pub struct NodeBefore {
    pub node: u8,
    pub passed: u8,
}

// Whether the dead list d lists node i.
pub fn is_listed(d: u64, i: u8) -> bool
    ensures { result ≡ listed d i }
{
    (i as usize) < MOST_NODES && (d >> i) % 2 == 1
}

// The dead list d with node i listed.
#[tactic(auto, using(crate::proofs::Laws::one_shl), unfolding(crate::specs::Ring::listing))]
pub fn with_listed(d: u64, i: u8) -> u64
    requires { i < most_nodes }
    ensures { result ≡ listing d i }
{
    d | 1 << i
}

// A dead list without node i.
pub fn with_unlisted(list: u64, i: u8) -> u64
    requires { i < most_nodes }
    ensures { result ≡ unlisting list i }
{
    list & !(1 << i)
}

// The dead list d with all that e lists.
#[tactic(auto, unfolding(crate::specs::Ring::merging))]
pub fn with_all(d: u64, e: u64) -> u64
    ensures { result ≡ merging d e }
{
    d | e
}

// Whether d lists every node that m lists.
#[tactic(auto, unfolding(crate::specs::Ring::part_of))]
pub fn is_part(m: u64, d: u64) -> bool
    ensures { result ≡ part_of m d }
{
    m | d == d
}

// The set of all of n nodes.
#[tactic(auto, using(crate::proofs::Laws::ones_shr))]
pub fn all_nodes(n: u8) -> u64
    requires { (1 ≤ n) × (n ≤ most_nodes) }
    ensures { result ≡ 2 ^ n - 1 }
{
    u64::MAX >> (MOST_NODES as u8 - n)
}

// The set of the nodes below n that d does not list.
pub fn unlisted_set(n: u8, d: u64) -> u64
    requires { (1 ≤ n) × (n ≤ most_nodes) }
    ensures { result ≡ unlisted_set n d }
{
    !d & all_nodes(n)
}

// How many of n nodes d does not list: the ones of the unlisted set.
#[tactic(auto, using(crate::proofs::Counts::unlisted_ones))]
pub fn count_unlisted(n: u8, d: u64) -> u32
    requires { (1 ≤ n) × (n ≤ most_nodes) }
    ensures { result ≡ count n d }
{
    unlisted_set(n, d).count_ones()
}

// How many powers of two are below m, by the leading zeros of m - 1.
#[tactic(auto, using(crate::proofs::Counts::jumps_by_zeros))]
pub fn jump_count(m: u32) -> u32
    ensures { result ≡ jumps m }
{
    if m == 0 {
        return 0;
    }
    u32::BITS - (m - 1).leading_zeros()
}

// The ring of 64 nodes in number order; its first n are the ring of n nodes.
pub fn number_order() -> [u8; MOST_NODES]
    ensures { result ≡ numbers 0 most_nodes }
{
    std::array::from_fn(|i| i as u8)
}

// The place of node i in the ring, or the ring's length where it has none.
pub fn place_of(order: &[u8], i: u8) -> usize
    ensures { result ≡ place order.now i }
{
    order.iter().position(|x| *x == i).unwrap_or(order.len())
}

// The node s places after the place p, round the ring.
#[tactic(auto, using(crate::proofs::Laws::round_places))]
pub fn step(order: &[u8], p: usize, s: usize) -> u8
    requires { s < length order.now }
    ensures { result ≡ get_or (round order.now p) s 0 }
{
    if order.len() <= p {
        return order[s];
    }
    let left = order.len() - p;
    if s < left {
        return order[p + s];
    }
    order[s - left]
}

// The node that is k unlisted nodes ahead of the place p, or 255. A chain of the ring's two parts with `filter` and `nth` was tried here: it takes half as
// long again where the node is near, as it is in `target_row` and `find_next`.
pub fn find_ahead(order: &[u8], d: u64, p: usize, k: usize) -> u8
    ensures { result ≡ ahead order.now d p k }
{
    let mut left = k;
    for s in 0..order.len() {
        let x = step(order, p, s);
        if !is_listed(d, x) {
            if left == 0 {
                return x;
            }
            left -= 1;
        }
    }
    NONE
}

// The first unlisted node going back from the place p, or 255, and how many listed ones were passed.
pub fn find_back(order: &[u8], d: u64, p: usize) -> NodeBefore
    requires { length order.now ≤ most_nodes }
    ensures { result ≡ back order.now d p }
{
    let mut passed: u8 = 0;
    for s in (0..order.len()).rev() {
        let x = step(order, p, s);
        if !is_listed(d, x) {
            return NodeBefore { node: x, passed };
        }
        passed += 1;
    }
    NodeBefore { node: NONE, passed }
}

// The first unlisted node ahead of the place p, or 255.
#[tactic(auto, using(crate::proofs::Searches::after_place))]
pub fn find_next(order: &[u8], d: u64, p: usize) -> u8
    ensures { result ≡ next order.now d p }
{
    find_ahead(order, d, p.saturating_add(1), 0)
}

// The forward targets of the unlisted node at the place p.
pub fn target_row(order: &[u8], d: u64, p: usize) -> [u8; ROW_SIZE]
    requires { (1 ≤ length order.now) × (length order.now ≤ most_nodes) }
    ensures { result ≡ row (targets order.now d p) }
{
    let n = order.len() as u8;
    let last = jump_count(count_unlisted(n, d)) as usize;
    let mut out = [NONE; ROW_SIZE];
    for (j, target) in out[..last].iter_mut().enumerate() {
        *target = find_ahead(order, d, p, 1 << j);
    }
    out
}

// Whether n nodes and the dead list d have a forwarding table.
#[tactic(auto, unfolding(crate::specs::Ring::table_answer))]
fn table_answer(n: u64, d: u64) -> Result<(), Refusal>
    ensures { result ≡ table_answer n d }
{
    if n < 1 || n > MOST_NODES as u64 || d > all_nodes(n as u8) {
        return Err(Refusal::OutOfRange);
    }
    Ok(())
}

// The row of number i in the forwarding table of a ring.
#[tactic(auto, using(crate::proofs::TableLaws::rows_of_table))]
fn table_row(order: &[u8], d: u64, i: u8) -> [u8; ROW_SIZE]
    requires { length order.now ≤ most_nodes }
    ensures { result ≡ table_row order.now d i }
{
    if order.len() <= i as usize || is_listed(d, i) {
        return [NONE; ROW_SIZE];
    }
    target_row(order, d, place_of(order, i))
}

// The rows of the forwarding table.
fn table_rows(n: u64, d: u64) -> [[u8; ROW_SIZE]; MOST_NODES]
    ensures { result ≡ table_rows n d }
{
    let mut rows = [[NONE; ROW_SIZE]; MOST_NODES];
    if table_answer(n, d).is_err() {
        return rows;
    }
    let all = number_order();
    let ring = &all[..n as usize];
    for (i, row) in rows.iter_mut().enumerate() {
        *row = table_row(ring, d, i as u8);
    }
    rows
}

// The forwarding table of n nodes and the dead list d.
pub fn forwarding_table(n: u64, d: u64) -> Table
    ensures { (result.answer ≡ table_answer n d) × (result.rows ≡ table_rows n d) }
{
    Table {
        answer: table_answer(n, d),
        rows: table_rows(n, d),
    }
}
