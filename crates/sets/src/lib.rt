// Ordered sets of rows in lent stores of signed 32-bit numbers: 17 numbers a row, from the front. What a step may be refused for.
// Every function is an inner step: the entries above lend stores that take any set, and keep sets in order. A set is a store and the number of
// its rows, and rows are read and written by offset: stores are lent as slices of numbers, so each contract names both, and loops count rows.
#![tactic(auto)]

ghost use Rattle.std.specs.Prelude.{◌≡◌, ◌++◌, ◌+◌, ◌-◌, ◌*◌, ◌≤◌, ◌<◌, length, take, drop, nat_abs};
ghost use Rattle.rows.specs.declared.Fate.TheVariants.{Kept};
ghost use Rattle.rows.specs.Rows.{entry_count, row_numbers, set_rows, single, divided_down, row_at};
ghost use Rattle.sets.specs.Outcomes.{refusal_number, outcome_number};
ghost use Rattle.sets.specs.Sets.{insert, place_of, within_limit, joined, stands_in, same_rows, any_false, same_numbers};
ghost use Rattle.sets.specs.Stores.{zeroed, rows_at, set_in, Stands, HoldsSet, Left, next, progress, Ready};

use rows::{Fate, Row, Set, Settled};
use std::cmp::Ordering;

// The refusals 1 to 13, in the order of their numbers.
#[derive(Clone, Copy, PartialEq, Eq, Debug)]
pub enum Refusal {
    NoFrame = 1,
    Misplaced,
    HeaderRange,
    ReferenceRange,
    Undeclared,
    WrongTerms,
    InitialBroken,
    InvariantBroken,
    EntryTooLarge,
    TooManyRows,
    NoRoom,
    BudgetUsed,
    ShortStore,
}

impl From<Refusal> for u8 {
    fn from(refusal: Refusal) -> u8
        ensures { result ≡ refusal_number refusal }
    {
        refusal as u8
    }
}

// The number that the rules give an outcome.
pub fn outcome_number(outcome: Result<(), Refusal>) -> u8
    ensures { result ≡ outcome_number outcome }
{
    match outcome {
        Ok(()) => 0,
        Err(refusal) => u8::from(refusal),
    }
}

// Where the row at an offset of one store belongs in the set in another; none where it stands there. By halves, since the rows stand in order;
// a slice's own search would need the rows as elements.
fn find(s: &[i32], n: usize, x: &[i32], at: usize) -> Option<usize>
    requires { HoldsSet s.now n × (at + row_numbers ≤ length x.now) }
    ensures { result ≡ place_of (row_at x.now at) (set_in s.now n) }
{
    let mut low: usize = 0;
    let mut high = n;
    while low < high {
        let mid = (low + high) / 2;
        match Row::order_in(x, at, s, mid * Row::NUMBERS) {
            Ordering::Less => high = mid,
            Ordering::Equal => return None,
            Ordering::Greater => low = mid + 1,
        }
    }
    Some(low)
}

// The row at an offset, written once more behind itself, number by number: with `copy_within` an insertion takes a fifth more instructions.
fn move_up(s: &mut [i32], at: usize)
    requires { at + row_numbers + row_numbers ≤ length s.old }
    ensures { s.new ≡ take (at + row_numbers) s.old ++ take row_numbers (drop at s.old) ++ drop (at + row_numbers + row_numbers) s.old }
{
    for i in 0..Row::NUMBERS {
        s[at + Row::NUMBERS + i] = s[at + i];
    }
}

// The rows from row k on move up by a row, the last of the n first.
fn shift_up(s: &mut [i32], k: usize, n: usize)
    requires { (k ≤ n) × (n * row_numbers + row_numbers ≤ length s.old) × (n ≤ set_rows) }
    ensures { s.new ≡ take (k * row_numbers + row_numbers) s.old ++ take (n * row_numbers - k * row_numbers) (drop (k * row_numbers) s.old) ++ drop (n * row_numbers + row_numbers) s.old }
{
    for i in (k..n).rev() {
        move_up(s, i * Row::NUMBERS);
    }
}

// The row at an offset of another store put where it belongs, unless it stands there; how many rows there are then. Where it would be the
// 129th it is not put.
fn insert(s: &mut [i32], n: usize, x: &[i32], at: usize) -> Result<usize, Refusal>
    requires { HoldsSet s.old n × (at + row_numbers ≤ length x.now) }
    ensures { Left (within_limit (insert (row_at x.now at) (set_in s.old n))) s.old s.new result }
{
    let Some(k) = find(s, n, x, at) else {
        return Ok(n);
    };
    if n == Set::ROWS {
        return Err(Refusal::TooManyRows);
    }
    shift_up(s, k, n);
    Row::read(x, at).write(s, k * Row::NUMBERS);
    Ok(n + 1)
}

// Inner step: a row that is divided down joins, from where it stands. Once the set is too large only 9 can still come.
// Built into its callers: there a refusal so far costs no call.
#[inline(always)]
pub fn put_row(
    s: &mut [i32],
    c: Result<usize, Refusal>,
    x: &[i32],
    at: usize,
) -> Result<usize, Refusal>
    requires { Ready s.old c × (at + row_numbers ≤ length x.now) }
    ensures { Left (next Kept (row_at x.now at) (progress s.old c)) s.old s.new result }
{
    insert(s, c?, x, at)
}

// Inner step: a settled row joins.
pub fn put(s: &mut [i32], c: Result<usize, Refusal>, x: Settled) -> Result<usize, Refusal>
    requires { Ready s.old c }
    ensures { Left (next x.fate x.row (progress s.old c)) s.old s.new result }
{
    let mut numbers = [0i32; Row::NUMBERS];
    x.row.write(&mut numbers, 0);
    put_settled(s, c, x.fate, &numbers)
}

// Inner step: likewise, with the row at the front of another store.
pub fn put_settled(
    s: &mut [i32],
    c: Result<usize, Refusal>,
    fate: Fate,
    x: &[i32],
) -> Result<usize, Refusal>
    requires { Ready s.old c × (row_numbers ≤ length x.now) }
    ensures { Left (next fate (row_at x.now 0) (progress s.old c)) s.old s.new result }
{
    match fate {
        Fate::Gone => c,
        Fate::TooLarge => Err(Refusal::EntryTooLarge),
        Fate::Kept => put_row(s, c, x, 0),
    }
}

// Inner step: a times a variable is ≤ 0. For a of 1 or -1 there is nothing to divide. The variable's number is an index into a row, and not 0,
// which is the constant's: it comes as a byte that is lent.
pub fn put_single(
    s: &mut [i32],
    c: Result<usize, Refusal>,
    v: usize,
    a: i32,
) -> Result<usize, Refusal>
    requires { Ready s.old c × (0 < v) × (v < entry_count) × (nat_abs a ≡ 1) }
    ensures { Left (next (divided_down (single v a)).fate (divided_down (single v a)).row (progress s.old c)) s.old s.new result }
{
    let mut x = [0i32; Row::NUMBERS];
    x[v] = a;
    put_row(s, c, &x, 0)
}

// Inner step: the row at an offset of another store joins, divided down. What needs no dividing joins from where it stands and is not copied,
// unlike the sum of a pair, which stands nowhere yet (`removal::pairs`).
pub fn join_row(
    from: &[i32],
    at: usize,
    to: &mut [i32],
    c: Result<usize, Refusal>,
) -> Result<usize, Refusal>
    requires { (at + row_numbers ≤ length from.now) × Ready to.old c }
    ensures { Left (next (divided_down (row_at from.now at)).fate (divided_down (row_at from.now at)).row (progress to.old c)) to.old to.new result }
{
    let r = Row::read(from, at);
    if r.has_one() {
        if entries::within_limit(r.entries) {
            return put_row(to, c, from, at);
        }
        return Err(Refusal::EntryTooLarge);
    }
    let mut x = [0i32; Row::NUMBERS];
    let fate = r.divided_into(&mut x, 0);
    put_settled(to, c, fate, &x)
}

// Inner step: rows from an offset of one store join the set in another, each divided down; 9 over all of them, then 10.
pub fn join(from: &[i32], at: usize, m: usize, to: &mut [i32], n: usize) -> Result<usize, Refusal>
    requires { (at + m * row_numbers ≤ length from.now) × HoldsSet to.old n }
    ensures { Left (joined (rows_at from.now at m) (set_in to.old n)) to.old to.new result }
{
    let mut c = Ok(n);
    for i in 0..m {
        c = join_row(from, at + i * Row::NUMBERS, to, c);
    }
    c
}

// Inner step: whether a row stands in a set. Seldom asked, so one row after the other; `insert` alone searches by halves.
pub fn stands_in(s: &[i32], n: usize, r: Row) -> bool
    requires { HoldsSet s.now n }
    ensures { result ≡ stands_in r (set_in s.now n) }
{
    (0..n).any(|i| r.is_at(s, i * Row::NUMBERS))
}

// Inner step: whether 1 ≤ 0 stands in a set. It belongs behind every row whose constant is below 1, so such a last row rules it out.
pub fn has_false(s: &[i32], n: usize) -> bool
    requires { HoldsSet s.now n }
    ensures { result ≡ any_false (set_in s.now n) }
{
    if n == 0 {
        return false;
    }
    if s[(n - 1) * Row::NUMBERS] < 1 {
        return false;
    }
    stands_in(s, n, Row::falsehood())
}

// Whether a row's 17 numbers are the same in two places. There is no way out of the fold, so that the compiler takes them together.
fn same_numbers(x: &[i32], a: usize, y: &[i32], b: usize) -> bool
    requires { (a + row_numbers ≤ length x.now) × (b + row_numbers ≤ length y.now) }
    ensures { result ≡ same_numbers (take row_numbers (drop a x.now)) (take row_numbers (drop b y.now)) }
{
    x[a..a + Row::NUMBERS]
        .iter()
        .zip(y[b..b + Row::NUMBERS].iter())
        .fold(true, |same, (p, q)| same & (*p == *q))
}

// Inner step: whether two sets of so many rows are equal. Sets that differ mostly do so near their ends, so the last row comes first.
pub fn equal(x: &[i32], a: usize, y: &[i32], b: usize, n: usize) -> bool
    requires { Stands x.now a n × Stands y.now b n }
    ensures { result ≡ same_rows (rows_at x.now a n) (rows_at y.now b n) }
{
    // Of `all` over a turned range the goal stays open: the library has no lemma on one.
    for k in (0..n).rev() {
        if !same_numbers(x, a + k * Row::NUMBERS, y, b + k * Row::NUMBERS) {
            return false;
        }
    }
    true
}

// Inner step: so many numbers from an offset of one store to an offset of another, number by number: with `copy_from_slice` the archive would
// need `memmove` from a C program too.
pub fn copy(from: &[i32], a: usize, to: &mut [i32], b: usize, count: usize)
    requires { (a + count ≤ length from.now) × (b + count ≤ length to.old) }
    ensures { to.new ≡ take b to.old ++ take count (drop a from.now) ++ drop (b + count) to.old }
{
    for i in 0..count {
        to[b + i] = from[a + i];
    }
}

// Inner step: every whole row from a row on becomes zeros; numbers beyond the last whole row are not touched.
pub fn clear_from(s: &mut [i32], row: usize)
    requires { row * row_numbers ≤ length s.old }
    ensures { s.new ≡ take (row * row_numbers) s.old ++ drop (row * row_numbers) (zeroed s.old) }
{
    let end = s.len() / Row::NUMBERS * Row::NUMBERS;
    s[row * Row::NUMBERS..end].fill(0);
}

// Every whole row becomes zeros.
pub fn clear(s: &mut [i32])
    ensures { s.new ≡ zeroed s.old }
{
    clear_from(s, 0);
}
