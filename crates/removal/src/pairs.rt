// One removal, from a set in one store to a set in another: the rows that do not name the variable, then every pair of a row above
// zero with a row below. What is asked of a row is asked where it stands in the lent store: a type of such rows would copy each one out.
ghost use Rattle.std.specs.Prelude.{◌≡◌, map, ℕ, ◌*◌, ◌≤◌, ◌<◌, length, take, ℤ};
ghost use Rattle.integers.specs.Lists.{All, pairs};
ghost use Rattle.integers.specs.Signs.{isAbove, isBelow};
ghost use Rattle.integers.proofs.Whole.{IsPos};
ghost use Rattle.rows.specs.Rows.{entry_count, row_numbers, set_rows, set_numbers, divided_down, paired, row_at};
ghost use Rattle.sets.specs.Stores.{with_rows, set_in, HoldsSet, Left, next, progress, Ready, put_all};
ghost use Rattle.removal.specs.Removal.{entry, untouched, removed};
ghost use Rattle.removal.specs.Pairs.{numbers_where, row_of, rows_of, SmallAt};
ghost use Rattle.removal.specs.Alone.{DividedSet};

use rows::{Row, Set, Settled};
use sets::Refusal;

// How many rows do not name the variable, stand below zero in it, and above. The lists of the last two are arrays of a fixed size: there is no heap.
#[derive(Clone, Copy)]
struct Parts {
    untouched: usize,
    lowers: usize,
    uppers: usize,
}

// The rows without the variable go to the front of the other store; the numbers of the others are listed. It counts rows, since numbers of rows
// are what is listed.
fn split(
    from: &[i32],
    n: usize,
    v: usize,
    to: &mut [i32],
    lowers: &mut [u8],
    uppers: &mut [u8],
) -> Parts
    requires { HoldsSet from.now n × (v < entry_count) × (set_numbers ≤ length to.old) × (set_rows ≤ length lowers.old) × (set_rows ≤ length uppers.old) }
    ensures untouched_value { result.untouched ≡ length (untouched v (set_in from.now n)) }
    ensures to_after { to.new ≡ with_rows (untouched v (set_in from.now n)) to.old }
    ensures lowers_value { result.lowers ≡ length (numbers_where isBelow v from.now n) }
    ensures lowers_after { take result.lowers lowers.new ≡ numbers_where isBelow v from.now n }
    ensures uppers_value { result.uppers ≡ length (numbers_where isAbove v from.now n) }
    ensures uppers_after { take result.uppers uppers.new ≡ numbers_where isAbove v from.now n }
{
    let mut k: usize = 0;
    let mut l: usize = 0;
    let mut u: usize = 0;
    for i in 0..n {
        let e = from[i * Row::NUMBERS + v];
        if e == 0 {
            Row::read(from, i * Row::NUMBERS).write(to, k * Row::NUMBERS);
            k += 1;
        } else {
            if e < 0 {
                lowers[l] = i as u8;
                l += 1;
            } else {
                uppers[u] = i as u8;
                u += 1;
            }
        }
    }
    Parts {
        untouched: k,
        lowers: l,
        uppers: u,
    }
}

// Any two multipliers: in 64 bits. Apart from the short way below, so that the compiler keeps that one in 32.
fn general_pair(from: &[i32], p: usize, q: usize, v: usize) -> Settled
    requires { SmallAt from.now p × SmallAt from.now q × (v < entry_count) }
    ensures { result ≡ divided_down (paired v (row_at from.now p) (row_at from.now q)) }
{
    Row::read(from, p).paired(Row::read(from, q), v)
}

// Equal multipliers: the pair is a multiple of the plain sum.
fn join_pair(
    from: &[i32],
    p: usize,
    q: usize,
    v: usize,
    to: &mut [i32],
    c: Result<usize, Refusal>,
) -> Result<usize, Refusal>
    requires { Ready to.old c × SmallAt from.now p × SmallAt from.now q × (v < entry_count) × IsPos (entry v (row_at from.now p)) }
    ensures { let x = divided_down (paired v (row_at from.now p) (row_at from.now q)) in Left (next x.fate x.row (progress to.old c)) to.old to.new result }
{
    if from[p + v] + from[q + v] != 0 {
        return sets::put(to, c, general_pair(from, p, q, v));
    }
    let sum = Row::read(from, p).added(Row::read(from, q));
    if sum.has_one() {
        if entries::within_limit(sum.entries) {
            let mut x = [0i32; Row::NUMBERS];
            sum.write(&mut x, 0);
            return sets::put_row(to, c, &x, 0);
        }
        return Err(Refusal::EntryTooLarge);
    }
    let mut y = [0i32; Row::NUMBERS];
    let fate = sum.divided_into(&mut y, 0);
    sets::put_settled(to, c, fate, &y)
}

// The pairs of one row above zero join the set.
fn join_with(
    from: &[i32],
    p: usize,
    v: usize,
    lowers: &[u8],
    to: &mut [i32],
    c: Result<usize, Refusal>,
) -> Result<usize, Refusal>
    requires { Ready to.old c × SmallAt from.now p × IsPos (entry v (row_at from.now p)) × (v < entry_count) × All (λ j. SmallAt from.now (j * row_numbers)) lowers.now }
    ensures { Left (put_all (map (paired v (row_at from.now p)) (rows_of from.now lowers.now)) (progress to.old c)) to.old to.new result }
{
    let mut d = c;
    for j in lowers {
        d = join_pair(from, p, usize::from(*j) * Row::NUMBERS, v, to, d);
    }
    d
}

// All pairs do.
fn join_pairs(
    from: &[i32],
    v: usize,
    lowers: &[u8],
    uppers: &[u8],
    to: &mut [i32],
    c: Result<usize, Refusal>,
) -> Result<usize, Refusal>
    requires { Ready to.old c × (v < entry_count) × All (λ j. SmallAt from.now (j * row_numbers)) lowers.now × All (λ i. SmallAt from.now (i * row_numbers) × IsPos (entry v (row_of from.now i))) uppers.now }
    ensures { Left (put_all (pairs (paired v) (rows_of from.now uppers.now) (rows_of from.now lowers.now)) (progress to.old c)) to.old to.new result }
{
    let mut d = c;
    for i in uppers {
        d = join_with(from, usize::from(*i) * Row::NUMBERS, v, lowers, to, d);
    }
    d
}

// Inner step: a set without a variable, in another store. Each pair is built once: where the set is too large for more rows, a pair may still be too large itself, so 9 comes before 10.
pub fn without(from: &[i32], n: usize, v: usize, to: &mut [i32]) -> Result<usize, Refusal>
    requires { DividedSet from.now n × (0 < v) × (v < entry_count) × (set_numbers ≤ length to.old) }
    ensures { Left (removed v (set_in from.now n)) to.old to.new result }
{
    let mut lowers = [0u8; Set::ROWS];
    let mut uppers = [0u8; Set::ROWS];
    let s = split(from, n, v, to, &mut lowers, &mut uppers);
    join_pairs(
        from,
        v,
        &lowers[..s.lowers],
        &uppers[..s.uppers],
        to,
        Ok(s.untouched),
    )
}
