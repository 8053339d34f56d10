// Removal of variables between two lent stores: one variable from store to store, several alternating, and the removal called alone.
// C programs lend the two stores one by one, and `remove` hands one of them back, so they go as two parameters; a set is a store and the number
// of its rows, read and written by offset.
#![tactic(auto)]

ghost use Rattle.std.specs.Prelude.{◌≡◌, List, [], ℕ, ◌+◌, ◌*◌, ◌≤◌, ◌<◌, length};
ghost use mathlib.Core.Bool.{not};
ghost use Rattle.integers.specs.Lists.{every};
ghost use Rattle.rows.specs.Rows.{row_numbers, set_rows, set_numbers};
ghost use Rattle.sets.specs.Outcomes.{Ok, and_then};
ghost use Rattle.sets.specs.Sets.{joined};
ghost use Rattle.sets.specs.Stores.{rows_at, Left};
ghost use Rattle.removal.specs.Removal.{removed, all_removed};
ghost use Rattle.removal.specs.Alone.{pick, side_after, side, rows_placed, standing, Between, Moved, flags_fit, is_variable, refused_at_once, alone, Tidied, RemovedAlone, part_end, PartIs, as_shared, RemovedPart};

use rows::{Row, Set};
use sets::Refusal;

mod pairs;

// Where a set stands: in the first or the second of two stores, with so many rows.
#[derive(Clone, Copy)]
pub struct Placed {
    pub rows: usize,
    pub second: bool,
}

// Inner step: one variable more, from the store that has the set to the other. A refusal is handed on.
pub fn remove_next(
    first: &mut [i32],
    second: &mut [i32],
    s: Result<Placed, Refusal>,
    v: usize,
) -> Result<Placed, Refusal>
    requires { Between first.old second.old s × (0 < v) × (v < 16) }
    ensures { Moved (not (side s)) (and_then (standing first.old second.old s) (removed v)) first.old second.old first.new second.new result }
{
    let s = s?;
    // Of a pair of `&mut` that an `if` chooses there is no proof, so the step stands twice.
    if s.second {
        let rows = pairs::without(second, s.rows, v, first)?;
        return Ok(Placed {
            rows,
            second: false,
        });
    }
    let rows = pairs::without(first, s.rows, v, second)?;
    Ok(Placed { rows, second: true })
}

// Inner step: several variables, in the order given.
pub fn remove_all(
    first: &mut [i32],
    second: &mut [i32],
    s: Result<Placed, Refusal>,
    variables: &[u8],
) -> Result<Placed, Refusal>
    requires { Between first.old second.old s × (every is_variable variables.now ≡ mathlib.Core.Bool.true) }
    ensures { Moved (side_after (side s) variables.now) (and_then (standing first.old second.old s) (all_removed variables.now)) first.old second.old first.new second.new result }
{
    let mut done = s;
    for v in variables {
        done = remove_next(first, second, done, usize::from(*v));
    }
    done
}

// The given rows divided down and made a set, in their own store: the set grows no faster than the rows are read. `sets::join` reads another
// store than it writes, and cannot be borrowed so. The number of rows is what a program hands in, tested by `refused_at_once` before.
fn make_set(s: &mut [i32], n: usize) -> Result<usize, Refusal>
    requires { (n ≤ set_rows) × (set_numbers ≤ length s.old) }
    ensures { Left (joined (rows_at s.old 0 n) []) s.old s.new result }
{
    let mut c = Ok(0);
    for i in 0..n {
        c = sets::put(s, c, Row::read(s, i * Row::NUMBERS).divided_down());
    }
    c
}

fn flags_fit(s: &[i32], n: usize) -> bool
    requires { (n ≤ set_rows) × (set_numbers ≤ length s.now) }
    ensures { result ≡ flags_fit s.now n }
{
    (0..n).all(|i| matches!(s[i * Row::NUMBERS + Row::ENTRIES], 0 | 1))
}

fn variables_fit(variables: &[u8]) -> bool
    ensures { result ≡ every is_variable variables.now }
{
    variables.iter().all(|v| (1..16).contains(v))
}

// The refusals that change nothing, in their order.
#[tactic(auto, unfolding(crate::specs::Alone::refused_at_once))]
fn refused_at_once(
    first: &[i32],
    second: &[i32],
    count: usize,
    variables: &[u8],
) -> Result<(), Refusal>
    ensures { result ≡ refused_at_once count variables.now first.now second.now }
{
    if first.len() < Set::NUMBERS || second.len() < Set::NUMBERS {
        return Err(Refusal::ShortStore);
    }
    if Set::ROWS < count {
        return Err(Refusal::TooManyRows);
    }
    if flags_fit(first, count) && variables_fit(variables) {
        return Ok(());
    }
    Err(Refusal::Undeclared)
}

// The rows made a set, and the variables removed.
fn remove_accepted(
    first: &mut [i32],
    second: &mut [i32],
    count: usize,
    variables: &[u8],
) -> Result<Placed, Refusal>
    requires { refused_at_once count variables.now first.old second.old ≡ Ok tt }
    ensures { Moved (side_after mathlib.Core.Bool.false variables.now) (alone count variables.now first.old) first.old second.old first.new second.new result }
{
    let rows = make_set(first, count)?;
    let made = Placed {
        rows,
        second: false,
    };
    remove_all(first, second, Ok(made), variables)
}

// Zeros behind the rows that were found, and in all of the other store; in both on a refusal.
fn tidy(first: &mut [i32], second: &mut [i32], s: Result<Placed, Refusal>)
    requires { rows_placed s * row_numbers ≤ length (pick (side s) first.old second.old) }
    ensures { Tidied s first.old second.old first.new second.new }
{
    let (in_first, in_second) = match s {
        Ok(s) if s.second => (0, s.rows),
        Ok(s) => (s.rows, 0),
        Err(_) => (0, 0),
    };
    sets::clear_from(first, in_first);
    sets::clear_from(second, in_second);
}

// Removal called alone: `count` rows at the front of the first store, without the variables, in the order given. The answer says which
// store ended with the rows and how many there are.
pub fn remove_between(
    first: &mut [i32],
    second: &mut [i32],
    count: usize,
    variables: &[u8],
) -> Result<Placed, Refusal>
    ensures { RemovedAlone count variables.now first.old second.old first.new second.new result }
{
    refused_at_once(first, second, count, variables)?;
    let done = remove_accepted(first, second, count, variables);
    tidy(first, second, done);
    done
}

// How many numbers the part of an answer has: 0 where it does not fit its store, as `PartIs` says, for the part is then empty and no refusal.
#[tactic(auto, unfolding(crate::specs::Alone::part_end))]
fn part_end(long: usize, rows: usize) -> usize
    ensures { result ≡ part_end long rows }
{
    if rows <= Set::ROWS && rows * Row::NUMBERS <= long {
        rows * Row::NUMBERS
    } else {
        0
    }
}

// The rows that an answer speaks of; none on a refusal. Nothing can be changed through `&`, so whoever lends the stores still knows both.
pub fn rows_of<'a>(first: &'a [i32], second: &'a [i32], done: Result<Placed, Refusal>) -> &'a [i32]
    ensures { PartIs first.entry second.entry done result }
{
    let Ok(s) = done else {
        return &first[..0];
    };
    let store = if s.second { second } else { first };
    &store[..part_end(store.len(), s.rows)]
}

// The same through `&mut`: Rattle has no function over both kinds of reference.
fn part<'a>(
    first: &'a mut [i32],
    second: &'a mut [i32],
    done: Result<Placed, Refusal>,
) -> &'a mut [i32]
    ensures { PartIs (as_shared first.entry) (as_shared second.entry) done (as_shared result) }
{
    let Ok(s) = done else {
        return &mut first[..0];
    };
    let store = if s.second { second } else { first };
    let end = part_end(store.len(), s.rows);
    &mut store[..end]
}

// Removal called alone, with the part of the store that ended with the rows; a refusal has a part too, an empty one. Both references are spent,
// so the contract gives outcome, part and place; what else the stores then hold is what `remove_between`, its only writer, leaves.
pub fn remove<'a>(
    first: &'a mut [i32],
    second: &'a mut [i32],
    count: usize,
    variables: &[u8],
) -> (Result<(), Refusal>, &'a mut [i32])
    ensures { RemovedPart count variables.now (as_shared first.entry) (as_shared second.entry) result.0 (as_shared result.1) }
{
    let done = remove_between(first, second, count, variables);
    let outcome = done.and(Ok(()));
    (outcome, part(first, second, done))
}
