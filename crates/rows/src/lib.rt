// Rows: 16 signed entries and a strict flag, by value; what is done with them, and how they stand in a lent store: 17 numbers a row, read and
// written by offset. So what is asked of a row, of a place in a store, of a variable's number (an index, which comes as a byte that is lent) and
// of a setting (an array, made of any model) stands in each clause: a type of its own would be built and taken apart at each use.
#![tactic(auto)]

ghost use Rattle.std.specs.Prelude.{◌≡◌, ◌+◌, ◌≤◌, ◌<◌, ◌^◌, leb, length};
ghost use Rattle.integers.specs.Limits.{given_limit};
ghost use Rattle.rows.specs.Rows.{entry_count, row_numbers, set_rows, set_numbers, parameter_entry, clock_entry, empty_row, single, false_row, dot, under, holds_at, Within, Small, negated, constant, divided_down, paired, added, has_one, is_same, row_order, same_row, row_at, with_row};
ghost use Rattle.rows.specs.Blocks.{four_order, first_other};

use std::array;
use std::cmp::Ordering;

#[derive(Clone, Copy, PartialEq, Eq)]
pub struct Row {
    pub entries: [i32; Row::ENTRIES],
    pub strict: bool,
}

// A set of rows stands in a lent store, in order from its front; by value there is the number of its rows.
#[derive(Clone, Copy)]
pub struct Set {
    pub rows: usize,
}

// Clocks count from 1 to 6, parameters from 1 to 8. Neither is an entry number: it becomes one by `entry`, where a row is built. Two types, so
// that a clock is never named where a parameter belongs.
#[derive(Clone, Copy)]
pub struct Clock(pub u8);

#[derive(Clone, Copy)]
pub struct Parameter(pub u8);

// What became of a row that was divided down. It goes on alone where the row itself is written to a store.
#[derive(Clone, Copy)]
pub enum Fate {
    Kept,
    Gone,
    TooLarge,
}

// A row divided down, and whether it stays. The row is a field and no payload of `Kept`: what `divided_into` writes is fixed for every fate
// (its clause `to_after`), the empty row where none stays.
#[derive(Clone, Copy)]
pub struct Settled {
    pub row: Row,
    pub fate: Fate,
}

impl Set {
    pub const ROWS: usize = 128;

    pub const NUMBERS: usize = Set::ROWS * Row::NUMBERS;

    // The empty set and the empty row have constructors of their own name, since the rules speak of them; a default would be no name.
    pub fn empty() -> Set
        ensures { result.rows ≡ 0 }
    {
        Set { rows: 0 }
    }

    // Whether no further row may join.
    pub fn is_full(self) -> bool
        ensures { result ≡ leb set_rows self.rows }
    {
        Set::ROWS <= self.rows
    }

    // Whether a store of so many numbers takes any set.
    pub fn fits_in(numbers: usize) -> bool
        ensures { result ≡ leb set_numbers numbers }
    {
        Set::NUMBERS <= numbers
    }
}

impl Clock {
    // A clock's number and its entry are two numbers: `usize::from` would not say which.
    pub fn entry(self) -> usize
        ensures { result ≡ clock_entry self }
    {
        8 + usize::from(self.0)
    }
}

impl Parameter {
    pub fn entry(self) -> usize
        ensures { result ≡ parameter_entry self }
    {
        usize::from(self.0)
    }
}

impl Row {
    pub const ENTRIES: usize = entries::COUNT;

    pub const NUMBERS: usize = Row::ENTRIES + 1;

    pub const DELAY: usize = 15;

    pub const LIMIT: i32 = entries::LIMIT;

    pub fn empty() -> Row
        ensures { result ≡ empty_row }
    {
        Row {
            entries: [0; Row::ENTRIES],
            strict: false,
        }
    }

    // Inner step: x times the variable of entry v is ≤ 0.
    pub fn single(v: usize, x: i32) -> Row
        requires { v < entry_count }
        ensures { result ≡ single v x }
    {
        let mut entries = [0i32; Row::ENTRIES];
        entries[v] = x;
        Row {
            entries,
            strict: false,
        }
    }

    // Inner step: x times the clock is ≤ 0. The clock is declared.
    pub fn of_clock(c: Clock, x: i32) -> Row
        requires { c.0 ≤ 6 }
        ensures { result ≡ single (clock_entry c) x }
    {
        Row::single(c.entry(), x)
    }

    // Inner step: x times the parameter is ≤ 0. The parameter is declared.
    pub fn of_parameter(p: Parameter, x: i32) -> Row
        requires { p.0 ≤ 8 }
        ensures { result ≡ single (parameter_entry p) x }
    {
        Row::single(p.entry(), x)
    }

    // 1 ≤ 0.
    pub fn falsehood() -> Row
        ensures { result ≡ false_row }
    {
        Row::single(0, 1)
    }

    // Inner step: rows of a set are within the limit, so every sign can be turned.
    pub fn negated(self) -> Row
        requires { Small self.entries }
        ensures { result ≡ negated self }
    {
        Row {
            entries: array::from_fn(|i| -self.entries[i]),
            strict: !self.strict,
        }
    }

    // Inner step: the row divided down, written at an offset of a store; the answer is what became of it. A row returned by value would be copied once more.
    // Any entries, also the least number of the type. Nearly all rows that need dividing have one magnitude throughout: only signs are left.
    pub fn divided_into(self, to: &mut [i32], at: usize) -> Fate
        requires { at + row_numbers ≤ length to.old }
        ensures value { result ≡ (divided_down self).fate }
        ensures to_after { to.new ≡ with_row to.old at (divided_down self).row }
    {
        let e = self.entries;
        let x = entries::first_variable(e);
        if x == 0 {
            return give(constant(entries::widened(e), self.strict), to, at);
        }
        if -i32::MAX <= x && entries::is_level(e, x) {
            Row {
                entries: entries::signs(e),
                strict: self.strict,
            }
            .write(to, at);
            return Fate::Kept;
        }
        give(lowered(entries::widened(e), self.strict), to, at)
    }

    // The row divided down, by value.
    pub fn divided_down(self) -> Settled
        ensures { result ≡ divided_down self }
    {
        let mut to = [0i32; Row::NUMBERS];
        let fate = self.divided_into(&mut to, 0);
        Settled {
            row: Row::read(&to, 0),
            fate,
        }
    }

    // Inner step: the pair of two rows of a set, divided down. It needs no sign at v.
    pub fn paired(self, other: Row, v: usize) -> Settled
        requires { (v < entry_count) × Small self.entries × Small other.entries }
        ensures { result ≡ divided_down (paired v self other) }
    {
        let (x, y) = (self.entries, other.entries);
        let a = i64::from(x[v]);
        let b = i64::from(-y[v]);
        let sum = entries::combined(entries::widened(x), entries::widened(y), a, b);
        lowered(sum, self.strict || other.strict)
    }

    // Inner step: the plain sum of two rows of a set, which 32 bits hold.
    pub fn added(self, other: Row) -> Row
        requires { Small self.entries × Small other.entries }
        ensures { result ≡ added self other }
    {
        Row {
            entries: entries::added(self.entries, other.entries),
            strict: self.strict || other.strict,
        }
    }

    // Whether an entry is 1 or -1 and the constant is not: then a variable has it, and the row is divided down already.
    #[tactic(auto, unfolding(crate::specs::Rows::has_one))]
    pub fn has_one(self) -> bool
        ensures { result ≡ has_one self }
    {
        entries::has_unit(self.entries) && self.entries[0].unsigned_abs() != 1
    }

    // Inner step: the row's sum at a setting, a denominator and eight numerators, none beyond 1,000,000.
    pub fn value(self, setting: [i64; 9]) -> i64
        requires { Small self.entries × Within given_limit setting }
        ensures { result ≡ dot self.entries setting }
    {
        let mut sum: i64 = 0;
        for (x, y) in self.entries.iter().zip(setting.iter()) {
            sum = integers::plus_product(sum, i64::from(*x), *y);
        }
        sum
    }

    // Inner step: whether the setting, with every clock at 0, meets the row.
    pub fn holds(self, setting: [i64; 9]) -> bool
        requires { Small self.entries × Within given_limit setting }
        ensures { result ≡ holds_at setting self }
    {
        is_under(self.strict, self.value(setting))
    }

    // Inner step: whether it is the row that stands at an offset of a store.
    pub fn is_at(self, s: &[i32], at: usize) -> bool
        requires { at + row_numbers ≤ length s.now }
        ensures { result ≡ same_row self (row_at s.now at) }
    {
        self == Row::read(s, at)
    }

    // Inner step: the row that stands at an offset of a store.
    pub fn read(s: &[i32], at: usize) -> Row
        requires { at + row_numbers ≤ length s.now }
        ensures { result ≡ row_at s.now at }
    {
        Row {
            entries: array::from_fn(|i| s[at + i]),
            strict: s[at + Row::ENTRIES] == 1,
        }
    }

    // Inner step: the row written at an offset of a store, number by number: with `copy_from_slice`, which calls the C library's copy,
    // a removal's pairs take a sixth more instructions.
    pub fn write(self, s: &mut [i32], at: usize)
        requires { at + row_numbers ≤ length s.old }
        ensures { s.new ≡ with_row s.old at self }
    {
        for i in 0..Row::ENTRIES {
            s[at + i] = self.entries[i];
        }
        s[at + Row::ENTRIES] = i32::from(self.strict);
    }

    // Inner step: the order of the rows that stand at two offsets, entries before the flag. Most rows differ in their first four entries. Where they
    // do not, the other blocks of four are only compared for sameness, a whole block at once, until one differs. `cmp` of the whole slices
    // takes two thirds more instructions in an insertion, and `cmp` of four numbers 6 percent more.
    pub fn order_in(s: &[i32], a: usize, t: &[i32], b: usize) -> Ordering
        requires { (a + row_numbers ≤ length s.now) × (b + row_numbers ≤ length t.now) }
        ensures { result ≡ row_order (row_at s.now a) (row_at t.now b) }
    {
        let o = order_of_four(s, a, t, b);
        if o.is_ne() {
            return o;
        }
        let k = first_other(s, a, t, b);
        if k < Row::ENTRIES {
            return order_of_four(s, a + k, t, b + k);
        }
        (s[a + Row::ENTRIES] == 1).cmp(&(t[b + Row::ENTRIES] == 1))
    }
}

// The order of the four numbers at each of two offsets, by the first that differ.
fn order_of_four(s: &[i32], a: usize, t: &[i32], b: usize) -> Ordering
    requires { (a + 4 ≤ length s.now) × (b + 4 ≤ length t.now) }
    ensures { result ≡ four_order s.now a t.now b }
{
    s[a..a + 4]
        .iter()
        .zip(t[b..b + 4].iter())
        .map(|(p, q)| p.cmp(q))
        .find(|o| o.is_ne())
        .unwrap_or(Ordering::Equal)
}

// Whether the four numbers are the same. There is no way out of the fold, so that the compiler takes them together. Four is part of its clause,
// the order of four; `sets::same_numbers` is of seventeen.
fn same_four(s: &[i32], a: usize, t: &[i32], b: usize) -> bool
    requires { (a + 4 ≤ length s.now) × (b + 4 ≤ length t.now) }
    ensures { result ≡ is_same (four_order s.now a t.now b) }
{
    s[a..a + 4]
        .iter()
        .zip(t[b..b + 4].iter())
        .fold(true, |same, (p, q)| same & (*p == *q))
}

// Where the first block of four that differs begins, the front block left out: 4, 8 or 12; 16 where none does. A loop over the three
// takes 4 percent more instructions in a comparison, `find` 12.
#[tactic(auto, unfolding(crate::specs::Blocks::first_other))]
fn first_other(s: &[i32], a: usize, t: &[i32], b: usize) -> usize
    requires { (a + entry_count ≤ length s.now) × (b + entry_count ≤ length t.now) }
    ensures { result ≡ first_other s.now a t.now b }
{
    if !same_four(s, a + 4, t, b + 4) {
        return 4;
    }
    if !same_four(s, a + 8, t, b + 8) {
        return 8;
    }
    if !same_four(s, a + 12, t, b + 12) {
        return 12;
    }
    Row::ENTRIES
}

// ≤ 0, or < 0 if strict.
fn is_under(strict: bool, z: i64) -> bool
    ensures { result ≡ under strict z }
{
    if strict { z < 0 } else { z <= 0 }
}

// A settled row, written at an offset of a store; the answer is what became of it.
fn give(s: Settled, to: &mut [i32], at: usize) -> Fate
    requires { at + row_numbers ≤ length to.old }
    ensures value { result ≡ s.fate }
    ensures to_after { to.new ≡ with_row to.old at s.row }
{
    s.row.write(to, at);
    s.fate
}

// A row without variables: gone where it is true, else 1 ≤ 0.
fn constant(l: [i64; Row::ENTRIES], strict: bool) -> Settled
    ensures { result ≡ constant (record { entries = l; strict = strict }) }
{
    if is_under(strict, l[0]) {
        return Settled {
            row: Row::empty(),
            fate: Fate::Gone,
        };
    }
    Settled {
        row: Row::falsehood(),
        fate: Fate::Kept,
    }
}

// Entries in 64 bits divided down: the form that both a given row and a pair take.
fn lowered(l: [i64; Row::ENTRIES], strict: bool) -> Settled
    requires { Within (2 ^ 62) l }
    ensures { result ≡ divided_down (record { entries = l; strict = strict }) }
{
    if entries::no_variables(l) {
        return constant(l, strict);
    }
    let q = entries::quotients(l, entries::divisor(l));
    if entries::all_small(q) {
        return Settled {
            row: Row {
                entries: entries::narrowed(q),
                strict,
            },
            fate: Fate::Kept,
        };
    }
    Settled {
        row: Row::empty(),
        fate: Fate::TooLarge,
    }
}
