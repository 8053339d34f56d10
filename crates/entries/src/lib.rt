// The sixteen entries of a row, in 32 or 64 bits. Each function is an inner step of the rows above. That entries are small is asked of plain
// arrays: a type of small entries would be built anew wherever a row is read from a lent store.
// Arrays are made by `from_fn`, which the compiler takes several entries at a time; `map` hands them on one by one (4 to 20 times the instructions).
#![tactic(auto)]

ghost use Rattle.std.specs.Prelude.{◌≡◌, map, ◌≤◌, ◌<◌, ◌^◌, drop, pos, nat_abs};
ghost use Rattle.std.specs.Int.Signed.{quot_z};
ghost use Rattle.integers.specs.Limits.{entry_limit};
ghost use Rattle.integers.specs.Signs.{sign};
ghost use Rattle.entries.specs.Entries.{Within, Small, gcd_from, divisor, all_small, all_zero, plus, times, has, has_unit, is_level, first_nonzero};

use std::array;

pub const COUNT: usize = 16;

pub const LIMIT: i32 = 1_000_000_000;

pub fn widened(from: [i32; COUNT]) -> [i64; COUNT]
    ensures { result ≡ from }
{
    array::from_fn(|i| i64::from(from[i]))
}

// Inner step: entries within the limit, back in 32 bits.
pub fn narrowed(l: [i64; COUNT]) -> [i32; COUNT]
    requires { Small l }
    ensures { result ≡ l }
{
    array::from_fn(|i| l[i] as i32)
}

fn gcd_of_all(l: [i64; COUNT]) -> u64
    ensures { result ≡ gcd_from 0 l }
{
    l.iter()
        .fold(0, |g, z| integers::gcd_of(g, z.unsigned_abs()))
}

pub fn divisor(l: [i64; COUNT]) -> u64
    ensures { result ≡ divisor l }
{
    gcd_of_all(l).max(1)
}

// Inner step: each entry divided by a positive number.
pub fn quotients(l: [i64; COUNT], d: u64) -> [i64; COUNT]
    requires { Within (2 ^ 62) l × (0 < d) × (d < 2 ^ 63) }
    ensures { result ≡ map (λ z. quot_z z (pos d)) l }
{
    array::from_fn(|i| integers::quotient(l[i], d))
}

pub fn all_small(l: [i64; COUNT]) -> bool
    ensures { result ≡ all_small l }
{
    l.iter().all(|z| z.unsigned_abs() <= LIMIT as u64)
}

// Whether entries 1 to 15 are 0.
pub fn no_variables(l: [i64; COUNT]) -> bool
    ensures { result ≡ all_zero (drop 1 l) }
{
    l[1..].iter().all(|z| *z == 0)
}

// Inner step: b·x + a·y, which 64 bits hold for entries and multipliers within the limit.
pub fn combined(x: [i64; COUNT], y: [i64; COUNT], a: i64, b: i64) -> [i64; COUNT]
    requires { Small x × Small y × (nat_abs a ≤ entry_limit) × (nat_abs b ≤ entry_limit) }
    ensures { result ≡ plus (times b x) (times a y) }
{
    array::from_fn(|i| integers::combined(x[i], y[i], a, b))
}

// Inner step: x + y, which 32 bits hold for entries within the limit.
pub fn added(x: [i32; COUNT], y: [i32; COUNT]) -> [i32; COUNT]
    requires { Small x × Small y }
    ensures { result ≡ plus x y }
{
    array::from_fn(|i| x[i] + y[i])
}

// `contains`, as the definitions name it: asked twice below.
fn has(l: [i32; COUNT], x: i32) -> bool
    ensures { result ≡ has x l }
{
    l.contains(&x)
}

// Whether an entry is 1 or -1.
pub fn has_unit(l: [i32; COUNT]) -> bool
    ensures { result ≡ has_unit l }
{
    has(l, 1) | has(l, -1)
}

// Whether no entry is beyond the limit. `&` in a fold leaves no way out, so that the compiler takes the entries together: `all` takes half as much again.
pub fn within_limit(l: [i32; COUNT]) -> bool
    ensures { result ≡ all_small l }
{
    l.iter()
        .fold(true, |small, z| small & ((*z <= LIMIT) & (-LIMIT <= *z)))
}

// Inner step: whether every entry is 0, x or -x. Asked the other way round, `&` of three `|`, it takes a third more instructions.
pub fn is_level(l: [i32; COUNT], x: i32) -> bool
    requires { nat_abs x < 2 ^ 31 }
    ensures { result ≡ is_level x l }
{
    let y = -x;
    !l.iter().fold(
        false,
        |other, z| other | ((*z != 0) & (*z != x) & (*z != y)),
    )
}

// Each entry's sign, as 1, 0 or -1.
pub fn signs(l: [i32; COUNT]) -> [i32; COUNT]
    ensures { result ≡ map sign l }
{
    array::from_fn(|i| l[i].signum())
}

// The first entry of a variable that is not 0; 0 where there is none, as `first_nonzero` has it, since no entry that is found is 0.
pub fn first_variable(l: [i32; COUNT]) -> i32
    ensures { result ≡ first_nonzero (drop 1 l) }
{
    l[1..].iter().copied().find(|z| *z != 0).unwrap_or(0)
}
