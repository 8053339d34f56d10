// Numbers as the layers above use them: the greatest common divisor, the exact quotient, and the two sums of products that rows need.
// Each is an inner step: a `requires` is met by the rows above.
#![tactic(auto)]

ghost use Rattle.std.specs.Prelude.{◌≡◌, ◌*◌, ◌≤◌, ◌<◌, ◌^◌, pos, nat_abs, ◌+ℤ◌, ◌*ℤ◌};
ghost use Rattle.std.specs.Int.Signed.{quot_z};
ghost use Rattle.integers.specs.Gcd.{gcd};
ghost use Rattle.integers.specs.Limits.{entry_limit};

pub fn gcd_of(a: u64, b: u64) -> u64
    ensures { result ≡ gcd a b }
{
    let mut x = a;
    let mut y = b;
    while y != 0 {
        let t = x % y;
        x = y;
        y = t;
    }
    x
}

// Inner step: the quotient towards zero; exact where the divisor divides the number (proofs/Euclid, quot_exact). Most entries are 0, and a division takes long.
pub fn quotient(x: i64, d: u64) -> i64
    requires { (nat_abs x < 2 ^ 63) × (0 < d) × (d < 2 ^ 63) }
    ensures { result ≡ quot_z x (pos d) }
{
    if x == 0 {
        return 0;
    }
    x / (d as i64)
}

// Inner step: b times x plus a times y, at most 2 · 10^18 for entries within the limit. A function of its own: its bound is shown once, and
// sixteen entries use it.
pub fn combined(x: i64, y: i64, a: i64, b: i64) -> i64
    requires { (nat_abs x ≤ entry_limit) × (nat_abs y ≤ entry_limit) × (nat_abs a ≤ entry_limit) × (nat_abs b ≤ entry_limit) }
    ensures { result ≡ b *ℤ x +ℤ a *ℤ y }
{
    b * x + a * y
}

// Inner step: a sum with one product more. Apart, so that its bound is shown once.
pub fn plus_product(s: i64, a: i64, b: i64) -> i64
    requires { (nat_abs s ≤ 2 ^ 61) × (nat_abs a * nat_abs b ≤ 2 ^ 61) }
    ensures { result ≡ s +ℤ a *ℤ b }
{
    s + a * b
}
