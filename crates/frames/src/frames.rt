// Frames: what their bytes, the kind taken off, say. A frame is a slice of the buffer; that its length is due is tested once, by
// `Progress::placed`, and asked for from then on. Two kinds have four bytes, and each names fields of its own: a
// conversion from four bytes would not say whose they are.
ghost use Rattle.std.specs.Prelude.{◌≡◌, not, ℕ, ◌+◌, ◌*◌, ◌≤◌, ◌<◌, length, get_or, drop};
ghost use Rattle.std.specs.Simd.{first_chunks};
ghost use Rattle.integers.specs.Lists.{every, from};
ghost use Rattle.rows.specs.Rows.{at};
ghost use Rattle.models.specs.Acceptance.{entry_declared};
ghost use Rattle.frames.specs.Reading.{header_of, reference_of, reference_table, transition_of, term_count, term_entry, term_coefficient, entries_of, row_of, coefficient_fits, entries_rise, row_declared, terms_fit};

use crate::digits;
use models::{Header, ModelRow, Reference, Transition};
use std::array;

// Inner step: a header's 4 bytes.
pub fn header_of(b: &[u8]) -> Header
    requires { length b.now ≡ 4 }
    ensures { result ≡ header_of b.now }
{
    Header {
        clocks: b[0],
        parameters: b[1],
        locations: b[2],
        transitions: b[3],
    }
}

// Inner step: a transition's 4 bytes.
pub fn transition_of(b: &[u8]) -> Transition
    requires { length b.now ≡ 4 }
    ensures { result ≡ transition_of b.now }
{
    Transition {
        source: b[0],
        action: b[1],
        target: b[2],
        resets: b[3],
    }
}

// Inner step: numerator i, or 0 where it is not declared.
fn numerator(b: &[u8], h: Header, i: usize) -> i32
    requires { (length b.now ≡ 4 + h.parameters * 4) × (i ≤ 8) }
    ensures { result ≡ at (drop 1 (reference_of h b.now)) i }
{
    if i < usize::from(h.parameters) {
        digits::word(b, i * 4 + 4)
    } else {
        0
    }
}

// Inner step: a reference, with zeros for the numerators that are not declared.
pub fn reference_of(b: &[u8], h: Header) -> Reference
    requires { length b.now ≡ 4 + h.parameters * 4 }
    ensures { result ≡ reference_table (reference_of h b.now) }
{
    Reference {
        denominator: digits::word(b, 0),
        numerators: array::from_fn(|i| numerator(b, h, i)),
    }
}

// The number of terms that a row frame counts; 0 where it is too short to say, as `term_count` has it: such a frame is of no right length.
pub fn term_count(b: &[u8]) -> u8
    ensures { result ≡ term_count b.now }
{
    b.get(3).copied().unwrap_or(0)
}

// Inner step: the terms that are counted, 5 bytes each: the entry, then its coefficient.
fn terms(b: &[u8]) -> &[[u8; 5]]
    requires { length b.now ≡ 4 + term_count b.now * 5 }
    ensures { result.now ≡ first_chunks 5 (term_count b.now) (drop 4 b.now) }
{
    b[4..].as_chunks().0
}

fn entries_named(b: &[u8], h: Header) -> bool
    requires { length b.now ≡ 4 + term_count b.now * 5 }
    ensures { result ≡ every (λ i. entry_declared h (get_or b.now 0 0) (term_entry b.now i)) (from 0 (term_count b.now)) }
{
    let kind = b[0];
    terms(b)
        .iter()
        .all(|t| h.entry_declared(kind, usize::from(t[0])))
}

// Inner step: 5 of a row frame.
#[tactic(auto, unfolding(crate::specs::Reading::row_declared))]
pub fn row_declared(b: &[u8], h: Header) -> bool
    requires { length b.now ≡ 4 + term_count b.now * 5 }
    ensures { result ≡ row_declared h b.now }
{
    h.owner_declared(b[0], b[1]) && b[2] <= 1 && entries_named(b, h)
}

fn coefficient_fits(z: i32) -> bool
    ensures { result ≡ coefficient_fits z }
{
    z != 0 && z.unsigned_abs() <= 1_000_000
}

fn coefficients_fit(b: &[u8]) -> bool
    requires { length b.now ≡ 4 + term_count b.now * 5 }
    ensures { result ≡ every (λ i. coefficient_fits (term_coefficient b.now i)) (from 0 (term_count b.now)) }
{
    terms(b)
        .iter()
        .all(|t| coefficient_fits(digits::word(t, 1)))
}

fn entries_rise(b: &[u8]) -> bool
    requires { length b.now ≡ 4 + term_count b.now * 5 }
    ensures { result ≡ entries_rise b.now (term_count b.now) }
{
    terms(b).is_sorted_by(|t, next| t[0] < next[0])
}

// Inner step: 6 of a row frame.
#[tactic(auto, unfolding(crate::specs::Reading::terms_fit))]
pub fn terms_fit(b: &[u8]) -> bool
    requires { length b.now ≡ 4 + term_count b.now * 5 }
    ensures { result ≡ terms_fit b.now }
{
    (1..=15).contains(&term_count(b)) && coefficients_fit(b) && entries_rise(b)
}

// Inner step: the entries that the terms give. From the last term to the first: of two terms of one entry, which no row that is
// taken has, the first counts.
fn entries_of(b: &[u8]) -> [i32; 16]
    requires { (length b.now ≡ 4 + term_count b.now * 5) × ((i : ℕ) → i < term_count b.now → term_entry b.now i < 16) }
    ensures { result ≡ entries_of b.now (from 0 (term_count b.now)) }
{
    let mut to = [0; 16];
    for t in terms(b).iter().rev() {
        to[usize::from(t[0])] = digits::word(t, 1);
    }
    to
}

// Inner step: the row of a frame whose entries are declared.
pub fn row_of(b: &[u8]) -> ModelRow
    requires { (length b.now ≡ 4 + term_count b.now * 5) × ((i : ℕ) → i < term_count b.now → term_entry b.now i < 16) }
    ensures { result ≡ row_of b.now }
{
    ModelRow {
        kind: b[0],
        owner: b[1],
        strict: b[2],
        entries: entries_of(b),
    }
}
