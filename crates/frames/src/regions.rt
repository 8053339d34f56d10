// The answer: its frame 05, then the region as frames 03. Rows stand in a store of numbers and are read by offset, so loops count them.
ghost use Rattle.std.specs.Prelude.{◌≡◌, ◌*◌, ◌≤◌, length};
ghost use Rattle.rows.specs.Rows.{row_numbers, set_rows};
ghost use Rattle.sets.specs.Stores.{rows_at};
ghost use Rattle.frames.specs.Hex.{line_of};
ghost use Rattle.frames.specs.Writing.{Room, Put, row_lines, answer_bytes};

use crate::answers::{self, Out};
use rows::Row;
use sets::{Refusal, outcome_number};

// Inner step: how many characters the lines of the region have.
pub fn region_length(region: &[i32], n: usize) -> usize
    requires { (n ≤ set_rows) × (n * row_numbers ≤ length region.now) }
    ensures { (result ≡ length (row_lines (rows_at region.now 0 n))) × (result ≤ n * 171) }
{
    let mut total: usize = 0;
    for i in 0..n {
        total += answers::row_length(Row::read(region, i * Row::NUMBERS));
    }
    total
}

// Inner step: the lines of the region.
pub fn put_region(out: &mut Out<'_>, region: &[i32], n: usize)
    requires { (n ≤ set_rows) × (n * row_numbers ≤ length region.now) × Room (row_lines (rows_at region.now 0 n)) out.old }
    ensures { Put (row_lines (rows_at region.now 0 n)) out.old out.new }
{
    for i in 0..n {
        out.row(Row::read(region, i * Row::NUMBERS));
    }
}

// Inner step: the frame 05: the outcome, then states and new attempts in two bytes each, successors in four, and rows.
pub fn put_answer(
    out: &mut Out<'_>,
    outcome: Result<(), Refusal>,
    states: usize,
    attempts: usize,
    formed: usize,
    rows: u8,
)
    requires { Room (line_of (answer_bytes outcome states attempts formed rows)) out.old }
    ensures { Put (line_of (answer_bytes outcome states attempts formed rows)) out.old out.new }
{
    out.put(&[5, outcome_number(outcome)]);
    out.put(&states.to_be_bytes()[6..]);
    out.put(&attempts.to_be_bytes()[6..]);
    out.put(&formed.to_be_bytes()[4..]);
    out.put(&[rows]);
    out.end();
}
