// The hex exchange: a model read from its frames, and the answer written.
#![tactic(auto)]

ghost use Rattle.std.specs.Prelude.{◌≡◌, length, ◌*◌, ◌≤◌};
ghost use Rattle.rows.specs.Rows.{row_numbers, set_rows};
ghost use Rattle.sets.specs.Stores.{rows_at};
ghost use Rattle.frames.specs.Reading.{read};
ghost use Rattle.frames.specs.Steps.{finished};
ghost use Rattle.frames.specs.Writing.{WrittenIs, answer_lines};

use answers::Out;
use models::{Header, Model, ModelRow, Reference, Transition};
use rows::Set;
use sets::Refusal;

mod answers;
mod digits;
mod frames;
mod lines;
mod regions;
mod steps;

// What has been read, counted; the transitions and the rows themselves stand in their tables, of a fixed size, since there is no heap.
#[derive(Clone, Copy, Default)]
pub struct Progress {
    pub header: Option<Header>,
    pub reference: Option<Reference>,
    pub transitions: usize,
    pub rows: usize,
}

// What is taken from a frame.
#[derive(Clone, Copy)]
pub enum Frame {
    Header(Header),
    Reference(Reference),
    Row(ModelRow),
    Transition(Transition),
}

// A model from its frames, or the first refusal of 1 to 6.
#[tactic(auto, using(crate::proofs::Reaching::too_long))]
pub fn read(input: &[u8]) -> Result<Model, Refusal>
    ensures { result ≡ read input.now }
{
    if 65_536 < input.len() {
        return Err(Refusal::NoFrame);
    }
    let mut transitions = [Transition::default(); 64];
    let mut rows = [ModelRow::default(); Set::ROWS];
    let mut buffer = [0; 1280];
    let mut p = Progress::default();
    let mut rest = input;
    while !rest.is_empty() {
        let count = lines::decode(rest, &mut buffer).ok_or(Refusal::NoFrame)?;
        let f = steps::frame(p, count, &buffer)?;
        match f {
            Frame::Transition(t) => transitions[p.transitions] = t,
            Frame::Row(r) => rows[p.rows] = r,
            _ => {}
        }
        p = p.after(f);
        rest = &rest[count * 2 + 1..];
    }
    finished(p, transitions, rows)
}

// What the tables come to at the end of the input.
fn finished(
    p: Progress,
    transitions: [Transition; 64],
    rows: [ModelRow; 128],
) -> Result<Model, Refusal>
    ensures { result ≡ finished p transitions rows }
{
    let reference = p.reference.ok_or(Refusal::Misplaced)?;
    let header = p.declared();
    if p.transitions != usize::from(header.transitions) {
        return Err(Refusal::Misplaced);
    }
    Ok(Model {
        header,
        reference,
        transitions,
        rows,
        count: p.rows,
    })
}

// Inner step: the whole answer, from the counts and the region's rows at the front of a store; how many characters it has. Where there is
// no room nothing is written. The counts come one by one: the answer that has them belongs to a crate above. A region is a store and the number
// of its rows.
pub fn write_answer(
    outcome: Result<(), Refusal>,
    states: usize,
    attempts: usize,
    formed: usize,
    region: &[i32],
    rows: usize,
    to: &mut [u8],
) -> Option<usize>
    requires { (rows ≤ set_rows) × (rows * row_numbers ≤ length region.now) }
    ensures { WrittenIs (answer_lines outcome states attempts formed (rows_at region.now 0 rows)) to.old to.new result }
{
    if to.len() < regions::region_length(region, rows) + 23 {
        return None;
    }
    let mut out = Out::new(to);
    regions::put_answer(&mut out, outcome, states, attempts, formed, rows as u8);
    regions::put_region(&mut out, region, rows);
    Some(out.count())
}
