// Reads models, case by case from standard input, and prints whether each is accepted, and the tables of those that are.
// docs/VECTORS.md has the format of a case, and says where the cases and the expected output come from.
#![tactic(auto)]

use models::{Model, ModelRow, Transition};
use sets::Refusal;
use std::io;
use std::io::{Read, Write};

fn main(rt: HostRuntime) -> io::Result<()> {
    let mut reader = rt.stdin();
    let mut writer = rt.stdout();
    let mut input = [0u8; 65600];
    // The loop stands in each of the three programs: over a closure it would be longer, with a clause on every call.
    for number in 0..10_000 {
        if !run_next(&mut reader, &mut writer, number, &mut input)? {
            return Ok(());
        }
    }
    Ok(())
}

// One case read and run; false where the input ends. A length that is missing counts as 0, unlike in `runs`: two functions. Reader, writer and
// number are main's own three, lent one by one, as a struct would be generic over both streams.
fn run_next<R: Read, W: Write>(
    reader: &mut R,
    writer: &mut W,
    number: usize,
    input: &mut [u8],
) -> io::Result<bool> {
    let mut w = [0u8; 4];
    streams::read_full(reader, &mut w)?;
    let n = u32::from_be_bytes(w) as usize;
    if input.len() < n {
        return Ok(false);
    }
    let input = &mut input[..n];
    streams::read_full(reader, input)?;
    run_case(writer, number, input)?;
    Ok(true)
}

// The tables take nine kilobytes: they are lent on, and a refusal copies none of them.
fn run_case<W: Write>(writer: &mut W, number: usize, input: &[u8]) -> io::Result<()> {
    match frames::read(input) {
        Ok(model) => run_model(writer, number, &model),
        Err(refusal) => print_outcome(writer, number, Err(refusal)),
    }
}

// What checking says of a model whose frames are in order, and its tables if it is accepted.
fn run_model<W: Write>(writer: &mut W, number: usize, model: &Model) -> io::Result<()> {
    let outcome = model.accepted();
    print_outcome(writer, number, outcome)?;
    if outcome.is_ok() {
        print_tables(writer, model)?;
    }
    Ok(())
}

fn print_outcome<W: Write>(
    writer: &mut W,
    number: usize,
    outcome: Result<(), Refusal>,
) -> io::Result<()> {
    vectors::print_case(writer, number, sets::outcome_number(outcome))?;
    writer.write_all(b"\n")
}

// The numbers of the header and of the rows, and one number that all numbers of the tables enter in turn.
fn print_tables<W: Write>(writer: &mut W, m: &Model) -> io::Result<()> {
    let h = m.header;
    let sum = with_rows(with_transitions(with_reference(1, m), m), m);
    writeln!(
        writer,
        "tables {} {} {} {} {} sum {sum}",
        h.clocks, h.parameters, h.locations, h.transitions, m.count,
    )
}

fn with(sum: u32, x: u32) -> u32 {
    sum.wrapping_mul(31).wrapping_add(x)
}

fn with_bytes(sum: u32, bytes: &[u8]) -> u32 {
    bytes.iter().fold(sum, |sum, b| with(sum, u32::from(*b)))
}

// Signed numbers as the 32 bits that they have.
fn with_signed(sum: u32, numbers: &[i32]) -> u32 {
    numbers
        .iter()
        .fold(sum, |sum, n| with(sum, n.cast_unsigned()))
}

fn with_reference(sum: u32, m: &Model) -> u32 {
    let declared = usize::from(m.header.parameters);
    let numerators = m.reference.numerators.get(..declared).unwrap_or(&[]);
    with_signed(with_signed(sum, &[m.reference.denominator]), numerators)
}

fn with_transition(sum: u32, t: Transition) -> u32 {
    with_bytes(sum, &[t.source, t.action, t.target, t.resets])
}

fn with_transitions(sum: u32, m: &Model) -> u32 {
    let declared = usize::from(m.header.transitions);
    m.transitions
        .iter()
        .take(declared)
        .fold(sum, |sum, t| with_transition(sum, *t))
}

fn with_row(sum: u32, r: ModelRow) -> u32 {
    with_signed(with_bytes(sum, &[r.kind, r.owner, r.strict]), &r.entries)
}

fn with_rows(sum: u32, m: &Model) -> u32 {
    m.given_rows().iter().fold(sum, |sum, r| with_row(sum, *r))
}
