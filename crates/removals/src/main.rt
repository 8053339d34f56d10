// Runs removals called alone, case by case from standard input, and prints every answer and every number of both stores.
// docs/VECTORS.md has the format of a case, and says where the cases and the expected output come from.
#![tactic(auto)]

use removal::Placed;
use rows::Row;
use sets::Refusal;
use std::io;
use std::io::{Read, Write};

// What a case begins with: the lengths of the stores, the numbers of rows given, of variables and of rows that follow, and the filler.
#[derive(Clone, Copy)]
struct Head {
    first: usize,
    second: usize,
    count: u8,
    named: u8,
    rows: u8,
    filler: i32,
}

fn main(rt: HostRuntime) -> io::Result<()> {
    let mut reader = rt.stdin();
    let mut writer = rt.stdout();
    let mut first = [0i32; 2192];
    let mut second = [0i32; 2192];
    // The loop stands in each of the three programs: over a closure it would be longer, with a clause on every call.
    for number in 0..10_000 {
        if !run_case(&mut reader, &mut writer, number, &mut first, &mut second)? {
            return Ok(());
        }
    }
    Ok(())
}

// The head of the next case, unless the input ends.
fn read_head<R: Read>(reader: &mut R) -> io::Result<Option<Head>> {
    let mut head = [0u8; 9];
    if streams::read_full(reader, &mut head)? < 9 {
        return Ok(None);
    }
    Ok(Some(Head {
        first: usize::from(u16::from_be_bytes([head[1], head[2]])),
        second: usize::from(u16::from_be_bytes([head[3], head[4]])),
        count: head[5],
        named: head[6],
        rows: head[7],
        filler: i32::from(head[8].cast_signed()),
    }))
}

// One case read, run and printed; false where the input ends. Reader, writer and number are main's own three,
// lent one by one.
fn run_case<R: Read, W: Write>(
    reader: &mut R,
    writer: &mut W,
    number: usize,
    first: &mut [i32],
    second: &mut [i32],
) -> io::Result<bool> {
    let Some(head) = read_head(reader)? else {
        return Ok(false);
    };
    if first.len() < head.first || second.len() < head.second {
        return Ok(false);
    }
    let first = &mut first[..head.first];
    let second = &mut second[..head.second];
    first.fill(head.filler);
    second.fill(head.filler);
    let mut variables = [0u8; 256];
    let variables = &mut variables[..usize::from(head.named)];
    streams::read_full(reader, variables)?;
    read_rows(reader, first, head.rows)?;
    let done = removal::remove_between(first, second, usize::from(head.count), variables);
    print_answer(writer, number, done)?;
    vectors::print_store(writer, b"first", first)?;
    vectors::print_store(writer, b"second", second)?;
    Ok(true)
}

// The rows of the case, number by number to the front of the store, as far as it reaches.
fn read_rows<R: Read>(reader: &mut R, s: &mut [i32], rows: u8) -> io::Result<()> {
    let mut places = s.iter_mut();
    for _ in 0..usize::from(rows) * Row::NUMBERS {
        let mut w = [0u8; 4];
        streams::read_full(reader, &mut w)?;
        if let Some(x) = places.next() {
            *x = i32::from_be_bytes(w);
        }
    }
    Ok(())
}

// A refusal has no rows, and names the first store.
fn print_answer<W: Write>(
    writer: &mut W,
    number: usize,
    done: Result<Placed, Refusal>,
) -> io::Result<()> {
    let outcome = sets::outcome_number(done.map(|_| ()));
    let (second, rows) = done.map_or((false, 0), |p| (p.second, p.rows));
    vectors::print_case(writer, number, outcome)?;
    vectors::print_count(writer, b"second", usize::from(second))?;
    vectors::print_count(writer, b"rows", rows)?;
    writer.write_all(b"\n")
}
