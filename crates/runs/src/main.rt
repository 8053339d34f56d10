// Runs whole methods, case by case from standard input, and prints every answer and every number of the lent stores.
// docs/VECTORS.md has the format of a case, and says where the cases and the expected output come from.
#![tactic(auto)]

use attempts::Answer;
use std::io;
use std::io::{Read, Write};

// The stores that a case is lent.
#[derive(Drop)]
struct Stores<'a> {
    first: &'a mut [i32],
    second: &'a mut [i32],
    rows: &'a mut [i32],
    result: &'a mut [i32],
}

// What stands behind a case's input: the lengths of the stores and the roll, the budget and the filler.
#[derive(Clone, Copy)]
struct Lent {
    first: usize,
    second: usize,
    result: usize,
    rows: usize,
    records: usize,
    budget: usize,
    filler: i32,
}

fn main(rt: HostRuntime) -> io::Result<()> {
    let mut reader = rt.stdin();
    let mut writer = rt.stdout();
    // one byte more than a model may have, so that a longer input is seen to be longer
    let mut input = [0u8; 65537];
    let mut first = [0i32; 4000];
    let mut second = [0i32; 3000];
    let mut rows = [0i32; 15300];
    let mut result = [0i32; 2500];
    // The loop stands in each of the three programs: over a closure it would be longer, with a clause on every call.
    for number in 0..10_000 {
        let stores = Stores {
            first: &mut first,
            second: &mut second,
            rows: &mut rows,
            result: &mut result,
        };
        if !run_next(&mut reader, &mut writer, number, &mut input, stores)? {
            return Ok(());
        }
    }
    Ok(())
}

// One case read and run; false where the input ends. Reader, writer and number are main's own three,
// lent one by one.
fn run_next<R: Read, W: Write>(
    reader: &mut R,
    writer: &mut W,
    number: usize,
    input: &mut [u8],
    stores: Stores,
) -> io::Result<bool> {
    let mut w = [0u8; 4];
    if streams::read_full(reader, &mut w)? < 4 {
        return Ok(false);
    }
    let n = u32::from_be_bytes(w) as usize;
    if input.len() < n {
        return Ok(false);
    }
    let input = &mut input[..n];
    streams::read_full(reader, input)?;
    let lent = read_lent(reader)?;
    run_case(writer, number, input, stores, lent)
}

fn read_lent<R: Read>(reader: &mut R) -> io::Result<Lent> {
    let mut h = [0u8; 17];
    streams::read_full(reader, &mut h)?;
    Ok(Lent {
        first: two_bytes(h[0], h[1]),
        second: two_bytes(h[2], h[3]),
        result: two_bytes(h[4], h[5]),
        rows: u32::from_be_bytes([h[6], h[7], h[8], h[9]]) as usize,
        records: two_bytes(h[10], h[11]),
        budget: u32::from_be_bytes([h[12], h[13], h[14], h[15]]) as usize,
        filler: i32::from(h[16].cast_signed()),
    })
}

fn two_bytes(high: u8, low: u8) -> usize {
    usize::from(u16::from_be_bytes([high, low]))
}

// The roll is the method's own, of 256 records: no other case can be run. Nor can one that asks for more than there is.
fn run_case<W: Write>(
    writer: &mut W,
    number: usize,
    input: &[u8],
    stores: Stores,
    lent: Lent,
) -> io::Result<bool> {
    if lent.records != 256 {
        return Ok(false);
    }
    let Stores {
        first,
        second,
        rows,
        result,
    } = stores;
    if first.len() < lent.first || second.len() < lent.second {
        return Ok(false);
    }
    if rows.len() < lent.rows || result.len() < lent.result {
        return Ok(false);
    }
    let first = &mut first[..lent.first];
    let second = &mut second[..lent.second];
    let rows = &mut rows[..lent.rows];
    let result = &mut result[..lent.result];
    first.fill(lent.filler);
    second.fill(lent.filler);
    rows.fill(lent.filler);
    result.fill(lent.filler);
    let a = zimbralosa::from_hex_here(input, first, second, rows, result, lent.budget);
    print_answer(writer, number, a)?;
    vectors::print_store(writer, b"first", first)?;
    vectors::print_store(writer, b"second", second)?;
    vectors::print_store(writer, b"rows", rows)?;
    vectors::print_store(writer, b"result", result)?;
    Ok(true)
}

fn print_answer<W: Write>(writer: &mut W, number: usize, a: Answer) -> io::Result<()> {
    vectors::print_case(writer, number, sets::outcome_number(a.outcome))?;
    vectors::print_count(writer, b"states", a.states)?;
    vectors::print_count(writer, b"attempts", a.attempts)?;
    vectors::print_count(writer, b"formed", a.formed)?;
    vectors::print_count(writer, b"rows", a.rows)?;
    writer.write_all(b"\n")
}
