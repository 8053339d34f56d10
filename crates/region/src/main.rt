// Reads a model from standard input and prints its answer and region: 900 rows, 256 records and a budget of 100,000 are lent.
#![tactic(auto)]

use attempts::Answer;
use rows::{Row, Set};
use std::io;
use std::io::Write;

fn main(rt: HostRuntime) -> io::Result<()> {
    // one byte more than a model may have, so that a longer input is seen to be longer
    let mut input = [0u8; 65537];
    let n = streams::read_full(&mut rt.stdin(), &mut input)?;
    run(&mut rt.stdout(), &input[..n])
}

fn run<W: Write>(writer: &mut W, input: &[u8]) -> io::Result<()> {
    let mut first = [0i32; Set::NUMBERS];
    let mut second = [0i32; Set::NUMBERS];
    let mut rows = [0i32; 900 * Row::NUMBERS];
    let mut result = [0i32; Set::NUMBERS];
    let a = zimbralosa::from_hex_here(
        input,
        &mut first,
        &mut second,
        &mut rows,
        &mut result,
        100_000,
    );
    print(writer, a, &result)
}

// The answer's lines. A count that the result store has no room for, which no run gives, would print nothing.
fn print<W: Write>(writer: &mut W, a: Answer, res: &[i32]) -> io::Result<()> {
    if Set::ROWS < a.rows || res.len() < a.rows * Row::NUMBERS {
        return Ok(());
    }
    let mut out = [0u8; 16384];
    let count = frames::write_answer(
        a.outcome, a.states, a.attempts, a.formed, res, a.rows, &mut out,
    );
    match count.and_then(|n| out.get(..n)) {
        Some(lines) => writer.write_all(lines),
        None => Ok(()),
    }
}
