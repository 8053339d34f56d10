// What the programs that run stored cases share: numbers printed as runs, and the lines of an answer. Nothing is promised but safety.
#![tactic(auto)]

use std::io;
use std::io::Write;

// Runs of equal numbers.
pub fn print_store<W: Write>(writer: &mut W, word: &[u8], s: &[i32]) -> io::Result<()> {
    writer.write_all(word)?;
    for run in s.chunk_by(|a, b| a == b) {
        if let Some(x) = run.first() {
            write!(writer, " {}*{x}", run.len())?;
        }
    }
    writer.write_all(b"\n")
}

// The word that a case begins with, and its number.
pub fn print_case<W: Write>(writer: &mut W, number: usize, outcome: u8) -> io::Result<()> {
    write!(writer, "case {number} outcome {outcome}")
}

// A word, a blank before and behind it, and a number.
pub fn print_count<W: Write>(writer: &mut W, word: &[u8], n: usize) -> io::Result<()> {
    writer.write_all(b" ")?;
    writer.write_all(word)?;
    write!(writer, " {n}")
}
