// Checks many tables in one run. Standard input holds tables one after the other, each after its length in bytes as a word of 32
// bits, high byte first. For each table one line is written: `counts` with the five counts, or `refused` with number, kind and word,
// the kind by its number in the table or `none`.
//
// A length above 10,240 and an input that ends inside a table are reported on standard error and end the run. Only reading and
// writing assume anything: that C's read and write keep their contracts.
#![tactic(auto)]

mod answer;

use crate::answer::{LONGEST_LINE, write_answer};
use probe_input::tables::answer_tables;

// The line of one table.
fn answer_table(table: &[u8]) -> bool {
    let mut line = [0u8; LONGEST_LINE];
    let written = write_answer(table, &mut line);
    io::write_all(1, &line[..written])
}

fn main() {
    answer_tables(b"probe_check", |table| answer_table(&table[..]));
}
