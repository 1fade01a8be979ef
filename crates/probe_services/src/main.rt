// Asks for services read and written of many tables in one run. Standard input holds tables one after the other, each after its length in
// bytes as a word of 32 bits, high byte first. After each table comes the number of its questions as a word, and each question as four
// words: 1 for a reading, the number of bytes of its sub-TLV, a word that is ignored, and the number of places of the lent list of words,
// then those bytes; or 2 for a writing, bridge, VID, and the number of places of the lent list of bytes. For each question one line is
// written: `read` with the number of words or `written` with the number of bytes, or `refused` with number, kind and word; then every
// place of the lent list after the call.
//
// A length above 10,240, a sub-TLV of more than 1,024 bytes, a list of more than 160 words or 320 bytes, another question, and an input that
// ends inside a table or a question are reported on standard error and end the run. The line is proved to be the text of the call's
// outcome; of the rest only safety is proved. Only reading and writing assume anything: that C's read and write keep their contracts.
#![tactic(auto)]

mod line;
mod question;

ghost use Rattle.std.specs.Prelude.{◌≤◌, length as List·length};

use crate::question::{
    MOST_BYTES, MOST_WORDS, READ_LINE, WRITTEN_LINE, write_asked_read, write_asked_written,
};
use probe_input::report::report;
use probe_input::tables::{answer_tables, read_bytes};
use readers::words::word_at;

// The numbers of the calls that a question asks for.
const READ: u32 = 1;

const WRITE: u32 = 2;

// The bytes of a question: four words.
const QUESTION: usize = 16;

// The bytes of a sub-TLV at most: more than a length can count, so that longer ones are tried too.
const LONGEST_SUB_TLV: usize = 1024;

// Reports what is wrong. False: the run ends.
fn refuse(wrong: &[u8]) -> bool {
    report(b"probe_services", wrong);
    false
}

// The line of a reading.
fn answer_read(table: &[u8], bytes: &[u8], places: usize) -> bool
    requires { places ≤ 160 }
{
    let mut line = [0u8; READ_LINE];
    let written = write_asked_read(table, bytes, places, &mut line);
    io::write_all(1, &line[..written])
}

// The line of a writing.
fn answer_write(table: &[u8], bridge: u32, vid: u32, places: usize) -> bool
    requires { places ≤ 320 }
{
    let mut line = [0u8; WRITTEN_LINE];
    let written = write_asked_written(table, bridge, vid, places, &mut line);
    io::write_all(1, &line[..written])
}

// The line of a reading of the next bytes of the input, as many as are lent.
fn answer_next_bytes(table: &[u8], bytes: &mut [u8], places: usize) -> bool
    requires { places ≤ 160 }
{
    if !read_bytes(bytes) {
        return refuse(b"the input ends inside a sub-TLV");
    }
    answer_read(table, bytes, places)
}

// The reading that four words ask for, of the bytes that follow them.
fn answer_read_words(table: &[u8], words: &[u8]) -> bool
    requires { 16 ≤ List·length words.now }
{
    let length = word_at(words, 1) as usize;
    if LONGEST_SUB_TLV < length {
        return refuse(b"a sub-TLV of more than 1,024 bytes");
    }
    let places = word_at(words, 3) as usize;
    if MOST_WORDS < places {
        return refuse(b"a list of more than 160 words");
    }
    let mut bytes = [0u8; LONGEST_SUB_TLV];
    answer_next_bytes(table, &mut bytes[..length], places)
}

// The writing that four words ask for.
fn answer_write_words(table: &[u8], words: &[u8]) -> bool
    requires { 16 ≤ List·length words.now }
{
    let places = word_at(words, 3) as usize;
    if MOST_BYTES < places {
        return refuse(b"a list of more than 320 bytes");
    }
    answer_write(table, word_at(words, 1), word_at(words, 2), places)
}

// The line of the question that the four words hold.
fn answer_words(table: &[u8], words: &[u8]) -> bool
    requires { 16 ≤ List·length words.now }
{
    let call = word_at(words, 0);
    if call == READ {
        return answer_read_words(table, words);
    }
    if call == WRITE {
        return answer_write_words(table, words);
    }
    refuse(b"neither a reading nor a writing")
}

// The questions of one table, or those before the first that cannot be answered.
fn answer_questions(table: &[u8], count: u32) -> bool {
    for _ in 0..count {
        let mut words = [0u8; QUESTION];
        if !read_bytes(&mut words) {
            return refuse(b"the input ends inside a question");
        }
        if !answer_words(table, &words) {
            return false;
        }
    }
    true
}

// The questions after a table.
fn answer_table(table: &[u8]) -> bool {
    let mut count = [0u8; 4];
    if !read_bytes(&mut count) {
        return refuse(b"the input ends inside a number of questions");
    }
    answer_questions(table, word_at(&count, 0))
}

fn main() {
    answer_tables(b"probe_services", |table| answer_table(&table[..]));
}
