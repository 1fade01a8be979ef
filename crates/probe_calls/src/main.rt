// Asks path, tree and entries of many tables in one run. Standard input holds tables one after the other, each after its length in
// bytes as a word of 32 bits, high byte first. After each table comes the number of its questions as a word, and each question as
// seven words: 1 for a path, 2 for a tree or 3 for entries, VID, from, to, and the numbers of places of three lent lists, of which a
// path and entries are lent the first; the bridge of entries stands in from's place. For each question one line is written: `path`
// with cost and hops, `tree` with the number of bridges, `entries` with the number of words, or `refused` with number, kind and word;
// then every place of the lent lists after the call.
//
// A length above 10,240, a list of more than 80 places, of entries of more than 14,932, another question, and an input that ends inside
// a table or a question are reported on standard error and end the run. The line is proved to be the text of the call's outcome; of
// the rest only safety is proved. Only reading and writing assume anything: that C's read and write keep their contracts.
#![tactic(auto)]

mod lent;
mod line;
mod question;

ghost use Rattle.std.specs.Prelude.{◌≤◌, length as List·length};

use crate::lent::{MOST_PLACES, MOST_WORDS};
use crate::question::{
    ENTRIES_LINE, PATH_LINE, TREE_LINE, write_asked_entries, write_asked_path, write_asked_tree,
};
use probe_input::report::report;
use probe_input::tables::{answer_tables, read_bytes};
use readers::words::word_at;

// The numbers of the calls that a question asks for.
const PATH: u32 = 1;

const TREE: u32 = 2;

const ENTRIES: u32 = 3;

// The bytes of a question: seven words.
const QUESTION: usize = 28;

// Reports what is wrong. False: the run ends.
fn refuse(wrong: &[u8]) -> bool {
    report(b"probe_calls", wrong);
    false
}

// The line of a path.
fn answer_path(table: &[u8], vid: u32, from: u32, to: u32, places: usize) -> bool
    requires { places ≤ 80 }
{
    let mut line = [0u8; PATH_LINE];
    let written = write_asked_path(table, vid, from, to, places, &mut line);
    io::write_all(1, &line[..written])
}

// The line of a tree.
fn answer_tree(
    table: &[u8],
    vid: u32,
    from: u32,
    cost_places: usize,
    hop_places: usize,
    last_places: usize,
) -> bool
    requires { (cost_places ≤ 80) × (hop_places ≤ 80) × (last_places ≤ 80) }
{
    let mut line = [0u8; TREE_LINE];
    let written = write_asked_tree(
        table,
        vid,
        from,
        cost_places,
        hop_places,
        last_places,
        &mut line,
    );
    io::write_all(1, &line[..written])
}

// The line of a bridge's entries.
fn answer_entries(table: &[u8], bridge: u32, places: usize) -> bool
    requires { places ≤ 14932 }
{
    let mut line = [0u8; ENTRIES_LINE];
    let written = write_asked_entries(table, bridge, places, &mut line);
    io::write_all(1, &line[..written])
}

// The entries that seven words ask for.
fn answer_entries_words(table: &[u8], words: &[u8]) -> bool
    requires { 28 ≤ List·length words.now }
{
    let places = word_at(words, 4) as usize;
    if MOST_WORDS < places {
        return refuse(b"a list of more than 14,932 places");
    }
    answer_entries(table, word_at(words, 2), places)
}

// The line of the question that the seven words hold.
fn answer_words(table: &[u8], words: &[u8]) -> bool
    requires { 28 ≤ List·length words.now }
{
    let call = word_at(words, 0);
    if call == ENTRIES {
        return answer_entries_words(table, words);
    }
    let first = word_at(words, 4) as usize;
    let second = word_at(words, 5) as usize;
    let third = word_at(words, 6) as usize;
    if MOST_PLACES < first || MOST_PLACES < second || MOST_PLACES < third {
        return refuse(b"a list of more than 80 places");
    }
    let vid = word_at(words, 1);
    let from = word_at(words, 2);
    if call == PATH {
        return answer_path(table, vid, from, word_at(words, 3), first);
    }
    if call == TREE {
        return answer_tree(table, vid, from, first, second, third);
    }
    refuse(b"neither a path nor a tree nor entries")
}

// The questions of one table, or those before the first that cannot be answered.
fn answer_questions(table: &[u8], count: u32) -> bool {
    for _ in 0..count {
        let mut words = [0u8; QUESTION];
        if !read_bytes(&mut words) {
            return refuse(b"the input ends inside a question");
        }
        if !answer_words(table, &words) {
            return false;
        }
    }
    true
}

// The questions after a table.
fn answer_table(table: &[u8]) -> bool {
    let mut count = [0u8; 4];
    if !read_bytes(&mut count) {
        return refuse(b"the input ends inside a number of questions");
    }
    answer_questions(table, word_at(&count, 0))
}

fn main() {
    answer_tables(b"probe_calls", |table| answer_table(&table[..]));
}
