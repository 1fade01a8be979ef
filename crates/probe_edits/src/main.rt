// Loads tables and changes them, many in one run. Standard input holds tables one after the other, each after its length in bytes as a
// word of 32 bits, high byte first. After each table come eight words: length, bridge, VID and changes, a state that no load has made; the
// numbers of places of the lists of costs, of hops and of last bridges but one; and the number of steps. Each step is four words: 1 for a
// load, bridge, VID, and a word that is ignored; 2 for a change of metric, near bridge, port and metric; 3 for a withdrawal, near bridge,
// port, and a word that is ignored. A load is of all the lent bytes, as they are then; a change is of the state. For each step two lines
// are written: `loaded`, `changed`, or `refused` with number, kind and word, then the numbers of the state after it and every place of the
// three lists; and every byte of the lent table.
//
// A table of more than 10,240 bytes, a list of more than 80 places, another step, and an input that ends inside a table or a step are
// reported on standard error and end the run. The lines are proved to be the text of what they are told; of the rest only safety is proved.
// Only reading and writing assume anything: that C's read and write keep their contracts.
#![tactic(auto)]

mod line;

ghost use Rattle.std.specs.Prelude.{◌≤◌, length as List·length};

use crate::line::{write_state, write_table};
use edits::change::{HalfLinkName, Running, RunningAnswer};
use probe_input::lent::set_untouched;
use probe_input::report::report;
use probe_input::tables::{LONGEST, answer_tables, read_bytes};
use readers::words::word_at;
use running::calls::{change_metric, load, withdraw};

// The numbers of the calls that a step asks for.
const LOAD: u32 = 1;

const CHANGE: u32 = 2;

const WITHDRAW: u32 = 3;

// The bytes of the eight words before the steps, and of a step.
const START: usize = 32;

const STEP: usize = 16;

// Places of a list at most: more than the 64 that the largest plan needs.
const MOST_PLACES: usize = 80;

// The bytes of the first line at most: an answer of 40, four fields and one for each place of the lists, of 11, and its end.
const STATE_LINE: usize = 85 + 33 * MOST_PLACES;

// The bytes of the second line at most.
const TABLE_LINE: usize = 11 * LONGEST + 1;

// Reports what is wrong. False: the run ends.
fn refuse(wrong: &[u8]) -> bool {
    report(b"probe_edits", wrong);
    false
}

// A refused step leaves the state as it was.
fn state_after(answer: RunningAnswer, before: Running) -> Running {
    match answer {
        RunningAnswer::Kept(running) => running,
        RunningAnswer::Refused { number, kind, word } => before,
    }
}

fn show_table(table: &[u8]) -> bool
    requires { List·length table.now ≤ 10240 }
{
    let mut line = [0u8; TABLE_LINE];
    let written = write_table(table, &mut line);
    io::write_all(1, &line[..written])
}

fn show_state(
    word: &[u8],
    answer: RunningAnswer,
    after: Running,
    costs: &[u32],
    hops: &[u32],
    lasts: &[u32],
) -> bool
    requires { (List·length word.now ≤ 7) × (List·length costs.now ≤ 80) × (List·length hops.now ≤ 80) × (List·length lasts.now ≤ 80) }
{
    let mut line = [0u8; STATE_LINE];
    let written = write_state(word, answer, after, costs, hops, lasts, &mut line);
    io::write_all(1, &line[..written])
}

// Writes the two lines of a step.
fn show(
    word: &[u8],
    answer: RunningAnswer,
    before: Running,
    table: &[u8],
    costs: &[u32],
    hops: &[u32],
    lasts: &[u32],
) -> Option<Running>
    requires { (List·length word.now ≤ 7) × (List·length table.now ≤ 10240) × (List·length costs.now ≤ 80) × (List·length hops.now ≤ 80) × (List·length lasts.now ≤ 80) }
{
    let after = state_after(answer, before);
    if !show_state(word, answer, after, costs, hops, lasts) {
        return None;
    }
    if !show_table(table) {
        return None;
    }
    Some(after)
}

// The change that three words name, of a metric or a withdrawal.
fn change(
    words: &[u8],
    state: Running,
    table: &mut [u8],
    costs: &mut [u32],
    hops: &mut [u32],
    lasts: &mut [u32],
) -> RunningAnswer
    requires { 16 ≤ List·length words.now }
{
    let name = HalfLinkName {
        near: word_at(words, 1),
        port: word_at(words, 2),
    };
    if word_at(words, 0) == WITHDRAW {
        return withdraw(state, name, table, costs, hops, lasts);
    }
    change_metric(state, name, word_at(words, 3), table, costs, hops, lasts)
}

// The step that four words ask for.
fn take_step(
    words: &[u8],
    state: Running,
    table: &mut [u8],
    costs: &mut [u32],
    hops: &mut [u32],
    lasts: &mut [u32],
) -> Option<Running>
    requires { (16 ≤ List·length words.now) × (List·length table.old ≤ 10240) × (List·length costs.old ≤ 80) × (List·length hops.old ≤ 80) × (List·length lasts.old ≤ 80) }
{
    let call = word_at(words, 0);
    if call == LOAD {
        let answer = load(
            &table[..],
            word_at(words, 1),
            word_at(words, 2),
            costs,
            hops,
            lasts,
        );
        return show(
            b"loaded",
            answer,
            state,
            &table[..],
            &costs[..],
            &hops[..],
            &lasts[..],
        );
    }
    if CHANGE <= call && call <= WITHDRAW {
        let answer = change(words, state, table, costs, hops, lasts);
        return show(
            b"changed",
            answer,
            state,
            &table[..],
            &costs[..],
            &hops[..],
            &lasts[..],
        );
    }
    refuse(b"neither a load, a change of metric nor a withdrawal");
    None
}

// The steps of one table, or those before the first that cannot be made.
fn take_steps(
    count: u32,
    state: Running,
    table: &mut [u8],
    costs: &mut [u32],
    hops: &mut [u32],
    lasts: &mut [u32],
) -> bool
    requires { (List·length table.old ≤ 10240) × (List·length costs.old ≤ 80) × (List·length hops.old ≤ 80) × (List·length lasts.old ≤ 80) }
{
    let mut running = state;
    for _ in 0..count {
        let mut words = [0u8; STEP];
        if !read_bytes(&mut words) {
            return refuse(b"the input ends inside a step");
        }
        let Some(after) = take_step(&words, running, table, costs, hops, lasts) else {
            return false;
        };
        running = after;
    }
    true
}

// The state that no load has made, and the steps, with lists of the lengths that the eight words say.
fn take_words(words: &[u8], table: &mut [u8]) -> bool
    requires { (32 ≤ List·length words.now) × (List·length table.old ≤ 10240) }
{
    let of_costs = word_at(words, 4) as usize;
    let of_hops = word_at(words, 5) as usize;
    let of_lasts = word_at(words, 6) as usize;
    if MOST_PLACES < of_costs {
        return refuse(b"a list of more than 80 places");
    }
    if MOST_PLACES < of_hops {
        return refuse(b"a list of more than 80 places");
    }
    if MOST_PLACES < of_lasts {
        return refuse(b"a list of more than 80 places");
    }
    let mut costs = [0u32; MOST_PLACES];
    let mut hops = [0u32; MOST_PLACES];
    let mut lasts = [0u32; MOST_PLACES];
    set_untouched(&mut costs);
    set_untouched(&mut hops);
    set_untouched(&mut lasts);
    let state = Running {
        length: word_at(words, 0),
        bridge: word_at(words, 1),
        vid: word_at(words, 2),
        changes: word_at(words, 3),
    };
    take_steps(
        word_at(words, 7),
        state,
        table,
        &mut costs[..of_costs],
        &mut hops[..of_hops],
        &mut lasts[..of_lasts],
    )
}

// The words and steps after a table.
fn take_table(table: &mut [u8]) -> bool
    requires { List·length table.old ≤ 10240 }
{
    let mut words = [0u8; START];
    if !read_bytes(&mut words) {
        return refuse(b"the input ends inside the words before the steps");
    }
    take_words(&words, table)
}

fn main() {
    answer_tables(b"probe_edits", take_table);
}
