// Bridge records (01, "The table", kind 1): the record at the beginning of a part, and the reader that tests it.
ghost use Rattle.std.specs.Prelude.{◌≡◌, ◌+◌, ◌*◌, ◌≤◌, length, drop};
ghost use Rattle.rule.specs.Words.{words_of};
ghost use Rattle.rule.specs.Records.{bridge, bridge_layout, bridge_of};
ghost use Rattle.readers.specs.Readers.{bridge_values, read_by, read_of};

use crate::fault::RecordFault;
use crate::words::word_at;
use numbers::number::{two_words, within};

// What the first word's bit 27 counts: the bridge is overloaded (02, A1).
const OVERLOAD: u32 = 134217728;

#[derive(Clone, Copy)]
pub struct Bridge {
    pub overloaded: bool,
    pub sp_source_id: u32,
    pub identifier: u64,
}

// The record whose words the part begins with.
pub fn bridge_of(part: &[u8]) -> Bridge
    requires { 12 ≤ length part.now }
    ensures { bridge_values result ≡ bridge_of (words_of part.now) }
{
    let first = word_at(part, 0);
    let identifier = two_words(word_at(part, 1), word_at(part, 2));
    Bridge {
        overloaded: first / OVERLOAD % 2 == 1,
        sp_source_id: first % 1048576,
        identifier: identifier,
    }
}

// The record whose first word is the word `word` of the table.
pub fn bridge_at(table: &[u8], word: usize) -> Bridge
    requires { 4 * word + 12 ≤ length table.now }
    ensures { bridge_values result ≡ bridge_of (drop word (words_of table.now)) }
{
    let at = 4 * word;
    bridge_of(&table[at..])
}

// Reads the part of the table that begins at the record's first word.
pub fn read_bridge(part: &[u8]) -> Result<Bridge, RecordFault>
    ensures { read_by (λ b. bridge (bridge_values b)) result ≡ read_of bridge_layout (words_of part.now) }
{
    if part.len() < 12 {
        return Err(RecordFault::Cut);
    }
    if word_at(part, 0) / 1048576 % 128 != 0 {
        return Err(RecordFault::ZeroBit);
    }
    let b = bridge_of(part);
    let address = b.identifier % 281474976710656;
    if !within(b.sp_source_id as u64, 1, 1048575) {
        return Err(RecordFault::OutOfRange);
    }
    if !within(address, 1, 281474976710655) {
        return Err(RecordFault::OutOfRange);
    }
    if !within(address / 1099511627776 % 2, 0, 0) {
        return Err(RecordFault::OutOfRange);
    }
    Ok(b)
}
