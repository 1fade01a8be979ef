// Traffic records (02, A5, kind 5): the record at the beginning of a part, and the reader that tests it. All their bits are in use.
ghost use Rattle.std.specs.Prelude.{◌≡◌, ◌+◌, ◌*◌, ◌≤◌, length, drop};
ghost use Rattle.rule.specs.Words.{words_of};
ghost use Rattle.rule.specs.Records.{traffic, traffic_layout, traffic_of};
ghost use Rattle.readers.specs.Readers.{traffic_values, read_by, read_of};

use crate::fault::RecordFault;
use crate::words::word_at;
use numbers::number::within;

// "amount 1 to 65,535" (02, A5).
const LEAST_AMOUNT: u64 = 1;

const GREATEST_AMOUNT: u64 = 65535;

#[derive(Clone, Copy)]
pub struct Traffic {
    pub vid: u32,
    pub amount: u32,
    pub from: u32,
    pub to: u32,
}

// The record whose words the part begins with.
pub fn traffic_of(part: &[u8]) -> Traffic
    requires { 8 ≤ length part.now }
    ensures { traffic_values result ≡ traffic_of (words_of part.now) }
{
    let first = word_at(part, 0);
    let ends = word_at(part, 1);
    Traffic {
        vid: first / 65536 % 4096,
        amount: first % 65536,
        from: ends / 65536,
        to: ends % 65536,
    }
}

// The record whose first word is the word `word` of the table.
pub fn traffic_at(table: &[u8], word: usize) -> Traffic
    requires { 4 * word + 8 ≤ length table.now }
    ensures { traffic_values result ≡ traffic_of (drop word (words_of table.now)) }
{
    let at = 4 * word;
    traffic_of(&table[at..])
}

// Reads the part of the table that begins at the record's first word.
pub fn read_traffic(part: &[u8]) -> Result<Traffic, RecordFault>
    ensures { read_by (λ t. traffic (traffic_values t)) result ≡ read_of traffic_layout (words_of part.now) }
{
    if part.len() < 8 {
        return Err(RecordFault::Cut);
    }
    let t = traffic_of(part);
    if !within(t.vid as u64, 1, 4094) {
        return Err(RecordFault::OutOfRange);
    }
    if !within(t.amount as u64, LEAST_AMOUNT, GREATEST_AMOUNT) {
        return Err(RecordFault::OutOfRange);
    }
    Ok(t)
}
