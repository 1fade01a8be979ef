// Half-link records (01, "The table", kind 2): the record at the beginning of a part, and the reader that tests it.
ghost use Rattle.std.specs.Prelude.{◌≡◌, ◌+◌, ◌*◌, ◌≤◌, length, drop};
ghost use Rattle.rule.specs.Words.{words_of};
ghost use Rattle.rule.specs.Records.{half_link, half_link_layout, half_link_of};
ghost use Rattle.readers.specs.Readers.{half_link_values, read_by, read_of};

use crate::fault::RecordFault;
use crate::words::word_at;
use numbers::metric::Metric;
use numbers::number::within;

// What the first word's bit 27 counts: the port is down (02, A3).
const DOWN: u32 = 134217728;

#[derive(Clone, Copy)]
pub struct HalfLink {
    pub down: bool,
    pub metric: Metric,
    pub near: u32,
    pub far: u32,
    pub port: u32,
    pub link: u32,
}

// The record whose words the part begins with.
pub fn half_link_of(part: &[u8]) -> HalfLink
    requires { 12 ≤ length part.now }
    ensures { half_link_values result ≡ half_link_of (words_of part.now) }
{
    let first = word_at(part, 0);
    let bridges = word_at(part, 1);
    let place = word_at(part, 2);
    HalfLink {
        down: first / DOWN % 2 == 1,
        metric: Metric(first % 16777216),
        near: bridges / 65536,
        far: bridges % 65536,
        port: place / 65536,
        link: place % 65536,
    }
}

// The record whose first word is the word `word` of the table.
pub fn half_link_at(table: &[u8], word: usize) -> HalfLink
    requires { 4 * word + 12 ≤ length table.now }
    ensures { half_link_values result ≡ half_link_of (drop word (words_of table.now)) }
{
    let at = 4 * word;
    half_link_of(&table[at..])
}

// Reads the part of the table that begins at the record's first word.
pub fn read_half_link(part: &[u8]) -> Result<HalfLink, RecordFault>
    ensures { read_by (λ h. half_link (half_link_values h)) result ≡ read_of half_link_layout (words_of part.now) }
{
    if part.len() < 12 {
        return Err(RecordFault::Cut);
    }
    if word_at(part, 0) / 16777216 % 8 != 0 {
        return Err(RecordFault::ZeroBit);
    }
    let h = half_link_of(part);
    if !h.metric.is_in_range() {
        return Err(RecordFault::OutOfRange);
    }
    if !within(h.port as u64, 1, 4095) {
        return Err(RecordFault::OutOfRange);
    }
    if !within(h.link as u64, 1, 65535) {
        return Err(RecordFault::OutOfRange);
    }
    Ok(h)
}
