// VID records (01, "The table", kind 3): the record at the beginning of a part, and the reader that tests it. All their bits are in
// use.
ghost use Rattle.std.specs.Prelude.{◌≡◌, ◌+◌, ◌*◌, ◌≤◌, length, drop};
ghost use Rattle.rule.specs.Words.{words_of};
ghost use Rattle.rule.specs.Records.{vid, vid_layout, vid_of};
ghost use Rattle.readers.specs.Readers.{vid_values, read_by, read_of};

use crate::fault::RecordFault;
use crate::words::word_at;
use numbers::number::within;

#[derive(Clone, Copy)]
pub struct Vid {
    pub vid: u32,
    pub index: u32,
}

// The record whose words the part begins with.
pub fn vid_of(part: &[u8]) -> Vid
    requires { 4 ≤ length part.now }
    ensures { vid_values result ≡ vid_of (words_of part.now) }
{
    let first = word_at(part, 0);
    Vid {
        vid: first / 65536 % 4096,
        index: first % 65536,
    }
}

// The record whose first word is the word `word` of the table.
pub fn vid_at(table: &[u8], word: usize) -> Vid
    requires { 4 * word + 4 ≤ length table.now }
    ensures { vid_values result ≡ vid_of (drop word (words_of table.now)) }
{
    let at = 4 * word;
    vid_of(&table[at..])
}

// Reads the part of the table that begins at the record's first word.
pub fn read_vid(part: &[u8]) -> Result<Vid, RecordFault>
    ensures { read_by (λ v. vid (vid_values v)) result ≡ read_of vid_layout (words_of part.now) }
{
    if part.len() < 4 {
        return Err(RecordFault::Cut);
    }
    let v = vid_of(part);
    if !within(v.vid as u64, 1, 4094) {
        return Err(RecordFault::OutOfRange);
    }
    if !within(v.index as u64, 1, 16) {
        return Err(RecordFault::OutOfRange);
    }
    Ok(v)
}
