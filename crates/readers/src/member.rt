// Member records (01, "The table", kind 4): the record at the beginning of a part, and the reader that tests it.
ghost use Rattle.std.specs.Prelude.{◌≡◌, ◌+◌, ◌*◌, ◌≤◌, length, drop};
ghost use Rattle.rule.specs.Words.{words_of};
ghost use Rattle.rule.specs.Records.{member, member_layout, member_of};
ghost use Rattle.readers.specs.Readers.{member_values, read_by, read_of};

use crate::fault::RecordFault;
use crate::words::word_at;
use numbers::number::within;

// "I-SID 256 to 16,777,214 (a house limit)".
pub const LEAST_ISID: u64 = 256;

pub const GREATEST_ISID: u64 = 16777214;

#[derive(Clone, Copy)]
pub struct Member {
    pub transmits: bool,
    pub receives: bool,
    pub isid: u32,
    pub bridge: u32,
    pub vid: u32,
}

// The record whose words the part begins with.
pub fn member_of(part: &[u8]) -> Member
    requires { 8 ≤ length part.now }
    ensures { member_values result ≡ member_of (words_of part.now) }
{
    let first = word_at(part, 0);
    let names = word_at(part, 1);
    Member {
        transmits: first / 33554432 % 2 == 1,
        receives: first / 16777216 % 2 == 1,
        isid: first % 16777216,
        bridge: names / 65536,
        vid: names % 65536,
    }
}

// The record whose first word is the word `word` of the table.
pub fn member_at(table: &[u8], word: usize) -> Member
    requires { 4 * word + 8 ≤ length table.now }
    ensures { member_values result ≡ member_of (drop word (words_of table.now)) }
{
    let at = 4 * word;
    member_of(&table[at..])
}

// Reads the part of the table that begins at the record's first word.
pub fn read_member(part: &[u8]) -> Result<Member, RecordFault>
    ensures { read_by (λ m. member (member_values m)) result ≡ read_of member_layout (words_of part.now) }
{
    if part.len() < 8 {
        return Err(RecordFault::Cut);
    }
    if word_at(part, 0) / 67108864 % 4 != 0 {
        return Err(RecordFault::ZeroBit);
    }
    let m = member_of(part);
    if !within(m.isid as u64, LEAST_ISID, GREATEST_ISID) {
        return Err(RecordFault::OutOfRange);
    }
    if !within(m.vid as u64, 1, 4094) {
        return Err(RecordFault::OutOfRange);
    }
    Ok(m)
}
