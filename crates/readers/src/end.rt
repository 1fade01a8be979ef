// The reader of the end record (01, "The table", kind 15). All its bits are in use, and no value of it has a range of its own.
ghost use Rattle.std.specs.Prelude.{◌≡◌};
ghost use Rattle.rule.specs.Words.{words_of};
ghost use Rattle.rule.specs.Records.{end, end_layout};
ghost use Rattle.readers.specs.Readers.{read_by, read_of};

use crate::fault::RecordFault;
use crate::words::word_at;

// Reads the part of the table that begins at the record's first word.
pub fn read_end(part: &[u8]) -> Result<u32, RecordFault>
    ensures { read_by end result ≡ read_of end_layout (words_of part.now) }
{
    if part.len() < 4 {
        return Err(RecordFault::Cut);
    }
    Ok(word_at(part, 0) % 268435456)
}
