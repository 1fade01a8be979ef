// Questions: services read and written into lists of so many untouched places, each as one line.
ghost use Rattle.std.specs.Prelude.{◌≤◌, length};
ghost use Rattle.rule.specs.Services.{read_services_outcome, write_services_outcome};
ghost use Rattle.text.specs.Text.{WrittenAt};
ghost use Rattle.probe_input.specs.Lent.{untouched, untouched_bytes};
ghost use Rattle.probe_services.specs.ServiceText.{read_word, written_word, line_text};

use crate::line::{write_read, write_written};
use probe_input::lent::{set_untouched, set_untouched_bytes};

// Places of a list of words at most: more than the 122 that the records of 61 services need.
pub const MOST_WORDS: usize = 160;

// Places of a list of bytes at most: more than the 276 that the members of a bridge need.
pub const MOST_BYTES: usize = 320;

// The bytes of a reading's line at most: an answer of 40, a field of 11 for each place, and its end.
pub const READ_LINE: usize = 41 + 11 * MOST_WORDS;

// The bytes of a writing's line at most.
pub const WRITTEN_LINE: usize = 41 + 11 * MOST_BYTES;

// The line of a reading at the front of the lent bytes, and its length.
pub fn write_asked_read(table: &[u8], bytes: &[u8], places: usize, out: &mut [u8]) -> usize
    requires { (places ≤ 160) × (1801 ≤ length out.old) }
    ensures { WrittenAt 0 out.old out.new (line_text read_word (read_services_outcome table.now bytes.now (untouched places))) result × (result ≤ length out.old) }
{
    let mut list = [0u32; MOST_WORDS];
    set_untouched(&mut list);
    write_read(table, bytes, &mut list[..places], out)
}

// The line of a writing at the front of the lent bytes, and its length.
pub fn write_asked_written(
    table: &[u8],
    bridge: u32,
    vid: u32,
    places: usize,
    out: &mut [u8],
) -> usize
    requires { (places ≤ 320) × (3561 ≤ length out.old) }
    ensures { WrittenAt 0 out.old out.new (line_text written_word (write_services_outcome table.now bridge vid (untouched_bytes places))) result × (result ≤ length out.old) }
{
    let mut list = [0u8; MOST_BYTES];
    set_untouched_bytes(&mut list);
    write_written(table, bridge, vid, &mut list[..places], out)
}
