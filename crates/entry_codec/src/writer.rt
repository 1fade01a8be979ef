// An entry written as three words (01, "Entries").
ghost use Rattle.std.specs.Prelude.{◌≡◌, ◌+◌, ◌<◌, ◌≤◌, length};
ghost use Rattle.rule.specs.Entries.{entry_words};
ghost use Rattle.lists.specs.Appending.{Appended};
ghost use Rattle.entry_codec.specs.Codec.{entry_with};

use crate::layout::{KIND_UNIT, UPPER_UNIT, VID_UNIT};

// "An entry is 3 words": writes them from the place `at` on, and gives the place after them.
pub fn write_entry(
    words: &mut [u32],
    at: usize,
    kind: u32,
    vid: u32,
    port: u32,
    address: u64,
) -> usize
    requires { (at + 3 ≤ length words.old) × (kind < 16) × (vid < 4096) × (port < 65536) }
    ensures { Appended words.old at (entry_words (entry_with kind vid port address)) words.new result }
{
    words[at] = kind * KIND_UNIT + vid * VID_UNIT + port;
    words[at + 1] = (address / UPPER_UNIT) as u32;
    words[at + 2] = (address % UPPER_UNIT) as u32;
    at + 3
}
