// Individual entries (01, "Entries"): "for each other bridge by number that a path reaches, one entry with that bridge's address and
// the port of the first hop's link". The row has that port for each bridge, 0 where no path leads there.
ghost use Rattle.std.specs.Prelude.{◌<◌, ◌≤◌, length};
ghost use Rattle.rule.specs.Words.{words_of};
ghost use Rattle.lists.specs.Appending.{Appended, Room};
ghost use Rattle.verdict.specs.Examination.{Checked};
ghost use Rattle.entry_words.specs.Words.{individual_to, individual_words};

use entry_codec::layout::INDIVIDUAL;
use entry_codec::writer::write_entry;
use table::records::bridge;
use table::shape::Shape;

// Writes the entry for the bridge `d`, where there is one.
fn write_individual(
    table: &[u8],
    s: Shape,
    egress_row: &[u16],
    vid: u32,
    d: usize,
    words: &mut [u32],
    at: usize,
) -> usize
    requires checked { Checked table.now s × (d < s.bridges) × (s.bridges ≤ length egress_row.now) × (vid < 4096) }
    requires room { Room words.old at (individual_to (words_of table.now) egress_row.now vid d) }
    ensures { Appended words.old at (individual_to (words_of table.now) egress_row.now vid d) words.new result }
{
    let port = u32::from(egress_row[d]);
    if port == 0 {
        return at;
    }
    let address = bridge(table, s, d).identifier % 281474976710656;
    write_entry(words, at, INDIVIDUAL, vid, port, address)
}

// Writes the entries for all bridges, and gives the place after them.
pub fn individual_words(
    table: &[u8],
    s: Shape,
    egress_row: &[u16],
    vid: u32,
    words: &mut [u32],
    at: usize,
) -> usize
    requires checked { Checked table.now s × (s.bridges ≤ length egress_row.now) × (vid < 4096) }
    requires room { Room words.old at (individual_words (words_of table.now) s egress_row.now vid) }
    ensures { Appended words.old at (individual_words (words_of table.now) s egress_row.now vid) words.new result }
{
    let mut end = at;
    for d in 0..s.bridges {
        end = write_individual(table, s, egress_row, vid, d, words, end);
    }
    end
}
