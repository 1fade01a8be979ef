// The traffic of a table as words, and its own ECT indexes as an assignment (02, A5).
ghost use Rattle.std.specs.Prelude.{◌≡◌, ◌+◌, ◌*◌, ◌≤◌, ◌<◌, length, take};
ghost use Rattle.rule.specs.Words.{words_of};
ghost use Rattle.rule.specs.Loads.{own_indexes, vid_place};
ghost use Rattle.table.specs.Positions.{plan_at};
ghost use Rattle.table.specs.Whole.{Whole};
ghost use Rattle.loads.specs.Reports.{TrafficWords, RecordWritten};

use crate::report::TRAFFIC_WORDS;
use table::records::{traffic, vid};
use table::shape::Shape;

// The number of a VID's record, or how many VIDs there are where it has none.
fn vid_place(table: &[u8], s: Shape, number: u32) -> usize
    requires { Whole table.now s }
    ensures { result ≡ vid_place (plan_at (words_of table.now) s) number }
{
    for k in 0..s.vids {
        if vid(table, s, k).vid == number {
            return k;
        }
    }
    s.vids
}

// Writes the words of the traffic record number `i`.
fn write_record(table: &[u8], s: Shape, i: usize, words: &mut [u32])
    requires { Whole table.now s × (i < s.traffic) × (4 * i + 4 ≤ length words.old) }
    ensures { RecordWritten (plan_at (words_of table.now) s) i words.old words.new }
{
    let t = traffic(table, s, i);
    let at = TRAFFIC_WORDS * i;
    words[at] = vid_place(table, s, t.vid) as u32;
    words[at + 1] = t.amount;
    words[at + 2] = t.from;
    words[at + 3] = t.to;
}

// Writes the words of all traffic records.
pub fn write_traffic(table: &[u8], s: Shape, words: &mut [u32])
    requires { Whole table.now s × (4 * s.traffic ≤ length words.old) }
    ensures { TrafficWords (plan_at (words_of table.now) s) (plan_at (words_of table.now) s).traffic words.new }
{
    for i in 0..s.traffic {
        write_record(table, s, i, words);
    }
}

// Writes the ECT index of each VID record to the front of the lent list.
pub fn write_indexes(table: &[u8], s: Shape, indexes: &mut [u32])
    requires { Whole table.now s × (s.vids ≤ length indexes.old) }
    ensures { take s.vids indexes.new ≡ own_indexes (plan_at (words_of table.now) s) }
{
    for k in 0..s.vids {
        indexes[k] = vid(table, s, k).index;
    }
}
