// Traffic (02, A5): "an unknown name or equal ends 7, and a repeated VID, from and to 8; the opposite direction is no repeat". A table has
// up to 256 such records, so the VIDs that they name are found by an index too.
ghost use Rattle.std.specs.Prelude.{◌≡◌, not, ◌+◌, ◌*◌, ◌≤◌, ◌<◌, eqb, length};
ghost use Rattle.lists.specs.Lists.{any_passes};
ghost use Rattle.rule.specs.Words.{words_of};
ghost use Rattle.rule.specs.Records.{traffic_of};
ghost use Rattle.rule.specs.Check.{repeats_traffic};
ghost use Rattle.readers.specs.Readers.{traffic_values};
ghost use Rattle.table.specs.Positions.{records_at};
ghost use Rattle.key_index.specs.Places.{last_place};
ghost use Rattle.key_index.specs.Index.{Indexed, holds};
ghost use Rattle.earlier.specs.Keys.{VidIndex, TrafficIndex};

use key_index::chain::last_place;
use key_index::entry::enter;
use readers::traffic::{Traffic, traffic_at};
use readers::vid::vid_at;

// Enters the `vids` VIDs from the word `from` on into an index of no key.
pub fn index_vids(table: &[u8], from: usize, vids: usize, vid_index: &mut [u32])
    requires { (4 * (from + vids) ≤ length table.now) × (vids ≤ 512) × Indexed vid_index.old 0 }
    ensures { VidIndex vid_index.new (words_of table.now) from vids }
{
    for i in 0..vids {
        enter(vid_index, i, vid_at(table, from + i).vid);
    }
}

// Whether one of the `vids` VIDs, which are in the index, is this one.
pub fn is_vid_indexed(vid_index: &[u32], vids: usize, vid: u32) -> bool
    requires { Indexed vid_index.now vids }
    ensures { result ≡ not (eqb (last_place (holds vid_index.now vid) vids) 0) }
{
    last_place(vid_index, vids, vid) != 0
}

// Whether two records have one VID, one from and one to.
fn repeats_traffic(t: Traffic, earlier: Traffic) -> bool
    ensures { result ≡ repeats_traffic (traffic_values t) (traffic_values earlier) }
{
    if earlier.vid != t.vid {
        return false;
    }
    if earlier.from != t.from {
        return false;
    }
    earlier.to == t.to
}

// Whether one of the `count` traffic records from the word `from` on is repeated: all are compared.
fn repeats_any_traffic(table: &[u8], from: usize, count: usize, t: Traffic) -> bool
    requires { 4 * (from + 2 * count) ≤ length table.now }
    ensures { result ≡ any_passes (repeats_traffic (traffic_values t)) (records_at traffic_of 2 from (words_of table.now) count) }
{
    for i in 0..count {
        if repeats_traffic(t, traffic_at(table, from + 2 * i)) {
            return true;
        }
    }
    false
}

// What a VID and a from count in the key of a traffic record.
const VID_FACTOR: u32 = 65537;

const FROM_FACTOR: u32 = 73;

// The key of a traffic record: its VID, from and to. Bridges of a plan have numbers below 64, so that their keys differ.
pub fn traffic_key(vid: u32, from: u32, to: u32) -> u32
    requires { (vid < 4096) × (from < 65536) × (to < 65536) }
    ensures { result ≡ vid * 65537 + from * 73 + to }
{
    vid * VID_FACTOR + from * FROM_FACTOR + to
}

// Whether one of the `count` traffic records from the word `from` on, which are in the index, is repeated.
pub fn is_traffic_repeated(
    table: &[u8],
    from: usize,
    traffic_index: &[u32],
    count: usize,
    t: Traffic,
) -> bool
    requires { (4 * (from + 2 * count) ≤ length table.now) × (t.vid < 4096) × (t.from < 65536) × (t.to < 65536) × TrafficIndex traffic_index.now (words_of table.now) from count }
    ensures { result ≡ any_passes (repeats_traffic (traffic_values t)) (records_at traffic_of 2 from (words_of table.now) count) }
{
    if last_place(traffic_index, count, traffic_key(t.vid, t.from, t.to)) == 0 {
        return false;
    }
    repeats_any_traffic(table, from, count, t)
}
