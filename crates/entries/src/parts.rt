// The parts of a bridge's list (01, "Entries"): the group entries for a transmitter, the part of a VID, and all VIDs, by the rows kept.
ghost use Rattle.std.specs.Prelude.{◌≤◌, ◌<◌};
ghost use Rattle.lists.specs.Appending.{Appended, Room};
ghost use Rattle.rule.specs.Words.{words_of};
ghost use Rattle.readers.specs.Readers.{vid_values, member_values};
ghost use Rattle.verdict.specs.Examination.{Checked};
ghost use Rattle.entry_rows.specs.Needed.{EgressRowsInside};
ghost use Rattle.entries.specs.Parts.{transmitter_part, member_part, group_part, vid_part, whole_list};

use egress::rows::egress_row_at;
use entry_codec::group_address::group_address;
use entry_words::group::{group_words, ports_behind};
use entry_words::individual::individual_words;
use readers::member::Member;
use readers::vid::Vid;
use table::records::{bridge, member, vid};
use table::shape::Shape;

// Writes the group entries for the transmitter `m`.
fn transmitter_words(
    table: &[u8],
    s: Shape,
    egress_rows: &[u16],
    ports: &[u16],
    v: Vid,
    m: Member,
    words: &mut [u32],
    at: usize,
) -> usize
    requires checked { Checked table.now s × EgressRowsInside s.bridges egress_rows.now × (1 ≤ v.index) × (v.index ≤ 16) × (v.vid < 4096) × (m.bridge < s.bridges) × (m.isid < 16777216) }
    requires room { Room words.old at (transmitter_part (words_of table.now) s egress_rows.now ports.now (vid_values v) (member_values m)) }
    ensures { Appended words.old at (transmitter_part (words_of table.now) s egress_rows.now ports.now (vid_values v) (member_values m)) words.new result }
{
    let source = bridge(table, s, m.bridge as usize).sp_source_id;
    let address = group_address(source, m.isid);
    let place = egress_row_at(egress_rows, v.index, m.bridge as usize);
    let mut behind = [0u16; 64];
    let count = ports_behind(table, s, &egress_rows[place..], m, &mut behind);
    group_words(ports, &behind[..count], v.vid, address, words, at)
}

// Writes the group entries for the member number `j`, where it transmits in the VID.
fn member_words(
    table: &[u8],
    s: Shape,
    egress_rows: &[u16],
    ports: &[u16],
    v: Vid,
    j: usize,
    words: &mut [u32],
    at: usize,
) -> usize
    requires checked { Checked table.now s × EgressRowsInside s.bridges egress_rows.now × (1 ≤ v.index) × (v.index ≤ 16) × (v.vid < 4096) × (j < s.members) }
    requires room { Room words.old at (member_part (words_of table.now) s egress_rows.now ports.now (vid_values v) j) }
    ensures { Appended words.old at (member_part (words_of table.now) s egress_rows.now ports.now (vid_values v) j) words.new result }
{
    let m = member(table, s, j);
    if !m.transmits {
        return at;
    }
    if m.vid != v.vid {
        return at;
    }
    transmitter_words(table, s, egress_rows, ports, v, m, words, at)
}

// Writes the group entries of a VID: "for each member record of that VID with T, in table order".
fn group_part(
    table: &[u8],
    s: Shape,
    egress_rows: &[u16],
    ports: &[u16],
    v: Vid,
    words: &mut [u32],
    at: usize,
) -> usize
    requires checked { Checked table.now s × EgressRowsInside s.bridges egress_rows.now × (1 ≤ v.index) × (v.index ≤ 16) × (v.vid < 4096) }
    requires room { Room words.old at (group_part (words_of table.now) s egress_rows.now ports.now (vid_values v)) }
    ensures { Appended words.old at (group_part (words_of table.now) s egress_rows.now ports.now (vid_values v)) words.new result }
{
    let mut end = at;
    for j in 0..s.members {
        end = member_words(table, s, egress_rows, ports, v, j, words, end);
    }
    end
}

// Writes the entries of the VID number `k`: first the individual ones, then those of groups.
fn vid_part(
    table: &[u8],
    s: Shape,
    egress_rows: &[u16],
    ports: &[u16],
    b: usize,
    k: usize,
    words: &mut [u32],
    at: usize,
) -> usize
    requires checked { Checked table.now s × EgressRowsInside s.bridges egress_rows.now × (b < s.bridges) × (k < s.vids) }
    requires room { Room words.old at (vid_part (words_of table.now) s egress_rows.now ports.now b k) }
    ensures { Appended words.old at (vid_part (words_of table.now) s egress_rows.now ports.now b k) words.new result }
{
    let v = vid(table, s, k);
    let place = egress_row_at(egress_rows, v.index, b);
    let end = individual_words(table, s, &egress_rows[place..], v.vid, words, at);
    group_part(table, s, egress_rows, ports, v, words, end)
}

// Writes the whole list of the bridge `b`: "VID by VID in record order".
pub fn whole_list(
    table: &[u8],
    s: Shape,
    egress_rows: &[u16],
    ports: &[u16],
    b: usize,
    words: &mut [u32],
) -> usize
    requires checked { Checked table.now s × EgressRowsInside s.bridges egress_rows.now × (b < s.bridges) }
    requires room { Room words.old 0 (whole_list (words_of table.now) s egress_rows.now ports.now b) }
    ensures { Appended words.old 0 (whole_list (words_of table.now) s egress_rows.now ports.now b) words.new result }
{
    let mut end = 0;
    for k in 0..s.vids {
        end = vid_part(table, s, egress_rows, ports, b, k, words, end);
    }
    end
}
