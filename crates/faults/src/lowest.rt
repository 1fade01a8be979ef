// The lowest fault of a record, by its kind (01, "Refusals in checking order", 2 to 10).
ghost use Rattle.std.specs.Prelude.{◌≡◌};
ghost use Rattle.rule.specs.Words.{words_of};
ghost use Rattle.rule.specs.Records.{bridge_layout, half_link_layout, vid_layout, member_layout, traffic_layout, end_layout};
ghost use Rattle.table.specs.Positions.{half_links_from, vids_from, members_from, traffic_from, words_read};
ghost use Rattle.table.specs.Whole.{Whole};
ghost use Rattle.earlier.specs.HalfLinks.{port_key, number_key, Keyed};
ghost use Rattle.earlier.specs.Keys.{BridgeIndexes, VidIndex, MemberIndex, TrafficIndex};
ghost use Rattle.faults.specs.Faults.{numbered, fault_shown, without_own_fault, fault_at};

use earlier::half_link::{is_port_repeated, is_wrong_link, names_unknown};
use earlier::repeats::{is_bridge_repeated, is_member_repeated, is_vid_known};
use earlier::traffic::{is_traffic_repeated, is_vid_indexed};
use readers::bridge::read_bridge;
use readers::end::read_end;
use readers::fault::RecordFault;
use readers::half_link::read_half_link;
use readers::member::read_member;
use readers::traffic::read_traffic;
use readers::vid::read_vid;
use rule::kinds::{
    BRIDGE, END, HALF_LINK, MEMBER, MOST_BRIDGES, MOST_ENDS, MOST_HALF_LINKS, MOST_MEMBERS,
    MOST_TRAFFIC, MOST_VIDS, TRAFFIC, VID,
};
use rule::refusal::Fault;
use table::shape::Shape;

// What a record shows of which its reader found a fault, where its kind has reached its limit or not: 5 comes before 6.
fn fault_shown(found: RecordFault, full: bool) -> Fault
    ensures { result ≡ fault_shown full found }
{
    match found {
        RecordFault::OutOfRange if full => Fault::OneMore,
        _ => Fault::from(found),
    }
}

// The record that a reader found after a record of the kind `last` and `count` records of its own kind, unless it shows a fault by
// itself: the lowest of 2 to 6.
fn without_own_fault<T: Copy>(
    last: u32,
    kind: u32,
    read: Result<T, RecordFault>,
    count: usize,
    limit: usize,
) -> Result<T, Fault>
    ensures { result ≡ without_own_fault last kind read count limit }
{
    if kind < last {
        return Err(Fault::Kind);
    }
    let full = limit <= count;
    let record = match read {
        Ok(record) => record,
        Err(found) => return Err(fault_shown(found, full)),
    };
    if full {
        return Err(Fault::OneMore);
    }
    Ok(record)
}

// Of the bridge record after those of `s`, whose bridges are in the two indexes.
pub fn bridge_fault(
    table: &[u8],
    s: Shape,
    source_index: &[u32],
    address_index: &[u32],
) -> Result<(), Fault>
    requires whole { Whole table.now s }
    requires bridge_indexes { BridgeIndexes source_index.now address_index.now (words_of table.now) s.bridges }
    ensures { numbered result ≡ fault_at (words_of table.now) s bridge_layout }
{
    let at = 4 * s.words_read();
    let read = read_bridge(&table[at..]);
    let b = without_own_fault(s.last_kind(), BRIDGE, read, s.bridges, MOST_BRIDGES)?;
    if is_bridge_repeated(table, source_index, address_index, s.bridges, b) {
        return Err(Fault::Repeated);
    }
    Ok(())
}

// Of the half-link record after those of `s`, whose half-links are in the two indexes. It begins at the word `word`: given by the
// caller, who reads the record from there again, so that its bytes are fetched once.
pub fn half_link_fault(
    table: &[u8],
    s: Shape,
    word: usize,
    port_index: &[u32],
    link_index: &[u32],
) -> Result<(), Fault>
    requires whole { Whole table.now s × (word ≡ words_read s) }
    requires keyed { Keyed port_key port_index.now (words_of table.now) (half_links_from s) s.half_links }
    requires keyed_2 { Keyed number_key link_index.now (words_of table.now) (half_links_from s) s.half_links }
    ensures { numbered result ≡ fault_at (words_of table.now) s half_link_layout }
{
    let at = 4 * word;
    let read = read_half_link(&table[at..]);
    let h = without_own_fault(
        s.last_kind(),
        HALF_LINK,
        read,
        s.half_links,
        MOST_HALF_LINKS,
    )?;
    if names_unknown(s.bridges, h.near, h.far) {
        return Err(Fault::UnknownName);
    }
    if is_port_repeated(port_index, s.half_links, h.near, h.port) {
        return Err(Fault::Repeated);
    }
    if is_wrong_link(table, s.half_links_from(), s.half_links, link_index, h) {
        return Err(Fault::NoMirror);
    }
    Ok(())
}

// Of the VID record after those of `s`.
pub fn vid_fault(table: &[u8], s: Shape) -> Result<(), Fault>
    requires { Whole table.now s }
    ensures { numbered result ≡ fault_at (words_of table.now) s vid_layout }
{
    let at = 4 * s.words_read();
    let read = read_vid(&table[at..]);
    let v = without_own_fault(s.last_kind(), VID, read, s.vids, MOST_VIDS)?;
    if is_vid_known(table, s.vids_from(), s.vids, v.vid) {
        return Err(Fault::Repeated);
    }
    Ok(())
}

// Of the member record after those of `s`, whose members are in the index.
pub fn member_fault(table: &[u8], s: Shape, member_index: &[u32]) -> Result<(), Fault>
    requires whole { Whole table.now s }
    requires member_index { MemberIndex member_index.now (words_of table.now) (members_from s) s.members }
    ensures { numbered result ≡ fault_at (words_of table.now) s member_layout }
{
    let at = 4 * s.words_read();
    let read = read_member(&table[at..]);
    let m = without_own_fault(s.last_kind(), MEMBER, read, s.members, MOST_MEMBERS)?;
    if s.bridges <= m.bridge as usize {
        return Err(Fault::UnknownName);
    }
    if !is_vid_known(table, s.vids_from(), s.vids, m.vid) {
        return Err(Fault::UnknownName);
    }
    if is_member_repeated(table, s.members_from(), member_index, s.members, m) {
        return Err(Fault::Repeated);
    }
    Ok(())
}

// Of the traffic record after those of `s`, whose VIDs and traffic are in the two indexes. It begins at the word `word`, which the
// caller gives as for a half-link.
pub fn traffic_fault(
    table: &[u8],
    s: Shape,
    word: usize,
    vid_index: &[u32],
    traffic_index: &[u32],
) -> Result<(), Fault>
    requires whole { Whole table.now s × (word ≡ words_read s) }
    requires vid_index { VidIndex vid_index.now (words_of table.now) (vids_from s) s.vids }
    requires traffic_index { TrafficIndex traffic_index.now (words_of table.now) (traffic_from s) s.traffic }
    ensures { numbered result ≡ fault_at (words_of table.now) s traffic_layout }
{
    let at = 4 * word;
    let read = read_traffic(&table[at..]);
    let t = without_own_fault(s.last_kind(), TRAFFIC, read, s.traffic, MOST_TRAFFIC)?;
    if names_unknown(s.bridges, t.from, t.to) {
        return Err(Fault::UnknownName);
    }
    if !is_vid_indexed(vid_index, s.vids, t.vid) {
        return Err(Fault::UnknownName);
    }
    if is_traffic_repeated(table, s.traffic_from(), traffic_index, s.traffic, t) {
        return Err(Fault::Repeated);
    }
    Ok(())
}

// Of the end record after those of `s`. It is never one too many: a second one would stand after it and is not read.
pub fn end_fault(table: &[u8], s: Shape) -> Result<(), Fault>
    requires { Whole table.now s }
    ensures { numbered result ≡ fault_at (words_of table.now) s end_layout }
{
    let before = s.words_read();
    let at = 4 * before;
    let read = read_end(&table[at..]);
    let count = without_own_fault(s.last_kind(), END, read, 0, MOST_ENDS)?;
    if count as usize != before {
        return Err(Fault::OutOfRange);
    }
    if before + 1 < table.len() / 4 {
        return Err(Fault::WordsFollow);
    }
    Ok(())
}
