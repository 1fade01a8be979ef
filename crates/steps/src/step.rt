// One record of a known kind read: it is taken, or refused with its lowest fault (01, "Refusals in checking order").
ghost use Rattle.std.specs.Prelude.{◌≡◌, ◌<◌};
ghost use Rattle.rule.specs.Words.{words_of};
ghost use Rattle.rule.specs.Records.{bridge_layout, half_link_layout, vid_layout, member_layout, traffic_layout};
ghost use Rattle.rule.specs.Refusals.{fault_number};
ghost use Rattle.table.specs.Positions.{vids_from, members_from, traffic_from};
ghost use Rattle.table.specs.Whole.{Whole};
ghost use Rattle.earlier.specs.Keys.{BridgeIndexes, VidIndex, MemberIndex, TrafficIndex};
ghost use Rattle.steps.specs.Steps.{concerned, refusal_of, with_bridge, with_half_link, with_vid, with_member, with_traffic, step_as, Stepped, HalfLinkIndexes, BridgesKept, HalfLinksKept, MembersKept, TrafficKept};

use earlier::half_link::port_key;
use earlier::repeats::{address_key, member_key};
use earlier::traffic::traffic_key;
use faults::lowest::{bridge_fault, half_link_fault, member_fault, traffic_fault, vid_fault};
use key_index::entry::enter;
use readers::bridge::bridge_at;
use readers::half_link::half_link_at;
use readers::member::member_at;
use readers::traffic::traffic_at;
use rule::answer::RecordKind;
use rule::refusal::{Fault, Refusal};
use table::shape::Shape;

// The kind that a refusal carries: "for 2 kind is none".
pub fn kind_concerned(number: u32, kind: RecordKind) -> RecordKind
    ensures { result ≡ concerned number kind }
{
    if number == 2 {
        return RecordKind::None;
    }
    kind
}

// The refusal of a record that begins at the word.
pub fn refusal(fault: Fault, kind: RecordKind, word: usize) -> Refusal
    requires { word < 4294967296 }
    ensures { result ≡ refusal_of (fault_number fault) kind word }
{
    let number = fault.number();
    Refusal {
        number,
        kind: kind_concerned(number, kind),
        word: word as u32,
    }
}

// The bridge record after those of `s`, whose bridges are in the two indexes.
pub fn after_bridge(
    table: &[u8],
    s: Shape,
    source_index: &mut [u32],
    address_index: &mut [u32],
) -> Result<Shape, Refusal>
    requires whole { Whole table.now s }
    requires bridge_indexes { BridgeIndexes source_index.old address_index.old (words_of table.now) s.bridges }
    ensures stepped { Stepped (words_of table.now) (with_bridge s) (step_as (words_of table.now) s bridge_layout) result }
    ensures bridges_kept { BridgesKept (words_of table.now) source_index.new address_index.new result }
{
    let at = s.words_read();
    if let Err(fault) = bridge_fault(table, s, &source_index[..], &address_index[..]) {
        return Err(refusal(fault, RecordKind::Bridge, at));
    }
    let b = bridge_at(table, at);
    enter(source_index, s.bridges, b.sp_source_id);
    enter(address_index, s.bridges, address_key(b.identifier));
    Ok(Shape {
        bridges: s.bridges + 1,
        ..s
    })
}

// The half-link record after those of `s`, whose half-links are in the two indexes.
pub fn after_half_link(
    table: &[u8],
    s: Shape,
    port_index: &mut [u32],
    link_index: &mut [u32],
) -> Result<Shape, Refusal>
    requires whole { Whole table.now s }
    requires half_link_indexes { HalfLinkIndexes port_index.old link_index.old (words_of table.now) s }
    ensures stepped { Stepped (words_of table.now) (with_half_link s) (step_as (words_of table.now) s half_link_layout) result }
    ensures half_links_kept { HalfLinksKept (words_of table.now) port_index.new link_index.new result }
{
    let at = s.words_read();
    if let Err(fault) = half_link_fault(table, s, at, &port_index[..], &link_index[..]) {
        return Err(refusal(fault, RecordKind::HalfLink, at));
    }
    let h = half_link_at(table, at);
    enter(port_index, s.half_links, port_key(h.near, h.port));
    enter(link_index, s.half_links, h.link);
    Ok(Shape {
        half_links: s.half_links + 1,
        ..s
    })
}

// The VID record after those of `s`.
pub fn after_vid(table: &[u8], s: Shape) -> Result<Shape, Refusal>
    requires { Whole table.now s }
    ensures { Stepped (words_of table.now) (with_vid s) (step_as (words_of table.now) s vid_layout) result }
{
    if let Err(fault) = vid_fault(table, s) {
        return Err(refusal(fault, RecordKind::Vid, s.words_read()));
    }
    Ok(Shape {
        vids: s.vids + 1,
        ..s
    })
}

// The member record after those of `s`, whose members are in the index.
pub fn after_member(table: &[u8], s: Shape, member_index: &mut [u32]) -> Result<Shape, Refusal>
    requires whole { Whole table.now s }
    requires member_index { MemberIndex member_index.old (words_of table.now) (members_from s) s.members }
    ensures stepped { Stepped (words_of table.now) (with_member s) (step_as (words_of table.now) s member_layout) result }
    ensures members_kept { MembersKept (words_of table.now) member_index.new result }
{
    let at = s.words_read();
    if let Err(fault) = member_fault(table, s, &member_index[..]) {
        return Err(refusal(fault, RecordKind::Member, at));
    }
    let m = member_at(table, at);
    enter(member_index, s.members, member_key(m.isid, m.bridge));
    Ok(Shape {
        members: s.members + 1,
        ..s
    })
}

// The traffic record after those of `s`, whose VIDs and traffic are in the two indexes (02, A5).
pub fn after_traffic(
    table: &[u8],
    s: Shape,
    vid_index: &[u32],
    traffic_index: &mut [u32],
) -> Result<Shape, Refusal>
    requires whole { Whole table.now s }
    requires vid_index { VidIndex vid_index.now (words_of table.now) (vids_from s) s.vids }
    requires traffic_index { TrafficIndex traffic_index.old (words_of table.now) (traffic_from s) s.traffic }
    ensures stepped { Stepped (words_of table.now) (with_traffic s) (step_as (words_of table.now) s traffic_layout) result }
    ensures traffic_kept { TrafficKept (words_of table.now) traffic_index.new result }
{
    let at = s.words_read();
    if let Err(fault) = traffic_fault(table, s, at, vid_index, &traffic_index[..]) {
        return Err(refusal(fault, RecordKind::Traffic, at));
    }
    let t = traffic_at(table, at);
    enter(traffic_index, s.traffic, traffic_key(t.vid, t.from, t.to));
    Ok(Shape {
        traffic: s.traffic + 1,
        ..s
    })
}
