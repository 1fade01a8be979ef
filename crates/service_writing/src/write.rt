// A bridge's members of one VID, of a table that passed the check, written as sub-TLVs (02, A2).
ghost use Rattle.std.specs.Prelude.{◌≡◌, List, ℕ, ◌+◌, ◌*◌, ◌<◌, ◌≤◌, length};
ghost use Rattle.lists.specs.Appending.{Appended, Room};
ghost use Rattle.rule.specs.Words.{words_of};
ghost use Rattle.rule.specs.Outcome.{Outcome, list_answer, lent_to};
ghost use Rattle.rule.specs.Answers.{write_services_values};
ghost use Rattle.rule.specs.Services.{bit, service_of, services_written, sub_tlvs, plan_write};
ghost use Rattle.readers.specs.Readers.{member_values};
ghost use Rattle.table.specs.Positions.{plan_at};
ghost use Rattle.verdict.specs.Examination.{Checked};
ghost use Rattle.service_writing.specs.Gathered.{service_at};

use crate::written::{sub_tlv_count, write_sub_tlvs};
use readers::member::Member;
use rule::answer::WriteServicesAnswer;
use rule::kinds::MOST_MEMBERS;
use rule::refusal::{Fault, Refusal};
use service_reading::advertiser::{address_of, has_vid};
use service_reading::layout::{
    ADVERTISED_R, ADVERTISED_T, BEFORE_CONTENT, BEFORE_SERVICES, SERVICE,
};
use table::records::member;
use table::shape::Shape;

// The service of a member record: reserved bits are "written as zero".
fn service_of(m: Member) -> u32
    requires { m.isid < 16777216 }
    ensures { result ≡ service_of (member_values m) }
{
    u32::from(m.transmits) * ADVERTISED_T + u32::from(m.receives) * ADVERTISED_R + m.isid
}

// Notes the service of the member record `j` where it is of the bridge and the VID.
fn note_service(
    table: &[u8],
    s: Shape,
    bridge: u32,
    vid: u32,
    j: usize,
    services: &mut [u32],
    at: usize,
) -> usize
    requires checked { Checked table.now s × (j < s.members) }
    requires room { Room services.old at (service_at (words_of table.now) s bridge vid j) }
    ensures { Appended services.old at (service_at (words_of table.now) s bridge vid j) services.new result }
{
    let m = member(table, s, j);
    if m.bridge != bridge {
        return at;
    }
    if m.vid != vid {
        return at;
    }
    services[at] = service_of(m);
    at + 1
}

// The services of "a bridge's members of one VID", in table order; gives how many there are.
fn gather_services(table: &[u8], s: Shape, bridge: u32, vid: u32, services: &mut [u32]) -> usize
    requires { Checked table.now s × (64 ≤ length services.old) }
    ensures { Appended services.old 0 (services_written (plan_at (words_of table.now) s) bridge vid) services.new result × (result ≤ 64) }
{
    let mut at = 0;
    for j in 0..s.members {
        at = note_service(table, s, bridge, vid, j, services, at);
    }
    at
}

// The sub-TLVs of the services, where the lent list holds them.
fn write_fitting(b_mac: u64, vid: u32, services: &[u32], bytes: &mut [u8]) -> WriteServicesAnswer
    requires { (length services.now ≤ 64) × (b_mac < 281474976710656) × (vid < 65536) }
    ensures { ◌≡◌ {A = Outcome ℕ × List ℕ} (write_services_values result, bytes.new) (lent_to bytes.old (list_answer (sub_tlvs b_mac vid services.now))) }
{
    let heads = (BEFORE_CONTENT + BEFORE_SERVICES) * sub_tlv_count(services.len());
    let needed = heads + SERVICE * services.len();
    if bytes.len() < needed {
        return WriteServicesAnswer::from(Refusal::of_call(Fault::ShortList));
    }
    write_sub_tlvs(bytes, b_mac, vid, services);
    WriteServicesAnswer::Written {
        bytes: needed as u32,
    }
}

// Writes a bridge's members of one VID as sub-TLVs, of a table that passed the check.
pub fn write_in_table(
    table: &[u8],
    s: Shape,
    bridge: u32,
    vid: u32,
    bytes: &mut [u8],
) -> WriteServicesAnswer
    requires { Checked table.now s }
    ensures { ◌≡◌ {A = Outcome ℕ × List ℕ} (write_services_values result, bytes.new) (lent_to bytes.old (plan_write (plan_at (words_of table.now) s) bridge vid)) }
{
    if s.bridges <= bridge as usize {
        return WriteServicesAnswer::from(Refusal::of_call(Fault::NotInTable));
    }
    if !has_vid(table, s, vid) {
        return WriteServicesAnswer::from(Refusal::of_call(Fault::NotInTable));
    }
    let mut services = [0u32; MOST_MEMBERS];
    let count = gather_services(table, s, bridge, vid, &mut services);
    let b_mac = address_of(table, s, bridge as usize);
    write_fitting(b_mac, vid, &services[..count], bytes)
}
