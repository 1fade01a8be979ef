// Services read into member records (02, A2).
ghost use Rattle.std.specs.Prelude.{◌≡◌, List, [], ℕ, ◌+◌, ◌*◌, ◌<◌, ◌≤◌, length};
ghost use Rattle.lists.specs.Lists.{spliced};
ghost use Rattle.lists.specs.Appending.{Appended, Room};
ghost use Rattle.rule.specs.Words.{words_of};
ghost use Rattle.rule.specs.Outcome.{Outcome, list_answer, lent_to};
ghost use Rattle.rule.specs.Answers.{read_services_values};
ghost use Rattle.rule.specs.Services.{member_of_service, member_first, member_record, records_of, after_services, plan_content, plan_read};
ghost use Rattle.table.specs.Positions.{plan_at};
ghost use Rattle.verdict.specs.Examination.{Checked};

use crate::advertiser::{bridge_with, has_vid};
use crate::judged::judge_services;
use crate::layout::{
    ADVERTISED_R, ADVERTISED_T, BEFORE_CONTENT, BEFORE_SERVICES, HALF, RECORD_KIND, RECORD_R,
    RECORD_T, SERVICE,
};
use crate::sub_tlv::{b_mac, base_vid, is_no_sub_tlv, isid_of};
use readers::words::word_at;
use rule::answer::ReadServicesAnswer;
use rule::refusal::{Fault, Refusal};
use table::shape::Shape;

// The first word of a service's member record.
fn member_first(service: u32) -> u32
    ensures { result ≡ member_first (member_of_service 0 0 service) }
{
    RECORD_KIND
        + service / ADVERTISED_T * RECORD_T
        + service / ADVERTISED_R % 2 * RECORD_R
        + isid_of(service)
}

// Writes the two words of a service's member record from the place `at` on, and gives the place after them.
fn write_member(words: &mut [u32], at: usize, service: u32, bridge: u32, vid: u32) -> usize
    requires { (at + 2 ≤ length words.old) × (bridge < 65536) × (vid < 65536) }
    ensures { Appended words.old at (member_record (member_of_service bridge vid service)) words.new result }
{
    words[at] = member_first(service);
    words[at + 1] = bridge * HALF + vid;
    at + 2
}

// Writes the member records of all services, in order, to the front of the lent list.
fn write_members(services: &[u8], bridge: u32, vid: u32, words: &mut [u32])
    requires room { Room words.old 0 (records_of bridge vid (words_of services.now)) }
    requires bridge_bound { (bridge < 65536) × (vid < 65536) }
    ensures { words.new ≡ spliced words.old 0 (records_of bridge vid (words_of services.now)) }
{
    let count = services.len() / SERVICE;
    let mut at = 0;
    for n in 0..count {
        at = write_member(words, at, word_at(services, n), bridge, vid);
    }
}

// The services of a bridge and a VID that the table has.
fn read_services(services: &[u8], bridge: u32, vid: u32, words: &mut [u32]) -> ReadServicesAnswer
    requires { (length services.now ≤ 247) × (bridge < 65536) × (vid < 65536) }
    ensures { ◌≡◌ {A = Outcome ℕ × List ℕ} (read_services_values result, words.new) (lent_to words.old (after_services [] (words_of services.now) (list_answer (records_of bridge vid (words_of services.now))))) }
{
    let judged = judge_services(services);
    match judged {
        ReadServicesAnswer::Read { words: count } => {
            if words.len() < count as usize {
                return ReadServicesAnswer::from(Refusal::of_call(Fault::ShortList));
            }
            write_members(services, bridge, vid, words);
            ReadServicesAnswer::Read { words: count }
        }
        ReadServicesAnswer::Refused { number, kind, word } => ReadServicesAnswer::Refused {
            number: number,
            kind: kind,
            word: word,
        },
    }
}

// The services of a sub-TLV, by the bytes after its length.
fn read_content(table: &[u8], s: Shape, content: &[u8], words: &mut [u32]) -> ReadServicesAnswer
    requires { Checked table.now s × (8 ≤ length content.now) × (length content.now ≤ 255) }
    ensures { ◌≡◌ {A = Outcome ℕ × List ℕ} (read_services_values result, words.new) (lent_to words.old (plan_content (plan_at (words_of table.now) s) (words_of content.now))) }
{
    let bridge = bridge_with(table, s, b_mac(content));
    if s.bridges <= bridge {
        return ReadServicesAnswer::from(Refusal::of_call(Fault::UnknownAdvertiser));
    }
    let vid = base_vid(content);
    if !has_vid(table, s, vid) {
        return ReadServicesAnswer::from(Refusal::of_call(Fault::UnknownAdvertiser));
    }
    read_services(&content[BEFORE_SERVICES..], bridge as u32, vid, words)
}

// Reads one sub-TLV into member records, of a table that passed the check.
pub fn read_in_table(table: &[u8], s: Shape, bytes: &[u8], words: &mut [u32]) -> ReadServicesAnswer
    requires { Checked table.now s }
    ensures { ◌≡◌ {A = Outcome ℕ × List ℕ} (read_services_values result, words.new) (lent_to words.old (plan_read (plan_at (words_of table.now) s) bytes.now)) }
{
    if is_no_sub_tlv(bytes) {
        return ReadServicesAnswer::from(Refusal::of_call(Fault::NoSubTlv));
    }
    read_content(table, s, &bytes[BEFORE_CONTENT..], words)
}
