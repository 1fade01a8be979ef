// The faults of services (02, A2): 6 and 8, "the first faulty service counting, with kind member and that service's number from 0 as the word".
ghost use Rattle.std.specs.Prelude.{◌≡◌, [], ◌+◌, ◌*◌, ◌≤◌, eqb, length, take};
ghost use Rattle.lists.specs.Lists.{any_passes};
ghost use Rattle.rule.specs.Words.{word, words_of};
ghost use Rattle.rule.specs.Outcome.{answered};
ghost use Rattle.rule.specs.Answers.{read_services_values};
ghost use Rattle.rule.specs.Check.{lowest_fault};
ghost use Rattle.rule.specs.Services.{isid_of, service_faults, after_services};
ghost use Rattle.faults.specs.Faults.{numbered};

use crate::layout::SERVICE;
use crate::sub_tlv::isid_of;
use numbers::number::within;
use readers::member::{GREATEST_ISID, LEAST_ISID};
use readers::words::word_at;
use rule::answer::{ReadServicesAnswer, RecordKind};
use rule::refusal::{Fault, Refusal};

// Whether one of the first `n` services has the I-SID.
fn is_repeated(services: &[u8], n: usize, isid: u32) -> bool
    requires { 4 * n ≤ length services.now }
    ensures { result ≡ any_passes (λ e. eqb (isid_of e) isid) (take n (words_of services.now)) }
{
    for k in 0..n {
        if isid_of(word_at(services, k)) == isid {
            return true;
        }
    }
    false
}

// The lowest fault of the service `n`: "An I-SID out of range is 6 and one repeated within the sub-TLV is 8".
fn service_fault(services: &[u8], n: usize) -> Result<(), Fault>
    requires { 4 * n + 4 ≤ length services.now }
    ensures { numbered result ≡ lowest_fault (service_faults (take n (words_of services.now)) (word (words_of services.now) n)) }
{
    let isid = isid_of(word_at(services, n));
    if !within(isid as u64, LEAST_ISID, GREATEST_ISID) {
        return Err(Fault::OutOfRange);
    }
    if is_repeated(services, n, isid) {
        return Err(Fault::Repeated);
    }
    Ok(())
}

// The fault of the first faulty service, or how many words the member records of all have.
pub fn judge_services(services: &[u8]) -> ReadServicesAnswer
    requires { length services.now ≤ 247 }
    ensures { read_services_values result ≡ after_services [] (words_of services.now) (answered (2 * length (words_of services.now))) }
{
    let count = services.len() / SERVICE;
    for n in 0..count {
        if let Err(fault) = service_fault(services, n) {
            return ReadServicesAnswer::from(Refusal {
                number: fault.number(),
                kind: RecordKind::Member,
                word: n as u32,
            });
        }
    }
    ReadServicesAnswer::Read {
        words: 2 * count as u32,
    }
}
