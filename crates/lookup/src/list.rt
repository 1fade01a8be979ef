// Entry lists: their faults, the matching entry n, and what the lookup call answers (01, "Calls" and 14 under "Refusals in checking order").
ghost use Rattle.std.specs.Prelude.{◌≡◌};
ghost use Rattle.std.proofs.Math.ListN.{get_elem?};
ghost use Rattle.rule.specs.Outcome.{answered};
ghost use Rattle.rule.specs.Answers.{lookup_values};
ghost use Rattle.rule.specs.Lookup.{faulty_list, matching_ports, lookup_outcome};

use crate::entry::{is_faulty, is_match};
use entry_codec::reader::port_of;
use rule::answer::LookupAnswer;
use rule::refusal::{Fault, Refusal};

// "a length that is no multiple of 3", or an entry with a fault, anywhere in the list.
fn is_faulty_list(list: &[u32]) -> bool
    ensures { result ≡ faulty_list list.now }
{
    for i in 0..list.len() / 3 {
        let at = 3 * i;
        if is_faulty(list[at], list[at + 1], list[at + 2]) {
            return true;
        }
    }
    list.len() % 3 != 0
}

// "port of the matching entry n, counted from 0 in list order, or none".
fn matching(list: &[u32], vid: u32, address: u64, n: u32) -> LookupAnswer
    ensures { lookup_values result ≡ answered (get_elem? (matching_ports list.now vid address) n) }
{
    let mut left = n;
    for i in 0..list.len() / 3 {
        let at = 3 * i;
        let first = list[at];
        if !is_match(first, list[at + 1], list[at + 2], vid, address) {
            continue;
        }
        if left == 0 {
            return LookupAnswer::Port(port_of(first));
        }
        left -= 1;
    }
    LookupAnswer::None
}

// "Lookup (entry list, VID, address, n): port of the matching entry n, counted from 0 in list order, or none."
pub fn port_in_list(list: &[u32], vid: u32, address: u64, n: u32) -> LookupAnswer
    ensures { lookup_values result ≡ lookup_outcome list.now vid address n }
{
    if is_faulty_list(list) {
        return LookupAnswer::from(Refusal::of_call(Fault::EntryList));
    }
    matching(list, vid, address, n)
}
