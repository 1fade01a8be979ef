// Faults by name, and refusals as values (01, "Refusals in checking order"; 02, A2 and A7): a refusal's number, the kind of the record
// concerned and the number of that record's first word. What they stand for on paper is given in specs/Refusals.
ghost use Rattle.std.specs.Prelude.{◌≡◌};
ghost use Rattle.rule.specs.Refusals.{fault_number, call_refusal};

use crate::answer::RecordKind;

// The nineteen faults, by their numbers: 1 to 14 are those of document 01, 15 to 19 those of document 02.
#[derive(Clone, Copy)]
pub enum Fault {
    // "The table's length is 0, above 7,492 bytes, or no multiple of 4."
    Length,
    // "The kind is unknown or lower than that of the record before."
    Kind,
    // "The record's words aren't all there, or the table ends with no end record."
    Cut,
    // "A zero bit is set."
    ZeroBit,
    // "There is one record more of this kind than the limit."
    OneMore,
    // "A value is outside its range, or the end count is wrong."
    OutOfRange,
    // "A bridge or VID that a half-link or member names has no record, or near and far bridge are equal."
    UnknownName,
    // "A record repeats an earlier one's address, SPsourceID, near bridge with port, VID, or bridge with I-SID and VID."
    Repeated,
    // "It is a third half-link of a link number, or the second and no mirror of the first."
    NoMirror,
    // "Words follow the end record."
    WordsFollow,
    // "The call names a bridge or VID that the table lacks."
    NotInTable,
    // "No path exists."
    NoPath,
    // "The lent list is shorter than the answer."
    ShortList,
    // "Lookup's list has a length that is no multiple of 3", or an entry with a fault.
    EntryList,
    // What is read is no sub-TLV of services (02, A2).
    NoSubTlv,
    // A sub-TLV names a bridge or a VID that the table lacks (02, A2).
    UnknownAdvertiser,
    // The table has no such half-link (02, A7).
    NoHalfLink,
    // The metric is outside its range (02, A7).
    MetricOutOfRange,
    // "65,535 changes already made" (02, A7).
    TooManyChanges,
}

impl Fault {
    // "A refusal carries its number."
    pub fn number(self) -> u32
        ensures { result ≡ fault_number self }
    {
        match self {
            Fault::Length => 1,
            Fault::Kind => 2,
            Fault::Cut => 3,
            Fault::ZeroBit => 4,
            Fault::OneMore => 5,
            Fault::OutOfRange => 6,
            Fault::UnknownName => 7,
            Fault::Repeated => 8,
            Fault::NoMirror => 9,
            Fault::WordsFollow => 10,
            Fault::NotInTable => 11,
            Fault::NoPath => 12,
            Fault::ShortList => 13,
            Fault::EntryList => 14,
            Fault::NoSubTlv => 15,
            Fault::UnknownAdvertiser => 16,
            Fault::NoHalfLink => 17,
            Fault::MetricOutOfRange => 18,
            Fault::TooManyChanges => 19,
        }
    }
}

#[derive(Clone, Copy)]
pub struct Refusal {
    pub number: u32,
    pub kind: RecordKind,
    pub word: u32,
}

impl Refusal {
    // "Kind is none and the word 0 for 1 and 11 to 14": a refusal that concerns no record.
    pub fn of_call(fault: Fault) -> Refusal
        ensures { result ≡ call_refusal fault }
    {
        Refusal {
            number: fault.number(),
            kind: RecordKind::None,
            word: 0,
        }
    }
}
