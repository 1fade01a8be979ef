// The faults that a record's own words show (01, "Refusals in checking order", 3, 4 and 6).
ghost use Rattle.std.specs.Prelude.{◌≡◌};
ghost use Rattle.readers.specs.Readers.{fault_found};

use rule::refusal::Fault;

// What a reader finds in the place of a record: the lowest of its faults.
#[derive(Clone, Copy)]
pub enum RecordFault {
    // "The record's words aren't all there."
    Cut,
    // "A zero bit is set."
    ZeroBit,
    // "A value is outside its range."
    OutOfRange,
}

impl From<RecordFault> for Fault {
    ghost from_gives = { λ found fault. fault ≡ fault_found found };

    fn from(found: RecordFault) -> Fault {
        match found {
            RecordFault::Cut => Fault::Cut,
            RecordFault::ZeroBit => Fault::ZeroBit,
            RecordFault::OutOfRange => Fault::OutOfRange,
        }
    }
}
