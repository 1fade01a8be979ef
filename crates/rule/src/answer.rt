// What the calls answer (01, "Calls" and "Refusals in checking order"; 02). The refusal case of each answer holds the refusal's
// number, the kind of the record concerned and the number of that record's first word. The values that a case stands for on
// paper are given in specs/Answers.
ghost use Rattle.std.specs.Prelude.{◌≡◌};
ghost use Rattle.rule.specs.Answers.{check_values, path_values, tree_values, entries_values, lookup_values, read_services_values, write_services_values};
ghost use Rattle.rule.specs.Refusals.{refused_by};

use crate::refusal::Refusal;
use measures::measure::{Cost, Hops};

// The kind of the record that a refusal concerns, or none.
#[derive(Clone, Copy)]
pub enum RecordKind {
    None,
    Bridge,
    HalfLink,
    Vid,
    Member,
    Traffic,
    End,
}

// "counts of bridges, half-links, usable links, VIDs, members".
#[derive(Clone, Copy)]
pub struct Counts {
    pub bridges: u32,
    pub half_links: u32,
    pub usable_links: u32,
    pub vids: u32,
    pub members: u32,
}

// Check.
#[derive(Clone, Copy)]
pub enum CheckAnswer {
    Accepted(Counts),
    Refused {
        number: u32,
        kind: RecordKind,
        word: u32,
    },
}

impl From<Refusal> for CheckAnswer {
    ghost from_gives = { λ refusal answer. check_values answer ≡ refused_by refusal };

    fn from(refusal: Refusal) -> CheckAnswer {
        CheckAnswer::Refused {
            number: refusal.number,
            kind: refusal.kind,
            word: refusal.word,
        }
    }
}

// Path: the bridges are in the lent list.
#[derive(Clone, Copy)]
pub enum PathAnswer {
    Given {
        cost: Cost,
        hops: Hops,
    },
    Refused {
        number: u32,
        kind: RecordKind,
        word: u32,
    },
}

impl From<Refusal> for PathAnswer {
    ghost from_gives = { λ refusal answer. path_values answer ≡ refused_by refusal };

    fn from(refusal: Refusal) -> PathAnswer {
        PathAnswer::Refused {
            number: refusal.number,
            kind: refusal.kind,
            word: refusal.word,
        }
    }
}

// Tree: the number of bridges, each of which has its place in the lent lists.
#[derive(Clone, Copy)]
pub enum TreeAnswer {
    Given {
        bridges: u32,
    },
    Refused {
        number: u32,
        kind: RecordKind,
        word: u32,
    },
}

impl From<Refusal> for TreeAnswer {
    ghost from_gives = { λ refusal answer. tree_values answer ≡ refused_by refusal };

    fn from(refusal: Refusal) -> TreeAnswer {
        TreeAnswer::Refused {
            number: refusal.number,
            kind: refusal.kind,
            word: refusal.word,
        }
    }
}

// Entries: the number of words written to the lent list.
#[derive(Clone, Copy)]
pub enum EntriesAnswer {
    Written {
        words: u32,
    },
    Refused {
        number: u32,
        kind: RecordKind,
        word: u32,
    },
}

impl From<Refusal> for EntriesAnswer {
    ghost from_gives = { λ refusal answer. entries_values answer ≡ refused_by refusal };

    fn from(refusal: Refusal) -> EntriesAnswer {
        EntriesAnswer::Refused {
            number: refusal.number,
            kind: refusal.kind,
            word: refusal.word,
        }
    }
}

// Lookup: the port of the matching entry, or none.
#[derive(Clone, Copy)]
pub enum LookupAnswer {
    Port(u32),
    None,
    Refused {
        number: u32,
        kind: RecordKind,
        word: u32,
    },
}

impl From<Refusal> for LookupAnswer {
    ghost from_gives = { λ refusal answer. lookup_values answer ≡ refused_by refusal };

    fn from(refusal: Refusal) -> LookupAnswer {
        LookupAnswer::Refused {
            number: refusal.number,
            kind: refusal.kind,
            word: refusal.word,
        }
    }
}

// Services read from a sub-TLV: the number of words written to the lent list, two for each member record (02, A2).
#[derive(Clone, Copy)]
pub enum ReadServicesAnswer {
    Read {
        words: u32,
    },
    Refused {
        number: u32,
        kind: RecordKind,
        word: u32,
    },
}

impl From<Refusal> for ReadServicesAnswer {
    ghost from_gives = { λ refusal answer. read_services_values answer ≡ refused_by refusal };

    fn from(refusal: Refusal) -> ReadServicesAnswer {
        ReadServicesAnswer::Refused {
            number: refusal.number,
            kind: refusal.kind,
            word: refusal.word,
        }
    }
}

// Services written as sub-TLVs: the number of bytes written to the lent list (02, A2).
#[derive(Clone, Copy)]
pub enum WriteServicesAnswer {
    Written {
        bytes: u32,
    },
    Refused {
        number: u32,
        kind: RecordKind,
        word: u32,
    },
}

impl From<Refusal> for WriteServicesAnswer {
    ghost from_gives = { λ refusal answer. write_services_values answer ≡ refused_by refusal };

    fn from(refusal: Refusal) -> WriteServicesAnswer {
        WriteServicesAnswer::Refused {
            number: refusal.number,
            kind: refusal.kind,
            word: refusal.word,
        }
    }
}
