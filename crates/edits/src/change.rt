// What the calls of a running plan are given and answer (02, A7).
ghost use Rattle.std.specs.Prelude.{◌≡◌};
ghost use Rattle.rule.specs.Refusals.{refused_by};
ghost use Rattle.edits.specs.Running.{running_values};

use rule::answer::RecordKind;
use rule::refusal::Refusal;

// "A half-link is named by near bridge and port."
#[derive(Clone, Copy)]
pub struct HalfLinkName {
    pub near: u32,
    pub port: u32,
}

// The numbers of a running plan: the bytes of its table, "one watched bridge and VID", and "a count of changes made". The table itself and
// the watched tree are in lists that the caller lends.
#[derive(Clone, Copy)]
pub struct Running {
    pub length: u32,
    pub bridge: u32,
    pub vid: u32,
    pub changes: u32,
}

// What a load or a change comes to: the numbers afterwards. A refusal alters nothing, so the caller's numbers stand.
#[derive(Clone, Copy)]
pub enum RunningAnswer {
    Kept(Running),
    Refused {
        number: u32,
        kind: RecordKind,
        word: u32,
    },
}

impl From<Refusal> for RunningAnswer {
    ghost from_gives = { λ refusal answer. running_values answer ≡ refused_by refusal };

    fn from(refusal: Refusal) -> RunningAnswer {
        RunningAnswer::Refused {
            number: refusal.number,
            kind: refusal.kind,
            word: refusal.word,
        }
    }
}
