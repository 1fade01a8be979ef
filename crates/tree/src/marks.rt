// The marks of bridges: one that is not 0 says that the bridge may begin or end a path and never lies between (02, A1). They stand in one
// list with the starts, behind those of 64 bridges and one more.
ghost use Rattle.std.specs.Prelude.{◌≡◌, eqb, ◌+◌, ◌<◌, length};
ghost use Rattle.tree.specs.Trees.{mark_at};

use rule::kinds::MOST_BRIDGES;

// How many words the starts have.
pub const MARKS_AFTER: usize = MOST_BRIDGES + 1;

pub fn may_lie_between(starts: &[u32], u: usize) -> bool
    requires { 65 + u < length starts.now }
    ensures { result ≡ eqb (mark_at starts.now u) 0 }
{
    starts[MARKS_AFTER + u] == 0
}
