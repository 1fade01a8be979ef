// Check (01, "Calls").
ghost use Rattle.std.specs.Prelude.{◌≡◌};
ghost use Rattle.rule.specs.Answers.{check_values};
ghost use Rattle.rule.specs.Calls.{check_outcome};

use key_index::chain::INDEX;
use links::counts::counts;
use rule::answer::CheckAnswer;
use verdict::examine::examine;

// "Check: counts of bridges, half-links, usable links, VIDs, members."
pub fn check(table: &[u8]) -> CheckAnswer
    ensures { check_values result ≡ check_outcome table.now }
{
    let mut link_index = [0u32; INDEX];
    let examined = examine(table, &mut link_index);
    match examined {
        Ok(s) => CheckAnswer::Accepted(counts(table, s, &link_index)),
        Err(refusal) => CheckAnswer::from(refusal),
    }
}
