// Path (01, "Calls").
ghost use Rattle.std.specs.Prelude.{◌≡◌, List, ℕ};
ghost use Rattle.rule.specs.Outcome.{Outcome};
ghost use Rattle.rule.specs.Answers.{CostAndHops, path_values};
ghost use Rattle.rule.specs.Calls.{path_outcome};

use key_index::chain::INDEX;
use path::path::path_in_table;
use rule::answer::PathAnswer;
use verdict::examine::examine;

// "Path (VID, from, to): bridges into a lent list; cost, hops."
pub fn path(table: &[u8], vid: u32, from: u32, to: u32, list: &mut [u32]) -> PathAnswer
    ensures { ◌≡◌ {A = Outcome CostAndHops × List ℕ} (path_values result, list.new) (path_outcome table.now vid from to list.old) }
{
    let mut link_index = [0u32; INDEX];
    let examined = examine(table, &mut link_index);
    match examined {
        Ok(s) => path_in_table(table, s, &link_index, vid, from, to, list),
        Err(refusal) => PathAnswer::from(refusal),
    }
}
