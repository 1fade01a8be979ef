// Tree (the fifth call: docs/DECISIONS.md).
ghost use Rattle.std.specs.Prelude.{◌≡◌, List, ℕ};
ghost use Rattle.rule.specs.Outcome.{Outcome};
ghost use Rattle.rule.specs.Answers.{tree_values};
ghost use Rattle.rule.specs.Calls.{tree_outcome};

use branches::branches::tree_in_table;
use key_index::chain::INDEX;
use rule::answer::TreeAnswer;
use verdict::examine::examine;

// Tree (VID, from): for each bridge the cost, the hops and the last bridge but one of the path to it, into three lent lists.
pub fn tree(
    table: &[u8],
    vid: u32,
    from: u32,
    costs: &mut [u32],
    hops: &mut [u32],
    lasts: &mut [u32],
) -> TreeAnswer
    ensures { ◌≡◌ {A = Outcome ℕ × List ℕ × List ℕ × List ℕ} (tree_values result, costs.new, hops.new, lasts.new) (tree_outcome table.now vid from costs.old hops.old lasts.old) }
{
    let mut link_index = [0u32; INDEX];
    let examined = examine(table, &mut link_index);
    match examined {
        Ok(s) => tree_in_table(table, s, &link_index, vid, from, costs, hops, lasts),
        Err(refusal) => TreeAnswer::from(refusal),
    }
}
