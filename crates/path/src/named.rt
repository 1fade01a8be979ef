// The tree for what a call names: a VID and two bridges (01, "Refusals in checking order", 11).
ghost use Rattle.std.specs.Prelude.{◌≡◌, ◌≤◌, length};
ghost use Rattle.rule.specs.Words.{words_of};
ghost use Rattle.table.specs.Positions.{plan_at};
ghost use Rattle.verdict.specs.Examination.{Checked, LinkIndex};
ghost use Rattle.path.specs.Named.{NamedTree};

use table::records::index_of;
use table::shape::Shape;
use trees::plan_tree::tree_of_table;

// Makes the tree rooted at the bridge `root` for a VID, where the table has the VID and both bridges. Gives the ECT index of the VID,
// or 0 where the table lacks one of the three.
pub fn named_tree(
    table: &[u8],
    s: Shape,
    link_index: &[u32],
    vid: u32,
    from: u32,
    root: u32,
    labels: &mut [u32],
) -> u32
    requires { Checked table.now s × (320 ≤ length labels.old) × LinkIndex link_index.now table.now s }
    ensures { NamedTree (plan_at (words_of table.now) s) vid from root result labels.new }
{
    if s.bridges <= from as usize {
        return 0;
    }
    if s.bridges <= root as usize {
        return 0;
    }
    let index = index_of(table, s, vid);
    if index == 0 {
        return 0;
    }
    tree_of_table(table, s, link_index, index, root as usize, labels);
    index
}
