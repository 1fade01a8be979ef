// The path from a bridge to the root of a tree, by the tree's labels (01, "Calls": path).
ghost use Rattle.std.specs.Prelude.{◌≡◌, List, ℕ, ◌≤◌, length};
ghost use Rattle.lists.specs.Lists.{spliced};
ghost use Rattle.rule.specs.Words.{words_of};
ghost use Rattle.rule.specs.Outcome.{Outcome, lent_to};
ghost use Rattle.rule.specs.Answers.{CostAndHops, path_values};
ghost use Rattle.rule.specs.Calls.{plan_path};
ghost use Rattle.rule.specs.Exported.{cost_number};
ghost use Rattle.table.specs.Positions.{plan_at};
ghost use Rattle.verdict.specs.Examination.{Checked, LinkIndex};
ghost use Rattle.path.specs.Followed.{followed, Inside};
ghost use Rattle.path.specs.Labelled.{labelled_path, Followable};

use crate::named::named_tree;
use labels::label::{LABELS, cost_at, hops_at, next_number};
use measures::measure::Cost;
use rule::answer::PathAnswer;
use rule::refusal::{Fault, Refusal};
use table::shape::Shape;

// Writes the bridge `from` and those that next hops lead to from it, `count` in all, to the front of a lent list.
pub fn write_path(labels: &[u32], from: u32, count: usize, list: &mut [u32])
    requires { (320 ≤ length labels.now) × Inside labels.now from count × (count ≤ length list.old) }
    ensures { list.new ≡ spliced list.old 0 (followed labels.now from count) }
{
    let mut u = from;
    for i in 0..count {
        list[i] = u;
        u = next_number(labels, u as usize);
    }
}

// The path that the labels have for the bridge `from`.
pub fn labelled_path(labels: &[u32], from: u32, list: &mut [u32]) -> PathAnswer
    requires { (320 ≤ length labels.now) × Followable labels.now from }
    ensures { ◌≡◌ {A = Outcome CostAndHops × List ℕ} (path_values result, list.new) (lent_to list.old (labelled_path labels.now from)) }
{
    let place = from as usize;
    let cost = cost_at(labels, place);
    if cost.is_no_path() {
        return PathAnswer::from(Refusal::of_call(Fault::NoPath));
    }
    let hops = hops_at(labels, place);
    let count = hops.bridges();
    if list.len() < count {
        return PathAnswer::from(Refusal::of_call(Fault::ShortList));
    }
    write_path(labels, from, count, list);
    PathAnswer::Given {
        cost: cost,
        hops: hops,
    }
}

// "Path (VID, from, to): bridges into a lent list; cost, hops", of a table that passed the check.
pub fn path_in_table(
    table: &[u8],
    s: Shape,
    link_index: &[u32],
    vid: u32,
    from: u32,
    to: u32,
    list: &mut [u32],
) -> PathAnswer
    requires { Checked table.now s × LinkIndex link_index.now table.now s }
    ensures { ◌≡◌ {A = Outcome CostAndHops × List ℕ} (path_values result, list.new) (lent_to list.old (plan_path (plan_at (words_of table.now) s) vid from to)) }
{
    let mut labels = [0u32; LABELS];
    let index = named_tree(table, s, link_index, vid, from, to, &mut labels);
    if index == 0 {
        return PathAnswer::from(Refusal::of_call(Fault::NotInTable));
    }
    labelled_path(&labels, from, list)
}

// "Exported path cost gives the cost as a 64-bit number, or 4,294,967,296 plus the refusal number", of a table that passed the check.
pub fn path_cost_in_table(
    table: &[u8],
    s: Shape,
    link_index: &[u32],
    vid: u32,
    from: u32,
    to: u32,
) -> u64
    requires { Checked table.now s × LinkIndex link_index.now table.now s }
    ensures { result ≡ cost_number (plan_path (plan_at (words_of table.now) s) vid from to) }
{
    let mut labels = [0u32; LABELS];
    let index = named_tree(table, s, link_index, vid, from, to, &mut labels);
    if index == 0 {
        return Cost::REFUSED + 11;
    }
    let cost = cost_at(&labels, from as usize);
    if cost.is_no_path() {
        return Cost::REFUSED + 12;
    }
    cost.exported()
}
