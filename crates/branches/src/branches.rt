// The places of all bridges in a tree, by the tree's labels (the tree call: docs/DECISIONS.md).
ghost use Rattle.std.specs.Prelude.{◌≡◌, List, ℕ, ◌≤◌, ◌<◌, length};
ghost use Rattle.rule.specs.Words.{words_of};
ghost use Rattle.rule.specs.Outcome.{Outcome, answered};
ghost use Rattle.rule.specs.Answers.{tree_values};
ghost use Rattle.rule.specs.Calls.{lent_to_three, plan_branches};
ghost use Rattle.table.specs.Positions.{plan_at};
ghost use Rattle.verdict.specs.Examination.{Checked, LinkIndex};
ghost use Rattle.branches.specs.Branches.{branch_at, BranchesWritten, labelled_branches};

use labels::label::{LABELS, cost_at, hops_at, next_number};
use measures::measure::{Cost, Hops};
use path::named::named_tree;
use rule::answer::TreeAnswer;
use rule::refusal::{Fault, Refusal};
use table::shape::Shape;

// Stands for the last bridge but one of no path: a number that no bridge has.
const NO_BRIDGE: u32 = 65535;

// The cost of the path to the bridge `u`, 0 where there is none.
fn branch_cost(labels: &[u32], u: usize) -> Cost
    requires { (320 ≤ length labels.now) × (u < 64) }
    ensures { result.0 ≡ (branch_at labels.now u).cost }
{
    let cost = cost_at(labels, u);
    if cost.is_no_path() {
        return Cost(0);
    }
    cost
}

// Its hops, 0 where there is none.
fn branch_hops(labels: &[u32], u: usize) -> Hops
    requires { (320 ≤ length labels.now) × (u < 64) }
    ensures { result.0 ≡ (branch_at labels.now u).hops }
{
    if cost_at(labels, u).is_no_path() {
        return Hops(0);
    }
    hops_at(labels, u)
}

// Its last bridge but one, 65,535 where there is none.
fn branch_last(labels: &[u32], u: usize) -> u32
    requires { (320 ≤ length labels.now) × (u < 64) }
    ensures { result ≡ (branch_at labels.now u).last }
{
    if cost_at(labels, u).is_no_path() {
        return NO_BRIDGE;
    }
    next_number(labels, u)
}

// Writes the places of the first `n` bridges to the fronts of the lent lists.
fn write_branches(labels: &[u32], n: usize, costs: &mut [u32], hops: &mut [u32], lasts: &mut [u32])
    requires { (320 ≤ length labels.now) × (n ≤ 64) × (n ≤ length costs.old) × (n ≤ length hops.old) × (n ≤ length lasts.old) }
    ensures { BranchesWritten labels.now n costs.old hops.old lasts.old costs.new hops.new lasts.new }
{
    for u in 0..n {
        costs[u] = branch_cost(labels, u).0;
        hops[u] = branch_hops(labels, u).0;
        lasts[u] = branch_last(labels, u);
    }
}

// The places that the labels have for the first `n` bridges.
pub fn labelled_branches(
    labels: &[u32],
    n: usize,
    costs: &mut [u32],
    hops: &mut [u32],
    lasts: &mut [u32],
) -> TreeAnswer
    requires { (320 ≤ length labels.now) × (n ≤ 64) }
    ensures { ◌≡◌ {A = Outcome ℕ × List ℕ × List ℕ × List ℕ} (tree_values result, costs.new, hops.new, lasts.new) (lent_to_three costs.old hops.old lasts.old (answered (labelled_branches labels.now n))) }
{
    if costs.len() < n {
        return TreeAnswer::from(Refusal::of_call(Fault::ShortList));
    }
    if hops.len() < n {
        return TreeAnswer::from(Refusal::of_call(Fault::ShortList));
    }
    if lasts.len() < n {
        return TreeAnswer::from(Refusal::of_call(Fault::ShortList));
    }
    write_branches(labels, n, costs, hops, lasts);
    TreeAnswer::Given { bridges: n as u32 }
}

// Tree (VID, from), of a table that passed the check.
pub fn tree_in_table(
    table: &[u8],
    s: Shape,
    link_index: &[u32],
    vid: u32,
    from: u32,
    costs: &mut [u32],
    hops: &mut [u32],
    lasts: &mut [u32],
) -> TreeAnswer
    requires { Checked table.now s × LinkIndex link_index.now table.now s }
    ensures { ◌≡◌ {A = Outcome ℕ × List ℕ × List ℕ × List ℕ} (tree_values result, costs.new, hops.new, lasts.new) (lent_to_three costs.old hops.old lasts.old (plan_branches (plan_at (words_of table.now) s) vid from)) }
{
    let mut labels = [0u32; LABELS];
    let index = named_tree(table, s, link_index, vid, from, from, &mut labels);
    if index == 0 {
        return TreeAnswer::from(Refusal::of_call(Fault::NotInTable));
    }
    labelled_branches(&labels, s.bridges, costs, hops, lasts)
}
