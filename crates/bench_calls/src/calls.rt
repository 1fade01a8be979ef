// The path call, the tree call, the entries call and the search for trees alone, as functions for the benchmark.
ghost use Rattle.std.specs.Prelude.{◌≡◌, ◌≤◌, length};
ghost use Rattle.rule.specs.Words.{words_of};
ghost use Rattle.table.specs.Positions.{plan_at};
ghost use Rattle.verdict.specs.Examination.{Checked, LinkIndex};
ghost use Rattle.network.specs.Layout.{bridges_in};
ghost use Rattle.network.specs.Networks.{IsNetwork};
ghost use Rattle.bench_calls.specs.BenchCalls.{bench_path, bench_tree, bench_entries, bench_trees, last_cost, LastTree};

use entries::list::LONGEST_LIST;
use key_index::chain::INDEX;
use labels::label::{LABELS, cost_at};
use measures::measure::Cost;
use network::make::make_network;
use network::parts::NETWORK;
use rule::answer::{EntriesAnswer, PathAnswer, TreeAnswer};
use rule::kinds::MOST_BRIDGES;
use spb::entry_lists::entries;
use spb::paths::path;
use spb::tree_lists::tree;
use table::shape::Shape;
use tree::search::PATH_IDS;
use trees::plan_tree::tree_in_network;
use verdict::examine::examine;

// One path call: the cost, or the refusal number.
#[unsafe(no_mangle)]
pub extern "C" fn bench_path(table: &[u8], vid: u32, from: u32, to: u32) -> u32
    ensures { result ≡ bench_path table.now vid from to }
{
    let mut list = [0u32; MOST_BRIDGES];
    let answer = path(table, vid, from, to, &mut list);
    match answer {
        PathAnswer::Given { cost, hops: _ } => cost.0,
        PathAnswer::Refused {
            number,
            kind: _,
            word: _,
        } => number,
    }
}

// One tree call: the number of bridges, or the refusal number.
#[unsafe(no_mangle)]
pub extern "C" fn bench_tree(table: &[u8], vid: u32, from: u32) -> u32
    ensures { result ≡ bench_tree table.now vid from }
{
    let mut costs = [0u32; MOST_BRIDGES];
    let mut hops = [0u32; MOST_BRIDGES];
    let mut lasts = [0u32; MOST_BRIDGES];
    let answer = tree(table, vid, from, &mut costs, &mut hops, &mut lasts);
    match answer {
        TreeAnswer::Given { bridges } => bridges,
        TreeAnswer::Refused {
            number,
            kind: _,
            word: _,
        } => number,
    }
}

// One entries call, into a list as long as any: the number of words written, or the refusal number.
#[unsafe(no_mangle)]
pub extern "C" fn bench_entries(table: &[u8], bridge: u32) -> u32
    ensures { result ≡ bench_entries table.now bridge }
{
    let mut list = [0u32; LONGEST_LIST];
    let answer = entries(table, bridge, &mut list);
    match answer {
        EntriesAnswer::Written { words } => words,
        EntriesAnswer::Refused {
            number,
            kind: _,
            word: _,
        } => number,
    }
}

// Makes the trees of the first `count` bridges of a network.
fn make_trees(network: &[u32], count: usize, labels: &mut [u32], path_ids: &mut [u64])
    requires { IsNetwork network.now × (count ≤ bridges_in network.now) × (320 ≤ length labels.old) × (4096 ≤ length path_ids.old) }
    ensures { LastTree network.now count labels.old labels.new }
{
    for root in 0..count {
        tree_in_network(network, 1, root, labels, path_ids);
    }
}

// Makes the network of a checked table, and the trees of its first `count` bridges. Gives the last tree's cost of bridge 0.
fn trees_of_table(table: &[u8], s: Shape, link_index: &[u32], count: usize) -> Cost
    requires { Checked table.now s × (count ≤ s.bridges) × LinkIndex link_index.now table.now s }
    ensures { result.0 ≡ last_cost (plan_at (words_of table.now) s) count }
{
    let mut network = [0u32; NETWORK];
    let mut labels = [0u32; LABELS];
    let mut path_ids = [0u64; PATH_IDS];
    make_network(table, s, link_index, &mut network);
    make_trees(&network, count, &mut labels, &mut path_ids);
    cost_at(&labels, 0)
}

// One check, the network of the table once, and the trees of its first `count` bridges.
#[unsafe(no_mangle)]
pub extern "C" fn bench_trees(table: &[u8], count: u32) -> u32
    ensures { result ≡ bench_trees table.now count }
{
    let mut link_index = [0u32; INDEX];
    let examined = examine(table, &mut link_index);
    match examined {
        Ok(s) => {
            if s.bridges < count as usize {
                return 0;
            }
            trees_of_table(table, s, &link_index, count as usize).0
        }
        Err(refusal) => refusal.number,
    }
}
