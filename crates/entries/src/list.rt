// The entries of a bridge of a table that passed the check (01, "Calls"): the words are made in an array of their own and copied when
// they fit, so that a refusal writes nothing.
ghost use Rattle.std.specs.Prelude.{◌≡◌, List, ℕ, ◌≤◌, ◌<◌, length};
ghost use Rattle.lists.specs.Lists.{spliced};
ghost use Rattle.lists.specs.Appending.{Appended};
ghost use Rattle.rule.specs.Words.{words_of};
ghost use Rattle.rule.specs.Outcome.{Outcome, list_answer, lent_to};
ghost use Rattle.rule.specs.Answers.{entries_values};
ghost use Rattle.rule.specs.Calls.{plan_entries};
ghost use Rattle.rule.specs.Entries.{entry_list_of};
ghost use Rattle.table.specs.Positions.{plan_at};
ghost use Rattle.verdict.specs.Examination.{Checked, LinkIndex};
ghost use Rattle.network.specs.Networks.{TableNetwork};
ghost use Rattle.trees.specs.Store.{TreesKept};

use crate::parts::whole_list;
use egress::hops::{hop_ports, rising_ports};
use egress::rows::ROWS;
use entry_rows::needed::keep_egress_rows;
use network::make::make_network;
use network::parts::NETWORK;
use rule::answer::EntriesAnswer;
use rule::kinds::{MOST_BRIDGES, MOST_VIDS};
use rule::refusal::{Fault, Refusal};
use table::shape::Shape;
use tree::search::PATH_IDS;
use trees::store::LINE;

// "No bridge's list exceeds 14,931 words": individual entries for the other bridges in each VID, and group entries as `ListBound` counts
// them.
pub const LONGEST_LIST: usize = 3
    * (MOST_VIDS * (MOST_BRIDGES - 1) + (MOST_BRIDGES - 1) * (MOST_BRIDGES - 1));

// The words of the bridge's list, from the network of its table, written to the front of a lent list; gives how many there are. The list
// of the search and the store of trees are lent too, so that a caller for many bridges makes each tree once.
pub fn list_in_network(
    table: &[u8],
    s: Shape,
    network: &[u32],
    b: usize,
    path_ids: &mut [u64],
    store: &mut [u32],
    words: &mut [u32],
) -> usize
    requires { TableNetwork table.now s network.now × (b < s.bridges) × (4096 ≤ length path_ids.old) × TreesKept network.now store.old × (14931 ≤ length words.old) }
    ensures appended { Appended words.old 0 (entry_list_of (plan_at (words_of table.now) s) b) words.new result }
    ensures trees_kept { TreesKept network.now store.new }
{
    let mut hops = [0u16; MOST_BRIDGES];
    hop_ports(network, b, &mut hops);
    let mut rises = [0u16; MOST_BRIDGES];
    let count = rising_ports(&hops, s.bridges, &mut rises);
    let mut egress_rows = [0u16; ROWS];
    keep_egress_rows(
        table,
        s,
        network,
        &hops,
        b,
        path_ids,
        store,
        &mut egress_rows,
    );
    whole_list(table, s, &egress_rows, &rises[..count], b, words)
}

// The same of a checked table, with a store of one tree.
fn list_of_table(table: &[u8], s: Shape, link_index: &[u32], b: usize, words: &mut [u32]) -> usize
    requires { Checked table.now s × (b < s.bridges) × (14931 ≤ length words.old) × LinkIndex link_index.now table.now s }
    ensures { Appended words.old 0 (entry_list_of (plan_at (words_of table.now) s) b) words.new result }
{
    let mut network = [0u32; NETWORK];
    make_network(table, s, link_index, &mut network);
    let mut path_ids = [0u64; PATH_IDS];
    let mut store = [0u32; LINE];
    list_in_network(table, s, &network, b, &mut path_ids, &mut store, words)
}

// Copies the words to the front of the lent list.
fn copy(words: &[u32], list: &mut [u32])
    requires { length words.now ≤ length list.old }
    ensures { list.new ≡ spliced list.old 0 words.now }
{
    list[..words.len()].copy_from_slice(words);
}

// 13: "The lent list is shorter than the answer."
fn fitted(words: &[u32], list: &mut [u32]) -> EntriesAnswer
    requires { length words.now ≤ 14931 }
    ensures { ◌≡◌ {A = Outcome ℕ × List ℕ} (entries_values result, list.new) (lent_to list.old (list_answer words.now)) }
{
    if list.len() < words.len() {
        return EntriesAnswer::from(Refusal::of_call(Fault::ShortList));
    }
    copy(words, list);
    EntriesAnswer::Written {
        words: words.len() as u32,
    }
}

// "Entries (bridge): into a lent list of words; the words written", of a table that passed the check.
pub fn entries_in_table(
    table: &[u8],
    s: Shape,
    link_index: &[u32],
    bridge: u32,
    list: &mut [u32],
) -> EntriesAnswer
    requires { Checked table.now s × LinkIndex link_index.now table.now s }
    ensures { ◌≡◌ {A = Outcome ℕ × List ℕ} (entries_values result, list.new) (lent_to list.old (plan_entries (plan_at (words_of table.now) s) bridge)) }
{
    if s.bridges <= bridge as usize {
        return EntriesAnswer::from(Refusal::of_call(Fault::NotInTable));
    }
    let mut words = [0u32; LONGEST_LIST];
    let count = list_of_table(table, s, link_index, bridge as usize, &mut words);
    fitted(&words[..count], list)
}
