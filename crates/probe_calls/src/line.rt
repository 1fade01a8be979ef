// The outcomes of path, tree and entries as lines: the answer, and every place of the lent lists after the call.
ghost use Rattle.std.specs.Prelude.{◌+◌, ◌*◌, ◌≤◌, length};
ghost use Rattle.rule.specs.Outcome.{answered};
ghost use Rattle.rule.specs.Answers.{path_values, tree_values, entries_values};
ghost use Rattle.rule.specs.Calls.{path_outcome, tree_outcome, entries_outcome};
ghost use Rattle.text.specs.Text.{WrittenAt};
ghost use Rattle.probe_calls.specs.AnswerText.{path_answer_text, tree_answer_text, entries_answer_text, path_text, tree_text, entries_text};

use check_text::check::write_refusal;
use measures::measure::{Cost, Hops};
use rule::answer::{EntriesAnswer, PathAnswer, TreeAnswer};
use spb::entry_lists::entries;
use spb::paths::path;
use spb::tree_lists::tree;
use text::fields::{write_byte, write_field, write_fields, write_word};

// `path` with cost and hops.
fn write_given_path(cost: Cost, hops: Hops, out: &mut [u8], at: usize) -> usize
    requires { at + 40 ≤ length out.old }
    ensures { WrittenAt at out.old out.new (path_answer_text (answered (record { cost = cost.0; hops = hops.0 }))) result × (result ≤ at + 40) }
{
    let after_word = write_word(b"path", out, at);
    let after_cost = write_field(cost.0, out, after_word);
    write_field(hops.0, out, after_cost)
}

// `tree` with the number of bridges.
fn write_given_tree(bridges: u32, out: &mut [u8], at: usize) -> usize
    requires { at + 40 ≤ length out.old }
    ensures { WrittenAt at out.old out.new (tree_answer_text (answered bridges)) result × (result ≤ at + 40) }
{
    let after_word = write_word(b"tree", out, at);
    write_field(bridges, out, after_word)
}

// `entries` with the number of words.
fn write_given_entries(words: u32, out: &mut [u8], at: usize) -> usize
    requires { at + 40 ≤ length out.old }
    ensures { WrittenAt at out.old out.new (entries_answer_text (answered words)) result × (result ≤ at + 40) }
{
    let after_word = write_word(b"entries", out, at);
    write_field(words, out, after_word)
}

// The answer of a path.
fn write_path_answer(answer: PathAnswer, out: &mut [u8], at: usize) -> usize
    requires { at + 40 ≤ length out.old }
    ensures { WrittenAt at out.old out.new (path_answer_text (path_values answer)) result × (result ≤ at + 40) }
{
    match answer {
        PathAnswer::Given { cost, hops } => write_given_path(cost, hops, out, at),
        PathAnswer::Refused { number, kind, word } => write_refusal(number, kind, word, out, at),
    }
}

// The answer of a tree.
fn write_tree_answer(answer: TreeAnswer, out: &mut [u8], at: usize) -> usize
    requires { at + 40 ≤ length out.old }
    ensures { WrittenAt at out.old out.new (tree_answer_text (tree_values answer)) result × (result ≤ at + 40) }
{
    match answer {
        TreeAnswer::Given { bridges } => write_given_tree(bridges, out, at),
        TreeAnswer::Refused { number, kind, word } => write_refusal(number, kind, word, out, at),
    }
}

// The answer of entries.
fn write_entries_answer(answer: EntriesAnswer, out: &mut [u8], at: usize) -> usize
    requires { at + 40 ≤ length out.old }
    ensures { WrittenAt at out.old out.new (entries_answer_text (entries_values answer)) result × (result ≤ at + 40) }
{
    match answer {
        EntriesAnswer::Written { words } => write_given_entries(words, out, at),
        EntriesAnswer::Refused { number, kind, word } => write_refusal(number, kind, word, out, at),
    }
}

// The line of a path at the front of the lent bytes, and its length.
pub fn write_path(
    table: &[u8],
    vid: u32,
    from: u32,
    to: u32,
    list: &mut [u32],
    out: &mut [u8],
) -> usize
    requires { 41 + 11 * length list.old ≤ length out.old }
    ensures { WrittenAt 0 out.old out.new (path_text (path_outcome table.now vid from to list.old)) result × (result ≤ length out.old) }
{
    let answer = path(table, vid, from, to, list);
    let after_answer = write_path_answer(answer, out, 0);
    let after_list = write_fields(list, out, after_answer);
    write_byte(b'\n', out, after_list)
}

// The line of a tree at the front of the lent bytes, and its length.
pub fn write_tree(
    table: &[u8],
    vid: u32,
    from: u32,
    costs: &mut [u32],
    hops: &mut [u32],
    lasts: &mut [u32],
    out: &mut [u8],
) -> usize
    requires { 41 + 11 * (length costs.old + length hops.old + length lasts.old) ≤ length out.old }
    ensures { WrittenAt 0 out.old out.new (tree_text (tree_outcome table.now vid from costs.old hops.old lasts.old)) result × (result ≤ length out.old) }
{
    let answer = tree(table, vid, from, costs, hops, lasts);
    let after_answer = write_tree_answer(answer, out, 0);
    let after_costs = write_fields(costs, out, after_answer);
    let after_hops = write_fields(hops, out, after_costs);
    let after_lasts = write_fields(lasts, out, after_hops);
    write_byte(b'\n', out, after_lasts)
}

// The line of a bridge's entries at the front of the lent bytes, and its length.
pub fn write_entries(table: &[u8], bridge: u32, list: &mut [u32], out: &mut [u8]) -> usize
    requires { 41 + 11 * length list.old ≤ length out.old }
    ensures { WrittenAt 0 out.old out.new (entries_text (entries_outcome table.now bridge list.old)) result × (result ≤ length out.old) }
{
    let answer = entries(table, bridge, list);
    let after_answer = write_entries_answer(answer, out, 0);
    let after_list = write_fields(list, out, after_answer);
    write_byte(b'\n', out, after_list)
}
