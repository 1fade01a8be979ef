// A table's words changed in its bytes (02, A7): the metric of one half-link, or its three words taken out.
ghost use Rattle.std.specs.Prelude.{◌≡◌, ◌+◌, ◌*◌, ◌-◌, ◌/◌, ◌%◌, ◌≤◌, ◌<◌, length, drop};
ghost use Rattle.std.proofs.Math.Option.{none, some};
ghost use mathlib.Core.List.{flat_map};
ghost use Rattle.lists.specs.Lists.{spliced};
ghost use Rattle.rule.specs.Words.{word, words_of, bytes_of};
ghost use Rattle.rule.specs.Outcome.{overwritten};
ghost use Rattle.edits.specs.Edits.{changed_words};

use readers::words::{word_at, write_word};

// What the bits of a word above the metric count from: bit 24.
const ABOVE_METRIC: u32 = 16777216;

// The bytes of a half-link's three words.
const HALF_LINK: usize = 12;

// "A metric change replaces the 24 metric bits": those of the word `k`.
pub fn write_metric(table: &mut [u8], k: usize, metric: u32)
    requires { (4 * k + 4 ≤ length table.old) × (length table.old % 4 ≡ 0) × (metric < 16777216) }
    ensures { table.new ≡ overwritten (flat_map bytes_of (changed_words (some metric) k (words_of table.old))) table.old }
{
    let first = word_at(table, k);
    write_word(table, 4 * k, first / ABOVE_METRIC * ABOVE_METRIC + metric);
}

// Moves all that follows a half-link to the place of its first byte, `at`. The last bytes stay.
fn close_gap(table: &mut [u8], at: usize)
    requires { at + 12 ≤ length table.old }
    ensures { table.new ≡ spliced table.old at (drop (at + 12) table.old) }
{
    table.copy_within(at + HALF_LINK.., at);
}

// "a withdrawal removes the three words and lowers the end count by 3": the words from `k` on, of a table whose last word is 3 or more. The
// last 12 bytes of the list stay.
pub fn withdraw_words(table: &mut [u8], k: usize)
    requires { (4 * k + 16 ≤ length table.old) × (length table.old % 4 ≡ 0) × (3 ≤ word (words_of table.old) (length table.old / 4 - 1)) }
    ensures { table.new ≡ overwritten (flat_map bytes_of (changed_words none k (words_of table.old))) table.old }
{
    close_gap(table, 4 * k);
    let last = table.len() / 4 - 4;
    let end = word_at(table, last);
    write_word(table, 4 * last, end - 3);
}
