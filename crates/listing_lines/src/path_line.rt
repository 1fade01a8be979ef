// Path lines (01, "Listing program"), by what the path call answers.
ghost use Rattle.std.specs.Prelude.{◌∷◌, [], ◌+◌, ◌≤◌, length};
ghost use Rattle.rule.specs.Answers.{path_values};
ghost use Rattle.text.specs.Text.{line, path_word, WrittenAt};
ghost use Rattle.listing_lines.specs.Listing.{none_word, path_line};
ghost use Rattle.listing_lines.specs.PathAnswers.{bridges_given, given_path};

use measures::measure::{Cost, Hops};
use rule::answer::PathAnswer;
use text::fields::{write_byte, write_fields, write_line, write_word};

// "VID, from, to, cost, hops, bridges": at most 64 bridges, so 69 fields.
fn write_given_path(
    vid: u32,
    from: u32,
    to: u32,
    cost: Cost,
    hops: Hops,
    bridges: &[u32],
    out: &mut [u8],
    at: usize,
) -> usize
    requires { (length bridges.now ≤ 64) × (at + 764 ≤ length out.old) }
    ensures { WrittenAt at out.old out.new (line path_word (vid ∷ from ∷ to ∷ cost.0 ∷ hops.0 ∷ bridges.now)) result × (result ≤ at + 764) }
{
    let numbers = [vid, from, to, cost.0, hops.0];
    let after_word = write_word(b"path", out, at);
    let after_numbers = write_fields(&numbers, out, after_word);
    let after_bridges = write_fields(bridges, out, after_numbers);
    write_byte(b'\n', out, after_bridges)
}

// "`none`, VID, from, to where 12".
fn write_none(vid: u32, from: u32, to: u32, out: &mut [u8], at: usize) -> usize
    requires { at + 38 ≤ length out.old }
    ensures { WrittenAt at out.old out.new (line none_word (vid ∷ from ∷ to ∷ [])) result × (result ≤ at + 38) }
{
    let numbers = [vid, from, to];
    write_line(b"none", &numbers, out, at)
}

// The line of one pair, by what the path call answers and the list that it was lent.
pub fn write_path_answer(
    answer: PathAnswer,
    list: &[u32],
    vid: u32,
    from: u32,
    to: u32,
    out: &mut [u8],
    at: usize,
) -> usize
    requires { (bridges_given (path_values answer) ≤ length list.now) × (length list.now ≤ 64) × (at + 764 ≤ length out.old) }
    ensures { WrittenAt at out.old out.new (path_line vid from to (given_path (path_values answer) list.now)) result × (result ≤ at + 764) }
{
    match answer {
        PathAnswer::Given { cost, hops } => {
            let count = hops.bridges();
            write_given_path(vid, from, to, cost, hops, &list[..count], out, at)
        }
        PathAnswer::Refused { .. } => write_none(vid, from, to, out, at),
    }
}
