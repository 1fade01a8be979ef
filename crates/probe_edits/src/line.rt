// What a step left, as two lines: the answer with the state's numbers and every place of the three lists, and every byte of the lent table.
ghost use Rattle.std.specs.Prelude.{◌++◌, ◌∷◌, [], ◌+◌, ◌*◌, ◌≤◌, length};
ghost use Rattle.edits.specs.Running.{running_values};
ghost use Rattle.text.specs.Text.{newline, fields, WrittenAt};
ghost use Rattle.probe_edits.specs.EditText.{answer_text, numbers_text, lists_text, state_text};

use check_text::check::write_refusal;
use edits::change::{Running, RunningAnswer};
use probe_input::bytes::write_byte_fields;
use text::fields::{write_byte, write_field, write_fields, write_word};

// The word, or the refusal.
fn write_answer(word: &[u8], answer: RunningAnswer, out: &mut [u8], at: usize) -> usize
    requires { (length word.now ≤ 7) × (at + 40 ≤ length out.old) }
    ensures { WrittenAt at out.old out.new (answer_text word.now (running_values answer)) result × (result ≤ at + 40) }
{
    match answer {
        RunningAnswer::Kept(running) => write_word(word, out, at),
        RunningAnswer::Refused {
            number,
            kind,
            word: record_word,
        } => write_refusal(number, kind, record_word, out, at),
    }
}

// The four numbers of a state.
fn write_numbers(running: Running, out: &mut [u8], at: usize) -> usize
    requires { at + 44 ≤ length out.old }
    ensures { WrittenAt at out.old out.new (numbers_text running) result × (result ≤ at + 44) }
{
    let after_length = write_field(running.length, out, at);
    let after_bridge = write_field(running.bridge, out, after_length);
    let after_vid = write_field(running.vid, out, after_bridge);
    write_field(running.changes, out, after_vid)
}

// Every place of the three lists.
fn write_lists(costs: &[u32], hops: &[u32], lasts: &[u32], out: &mut [u8], at: usize) -> usize
    requires { at + 11 * length costs.now + 11 * length hops.now + 11 * length lasts.now ≤ length out.old }
    ensures { WrittenAt at out.old out.new (lists_text costs.now hops.now lasts.now) result × (result ≤ at + 11 * length costs.now + 11 * length hops.now + 11 * length lasts.now) }
{
    let after_costs = write_fields(costs, out, at);
    let after_hops = write_fields(hops, out, after_costs);
    write_fields(lasts, out, after_hops)
}

// The first line at the front of the lent bytes, and its length.
pub fn write_state(
    word: &[u8],
    answer: RunningAnswer,
    after: Running,
    costs: &[u32],
    hops: &[u32],
    lasts: &[u32],
    out: &mut [u8],
) -> usize
    requires { (length word.now ≤ 7) × (85 + 11 * length costs.now + 11 * length hops.now + 11 * length lasts.now ≤ length out.old) }
    ensures { WrittenAt 0 out.old out.new (state_text word.now (running_values answer) after costs.now hops.now lasts.now) result × (result ≤ length out.old) }
{
    let after_answer = write_answer(word, answer, out, 0);
    let after_numbers = write_numbers(after, out, after_answer);
    let after_lists = write_lists(costs, hops, lasts, out, after_numbers);
    write_byte(b'\n', out, after_lists)
}

// The second line at the front of the lent bytes, and its length.
pub fn write_table(table: &[u8], out: &mut [u8]) -> usize
    requires { 11 * length table.now + 1 ≤ length out.old }
    ensures { WrittenAt 0 out.old out.new (fields table.now ++ (newline ∷ [])) result × (result ≤ length out.old) }
{
    let after_bytes = write_byte_fields(table, out, 0);
    write_byte(b'\n', out, after_bytes)
}
