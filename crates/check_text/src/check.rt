// The check's answer as one line.
ghost use Rattle.std.specs.Prelude.{◌+◌, ◌≤◌, length};
ghost use Rattle.rule.specs.Outcome.{refused};
ghost use Rattle.rule.specs.Answers.{kind_number, check_values};
ghost use Rattle.text.specs.Text.{line, WrittenAt};
ghost use Rattle.check_text.specs.CheckText.{kind_field, refusal_text, counts_word, counts_fields, check_text};

use rule::answer::{CheckAnswer, Counts, RecordKind};
use text::fields::{write_byte, write_field, write_line, write_word};

// A kind by its number, or `none`.
fn write_kind(kind: RecordKind, out: &mut [u8], at: usize) -> usize
    requires { at + 11 ≤ length out.old }
    ensures { WrittenAt at out.old out.new (kind_field (kind_number kind)) result × (result ≤ at + 11) }
{
    match kind {
        RecordKind::None => write_word(b" none", out, at),
        RecordKind::Bridge => write_field(1, out, at),
        RecordKind::HalfLink => write_field(2, out, at),
        RecordKind::Vid => write_field(3, out, at),
        RecordKind::Member => write_field(4, out, at),
        RecordKind::Traffic => write_field(5, out, at),
        RecordKind::End => write_field(15, out, at),
    }
}

// `counts` and the five counts.
pub fn write_counts(c: Counts, out: &mut [u8], at: usize) -> usize
    requires { at + 62 ≤ length out.old }
    ensures { WrittenAt at out.old out.new (line counts_word (counts_fields c)) result × (result ≤ at + 62) }
{
    let numbers = [c.bridges, c.half_links, c.usable_links, c.vids, c.members];
    write_line(b"counts", &numbers, out, at)
}

// `refused` with number, kind and word.
pub fn write_refusal(number: u32, kind: RecordKind, word: u32, out: &mut [u8], at: usize) -> usize
    requires { at + 40 ≤ length out.old }
    ensures { WrittenAt at out.old out.new (refusal_text number (kind_number kind) word) result × (result ≤ at + 40) }
{
    let after_word = write_word(b"refused", out, at);
    let after_number = write_field(number, out, after_word);
    let after_kind = write_kind(kind, out, after_number);
    write_field(word, out, after_kind)
}

// The refusal's line.
fn write_refused(number: u32, kind: RecordKind, word: u32, out: &mut [u8], at: usize) -> usize
    requires { at + 41 ≤ length out.old }
    ensures { WrittenAt at out.old out.new (check_text (refused number (kind_number kind) word)) result × (result ≤ at + 62) }
{
    let after_refusal = write_refusal(number, kind, word, out, at);
    write_byte(b'\n', out, after_refusal)
}

// One line of 62 bytes at most.
pub fn write_check(answer: CheckAnswer, out: &mut [u8], at: usize) -> usize
    requires { at + 62 ≤ length out.old }
    ensures { WrittenAt at out.old out.new (check_text (check_values answer)) result × (result ≤ at + 62) }
{
    match answer {
        CheckAnswer::Accepted(c) => write_counts(c, out, at),
        CheckAnswer::Refused { number, kind, word } => write_refused(number, kind, word, out, at),
    }
}
