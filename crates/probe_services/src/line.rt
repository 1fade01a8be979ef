// The outcomes of reading and writing services as lines: the answer, and every place of the lent list after the call.
ghost use Rattle.std.specs.Prelude.{◌++◌, ◌≡◌, ◌+◌, ◌*◌, ◌≤◌, ◌<◌, length};
ghost use Rattle.rule.specs.Answers.{read_services_values, write_services_values};
ghost use Rattle.rule.specs.Services.{read_services_outcome, write_services_outcome};
ghost use Rattle.text.specs.Text.{field_text, fields, WrittenAt};
ghost use Rattle.probe_services.specs.ServiceText.{read_word, written_word, answer_text, line_text};

use check_text::check::write_refusal;
use probe_input::bytes::write_byte_fields;
use rule::answer::{ReadServicesAnswer, WriteServicesAnswer};
use services::advertisements::{read_services, write_services};
use text::fields::{write_byte, write_field, write_fields, write_word};

// A word with a number.
fn write_given(word: &[u8], n: u32, out: &mut [u8], at: usize) -> usize
    requires { (length word.now ≤ 7) × (at + 40 ≤ length out.old) }
    ensures { WrittenAt at out.old out.new (word.now ++ field_text n) result × (result ≤ at + 40) }
{
    let after_word = write_word(word, out, at);
    write_field(n, out, after_word)
}

// The answer of reading.
fn write_read_answer(answer: ReadServicesAnswer, out: &mut [u8], at: usize) -> usize
    requires { at + 40 ≤ length out.old }
    ensures { WrittenAt at out.old out.new (answer_text read_word (read_services_values answer)) result × (result ≤ at + 40) }
{
    match answer {
        ReadServicesAnswer::Read { words } => write_given(b"read", words, out, at),
        ReadServicesAnswer::Refused { number, kind, word } => write_refusal(
            number, kind, word, out, at,
        ),
    }
}

// The answer of writing.
fn write_written_answer(answer: WriteServicesAnswer, out: &mut [u8], at: usize) -> usize
    requires { at + 40 ≤ length out.old }
    ensures { WrittenAt at out.old out.new (answer_text written_word (write_services_values answer)) result × (result ≤ at + 40) }
{
    match answer {
        WriteServicesAnswer::Written { bytes } => write_given(b"written", bytes, out, at),
        WriteServicesAnswer::Refused { number, kind, word } => write_refusal(
            number, kind, word, out, at,
        ),
    }
}

// The line of a reading at the front of the lent bytes, and its length.
pub fn write_read(table: &[u8], bytes: &[u8], words: &mut [u32], out: &mut [u8]) -> usize
    requires { 41 + 11 * length words.old ≤ length out.old }
    ensures { WrittenAt 0 out.old out.new (line_text read_word (read_services_outcome table.now bytes.now words.old)) result × (result ≤ length out.old) }
{
    let answer = read_services(table, bytes, words);
    let after_answer = write_read_answer(answer, out, 0);
    let after_list = write_fields(words, out, after_answer);
    write_byte(b'\n', out, after_list)
}

// The line of a writing at the front of the lent bytes, and its length.
pub fn write_written(table: &[u8], bridge: u32, vid: u32, bytes: &mut [u8], out: &mut [u8]) -> usize
    requires { 41 + 11 * length bytes.old ≤ length out.old }
    ensures { WrittenAt 0 out.old out.new (line_text written_word (write_services_outcome table.now bridge vid bytes.old)) result × (result ≤ length out.old) }
{
    let answer = write_services(table, bridge, vid, bytes);
    let after_answer = write_written_answer(answer, out, 0);
    let after_list = write_byte_fields(bytes, out, after_answer);
    write_byte(b'\n', out, after_list)
}
