// Words, fields and lines. Each is written from a place of lent bytes on, and the place after it is given.
ghost use Rattle.std.specs.Prelude.{◌∷◌, [], ◌+◌, ◌*◌, ◌≤◌, length};
ghost use Rattle.text.specs.Text.{field_text, fields, line, WrittenAt};

use crate::digits::write_decimal;

// The bytes of a word.
pub fn write_word(word: &[u8], out: &mut [u8], at: usize) -> usize
    requires { at + length word.now ≤ length out.old }
    ensures { WrittenAt at out.old out.new word.now result }
{
    let next = at + word.len();
    out[at..next].copy_from_slice(word);
    next
}

// One byte.
pub fn write_byte(b: u8, out: &mut [u8], at: usize) -> usize
    requires { at + 1 ≤ length out.old }
    ensures { WrittenAt at out.old out.new (b ∷ []) result }
{
    out[at] = b;
    at + 1
}

// A space and a number.
pub fn write_field(n: u32, out: &mut [u8], at: usize) -> usize
    requires { at + 11 ≤ length out.old }
    ensures { WrittenAt at out.old out.new (field_text n) result × (result ≤ at + 11) }
{
    let after_space = write_byte(b' ', out, at);
    write_decimal(n, out, after_space)
}

// A field for each number.
pub fn write_fields(numbers: &[u32], out: &mut [u8], at: usize) -> usize
    requires { at + 11 * length numbers.now ≤ length out.old }
    ensures { WrittenAt at out.old out.new (fields numbers.now) result × (result ≤ at + 11 * length numbers.now) }
{
    let mut next = at;
    for n in numbers {
        next = write_field(*n, out, next);
    }
    next
}

// A word, a field for each number, and the newline.
pub fn write_line(word: &[u8], numbers: &[u32], out: &mut [u8], at: usize) -> usize
    requires { at + length word.now + 11 * length numbers.now + 1 ≤ length out.old }
    ensures { WrittenAt at out.old out.new (line word.now numbers.now) result × (result ≤ at + length word.now + 11 * length numbers.now + 1) }
{
    let after_word = write_word(word, out, at);
    let after_fields = write_fields(numbers, out, after_word);
    write_byte(b'\n', out, after_fields)
}
