// Words of a part of a table, and a word written.
ghost use Rattle.std.specs.Prelude.{◌≡◌, ◌+◌, ◌*◌, ◌<◌, ◌≤◌, length};
ghost use Rattle.lists.specs.Appending.{Appended};
ghost use Rattle.rule.specs.Words.{word, words_of, bytes_of};

// "Bytes make words of 32 bits, high byte first": the first word of the part.
fn first_word(part: &[u8]) -> u32
    requires { 4 ≤ length part.now }
    ensures { (result ≡ word (words_of part.now) 0) × (result < 4294967296) }
{
    u32::from(part[0]) * 16777216
        + u32::from(part[1]) * 65536
        + u32::from(part[2]) * 256
        + u32::from(part[3])
}

// The word `n` of the part.
pub fn word_at(part: &[u8], n: usize) -> u32
    requires { 4 * n + 4 ≤ length part.now }
    ensures { (result ≡ word (words_of part.now) n) × (result < 4294967296) }
{
    let at = 4 * n;
    first_word(&part[at..])
}

// Writes the four bytes of a word, "high byte first", from the place `at` on. Gives the place after them.
pub fn write_word(bytes: &mut [u8], at: usize, word: u32) -> usize
    requires { at + 4 ≤ length bytes.old }
    ensures { Appended bytes.old at (bytes_of word) bytes.new result }
{
    bytes[at] = (word / 16777216) as u8;
    bytes[at + 1] = (word / 65536 % 256) as u8;
    bytes[at + 2] = (word / 256 % 256) as u8;
    bytes[at + 3] = (word % 256) as u8;
    at + 4
}
