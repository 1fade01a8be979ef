// Tables read from standard input, each after its length in bytes as a word of 32 bits, high byte first.
ghost use Rattle.std.specs.Prelude.{◌≤◌, length as List·length};
ghost use Rattle.probe_input.specs.Lengths.{length_of};

use crate::report::report;
use readers::words::word_at;

// A table's bytes at most: more than the longest table that passes the check has, so that longer ones are tried too.
pub const LONGEST: usize = 10240;

// A proved loop has to end, and nothing says that the input does: a number of turns that no run uses up.
pub const TURNS: u64 = u64::MAX;

// Whether the next bytes of the input fill the lent ones.
pub fn read_bytes(bytes: &mut [u8]) -> bool {
    let got = io::read_full(0, bytes);
    got == bytes.len()
}

// Reads the next table: of so many bytes, which are the first of the lent ones. No table: the input ended, or what is wrong was reported.
pub fn next_table(program: &[u8], table: &mut [u8]) -> Option<usize>
    requires { 10240 ≤ List·length table.old }
    ensures { length_of result ≤ 10240 }
{
    let mut head = [0u8; 4];
    let start = io::read_full(0, &mut head);
    if start == 0 {
        return None;
    }
    if start < 4 {
        report(program, b"the input ends inside a length");
        return None;
    }
    let length = word_at(&head, 0) as usize;
    if LONGEST < length {
        report(program, b"a table of more than 10,240 bytes");
        return None;
    }
    if !read_bytes(&mut table[..length]) {
        report(program, b"the input ends inside a table");
        return None;
    }
    Some(length)
}

// Reads table after table and hands each to `answer`, until there is none or the answer says that the run ends.
pub fn answer_tables<F: Fn(&mut [u8]) -> bool>(program: &[u8], answer: F)
    requires { (lent : _) → List·length lent.now ≤ 10240 → F.pre answer lent }
{
    for _ in 0..TURNS {
        let mut table = [0u8; LONGEST];
        let Some(length) = next_table(program, &mut table) else {
            return;
        };
        if !answer(&mut table[..length]) {
            return;
        }
    }
}
