// Paths through the real call, on two tables given word by word: the standard's two comparisons of PATHIDs (28.5), and "path of 2 hops
// into 3 places fits, into 2 gives 13".
ghost use Rattle.std.specs.Prelude.{◌+◌, ◌*◌, ◌≤◌, length};

use crate::plan::put_word;
use measures::measure::{Cost, Hops};
use rule::answer::PathAnswer;
use spb::paths::path;
use text::fields::{write_byte, write_field, write_fields, write_line, write_word};

// Bridges 0 to 5 with the identifiers 9, 22, 15, 7, 8 and 10. From 9 to 22 two ways cost 12: by 15, and by 7, 8 and 10.
const FEWER: [u32; 56] = [
    0x10000001, 0x00000000, 0x00000009, 0x10000002, 0x00000000, 0x00000016, 0x10000003, 0x00000000,
    0x0000000f, 0x10000004, 0x00000000, 0x00000007, 0x10000005, 0x00000000, 0x00000008, 0x10000006,
    0x00000000, 0x0000000a, 0x20000006, 0x00000002, 0x00010001, 0x20000006, 0x00020000, 0x00010001,
    0x20000006, 0x00020001, 0x00020002, 0x20000006, 0x00010002, 0x00010002, 0x20000003, 0x00000003,
    0x00020003, 0x20000003, 0x00030000, 0x00010003, 0x20000003, 0x00030004, 0x00020004, 0x20000003,
    0x00040003, 0x00010004, 0x20000003, 0x00040005, 0x00020005, 0x20000003, 0x00050004, 0x00010005,
    0x20000003, 0x00050001, 0x00020006, 0x20000003, 0x00010005, 0x00020006, 0x30010001, 0xf0000037,
];

// Bridges 0 to 4 with the identifiers 9, 22, 15, 99 and 100. From 9 to 22 two ways cost 30: by 15 and 99, and by 15 and 100.
const LOWER: [u32; 47] = [
    0x10000001, 0x00000000, 0x00000009, 0x10000002, 0x00000000, 0x00000016, 0x10000003, 0x00000000,
    0x0000000f, 0x10000004, 0x00000000, 0x00000063, 0x10000005, 0x00000000, 0x00000064, 0x2000000a,
    0x00000002, 0x00010001, 0x2000000a, 0x00020000, 0x00010001, 0x2000000a, 0x00020004, 0x00020002,
    0x2000000a, 0x00040002, 0x00010002, 0x2000000a, 0x00020003, 0x00030003, 0x2000000a, 0x00030002,
    0x00010003, 0x2000000a, 0x00040001, 0x00020004, 0x2000000a, 0x00010004, 0x00010004, 0x2000000a,
    0x00030001, 0x00020005, 0x2000000a, 0x00010003, 0x00020005, 0x30010001, 0xf000002e,
];

// The words of a table as bytes, at the front of the lent ones.
fn write_words(words: &[u32], table: &mut [u8])
    requires { 4 * length words.now ≤ length table.old }
{
    for n in 0..words.len() {
        put_word(table, n, words[n]);
    }
}

// `path`, cost, hops and the places of the list.
fn write_given(cost: Cost, hops: Hops, list: &[u32], line: &mut [u8], at: usize) -> usize
    requires { at + 27 + 11 * length list.now ≤ length line.old }
    ensures { result ≤ at + 27 + 11 * length list.now }
{
    let after_word = write_word(b"path", line, at);
    let after_cost = write_field(cost.0, line, after_word);
    let after_hops = write_field(hops.0, line, after_cost);
    let after_list = write_fields(list, line, after_hops);
    write_byte(b'\n', line, after_list)
}

// That, or `refused` and the number.
fn write_answer(answer: PathAnswer, list: &[u32], line: &mut [u8], at: usize) -> usize
    requires { at + 27 + 11 * length list.now ≤ length line.old }
    ensures { result ≤ at + 27 + 11 * length list.now }
{
    match answer {
        PathAnswer::Given { cost, hops } => write_given(cost, hops, list, line, at),
        PathAnswer::Refused {
            number,
            kind: _,
            word: _,
        } => write_line(b"refused", &[number], line, at),
    }
}

// What the path call from bridge 0 to bridge 1 for VID 1 gives into a lent list.
fn print_path(name: &[u8], table: &[u8], list: &mut [u32])
    requires { (length name.now ≤ 66) × (length list.old ≤ 8) }
{
    let answer = path(table, 1, 0, 1, list);
    let mut line = [0u8; 256];
    let after_name = write_word(name, &mut line, 0);
    let end = write_answer(answer, &list[..], &mut line, after_name);
    io::write_all(1, &line[..end]);
}

// The figures of paths.
pub fn print_paths() {
    let mut fewer = [0u8; 224];
    write_words(&FEWER, &mut fewer);
    print_path(b"2 hops into 3 places: ", &fewer, &mut [0u32; 3]);
    print_path(b"2 hops into 2 places: ", &fewer, &mut [0u32; 2]);
    print_path(
        b"28.5, 9 15 22 before 7 8 9 10 22: ",
        &fewer,
        &mut [0u32; 3],
    );
    let mut lower = [0u8; 188];
    write_words(&LOWER, &mut lower);
    print_path(
        b"28.5, 9 15 22 99 before 9 15 22 100: ",
        &lower,
        &mut [0u32; 4],
    );
}
