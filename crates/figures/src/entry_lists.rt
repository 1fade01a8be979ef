// The longest entry list, through the real call: bridge 0 of a star of 64 bridges with all 16 VIDs, where every bridge transmits and
// receives in one service, has 14,931 words. Nothing is claimed of the table but what the call says of it.
ghost use Rattle.std.specs.Prelude.{◌+◌, ◌≤◌, ◌<◌, length};

use crate::plan::{bridge_word, put_word, vid_word};
use rule::answer::EntriesAnswer;
use spb::entry_lists::entries;
use text::fields::{write_line, write_word};

// Half-links 2 k and 2 k + 1 make the link k + 1, between bridge 0 on port k + 1 and bridge k + 1 on port 1: metric 10.
fn half_link_word(number: u32, place: u32) -> u32
    requires { number < 126 }
{
    let leaf = number / 2 + 1;
    if place == 0 {
        return 0x2000000a;
    }
    if number % 2 == 0 {
        return if place == 1 { leaf } else { leaf * 65537 };
    }
    if place == 1 {
        return leaf * 65536;
    }
    65536 + leaf
}

// A member at each bridge: T and R, I-SID 256, VID 1.
fn member_word(number: u32, place: u32) -> u32
    requires { number < 64 }
{
    if place == 0 {
        return 0x43000100;
    }
    number * 65536 + 1
}

// The word `n` of the table: 64 bridges, 126 half-links, 16 VIDs, 64 members, the end record.
fn word_of(n: u32) -> u32
    requires { n < 715 }
{
    if n < 192 {
        return bridge_word(n / 3, n % 3);
    }
    if n < 570 {
        return half_link_word((n - 192) / 3, (n - 192) % 3);
    }
    if n < 586 {
        return vid_word(n - 570);
    }
    if n < 714 {
        return member_word((n - 586) / 2, (n - 586) % 2);
    }
    0xf00002ca
}

fn write_star(table: &mut [u8])
    requires { 2860 ≤ length table.old }
{
    for n in 0..715 {
        put_word(table, n, word_of(n as u32));
    }
}

// `written` and the number of words, or `refused` and the number of the refusal.
fn write_answer(answer: EntriesAnswer, line: &mut [u8], at: usize) -> usize
    requires { at + 19 ≤ length line.old }
    ensures { result ≤ at + 19 }
{
    match answer {
        EntriesAnswer::Written { words } => write_line(b"written", &[words], line, at),
        EntriesAnswer::Refused {
            number,
            kind: _,
            word: _,
        } => write_line(b"refused", &[number], line, at),
    }
}

// What the entries call for bridge 0 gives into a lent list.
fn print_entries(name: &[u8], table: &[u8], list: &mut [u32])
    requires { length name.now ≤ 66 }
{
    let answer = entries(table, 0, list);
    let mut line = [0u8; 128];
    let after_name = write_word(name, &mut line, 0);
    let end = write_answer(answer, &mut line, after_name);
    io::write_all(1, &line[..end]);
}

// The figures of entry lists.
pub fn print_entry_lists() {
    let mut star = [0u8; 2860];
    write_star(&mut star);
    print_entries(
        b"14931 words into 14931 places: ",
        &star,
        &mut [0u32; 14931],
    );
    print_entries(
        b"14931 words into 14930 places: ",
        &star,
        &mut [0u32; 14930],
    );
}
