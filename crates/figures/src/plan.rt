// Tables with a given number of records of each kind, word by word. Of their records the bridges lie in a ring with parallel links,
// and every service has one member. Nothing is claimed of these tables but what the check says of them.
ghost use Rattle.std.specs.Prelude.{◌+◌, ◌*◌, ◌<◌, ◌≤◌, length};
ghost use Rattle.table.specs.Positions.{words_read};

use table::shape::Shape;

// Bridge i: SPsourceID i + 1, priority 8000, address 020000000000 and i + 1.
pub fn bridge_word(number: u32, place: u32) -> u32
    requires { number < 4096 }
{
    if place == 0 {
        return 0x10000001 + number;
    }
    if place == 1 {
        return 0x80000200;
    }
    number + 1
}

// Half-links 2 k and 2 k + 1 make the link k + 1, between bridge k and the next of 64: metric 10, each on a port of its own.
fn half_link_word(number: u32, place: u32) -> u32
    requires { number < 4096 }
{
    if place == 0 {
        return 0x2000000A;
    }
    if place == 2 {
        return (number + 1) * 65536 + number / 2 + 1;
    }
    let one = number / 2 % 64;
    let next = (one + 1) % 64;
    if number % 2 == 0 {
        return one * 65536 + next;
    }
    next * 65536 + one
}

// VID k + 1, the ECT indexes in turn.
pub fn vid_word(number: u32) -> u32
    requires { number < 4096 }
{
    0x30000000 + (number + 1) * 65536 + number % 16 + 1
}

// Member m: T and R, I-SID 256 + m, VID 1, the bridges in turn.
fn member_word(number: u32, place: u32) -> u32
    requires { number < 4096 }
{
    if place == 0 {
        return 0x43000100 + number;
    }
    number % 64 * 65536 + 1
}

// Traffic i: VID 1, amount i + 1, from the bridges in turn, to the one that is 1 further for the first 64, 2 for the next 64, and so on.
fn traffic_word(number: u32, place: u32) -> u32
    requires { number < 4096 }
{
    if place == 0 {
        return 0x50010001 + number;
    }
    let from = number % 64;
    from * 65536 + (from + 1 + number / 64) % 64
}

// The word `n` of the table with the records of `s`: of a bridge, a half-link, a VID, a member, a traffic record, or the end record.
fn word_of(s: Shape, n: u32) -> u32
    requires { (words_read s < 4096) × (n < 4096) }
{
    let half_links = s.half_links_from() as u32;
    let vids = s.vids_from() as u32;
    let members = s.members_from() as u32;
    let traffic = s.traffic_from() as u32;
    if n < half_links {
        return bridge_word(n / 3, n % 3);
    }
    if n < vids {
        return half_link_word((n - half_links) / 3, (n - half_links) % 3);
    }
    if n < members {
        return vid_word(n - vids);
    }
    if n < traffic {
        return member_word((n - members) / 2, (n - members) % 2);
    }
    if n < s.words_read() as u32 {
        return traffic_word((n - traffic) / 2, (n - traffic) % 2);
    }
    0xF0000000 + n
}

// The four bytes of a word, high byte first.
pub fn put_word(table: &mut [u8], n: usize, word: u32)
    requires { 4 * n + 4 ≤ length table.old }
{
    table[4 * n] = (word / 16777216) as u8;
    table[4 * n + 1] = (word / 65536 % 256) as u8;
    table[4 * n + 2] = (word / 256 % 256) as u8;
    table[4 * n + 3] = (word % 256) as u8;
}

// The table's bytes at the front of the lent ones.
pub fn write_table(s: Shape, table: &mut [u8])
    requires { (words_read s < 4096) × (4 * words_read s + 4 ≤ length table.old) }
{
    let words = s.words_read() + 1;
    for n in 0..words {
        put_word(table, n, word_of(s, n as u32));
    }
}
