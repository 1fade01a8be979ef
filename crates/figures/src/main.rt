// Prints the figures of document 01 that are not starred ("64 bridges pass, 65 give 5", and the like for the other limits; "path of 2
// hops into 3 places fits, into 2 gives 13"), the longest entry list and vectors of the standard, each through the real call on a table
// that is made here. A line: what is tried, and what the call says of it.
// Only writing assumes anything: that C's write keeps its contract.
#![tactic(auto)]

mod entry_lists;
mod orders;
mod paths;
mod plan;

ghost use Rattle.std.specs.Prelude.{◌≤◌, length};

use crate::entry_lists::print_entry_lists;
use crate::orders::print_orders;
use crate::paths::print_paths;
use crate::plan::write_table;
use check_text::check::write_check;
use spb::check::check;
use table::shape::Shape;
use text::fields::write_word;

// What the check says of a table, after the name.
fn print_check(name: &[u8], table: &[u8])
    requires { length name.now ≤ 66 }
{
    let mut line = [0u8; 128];
    let after_name = write_word(name, &mut line, 0);
    let end = write_check(check(table), &mut line, after_name);
    io::write_all(1, &line[..end]);
}

// The bytes of a table at most: 65 bridges, 513 half-links, 17 VIDs, 65 members, 257 traffic records, the end record and a word after
// it.
const LONGEST: usize = 4 * (3 * 65 + 3 * 513 + 17 + 2 * 65 + 2 * 257 + 2);

// The table with so many records of each kind, and `more` words 0 after its end record.
fn print_limit(
    name: &[u8],
    bridges: usize,
    half_links: usize,
    vids: usize,
    members: usize,
    traffic: usize,
    more: usize,
)
    requires { (length name.now ≤ 66) × (bridges ≤ 65) × (half_links ≤ 513) × (vids ≤ 17) × (members ≤ 65) × (traffic ≤ 257) × (more ≤ 1) }
{
    let s = Shape {
        bridges: bridges,
        half_links: half_links,
        vids: vids,
        members: members,
        traffic: traffic,
    };
    let mut table = [0u8; LONGEST];
    write_table(s, &mut table);
    let bytes = 4 * (s.words_read() + 1 + more);
    print_check(name, &table[..bytes]);
}

fn main() {
    print_limit(b"64 bridges: ", 64, 0, 0, 0, 0, 0);
    print_limit(b"65 bridges: ", 65, 0, 0, 0, 0, 0);
    print_limit(b"512 half-links: ", 64, 512, 0, 0, 0, 0);
    print_limit(b"513 half-links: ", 64, 513, 0, 0, 0, 0);
    print_limit(b"16 VIDs: ", 0, 0, 16, 0, 0, 0);
    print_limit(b"17 VIDs: ", 0, 0, 17, 0, 0, 0);
    print_limit(b"64 members: ", 64, 0, 1, 64, 0, 0);
    print_limit(b"65 members: ", 64, 0, 1, 65, 0, 0);
    print_limit(b"256 traffic records: ", 64, 0, 1, 0, 256, 0);
    print_limit(b"257 traffic records: ", 64, 0, 1, 0, 257, 0);
    print_limit(b"9540 bytes: ", 64, 512, 16, 64, 256, 0);
    print_limit(b"9544 bytes: ", 64, 512, 16, 64, 256, 1);
    print_paths();
    print_entry_lists();
    print_orders();
}
