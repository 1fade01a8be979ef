// Lists a plan (01, "Listing program"). Standard input holds the table's bytes; the listing goes to standard output.
//
// Of an input that is longer than a table may be, one byte more than the longest table is read: it is refused with 1, as the whole would
// be. What cannot be written is reported on standard error. The program reads the table, asks the library for the next part of its listing
// and writes it, until none is left; the parts are proved to be together the listing (crates/listing_parts). Only reading and writing assume
// anything: that C's read and write keep their contracts.
#![tactic(auto)]

ghost use Rattle.std.specs.Prelude.{◌≤◌, length};
ghost use Rattle.listing_progress.specs.Remaining.{Underway};

use entries::list::LONGEST_LIST;
use listing_parts::part::LONGEST_PART;
use listing_progress::progress::{Progress, begin_listing, next_part};
use network::parts::NETWORK;
use rule::kinds::LONGEST_TABLE;
use tree::search::PATH_IDS;
use trees::store::EVERY_TREE;

// Whether the text was written.
fn print(text: &[u8]) -> bool {
    if io::write_all(1, text) {
        return true;
    }
    io::write_all(2, b"listing: the listing could not be written\n");
    false
}

// Prints the parts that are left, until one cannot be written.
fn print_parts(
    table: &[u8],
    network: &[u32],
    begun: Progress,
    path_ids: &mut [u64],
    store: &mut [u32],
    words: &mut [u32],
    out: &mut [u8],
)
    requires underway { Underway table.now begun network.now store.old }
    requires in_bounds { (4096 ≤ length path_ids.old) × (14931 ≤ length words.old) × (258804 ≤ length out.old) }
{
    let mut progress = begun;
    while let Some(part) = next_part(table, network, progress, path_ids, store, words, out) {
        if !print(&out[..part.written]) {
            return;
        }
        progress = part.after;
    }
}

// Lists a table: its network and a place for every tree are made once.
fn list(table: &[u8]) {
    let mut network = [0u32; NETWORK];
    let mut path_ids = [0u64; PATH_IDS];
    let mut store = [0u32; EVERY_TREE];
    let mut words = [0u32; LONGEST_LIST];
    let mut out = [0u8; LONGEST_PART];
    let begun = begin_listing(table, &mut network, &store);
    print_parts(
        table,
        &network,
        begun,
        &mut path_ids,
        &mut store,
        &mut words,
        &mut out,
    );
}

fn main() {
    let mut table = [0u8; LONGEST_TABLE + 1];
    let length = io::read_full(0, &mut table);
    list(&table[..length]);
}
