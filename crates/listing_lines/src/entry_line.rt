// Entry lines (01, "Listing program"), by the words of entries.
ghost use mathlib.Core.List.{flat_map};
ghost use Rattle.std.specs.Prelude.{◌+◌, ◌*◌, ◌/◌, ◌≤◌, length};
ghost use Rattle.rule.specs.Lookup.{entry_of, entries_in};
ghost use Rattle.text.specs.Text.{WrittenAt};
ghost use Rattle.listing_lines.specs.Listing.{entry_line};

use entry_codec::reader::{address_of, port_of, vid_of};
use text::digits::write_address;
use text::fields::{write_byte, write_fields, write_word};

// "bridge, VID, port, address in hexadecimal" of the entry of three words.
fn write_entry_line(
    first: u32,
    upper: u32,
    lower: u32,
    bridge: u32,
    out: &mut [u8],
    at: usize,
) -> usize
    requires { at + 52 ≤ length out.old }
    ensures { WrittenAt at out.old out.new (entry_line bridge (entry_of first upper lower)) result × (result ≤ at + 52) }
{
    let numbers = [bridge, vid_of(first), port_of(first)];
    let after_word = write_word(b"entry", out, at);
    let after_numbers = write_fields(&numbers, out, after_word);
    let after_space = write_byte(b' ', out, after_numbers);
    let after_address = write_address(address_of(upper, lower), out, after_space);
    write_byte(b'\n', out, after_address)
}

// A line for each entry of a list, "in list order".
pub fn write_entry_lines(words: &[u32], bridge: u32, out: &mut [u8], at: usize) -> usize
    requires { at + 52 * (length words.now / 3) ≤ length out.old }
    ensures { WrittenAt at out.old out.new (flat_map (entry_line bridge) (entries_in words.now)) result × (result ≤ at + 52 * (length words.now / 3)) }
{
    let mut next = at;
    for i in 0..words.len() / 3 {
        let place = 3 * i;
        next = write_entry_line(
            words[place],
            words[place + 1],
            words[place + 2],
            bridge,
            out,
            next,
        );
    }
    next
}
