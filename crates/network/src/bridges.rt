// What a network has of the record of each bridge, its mark and its identifier without the extension, and the keys of the bridges (01, "The
// chosen path"; 02, A6).
ghost use Rattle.std.specs.Prelude.{◌≡◌, ◌+◌, ◌*◌, ◌≤◌, length};
ghost use Rattle.rule.specs.Words.{words_of};
ghost use Rattle.rule.specs.Identifiers.{without_extension};
ghost use Rattle.table.specs.Positions.{plan_at};
ghost use Rattle.table.specs.Whole.{Whole};
ghost use Rattle.network.specs.Layout.{network_words, bridges_in};
ghost use Rattle.network.specs.Networks.{mark_of, BridgeWords, KeysOf};

use crate::parts::{bridges, identifier};
use ect::mask::masked_identifier;
use rule::kinds::MOST_BRIDGES;
use table::records::bridge;
use table::shape::Shape;

// Where the identifiers begin in the words below: behind the marks.
const IDENTIFIERS_AFTER: usize = MOST_BRIDGES;
// The lowest bit above the address, which has 48 bits.
const ABOVE_ADDRESS: u64 = 281474976710656;
// The lowest bit above the extension, which has the next 12.
const ABOVE_EXTENSION: u64 = 1152921504606846976;

// The identifier with the 12 bits of the extension cleared: the bits above it and the address stay.
fn without_extension(identifier: u64) -> u64
    ensures { result ≡ without_extension identifier }
{
    identifier / ABOVE_EXTENSION * ABOVE_EXTENSION + identifier % ABOVE_ADDRESS
}

// The marks of the bridges by number, and behind them their identifiers without the extension, two words each, written to the front of a
// lent list.
pub fn write_bridges(table: &[u8], s: Shape, words: &mut [u32])
    requires { Whole table.now s × (s.bridges ≤ 64) × (64 + 2 * s.bridges ≤ length words.old) }
    ensures { BridgeWords (plan_at (words_of table.now) s) s.bridges words.new }
{
    for u in 0..s.bridges {
        let b = bridge(table, s, u);
        let identifier = without_extension(b.identifier);
        words[u] = u32::from(b.overloaded);
        words[IDENTIFIERS_AFTER + 2 * u] = (identifier / 4294967296) as u32;
        words[IDENTIFIERS_AFTER + 2 * u + 1] = (identifier % 4294967296) as u32;
    }
}

// The key of each bridge: its masked identifier, written to the front of a lent list.
pub fn write_keys(network: &[u32], mask: u8, keys: &mut [u64])
    requires { (network_words ≤ length network.now) × (bridges_in network.now ≤ 64) × (bridges_in network.now ≤ length keys.old) }
    ensures { KeysOf network.now mask keys.new }
{
    let n = bridges(network);
    for u in 0..n {
        keys[u] = masked_identifier(identifier(network, u), mask);
    }
}
