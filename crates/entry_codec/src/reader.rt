// The fields of an entry, read from its three words (01, "Entries").
ghost use Rattle.std.specs.Prelude.{◌≡◌, ◌<◌};
ghost use Rattle.rule.specs.Words.{bits};
ghost use Rattle.rule.specs.Lookup.{entry_of};

use crate::layout::{KIND_UNIT, KINDS, PORTS, UPPER_VALUES, VID_UNIT, VIDS};
use numbers::number::two_words;

// "kind 8 (individual) or 9 (group) in bits 31..28".
pub fn kind_of(first: u32) -> u32
    ensures { result ≡ bits first 31 28 }
{
    first / KIND_UNIT % KINDS
}

// "VID in 27..16".
pub fn vid_of(first: u32) -> u32
    ensures { (result ≡ bits first 27 16) × (result < 4096) }
{
    first / VID_UNIT % VIDS
}

// "port in 15..0".
pub fn port_of(first: u32) -> u32
    ensures { (result ≡ bits first 15 0) × (result < 65536) }
{
    first % PORTS
}

// "16 zero bits".
pub fn zero_bits_of(upper: u32) -> u32
    ensures { result ≡ bits upper 31 16 }
{
    upper / UPPER_VALUES
}

// "the upper 16 bits of address; its lower 32 bits".
pub fn address_of(upper: u32, lower: u32) -> u64
    ensures { result ≡ (entry_of 0 upper lower).address }
{
    two_words(upper % UPPER_VALUES, lower)
}
