// An entry by its three words (01, "Calls" and 14 under "Refusals in checking order"): its faults, and whether it is one that is looked for.
ghost use Rattle.std.specs.Prelude.{◌≡◌, ◌&&◌, eqb};
ghost use Rattle.rule.specs.Words.{bits};
ghost use Rattle.rule.specs.Lookup.{entry_of, faulty_entry};

use entry_codec::group_address::group_bit;
use entry_codec::layout::INDIVIDUAL;
use entry_codec::reader::{address_of, kind_of, port_of, vid_of, zero_bits_of};
use numbers::number::within;

// 14: "an unknown kind, a VID or port outside its range under "The table", a zero bit set, or an address whose group bit
// disagrees with the kind".
pub fn is_faulty(first: u32, upper: u32, lower: u32) -> bool
    ensures { result ≡ faulty_entry (entry_of first upper lower) (bits upper 31 16) }
{
    if !within(vid_of(first) as u64, 1, 4094) {
        return true;
    }
    if !within(port_of(first) as u64, 1, 4095) {
        return true;
    }
    if zero_bits_of(upper) != 0 {
        return true;
    }
    // A kind other than 8 and 9 agrees with neither group bit.
    INDIVIDUAL + group_bit(address_of(upper, lower)) != kind_of(first)
}

// Whether the entry has the VID and the address.
pub fn is_match(first: u32, upper: u32, lower: u32, vid: u32, address: u64) -> bool
    ensures { result ≡ (eqb (entry_of first upper lower).vid vid && eqb (entry_of first upper lower).address address) }
{
    if vid_of(first) != vid {
        return false;
    }
    address_of(upper, lower) == address
}
