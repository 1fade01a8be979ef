// What a sub-TLV or a call names in the table: the bridge of a B-MAC, and a VID (02, A2; 01, "Refusals in checking order", 11).
ghost use Rattle.std.specs.Prelude.{◌≡◌, ◌<◌};
ghost use Rattle.lists.specs.Lists.{first_passing};
ghost use Rattle.rule.specs.Words.{words_of};
ghost use Rattle.rule.specs.Plan.{known_vid};
ghost use Rattle.rule.specs.Records.{address};
ghost use Rattle.rule.specs.Services.{has_address};
ghost use Rattle.table.specs.Positions.{plan_at};
ghost use Rattle.table.specs.Numbered.{bridge_number};
ghost use Rattle.verdict.specs.Examination.{Checked};

use crate::layout::ADDRESSES;
use earlier::repeats::is_vid_known;
use table::records::bridge;
use table::shape::Shape;

// The address of the bridge `d`.
pub fn address_of(table: &[u8], s: Shape, d: usize) -> u64
    requires { Checked table.now s × (d < s.bridges) }
    ensures { result ≡ address (bridge_number (words_of table.now) d) }
{
    bridge(table, s, d).identifier % ADDRESSES
}

// The number of the bridge with this address, or the number of bridges where none has it.
pub fn bridge_with(table: &[u8], s: Shape, address: u64) -> usize
    requires { Checked table.now s }
    ensures { result ≡ first_passing (has_address address) (plan_at (words_of table.now) s).bridges }
{
    for d in 0..s.bridges {
        if address_of(table, s, d) == address {
            return d;
        }
    }
    s.bridges
}

// Whether the VID has a record.
pub fn has_vid(table: &[u8], s: Shape, vid: u32) -> bool
    requires { Checked table.now s }
    ensures { result ≡ known_vid (plan_at (words_of table.now) s) vid }
{
    is_vid_known(table, s.vids_from(), s.vids, vid)
}
