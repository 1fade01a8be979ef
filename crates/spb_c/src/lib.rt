// The functions that the C library exports, each with the contract of the function of `spb::exported` that it calls. include/spb.h declares
// them.
#![tactic(auto)]

ghost use Rattle.std.specs.Prelude.{◌≡◌};
ghost use Rattle.rule.specs.Exported.{exported_check, exported_path_cost};

use spb::exported;

// "Exported check gives 0 or the refusal number."
#[unsafe(no_mangle)]
pub extern "C" fn spb_check(table: &[u8]) -> u32
    ensures { result ≡ exported_check table.now }
{
    exported::spb_check(table)
}

// "Exported path cost gives the cost as a 64-bit number, or 4,294,967,296 plus the refusal number; it takes no list and never gives 13."
#[unsafe(no_mangle)]
pub extern "C" fn spb_path_cost(table: &[u8], vid: u32, from: u32, to: u32) -> u64
    ensures { result ≡ exported_path_cost table.now vid from to }
{
    exported::spb_path_cost(table, vid, from, to)
}
