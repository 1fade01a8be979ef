// The functions for the C screens, over numbers and byte slices (01, "Calls"). The crate `spb_c` exports them.
ghost use Rattle.std.specs.Prelude.{◌≡◌};
ghost use Rattle.rule.specs.Exported.{exported_check, exported_path_cost};

use key_index::chain::INDEX;
use measures::measure::Cost;
use path::path::path_cost_in_table;
use verdict::examine::examine;

// "Exported check gives 0 or the refusal number."
pub fn spb_check(table: &[u8]) -> u32
    ensures { result ≡ exported_check table.now }
{
    let mut link_index = [0u32; INDEX];
    let examined = examine(table, &mut link_index);
    match examined {
        Ok(_) => 0,
        Err(refusal) => refusal.number,
    }
}

// "Exported path cost gives the cost as a 64-bit number, or 4,294,967,296 plus the refusal number; it takes no list and never gives 13."
pub fn spb_path_cost(table: &[u8], vid: u32, from: u32, to: u32) -> u64
    ensures { result ≡ exported_path_cost table.now vid from to }
{
    let mut link_index = [0u32; INDEX];
    let examined = examine(table, &mut link_index);
    match examined {
        Ok(s) => path_cost_in_table(table, s, &link_index, vid, from, to),
        Err(refusal) => Cost::REFUSED + refusal.number as u64,
    }
}
