// Entering a key.
ghost use Rattle.std.specs.Prelude.{◌≡◌, ◌+◌, ◌<◌};
ghost use Rattle.key_index.specs.Index.{Indexed, Entered};

use crate::chain::chain_of;

// Enters the key at the place after the `count` places that are taken.
pub fn enter(index: &mut [u32], count: usize, key: u32)
    requires { Indexed index.old count × (count < 512) }
    ensures { Entered index.old index.new count key }
{
    let chain = chain_of(key) as usize;
    index[1024 + count] = index[chain];
    index[512 + count] = key;
    index[chain] = count as u32 + 1;
}
