// Finding a key: along the chain of its remainder, from later places to earlier ones.
ghost use Rattle.std.specs.Prelude.{◌≡◌, ◌≤◌, ◌<◌};
ghost use Rattle.key_index.specs.Index.{remainder, InChain, Indexed, holds, earlier_place, other_place};
ghost use Rattle.key_index.specs.Places.{last_place};

// As many keys as an index may have, and as many chains.
pub const MOST_KEYS: usize = 512;
// The words of an index: for each chain its last place; for each place its key; for each place the one before it in its chain.
pub const INDEX: usize = 3 * MOST_KEYS;

// Which chain a key belongs to.
pub fn chain_of(key: u32) -> u32
    ensures { (result ≡ remainder key) × (result < 512) }
{
    (key / 65536 * 8 + key % 65536) % 512
}

// The last place up to `from`, a place of the key's chain, that holds the key.
fn last_in_chain(index: &[u32], count: usize, from: u32, key: u32) -> u32
    requires { Indexed index.now count × InChain index.now count from key }
    ensures { result ≡ last_place (holds index.now key) from }
{
    let mut place = from;
    while 0 < place {
        let at = place as usize;
        if index[511 + at] == key {
            return place;
        }
        place = index[1023 + at];
    }
    0
}

// The last of the `count` places that holds the key.
pub fn last_place(index: &[u32], count: usize, key: u32) -> u32
    requires { Indexed index.now count }
    ensures { result ≡ last_place (holds index.now key) count }
{
    let chain = chain_of(key) as usize;
    last_in_chain(index, count, index[chain], key)
}

// The last place before `place` that holds the key which `place` holds.
pub fn place_before(index: &[u32], count: usize, place: u32) -> u32
    requires { Indexed index.now count × (1 ≤ place) × (place ≤ count) }
    ensures { result ≡ earlier_place index.now place }
{
    let at = place as usize;
    last_in_chain(index, count, index[1023 + at], index[511 + at])
}

// Another place that holds the key which `place` holds: the last before it, or where there is none the last of all others.
pub fn other_place(index: &[u32], count: usize, place: u32) -> u32
    requires { Indexed index.now count × (1 ≤ place) × (place ≤ count) }
    ensures { result ≡ other_place index.now count place }
{
    let before = place_before(index, count, place);
    if before != 0 {
        return before;
    }
    let at = place as usize;
    let last = last_place(index, count, index[511 + at]);
    if last == place { 0 } else { last }
}
