// Lookup (01, "Calls").
ghost use Rattle.std.specs.Prelude.{◌≡◌};
ghost use Rattle.rule.specs.Answers.{lookup_values};
ghost use Rattle.rule.specs.Lookup.{lookup_outcome};

use lookup::list::port_in_list;
use rule::answer::LookupAnswer;

// "Lookup (entry list, VID, address, n): port of the matching entry n, counted from 0 in list order, or none." "Lookup takes no table".
pub fn lookup(list: &[u32], vid: u32, address: u64, n: u32) -> LookupAnswer
    ensures { lookup_values result ≡ lookup_outcome list.now vid address n }
{
    port_in_list(list, vid, address, n)
}
