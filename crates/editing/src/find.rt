// The half-link that a change names (02, A7).
ghost use Rattle.std.specs.Prelude.{◌≡◌, ◌<◌};
ghost use Rattle.lists.specs.Lists.{first_passing};
ghost use Rattle.rule.specs.Words.{words_of};
ghost use Rattle.table.specs.Positions.{plan_at};
ghost use Rattle.table.specs.Numbered.{half_link_number};
ghost use Rattle.table.specs.Whole.{Whole};
ghost use Rattle.edits.specs.Edits.{is_named};

use edits::change::HalfLinkName;
use table::records::half_link;
use table::shape::Shape;

// Whether the half-link `i` has the name.
fn has_name(table: &[u8], s: Shape, i: usize, name: HalfLinkName) -> bool
    requires { Whole table.now s × (i < s.half_links) }
    ensures { result ≡ is_named name (half_link_number (words_of table.now) s i) }
{
    let h = half_link(table, s, i);
    if h.near != name.near {
        return false;
    }
    h.port == name.port
}

// The number of the first half-link with the name, or the number of half-links where none has it.
pub fn find_half_link(table: &[u8], s: Shape, name: HalfLinkName) -> usize
    requires { Whole table.now s }
    ensures { result ≡ first_passing (is_named name) (plan_at (words_of table.now) s).half_links }
{
    for i in 0..s.half_links {
        if has_name(table, s, i, name) {
            return i;
        }
    }
    s.half_links
}
