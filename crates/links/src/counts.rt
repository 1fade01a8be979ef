// The five counts of a table that passed the check (01, "Calls": check).
ghost use Rattle.std.specs.Prelude.{◌≡◌};
ghost use Rattle.rule.specs.Words.{words_of};
ghost use Rattle.rule.specs.Calls.{counts_of};
ghost use Rattle.table.specs.Positions.{plan_at};
ghost use Rattle.verdict.specs.Examination.{Checked, LinkIndex};

use crate::usable::count_usable;
use rule::answer::Counts;
use table::shape::Shape;

// "counts of bridges, half-links, usable links, VIDs, members".
pub fn counts(table: &[u8], s: Shape, link_index: &[u32]) -> Counts
    requires { Checked table.now s × LinkIndex link_index.now table.now s }
    ensures { result ≡ counts_of (plan_at (words_of table.now) s) }
{
    Counts {
        bridges: s.bridges as u32,
        half_links: s.half_links as u32,
        usable_links: count_usable(table, s, link_index),
        vids: s.vids as u32,
        members: s.members as u32,
    }
}
