// Whether a change may be made, and where (02, A7): every refusal is given before anything is written.
ghost use Rattle.std.specs.Prelude.{◌≡◌};
ghost use Rattle.rule.specs.Words.{words_of};
ghost use Rattle.table.specs.Positions.{plan_at};
ghost use Rattle.verdict.specs.Examination.{Checked};
ghost use Rattle.running.specs.Permission.{permitted_values, lacks_names, plan_permission, permission, RoomOf};

use editing::find::find_half_link;
use edits::change::{HalfLinkName, Running};
use key_index::chain::INDEX;
use rule::refusal::{Fault, Refusal};
use table::records::index_of;
use table::shape::Shape;
use verdict::examine::examine;

// "65,535 changes already made".
const MOST_CHANGES: u32 = 65535;

// The places that each of three lists has.
pub fn room_of(costs: usize, hops: usize, lasts: usize) -> usize
    ensures { RoomOf result costs hops lasts }
{
    costs.min(hops).min(lasts)
}

// "11": the table lacks the watched bridge or VID, or the near bridge that is named.
fn lacks_names(table: &[u8], s: Shape, running: Running, name: HalfLinkName) -> bool
    requires { Checked table.now s }
    ensures { result ≡ lacks_names (plan_at (words_of table.now) s) running name }
{
    if s.bridges <= running.bridge as usize {
        return true;
    }
    if s.bridges <= name.near as usize {
        return true;
    }
    index_of(table, s, running.vid) == 0
}

// The same of a table that passed the check. `fits` says that the metric is in its range, `room` how many places each list has.
fn permit_in_table(
    table: &[u8],
    s: Shape,
    running: Running,
    name: HalfLinkName,
    fits: bool,
    room: usize,
) -> Result<usize, Refusal>
    requires { Checked table.now s }
    ensures { permitted_values result ≡ plan_permission (plan_at (words_of table.now) s) running name fits room }
{
    if lacks_names(table, s, running, name) {
        return Err(Refusal::of_call(Fault::NotInTable));
    }
    let i = find_half_link(table, s, name);
    if s.half_links <= i {
        return Err(Refusal::of_call(Fault::NoHalfLink));
    }
    if !fits {
        return Err(Refusal::of_call(Fault::MetricOutOfRange));
    }
    if MOST_CHANGES <= running.changes {
        return Err(Refusal::of_call(Fault::TooManyChanges));
    }
    if room < s.bridges {
        return Err(Refusal::of_call(Fault::ShortList));
    }
    Ok(s.half_links_from() + 3 * i)
}

// The first word of the half-link named, where the change may be made.
pub fn permit(
    table: &[u8],
    running: Running,
    name: HalfLinkName,
    fits: bool,
    room: usize,
) -> Result<usize, Refusal>
    ensures { permitted_values result ≡ permission table.now running name fits room }
{
    let mut link_index = [0u32; INDEX];
    let s = examine(table, &mut link_index)?;
    permit_in_table(table, s, running, name, fits, room)
}
