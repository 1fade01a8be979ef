// A table's check as one line.
ghost use Rattle.std.specs.Prelude.{◌≤◌, length};
ghost use Rattle.rule.specs.Calls.{check_outcome};
ghost use Rattle.text.specs.Text.{WrittenAt};
ghost use Rattle.check_text.specs.CheckText.{check_text};

use check_text::check::write_check;
use spb::check::check;

// The bytes of a line at most.
pub const LONGEST_LINE: usize = 62;

// The line at the front of the lent bytes, and its length.
pub fn write_answer(table: &[u8], out: &mut [u8]) -> usize
    requires { 62 ≤ length out.old }
    ensures { WrittenAt 0 out.old out.new (check_text (check_outcome table.now)) result × (result ≤ 62) }
{
    write_check(check(table), out, 0)
}
