// The path line of one pair (01, "Listing program"), by the labels of the tree that is rooted at `to`.
ghost use Rattle.std.specs.Prelude.{◌+◌, ◌≤◌, length};
ghost use Rattle.text.specs.Text.{WrittenAt};
ghost use Rattle.path.specs.Labelled.{labelled_path, Followable};
ghost use Rattle.listing_lines.specs.Listing.{path_line};

use listing_lines::path_line::write_path_answer;
use path::path::labelled_path;

// How many bridges a path has at most.
const LONGEST_PATH: usize = 64;

// Writes what the labels answer to the path call.
pub fn write_path_line(
    labels: &[u32],
    vid: u32,
    from: u32,
    to: u32,
    out: &mut [u8],
    at: usize,
) -> usize
    requires { (320 ≤ length labels.now) × Followable labels.now from × (at + 764 ≤ length out.old) }
    ensures { WrittenAt at out.old out.new (path_line vid from to (labelled_path labels.now from)) result × (result ≤ at + 764) }
{
    let mut list = [0u32; LONGEST_PATH];
    let answer = labelled_path(labels, from, &mut list);
    write_path_answer(answer, &list, vid, from, to, out, at)
}
