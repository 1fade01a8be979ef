// The line of a refused table (01, "Listing program").
ghost use Rattle.std.specs.Prelude.{◌∷◌, [], ◌+◌, ◌≤◌, length};
ghost use Rattle.text.specs.Text.{line, WrittenAt};
ghost use Rattle.check_text.specs.CheckText.{refused_word};

use text::fields::write_line;

// "A refused table prints `refused`, number, word."
pub fn write_refused(number: u32, word: u32, out: &mut [u8], at: usize) -> usize
    requires { at + 30 ≤ length out.old }
    ensures { WrittenAt at out.old out.new (line refused_word (number ∷ word ∷ [])) result × (result ≤ at + 30) }
{
    let numbers = [number, word];
    write_line(b"refused", &numbers, out, at)
}
