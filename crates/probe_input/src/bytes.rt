// Lists of bytes as fields of a line.
ghost use Rattle.std.specs.Prelude.{◌≡◌, ◌+◌, ◌*◌, ◌≤◌, ◌<◌, length};
ghost use Rattle.text.specs.Text.{fields, WrittenAt};

use text::fields::write_field;

// A field for each byte.
pub fn write_byte_fields(bytes: &[u8], out: &mut [u8], at: usize) -> usize
    requires { at + 11 * length bytes.now ≤ length out.old }
    ensures { WrittenAt at out.old out.new (fields bytes.now) result × (result ≤ at + 11 * length bytes.now) }
{
    let mut next = at;
    for b in bytes {
        next = write_field(u32::from(*b), out, next);
    }
    next
}
