// Lent lists before a call: in each place a number that shows whether the call left it alone.
ghost use Rattle.std.specs.Prelude.{◌≡◌, ◌≤◌, length};
ghost use Rattle.probe_input.specs.Lent.{untouched, untouched_bytes};

// What the first place of a list of words is set to, and each place after it to one more: numbers that no call gives.
const UNTOUCHED: u32 = 4000000000;

// What the first place of a list of bytes is set to, and each place after it to one less, 255 again after 0.
const UNTOUCHED_BYTE: usize = 255;

const BYTES: usize = 256;

// Sets every place of a list of words.
pub fn set_untouched(list: &mut [u32])
    requires { length list.old ≤ 14932 }
    ensures { list.new ≡ untouched (length list.old) }
{
    for i in 0..list.len() {
        list[i] = UNTOUCHED + i as u32;
    }
}

// Sets every place of a list of bytes.
pub fn set_untouched_bytes(list: &mut [u8])
    ensures { list.new ≡ untouched_bytes (length list.old) }
{
    for i in 0..list.len() {
        list[i] = (UNTOUCHED_BYTE - i % BYTES) as u8;
    }
}
