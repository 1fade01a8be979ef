// Numbers as digits: decimal, and addresses in hexadecimal. Each is written from a place of lent bytes on, and the place after it is
// given.
ghost use Rattle.std.specs.Prelude.{◌≡◌, ◌+◌, ◌≤◌, ◌<◌, length};
ghost use Rattle.lists.specs.Lists.{spliced};
ghost use Rattle.text.specs.Text.{digit, digits_of, places, decimal_of, address, WrittenAt};

fn decimal_digit(d: u32) -> u8
    requires { d < 10 }
    ensures { result ≡ digit d }
{
    48 + d as u8
}

// How many decimal digits the number has.
fn decimal_places(n: u32) -> usize
    ensures { (result ≡ places 9 n) × (result ≤ 10) }
{
    let mut rest = n;
    for count in 1..10 {
        if rest < 10 {
            return count;
        }
        rest /= 10;
    }
    10
}

// The last `count` decimal digits.
fn write_last_digits(n: u32, count: usize, out: &mut [u8], at: usize)
    requires { at + count ≤ length out.old }
    ensures { out.new ≡ spliced out.old at (digits_of 10 count n) }
{
    let mut rest = n;
    for left in (0..count).rev() {
        out[at + left] = decimal_digit(rest % 10);
        rest /= 10;
    }
}

// "Fields are decimal".
pub fn write_decimal(n: u32, out: &mut [u8], at: usize) -> usize
    requires { at + 10 ≤ length out.old }
    ensures { WrittenAt at out.old out.new (decimal_of n) result }
{
    let count = decimal_places(n);
    write_last_digits(n, count, out, at);
    at + count
}

fn hexadecimal_digit(d: u64) -> u8
    requires { d < 16 }
    ensures { result ≡ digit d }
{
    if d < 10 {
        return 48 + d as u8;
    }
    87 + d as u8
}

// "addresses, which have 12 lower-case digits".
pub fn write_address(a: u64, out: &mut [u8], at: usize) -> usize
    requires { at + 12 ≤ length out.old }
    ensures { WrittenAt at out.old out.new (address a) result }
{
    let mut rest = a;
    for left in (0..12).rev() {
        out[at + left] = hexadecimal_digit(rest % 16);
        rest /= 16;
    }
    at + 12
}
