// Numbers in decimal.
ghost use Rattle.std.specs.Prelude.{◌≡◌, ◌+◌, ◌≤◌, length};
ghost use Rattle.print.specs.Decimal.{decimal};
ghost use Rattle.print.specs.Inner.Written.{Written, max_place};

use crate::line;

// How many digits n has.
fn digits(n: u64) -> usize
    ensures { result ≡ length (decimal n) }
{
    n.max(1).ilog10() as usize + 1
}

// Writes n, the last digit first.
pub(crate) fn put(n: u64, out: &mut [u8], at: usize) -> usize
    requires { at + 20 ≤ max_place }
    ensures { Written out.old at (decimal n) out.new result }
{
    // Most numbers of a unit with many free cells are 0.
    if n < 10 {
        return line::byte(b'0' + n as u8, out, at);
    }
    let end = at + digits(n);
    if out.len() < end {
        return end;
    }
    let mut rest = n;
    for i in (at..end).rev() {
        out[i] = b'0' + (rest % 10) as u8;
        rest /= 10;
    }
    end
}
