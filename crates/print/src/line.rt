// The pieces of a line. Each is written at a place of the target, if it ends within the target, and the place past it is answered in any case:
// so that a text is measured by writing it to an empty target.
ghost use Rattle.std.specs.Prelude.{[], ◌∷◌, ◌+◌, ◌*◌, ◌≤◌, ◌<◌, length};
ghost use Rattle.print.specs.Decimal.{decimal as Decimal·decimal, signed};
ghost use Rattle.print.specs.Line.{space, lines as Line·lines, beside as Line·beside};
ghost use Rattle.print.specs.Inner.Written.{Written, WrittenFields, max_place};

use crate::decimal;

pub(crate) fn byte(b: u8, out: &mut [u8], at: usize) -> usize
    requires { at < max_place }
    ensures { Written out.old at (b ∷ []) out.new result }
{
    if out.len() <= at {
        return at + 1;
    }
    out[at] = b;
    at + 1
}

pub(crate) fn bytes(name: &[u8], out: &mut [u8], at: usize) -> usize
    requires { at + length name.now ≤ max_place }
    ensures { Written out.old at name.now out.new result }
{
    let mut end = at;
    for b in name {
        end = byte(*b, out, end);
    }
    end
}

// A space and a number.
fn field(n: u64, out: &mut [u8], at: usize) -> usize
    requires { at + 21 ≤ max_place }
    ensures { Written out.old at (space ∷ Decimal·decimal n) out.new result }
{
    let after = byte(b' ', out, at);
    decimal::put(n, out, after)
}

// A space and a signed number.
pub(crate) fn signed_field(n: i64, out: &mut [u8], at: usize) -> usize
    requires { at + 22 ≤ max_place }
    ensures written { Written out.old at (space ∷ signed n) out.new result }
    ensures upper_bound { result ≤ at + 22 }
{
    let size = n.unsigned_abs();
    if n < 0 {
        let after = bytes(b" -", out, at);
        return decimal::put(size, out, after);
    }
    field(size, out, at)
}

// A name, and numbers with a space before each.
pub(crate) fn words<T: Copy + Into<u64>>(
    name: &[u8],
    words: &[T],
    out: &mut [u8],
    at: usize,
) -> usize
    requires { at + length name.now + 21 * length words.now ≤ max_place }
    ensures written { WrittenFields T.converts name.now words.now out.old at out.new result }
    ensures upper_bound { result ≤ at + length name.now + 21 * length words.now }
{
    let mut end = bytes(name, out, at);
    for word in words {
        end = field((*word).into(), out, end);
    }
    end
}

// Numbers, a line each.
pub(crate) fn lines(words: &[u64], out: &mut [u8], at: usize) -> usize
    requires { at + 21 * length words.now ≤ max_place }
    ensures { Written out.old at (Line·lines words.now) out.new result }
{
    let mut end = at;
    for word in words {
        let after = decimal::put(*word, out, end);
        end = byte(b'\n', out, after);
    }
    end
}

// The lines of a text, a number behind each.
pub(crate) fn beside(text: &[u8], numbers: &[u64], out: &mut [u8], at: usize) -> usize
    requires { at + 22 * length text.now ≤ max_place }
    ensures { Written out.old at (Line·beside text.now numbers.now) out.new result }
{
    let mut end = at;
    let mut rest = numbers.iter();
    for b in text {
        if *b == b'\n' {
            let n = rest.next().copied().unwrap_or(0);
            end = field(n, out, end);
        }
        end = byte(*b, out, end);
    }
    end
}
