// A unit printed: first its length, and the bytes only where they fit.
ghost use Rattle.std.specs.Prelude.{◌≡◌, ◌≤◌, length};
ghost use Rattle.refusal.specs.Refusal.{number_of};
ghost use Rattle.record.specs.Tables.{lent};
ghost use Rattle.print.specs.Print.{page_of, refused_text, printed, fitted, print_of, max_fields, lines_of, beside_of};
ghost use Rattle.print.specs.Inner.Written.{Written};

use crate::line;
use record::Record;
use refusal::Refused;

// The six lines, where they fit; the newline of a line goes with the name of the next. Answers how many bytes they take in any case.
fn write_page(
    numbers: &[u64],
    excess: i64,
    masks: &[u64],
    kept: u64,
    h: &[u16],
    g: &[u16],
    aux: &[u64],
    out: &mut [u8],
) -> usize
    requires { (length numbers.now ≤ max_fields) × (length masks.now ≤ max_fields)
        × (length h.now ≤ max_fields) × (length g.now ≤ max_fields) × (length aux.now ≤ max_fields) }
    ensures { Written out.old 0 (page_of numbers.now excess masks.now kept h.now g.now aux.now) out.new result }
{
    let rest = [kept];
    let counts = line::words(b"unit", numbers, out, 0);
    let head = line::signed_field(excess, out, counts);
    let vars = line::words(b"\nvars", masks, out, head);
    let inputs = line::words(b"\nrest", &rest, out, vars);
    let rows = line::words(b"\nh", h, out, inputs);
    let cells = line::words(b"\ng", g, out, rows);
    let last = line::words(b"\naux", aux, out, cells);
    line::byte(b'\n', out, last)
}

// The page where it fits.
fn fit_page(
    numbers: &[u64],
    excess: i64,
    masks: &[u64],
    kept: u64,
    h: &[u16],
    g: &[u16],
    aux: &[u64],
    out: &mut [u8],
) -> usize
    requires { (length numbers.now ≤ max_fields) × (length masks.now ≤ max_fields)
        × (length h.now ≤ max_fields) × (length g.now ≤ max_fields) × (length aux.now ≤ max_fields) }
    ensures { printed result out.new
        ≡ fitted (page_of numbers.now excess masks.now kept h.now g.now aux.now) out.old }
{
    let total = write_page(numbers, excess, masks, kept, h, g, aux, &mut out[..0]);
    if out.len() < total {
        return 0;
    }
    write_page(numbers, excess, masks, kept, h, g, aux, out)
}

// Prints a unit, and answers how many bytes that takes; 0, and nothing is written, where it is not well formed or does not fit.
pub fn print(unit: Record, h: &[u16], g: &[u16], aux: &[u64], out: &mut [u8]) -> usize
    ensures { printed result out.new ≡ print_of unit (lent h.now g.now aux.now) out.old }
{
    if !record::well_formed(unit, h, g, aux) {
        return 0;
    }
    let p = unit.p;
    let n1 = unit.n1;
    let k = unit.k;
    let cells = unit.cells;
    let variables = unit.variables;
    let masks = vectors::masks(variables, p);
    let numbers = [
        unit.n as u64,
        p as u64,
        n1 as u64,
        (p - n1) as u64,
        k as u64,
        cells as u64,
        unit.tries,
    ];
    let rows = 1usize << n1;
    let last = k + 1;
    fit_page(
        &numbers,
        unit.excess,
        &masks[..p],
        unit.kept,
        &h[..rows],
        &g[..cells],
        &aux[..last],
        out,
    )
}

// More numbers than anything printed has.
pub(crate) const MAX_FIELDS: usize = 8192;

// Prints numbers, a line each, and answers how many bytes that takes; 0, and nothing is written, where they are more than 8,192 or do not fit.
pub fn lines(words: &[u64], out: &mut [u8]) -> usize
    ensures { printed result out.new ≡ lines_of words.now out.old }
{
    if MAX_FIELDS < words.len() {
        return 0;
    }
    let size = line::lines(words, &mut out[..0], 0);
    if out.len() < size {
        return 0;
    }
    line::lines(words, out, 0)
}

// The bytes of the longest text whose lines get numbers.
pub const MAX_BYTES: usize = 65536;

// Prints the lines of a text, a number behind each, and answers how many bytes that takes; 0, and nothing is written, where the text has more
// than 65,536 bytes or they do not fit.
pub fn beside(text: &[u8], numbers: &[u64], out: &mut [u8]) -> usize
    ensures { printed result out.new ≡ beside_of text.now numbers.now out.old }
{
    if MAX_BYTES < text.len() {
        return 0;
    }
    let size = line::beside(text, numbers, &mut out[..0], 0);
    if out.len() < size {
        return 0;
    }
    line::beside(text, numbers, out, 0)
}

// Writes the bytes where they fit, and answers how many they are; 0, and nothing is written, where they do not.
pub fn text(bytes: &[u8], out: &mut [u8]) -> usize
    ensures { printed result out.new ≡ fitted bytes.now out.old }
{
    if out.len() < bytes.len() {
        return 0;
    }
    line::bytes(bytes, out, 0)
}

// Prints a refusal by its number and its place, whatever they are: at most 50 bytes.
pub fn refused_number(refusal: u8, place: usize, out: &mut [u8]) -> usize
    ensures { printed result out.new ≡ fitted (refused_text refusal place) out.old }
{
    let numbers = [refusal as u64, place as u64];
    let mut shown = [0u8; 50];
    let named = line::words(b"refused", &numbers, &mut shown, 0);
    let end = line::byte(b'\n', &mut shown, named);
    text(&shown[..end], out)
}

// Prints a refusal.
pub fn refused(refused: Refused, out: &mut [u8]) -> usize
    ensures { printed result out.new ≡ fitted (refused_text (number_of refused.refusal) refused.place) out.old }
{
    refused_number(refused.refusal.number(), refused.place, out)
}
