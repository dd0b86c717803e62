// One field of a text: a number in decimal digits.
ghost use Rattle.std.specs.Prelude.{◌≡◌};
ghost use Rattle.input.specs.Fields as fields;
ghost use Rattle.input.specs.Decimal as spec;
ghost use Rattle.input.specs.Inner.{value_in, grown as Inner·grown};

// The largest number that may be written.
pub const MAX_NUMBER: u64 = u64::MAX;

// A space or a newline.
pub fn separator(b: u8) -> bool
    ensures { result ≡ fields.separator b }
{
    b == b' ' || b == b'\n'
}

pub fn digit(b: u8) -> bool
    ensures { result ≡ spec.digit b }
{
    (b'0'..=b'9').contains(&b)
}

// A number with one digit more, the first of its digits where there is none yet; none where the byte is no digit, or the number too large then.
pub(crate) fn grown(number: Option<u64>, b: u8) -> Option<u64>
    ensures { result ≡ Inner·grown number b }
{
    if !digit(b) {
        return None;
    }
    let d = u64::from(b - b'0');
    let more = number.unwrap_or(0).checked_mul(10)?.checked_add(d)?;
    Some(more)
}

// The value of a field, if it is a number.
pub(crate) fn value_of(field: &[u8]) -> Option<u64>
    ensures { result ≡ value_in field.now }
{
    let mut number = None;
    for b in field {
        number = Some(grown(number, *b)?);
    }
    number
}
