// The images of bytes, in eight tables: one for each byte of a word.
ghost use Rattle.std.specs.Prelude.{◌≡◌, ℕ, ◌+◌, ◌*◌, ◌/◌, ◌%◌, ◌^◌, ◌<◌, ◌≤◌, length, get_or, replicate};
ghost use Rattle.std.specs.Int.Bits.{bit_xor};
ghost use Rattle.vectors.specs.Bounds.{max_inputs};
ghost use Rattle.many.specs.Image.{Linear};
ghost use Rattle.many.specs.Inner.Images.{word_bytes, byte_bits, byte_values, table_words, narrow_bits, OnBits, Below, Tabled, Narrow};

// The bytes of a word, the bits of a byte, its values, and the words of all tables.
const BYTES: usize = 8;

pub(crate) const BITS: usize = 8;

const VALUES: usize = 256;

pub(crate) const WORDS: usize = BYTES * VALUES;

// The first number that has an eighth byte.
pub(crate) const EIGHTH: u64 = 0x100_0000_0000_0000;

// As many words again: each of the first span with image added.
fn double(table: &mut [u64], span: usize, image: u64)
    requires { span + span ≤ length table.old }
    ensures { (m : ℕ) → m < span → (get_or table.new m 0 ≡ get_or table.old m 0)
        × (get_or table.new (span + m) 0 ≡ bit_xor (get_or table.old m 0) image) }
{
    for m in 0..span {
        table[span + m] = table[m] ^ image;
    }
}

// The images of the 256 bytes, from those of the eight bits.
fn fill_one(images: &[u64], table: &mut [u64])
    requires { (length images.now ≡ byte_bits) × (length table.old ≡ byte_values) }
    ensures { (f : ℕ → ℕ) → Linear f → OnBits byte_bits f images.now → Below byte_values f table.new }
{
    table[0] = 0;
    let mut span = 1;
    for image in images {
        double(table, span, *image);
        span *= 2;
    }
}

// The images of the first bytes of a word, from those of its bits, into tables of zeros. So many bytes are enough for keys that have no more.
pub(crate) fn fill(images: &[u64], bytes: usize, tables: &mut [u64])
    requires { (length images.now ≡ max_inputs) × (bytes ≤ word_bytes) × (tables.old ≡ replicate table_words 0) }
    ensures { (f : ℕ → ℕ) → Linear f → OnBits max_inputs f images.now → Tabled bytes f tables.new }
{
    for t in 0..bytes {
        let b = BITS * t;
        let m = VALUES * t;
        let b_end = b + BITS;
        let m_end = m + VALUES;
        fill_one(&images[b..b_end], &mut tables[m..m_end]);
    }
}

// The image of byte t of x. Its table is lent as a part, so that where it starts is worked out once for all keys.
fn of_byte(tables: &[u64], t: usize, x: u64) -> u64
    requires { (length tables.now ≡ table_words) × (t < word_bytes) }
    ensures { result ≡ get_or tables.now (byte_values * t + x / 2 ^ (byte_bits * t) % byte_values) 0 }
{
    let start = VALUES * t;
    let end = start + VALUES;
    let table = &tables[start..end];
    table[((x >> (BITS * t)) % 256) as usize]
}

// The image of the lower seven bytes of x.
fn of_seven(tables: &[u64], x: u64) -> u64
    requires { length tables.now ≡ table_words }
    ensures { (f : ℕ → ℕ) (bytes : ℕ) → Linear f → Tabled bytes f tables.now → x < 2 ^ (byte_bits * bytes) → result ≡ f (x % 2 ^ narrow_bits) }
{
    of_byte(tables, 0, x)
        ^ of_byte(tables, 1, x)
        ^ of_byte(tables, 2, x)
        ^ of_byte(tables, 3, x)
        ^ of_byte(tables, 4, x)
        ^ of_byte(tables, 5, x)
        ^ of_byte(tables, 6, x)
}

// The image of x, from those of its bytes. The eighth is read only where keys are wide: others have none.
pub(crate) fn image<const WIDE: bool>(tables: &[u64], x: u64) -> u64
    requires { length tables.now ≡ table_words }
    ensures { (f : ℕ → ℕ) (bytes : ℕ) → Linear f → Tabled bytes f tables.now → x < 2 ^ (byte_bits * bytes) → Narrow WIDE x → result ≡ f x }
{
    let seven = of_seven(tables, x);
    if WIDE {
        return seven ^ of_byte(tables, 7, x);
    }
    seven
}
