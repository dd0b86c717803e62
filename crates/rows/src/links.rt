// The words while rows are placed: AUX[i] holds row + ROWS * column + PLACES * next + LINKED * weight of vector i, next being the next
// vector of its row (past the end for none) and weight how many there are from i on. H[r] holds MARK + the first vector of row r until
// the row is placed; 0 where the row is empty.
ghost use Rattle.std.specs.Prelude.{◌≡◌, ◌+◌, ◌-◌, ◌^◌, ◌≤◌, ◌<◌, length, MatchOption};
ghost use Rattle.vectors.specs.Bounds.{max_words};
ghost use Rattle.rows.specs.Answer.{column_in};
ghost use Rattle.rows.specs.Inner.Chains.{next_in, weight_in, mark_bit, Rises, Packed, LinkedIs, unlinked};

use vectors::MAX_ROWS;

// So many rows or columns there can be, places (a row and a column), links, and places with a link.
pub(crate) const ROWS: u64 = MAX_ROWS as u64;

pub(crate) const PLACES: u64 = ROWS * ROWS;

const LINKS: u64 = 1 << 16;

const LINKED: u64 = PLACES * LINKS;

// Added to the first vector of a row it is the row's mark; no displacement is above it.
pub(crate) const MARK: u16 = 1 << 15;

// The vectors of a row that is to be placed: the first of them, and the others along the links, each a later word than the one before.
// Vector i is written into its cell as owner + i.
#[derive(Clone, Copy)]
pub(crate) struct Chain<'a> {
    pub(crate) words: &'a [u64],
    pub(crate) first: usize,
    pub(crate) owner: u16,
    ghost rises: { Rises 0 words.now },
    ghost some: { (0 < first) × (first < length words.now) },
    ghost numbered: { length words.now + owner ≤ 2 ^ 16 },
}

pub(crate) fn column(word: u64) -> usize
    ensures { result ≡ column_in word }
{
    (word / ROWS % ROWS) as usize
}

pub(crate) fn next(word: u64) -> usize
    ensures { result ≡ next_in word }
{
    (word / PLACES % LINKS) as usize
}

// How many vectors there are from that of the word on.
pub(crate) fn weight(word: u64) -> u64
    ensures { result ≡ weight_in word }
{
    word / LINKED
}

// The vector that a row's mark stands at; none for a row that is placed or empty.
pub(crate) fn head(mark: u16) -> Option<usize>
    ensures { MatchOption result (mark ≤ mark_bit) (λ first. (mark_bit < mark) × (first ≡ mark - mark_bit)) }
{
    if mark <= MARK {
        return None;
    }
    Some((mark - MARK) as usize)
}

// Links the words of each row, and marks the rows that have one; H is 0 where a row has none.
pub(crate) fn link(aux: &mut [u64], h: &mut [u16])
    requires packed { Packed aux.old (length h.old) }
    requires inside { (0 < length aux.old) × (length aux.old ≤ max_words) }
    ensures { LinkedIs aux.old aux.new h.new }
{
    h.fill(0);
    for i in (1..aux.len()).rev() {
        let w = aux[i];
        let r = (w % ROWS) as usize;
        let (next, later) = match head(h[r]) {
            Some(first) => (first, weight(aux[first])),
            None => (aux.len(), 0),
        };
        aux[i] = w + PLACES * (next as u64) + LINKED * (later + 1);
        h[r] = MARK + i as u16;
    }
}

// Takes the links and the weights out again.
pub(crate) fn unlink(aux: &mut [u64])
    requires { 0 < length aux.old }
    ensures { aux.new ≡ unlinked aux.old }
{
    for word in &mut aux[1..] {
        *word %= PLACES;
    }
}
