// What the head of a file says.
ghost use Rattle.std.specs.Prelude.{◌≡◌};
ghost use Rattle.vectors.specs.Bounds.{max_variables};
ghost use Rattle.vectors.specs.Variable.{kinds_of};
ghost use Rattle.file.specs.Layout.{variables_at};
ghost use Rattle.file.specs.Decode.{kind_of, kinds_from};
ghost use Rattle.load.specs.Inner.Said.{said_in};

use crate::blocks::Blocks;
use file::layout;
use record::{Mark, Record};
use vectors::{Kind, MAX_VARIABLES, Part, Variable};

// The variable of two bytes.
fn kind_of(first: u8, second: u8) -> Kind
    ensures { result ≡ kind_of first second }
{
    match second {
        0 => Kind::One(first),
        _ => Kind::Two(first, second),
    }
}

// The variables of all 24 places, with no regard to p.
fn variables(file: Blocks) -> [Variable; MAX_VARIABLES]
    ensures { kinds_of result ≡ kinds_from max_variables variables_at file.entry.bytes.now }
{
    let mut all = vectors::blank_variables();
    for (i, v) in all.iter_mut().enumerate() {
        let at = layout::VARIABLES_AT + 2 * i;
        *v = Variable {
            kind: kind_of(file.bytes[at], file.bytes[at + 1]),
            part: Part::Row,
        };
    }
    all
}

// The record that the head says, whatever its bytes are; kept inputs, excess and part marks are worked out anew.
pub(crate) fn said(file: Blocks) -> Record
    ensures { result ≡ said_in file.entry.bytes.now }
{
    let head = file.bytes;
    let n = block::number(head, layout::N_AT, 1) as usize;
    let p = block::number(head, layout::P_AT, 1) as usize;
    let n1 = block::number(head, layout::N1_AT, 1) as usize;
    let k = block::number(head, layout::K_AT, 2) as usize;
    let cells = block::number(head, layout::CELLS_AT, 2) as usize;
    let tries = block::number(head, layout::TRIES_AT, 4);
    let v = variables(file);
    let kept = span::kept_inputs(n, v, p);
    let excess = record::excess(p as u32, k as u32);
    let variables = record::marked(v, p, n1);
    let mark = Mark::from(block::number(head, layout::MARK_AT, 1));
    Record {
        n,
        p,
        n1,
        k,
        cells,
        kept,
        tries,
        excess,
        variables,
        mark,
    }
}
