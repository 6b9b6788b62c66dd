// Marking: the sizes of all compounds of a table that sizing has accepted, without checks.
//
// One pass over the rows. A list, a map or an array that is not empty goes onto a stack. When its last child is taken, the bytes since are
// those of its children. The values below a described one are due in its place, so it needs no stack.
ghost use Rattle.std.specs.Prelude.{◌≡◌, ℕ, true, false, MatchOption, ◌+◌, ◌-◌, ◌*◌, ◌%◌, ◌^◌, ◌≤◌, ◌<◌, eqb, length};
ghost use Rattle.std.proofs.lemmas.List.Edits.{sets};
ghost use Rattle.standard.specs.Choose.{if};
ghost use Rattle.standard.specs.Bytes.{be};
ghost use Rattle.standard.specs.Tree.{Tree};
ghost use Rattle.standard.specs.Kinds.{style_of};
ghost use Rattle.standard.specs.InCode.{kind_is};
ghost use Rattle.standard.specs.Outcomes.{level_most};
ghost use Rattle.arrayvec.specs.ArrayVec.{array_vec_len};
ghost use Rattle.writer.specs.Heads.{head_in};
ghost use Rattle.writer.specs.Marks.{marks};
ghost use Rattle.writer.specs.Marking.{pushed, opened, boxes, box_width, kind_on, number_on, from_start, beyond, mode_in, entered, closed, taken, stacked, Ready, Complete, Markable, Tabled};

use crate::head::Mode;
use crate::{head, put, row};
use arrayvec::ArrayVec;
use standard::kind::Kind;
use standard::{kind, limit};

// A list, a map or an array that has begun: the bytes before it, the place of its mark, and how many rows are due behind it and what they
// are. Every number is below 2^22, so 32 bits are enough for it and the stack stays small.
#[derive(Clone, Copy, Default)]
pub struct Begun {
    pub size: u32,
    pub mark: u32,
    pub left: u32,
    pub mode: Mode,
}

// Those that have not ended, the innermost last.
type Stack = ArrayVec<Begun, { limit::MOST }>;

// The next row, the bytes before it, the next mark, how many rows are due before the innermost open compound ends, and what they are.
#[derive(Clone, Copy)]
pub struct Point {
    pub row: usize,
    pub size: usize,
    pub mark: usize,
    pub left: usize,
    pub mode: Mode,
}

impl Point {
    // At the first row of a table.
    fn new(mark: usize) -> Self
        ensures { result ≡ from_start mark }
    {
        Self {
            row: 0,
            size: 0,
            mark,
            left: 1,
            mode: Mode::Values,
        }
    }

    // Behind a row without a mark, of so many bytes, before its children. That its numbers have successors each caller knows of its own table.
    fn past(self, size: usize, children: usize) -> Self
        requires { (self.row + 1 < 2 ^ 64) × (self.size + size < 2 ^ 64) × (0 < self.left) × (self.left + children < 2 ^ 64) }
        ensures { result ≡ beyond self size children }
    {
        Self {
            row: self.row + 1,
            size: self.size + size,
            left: self.left - 1 + children,
            ..self
        }
    }
}

// The kind of a row that is a list, a map or an array and not empty, by its words. Theirs are the highest kinds, and such rows, of which
// there are many, do not take the jump of a choice among all kinds.
#[tactic(auto, unfolding(crate::specs::Marks::mark_width, standard::specs::Kinds::style_of, standard::specs::Kinds::kinds, standard::specs::Choose::lookup, standard::specs::Kinds::count_in), using(crate::proofs::Onward::box_some))]
fn boxed_kind(word: u64, number: u64) -> Option<Kind>
    ensures { MatchOption result (boxes (style_of word) number ≡ false) (λ k. (kind_is k ≡ word) × (boxes (style_of word) number ≡ true)) }
{
    if word < u64::from(Kind::List) {
        return None;
    }
    if word == u64::from(Kind::List) && 0 < number {
        return Some(Kind::List);
    }
    if word == u64::from(Kind::Map) && 0 < number {
        return Some(Kind::Map);
    }
    if word == u64::from(Kind::Array) && 0 < kind::count_of_elements(number) {
        return Some(Kind::Array);
    }
    None
}

// The bytes before the children of a compound, by theirs and by what they are. Before the elements of an array stands their code, which its
// size counts.
#[tactic(auto, unfolding(crate::specs::Marking::box_width))]
fn box_width(mode: Mode, inside: Mode, children: usize) -> usize
    requires { children + 1 < 2 ^ 64 }
    ensures { result ≡ box_width mode inside children }
{
    match (mode, inside) {
        (Mode::Values, Mode::Values) => head::compound_width(children),
        (Mode::Values, Mode::Elements) => head::array_width(children),
        (Mode::Elements, Mode::Values) => head::ITEM_WIDTH,
        (Mode::Elements, Mode::Elements) => head::ITEM_ARRAY_WIDTH,
    }
}

// What the children of a list, a map or an array are.
fn mode_in(kind: Kind) -> Mode
    ensures { result ≡ mode_in (kind_is kind) }
{
    match kind {
        Kind::Array => Mode::Elements,
        _ => Mode::Values,
    }
}

// A list, a map or an array with so many children begins.
fn open(stack: &mut Stack, c: Point, kind: Kind, count: usize) -> Point
    requires { (array_vec_len stack.old < level_most) × (0 < c.left) × (c.left < 2 ^ 31) × (c.row + 1 < 2 ^ 64) × (c.size < 2 ^ 32) × (c.mark + 3 < 2 ^ 32) }
    ensures { (result ≡ entered c (kind_is kind) count) × (stack.new.items ≡ pushed stack.old.items (opened c)) }
{
    stack.push(Begun {
        size: c.size as u32,
        mark: c.mark as u32,
        left: (c.left - 1) as u32,
        mode: c.mode,
    });
    Point {
        row: c.row + 1,
        size: c.size,
        mark: c.mark + head::MARK_WIDTH,
        left: count,
        mode: mode_in(kind),
    }
}

// The innermost list, map or array ends.
fn close(begun: Begun, out: &mut [u8], c: Point) -> Point
    requires { Complete begun out.old c }
    ensures { (result ≡ closed begun c) × (out.new ≡ sets out.old begun.mark (be 3 (c.size - begun.size))) }
{
    let children = c.size - begun.size as usize;
    put::put_three(out, begun.mark as usize, children as u64);
    Point {
        size: c.size + box_width(begun.mode, c.mode, children),
        left: begun.left as usize,
        mode: begun.mode,
        ..c
    }
}

// How many bytes stand before the text of a row without children.
#[tactic(auto, using(crate::proofs::Bodies::item_wide))]
fn width_in(mode: Mode, kind: Kind, number: u64) -> usize
    ensures { result ≡ length (head_in mode (style_of (kind_is kind)) (kind_is kind % 256) number 0) }
{
    match mode {
        Mode::Values => head::head_width(kind, number),
        Mode::Elements => head::item_width(kind),
    }
}

// How many rows are due in the place of one without a mark: the two values in a described one.
fn due_in_place(kind: Kind) -> usize
    ensures { result ≡ if (eqb (kind_is kind) 0) 2 0 }
{
    match kind {
        Kind::Described => 2,
        _ => 0,
    }
}

// The next row.
fn take_row(words: &[u64], stack: &mut Stack, c: Point) -> Point
    requires { Ready words.now stack.old.items c }
    ensures { (result ≡ taken c (kind_on words.now c) (number_on words.now c))
        × (stack.new.items ≡ stacked stack.old.items c (kind_on words.now c) (number_on words.now c)) }
{
    let number = row::number_on(words, c.row);
    if let Some(kind) = boxed_kind(row::word_on(words, c.row), number) {
        return open(stack, c, kind, kind::count_of_elements(number) as usize);
    }
    let kind = row::known_row(words, c.row).kind;
    let letters = kind.style().letters(number) as usize;
    c.past(width_in(c.mode, kind, number) + letters, due_in_place(kind))
}

// Puts the marks of a whole table into a buffer, from `mark` on.
pub(crate) fn mark_table(words: &[u64], out: &mut [u8], mark: usize)
    requires { Tabled words.now out.old mark }
    ensures { (v : Tree) → Markable words.now out.old mark v → out.new ≡ sets out.old mark (marks v) }
{
    let mut stack = Stack::new();
    let mut c = Point::new(mark);
    // no range: a row brings its children, and what is due grows and shrinks
    loop {
        if 0 < c.left {
            c = take_row(words, &mut stack, c);
        } else if let Some(begun) = stack.pop() {
            c = close(begun, out, c);
        } else {
            return;
        }
    }
}
