// Sizing: the checks of all rows and the bytes that they will be written to (docs/FORMAT.md, 6.1).
ghost use Rattle.std.specs.Prelude.{◌≡◌, None, ◌+◌, ◌*◌, ◌-◌, ◌^◌, ◌≤◌, ◌<◌, T, eqb, leb, length, drop};
ghost use Rattle.std.proofs.lemmas.List.Edits.{sets};
ghost use Rattle.standard.specs.Choose.{if};
ghost use Rattle.standard.specs.Bytes.{be};
ghost use Rattle.standard.specs.Kinds.{style_of, member, count_in, kind_in};
ghost use Rattle.standard.specs.Answer.{got};
ghost use Rattle.standard.specs.Table.{any, like};
ghost use Rattle.standard.specs.InCode.{kind_is, answer_is};
ghost use Rattle.writer.specs.Heads.{values, elements};
ghost use Rattle.writer.specs.Rows.{check};
ghost use Rattle.writer.specs.InCode.{checked_is};
ghost use Rattle.writer.specs.Sizing.{opens, arrays, some_at, parent_of, text_size, children_is, children_spot, children_count, Sure, Seen, Told, Bare, Nested, Finds, Within, Small, begin, past, beyond, passed, inside, open_head, closed, MarkPut};

use crate::row::{Row, Table};
use crate::{head, number, put, row};
use standard::kind;
use standard::kind::Kind;
use standard::refusal::Refusal;

// What is behind values: the next row and its text, the bytes that they take, and the next mark.
#[derive(Clone, Copy, Default)]
pub struct Extent {
    pub row: usize,
    pub text: usize,
    pub size: usize,
    pub mark: usize,
}

impl Extent {
    // Behind a row without children that has so many bytes of text and takes so many bytes. That the numbers have successors, here and in
    // `inside`, each caller knows of its own table.
    fn past(self, letters: usize, size: usize) -> Self
        requires { Small (past self letters size) }
        ensures { result ≡ past self letters size }
    {
        Self {
            row: self.row + 1,
            text: self.text + letters,
            size: self.size + size,
            ..self
        }
    }

    // At the first child of a row.
    fn inside(self, kind: Kind) -> Self
        requires { (self.row + 1 < 2 ^ 64) × (self.mark + 3 < 2 ^ 64) }
        ensures { result ≡ inside self (kind_is kind) }
    {
        Self {
            row: self.row + 1,
            size: 0,
            mark: self.mark + open_mark(kind),
            ..self
        }
    }
}

// The children of a row: values with codes of their own, or the elements of an array, of the kind that it tells.
#[derive(Clone, Copy)]
pub enum Children {
    Values { count: usize },
    Elements { told: Kind, count: usize },
}

// What a row is, as far as sizing goes on without further checks.
#[derive(Clone, Copy)]
pub enum Taken {
    // A number that takes so many bytes.
    Number { size: usize },
    // A text that is good: its bytes, and those that it takes with its code and its length.
    Letters { letters: usize, size: usize },
    // A list, a map, a described value or an array that has children.
    Parent { kind: Kind, children: Children },
}

// Does a row hold values with codes of their own, and some of them.
#[tactic(auto, unfolding(crate::specs::Sizing::opens, crate::specs::Sizing::nests, standard::specs::Kinds::style_of, standard::specs::Kinds::kinds, standard::specs::Choose::lookup, standard::specs::Table::ranged, standard::specs::Table::children, standard::specs::Kinds::count_in, standard::specs::Kinds::kind_in), using(crate::proofs::Sizes::empty_closed))]
fn is_open(kind: Kind, number: u64) -> bool
    ensures { result ≡ opens (style_of (kind_is kind)) (kind_is kind) number }
{
    // nothing is asked before the match: so it is one jump with that of `Kind::try_from`
    match kind {
        Kind::Described => number == 2,
        Kind::List => 0 < number && number <= kind::MOST,
        Kind::Map => 0 < number && number <= kind::MOST && number % 2 == 0,
        _ => false,
    }
}

// The elements of an array that has some.
#[tactic(auto, unfolding(crate::specs::Sizing::arrays, crate::specs::Sizing::nests, standard::specs::Kinds::style_of, standard::specs::Kinds::kinds, standard::specs::Choose::lookup, standard::specs::Table::ranged, standard::specs::Table::children, standard::specs::Kinds::count_in, standard::specs::Kinds::kind_in), using(standard::specs::Facts::strange))]
fn elements_of(kind: Kind, number: u64) -> Option<Children>
    ensures { children_is result ≡ if (arrays (style_of (kind_is kind)) (kind_is kind) number) (some_at (like (kind_in number)) (count_in number)) None }
{
    let count = kind::count_of_elements(number);
    if !matches!(kind, Kind::Array) || count == 0 || kind::MOST < count {
        return None;
    }
    let told = kind::kind_of_elements(number).ok()?;
    if !told.is_member() {
        return None;
    }
    Some(Children::Elements {
        told,
        count: count as usize,
    })
}

// The children of a row that has some, and whose number is in range.
#[tactic(auto, using(crate::proofs::Turns::open_parent, crate::proofs::Turns::array_parent))]
fn children_of(kind: Kind, number: u64) -> Option<Children>
    ensures { children_is result ≡ parent_of (style_of (kind_is kind)) (kind_is kind) number }
{
    if is_open(kind, number) {
        return Some(Children::Values {
            count: number as usize,
        });
    }
    elements_of(kind, number)
}

// The bytes of a text with its code and its length, where it is good.
fn size_text(kind: Kind, number: u64, text: &[u8], from: usize) -> Option<usize>
    requires { from ≤ length text.now }
    ensures { result ≡ text_size (kind_is kind) number (drop from text.now) }
{
    if kind::MOST < number {
        return None;
    }
    let count = number as usize;
    if text.len() - from < count {
        return None;
    }
    if text::good_length(u64::from(kind), text, from, count) < count {
        return None;
    }
    if number < head::SHORT_END {
        return Some(2 + count);
    }
    Some(5 + count)
}

// A row of that kind and number, whose text begins at `from`.
#[tactic(auto, unfolding(crate::specs::Sizing::nests, standard::specs::Kinds::style_of, standard::specs::Kinds::kinds, standard::specs::Choose::lookup, standard::specs::Table::children), using(crate::proofs::Turns::number_leaf, crate::proofs::Turns::not_parent))]
fn take_kind(kind: Kind, number: u64, text: &[u8], from: usize) -> Option<Taken>
    requires { from ≤ length text.now }
    ensures { Seen (kind_is kind) number (drop from text.now) result }
{
    match kind {
        Kind::Described | Kind::List | Kind::Map | Kind::Array => {
            let children = children_of(kind, number)?;
            Some(Taken::Parent { kind, children })
        }
        Kind::Binary | Kind::String | Kind::Symbol => {
            let size = size_text(kind, number, text, from)?;
            Some(Taken::Letters {
                letters: number as usize,
                size,
            })
        }
        _ => {
            let size = number::size_number(kind, number)?;
            Some(Taken::Number { size })
        }
    }
}

// The row at `row`, whose text begins at `from`, where so many levels are left.
// Of a row with 16 bytes of text, an empty compound, a bad row, or where there is none, nothing is told.
#[tactic(auto, using(crate::proofs::Turns::leaf, crate::proofs::Turns::number_leaf, crate::proofs::Turns::seen_told, crate::proofs::Turns::bare_deep, crate::proofs::Turns::bare_missing, crate::proofs::Turns::bare_strange))]
fn take_row(table: &Table, row: usize, from: usize, levels: usize) -> Option<Taken>
    requires { (2 * row ≤ length table.now.words.now) × (from ≤ length table.now.text.now) }
    ensures { Told levels (drop (2 * row) table.now.words.now) (drop from table.now.text.now) result }
{
    if levels == 0 {
        return None;
    }
    let (word, number) = table.row(row)?;
    if let Some(size) = number::plain_size(word, number) {
        return Some(Taken::Number { size });
    }
    let kind = Kind::try_from(word).ok()?;
    take_kind(kind, number, table.text, from)
}

// May an element of that kind have children.
fn has_body(kind: Kind) -> bool
    ensures { result ≡ leb 0xd0 (kind_is kind) }
{
    matches!(kind, Kind::List | Kind::Map | Kind::Array)
}

// The children of the element at `row`, in an array that tells that kind, where it is a good list, map or array that has some.
// Where the array tells another kind, as most do, no row is looked at.
#[tactic(auto, using(crate::proofs::Turns::bare_deep, crate::proofs::Turns::bare_missing, crate::proofs::Turns::bare_low, crate::proofs::Turns::bare_unlike, crate::proofs::Turns::nested_is))]
fn take_element(table: &Table, row: usize, levels: usize, told: Kind) -> Option<Children>
    requires { (2 * row ≤ length table.now.words.now) × T (member (style_of (kind_is told))) }
    ensures { Nested levels (kind_is told) (drop (2 * row) table.now.words.now) result }
{
    if !has_body(told) {
        return None;
    }
    if levels == 0 {
        return None;
    }
    let (word, number) = table.row(row)?;
    if word != u64::from(told) {
        return None;
    }
    children_of(told, number)
}

// Stores a mark where there is room for it. That of a described value has no bytes.
#[tactic(auto, unfolding(standard::specs::Bytes::be))]
fn put_mark(marks: &mut [u8], at: usize, width: usize, body: usize)
    requires { ((width ≡ 0 → ⊥) → width ≡ 3) × (at + 3 < 2 ^ 64) }
    ensures { at + width ≤ length marks.old → marks.new ≡ sets marks.old at (be width body) }
{
    if width == 0 {
        return;
    }
    if at + head::MARK_WIDTH <= marks.len() {
        put::put_three(marks, at, body as u64);
    }
}

// Behind a good row without children.
fn past_good(c: Extent, row: Row) -> Extent
    requires { Small (beyond values c (kind_is row.kind) row.number) }
    ensures { result ≡ beyond values c (kind_is row.kind) row.number }
{
    let letters = row.kind.style().letters(row.number) as usize;
    c.past(letters, head::head_width(row.kind, row.number) + letters)
}

// Behind the row at `c`, whatever it is but one with children.
fn size_row(table: &Table, levels: usize, c: Extent) -> Result<Extent, Refusal>
    requires { Within table.now.words.now table.now.text.now c × Bare levels any (drop (2 * c.row) table.now.words.now) }
    ensures { answer_is result ≡ passed c (check levels any c.row c.text (drop (2 * c.row) table.now.words.now) (drop c.text table.now.text.now)) }
{
    let row = row::check_row(table, c.row, c.text, levels, None)?;
    Ok(past_good(c, row))
}

// The width of the mark of a row with children.
fn open_mark(kind: Kind) -> usize
    ensures { result ≡ if (eqb (kind_is kind) 0) 0 3 }
{
    match kind {
        Kind::Described => 0,
        _ => head::MARK_WIDTH,
    }
}

// The bytes before the children of a row, by those of the children.
fn open_head(kind: Kind, body: usize) -> usize
    requires { body + 1 < 2 ^ 64 }
    ensures { result ≡ open_head values (kind_is kind) body }
{
    match kind {
        Kind::Described => 1,
        Kind::Array => head::array_width(body),
        _ => head::compound_width(body),
    }
}

// The bytes before the children of a list, a map or an array that is an element.
fn nested_head(kind: Kind) -> usize
    ensures { result ≡ open_head elements (kind_is kind) 0 }
{
    match kind {
        Kind::Array => head::ITEM_ARRAY_WIDTH,
        _ => head::ITEM_WIDTH,
    }
}

// Behind a row of that kind, with children of so many bytes behind a head of so many, which end before `e`.
fn close(marks: &mut [u8], c: Extent, kind: Kind, head: usize, body: usize, e: Extent) -> Extent
    requires { (c.size + (head + body) < 2 ^ 64) × (c.mark + 3 < 2 ^ 64) }
    ensures { (result ≡ closed c head body e) × MarkPut marks.old c.mark (kind_is kind) body marks.new }
{
    put_mark(marks, c.mark, open_mark(kind), body);
    Extent {
        size: c.size + (head + body),
        ..e
    }
}

// The children of a row of that kind at `c`, where so many levels are left for the row. Where none is left for them the first is refused at once.
// `levels` is a plain number: it is counted down to 0, and 0 is asked for. Inlined, and `size_items` not, so that each level takes one frame.
#[cycle(size_children_size_items_size_values)]
#[inline(always)]
fn size_children(
    table: &Table,
    kind: Kind,
    children: Children,
    levels: usize,
    marks: &mut [u8],
    c: Extent,
) -> Result<Extent, Refusal>
    requires { Within table.now.words.now table.now.text.now (inside c (kind_is kind)) × (0 < levels) × (0 < children_count children) × Sure (children_spot children) }
    ensures { Finds table.now.words.now table.now.text.now (levels - 1) (children_spot children) (children_count children) (inside c (kind_is kind)) marks.old marks.new (answer_is result) }
{
    let first = c.inside(kind);
    if levels == 1 {
        // named: handed on at once it would make every other answer a copy
        let none = size_row(table, 0, first);
        return none;
    }
    match children {
        Children::Values { count } => size_values(table, count, levels - 1, marks, first),
        Children::Elements { told, count } => {
            size_items(table, told, count, levels - 1, marks, first)
        }
    }
}

// The element at `c`, by the checks of every row. A function of its own: what it takes of the stack is free again behind it.
fn check_element(table: &Table, told: Kind, levels: usize, c: Extent) -> Result<Row, Refusal>
    requires { (2 * c.row ≤ length table.now.words.now) × (c.text ≤ length table.now.text.now) }
    ensures { checked_is result ≡ check levels (like (kind_is told)) c.row c.text (drop (2 * c.row) table.now.words.now) (drop c.text table.now.text.now) }
{
    // named, as in `size_children`
    let checked = row::check_row(table, c.row, c.text, levels, Some(told));
    return checked;
}

// The row at `c`, of which nothing was told. A function of its own too.
fn size_other(table: &Table, levels: usize, c: Extent) -> Result<Extent, Refusal>
    requires { Within table.now.words.now table.now.text.now c × Bare levels any (drop (2 * c.row) table.now.words.now) }
    ensures { answer_is result ≡ passed c (check levels any c.row c.text (drop (2 * c.row) table.now.words.now) (drop c.text table.now.text.now)) }
{
    // named, as in `size_children`
    let one = size_row(table, levels, c);
    return one;
}

// So many elements of an array that tells that kind, the first of them at `start`, where so many levels are left.
#[cycle(size_children_size_items_size_values)]
#[inline(never)]
fn size_items(
    table: &Table,
    told: Kind,
    count: usize,
    levels: usize,
    marks: &mut [u8],
    start: Extent,
) -> Result<Extent, Refusal>
    requires { Within table.now.words.now table.now.text.now start × T (member (style_of (kind_is told))) }
    ensures { Finds table.now.words.now table.now.text.now levels (like (kind_is told)) count start marks.old marks.new (answer_is result) }
{
    let mut c = start;
    for _ in 0..count {
        if let Some(children) = take_element(table, c.row, levels, told) {
            // handed on whole, as in `size_values`
            let below = size_children(table, told, children, levels, marks, c);
            let Ok(e) = below else {
                return below;
            };
            c = close(marks, c, told, nested_head(told), e.size, e);
        } else {
            let row = check_element(table, told, levels, c)?;
            let letters = row.kind.style().letters(row.number) as usize;
            c = c.past(letters, head::item_width(row.kind) + letters);
        }
    }
    Ok(c)
}

// So many values, the first of them at `start`, where so many levels are left.
#[cycle(size_children_size_items_size_values)]
pub(crate) fn size_values(
    table: &Table,
    count: usize,
    levels: usize,
    marks: &mut [u8],
    start: Extent,
) -> Result<Extent, Refusal>
    requires { Within table.now.words.now table.now.text.now start }
    ensures { Finds table.now.words.now table.now.text.now levels any count start marks.old marks.new (answer_is result) }
{
    let mut c = start;
    for _ in 0..count {
        match take_row(table, c.row, c.text, levels) {
            Some(Taken::Number { size }) => c = c.past(0, size),
            Some(Taken::Letters { letters, size }) => c = c.past(letters, size),
            Some(Taken::Parent { kind, children }) => {
                // handed on whole: `?` would read the refusal, whose bytes are those of `e.row`, which is then kept in pieces
                let below = size_children(table, kind, children, levels, marks, c);
                let Ok(e) = below else {
                    return below;
                };
                c = close(marks, c, kind, open_head(kind, e.size), e.size, e);
            }
            None => {
                let one = size_other(table, levels, c);
                let Ok(e) = one else {
                    return one;
                };
                c = e;
            }
        }
    }
    Ok(c)
}
