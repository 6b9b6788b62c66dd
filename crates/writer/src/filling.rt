// Writing the rows of a table that sizing has accepted, one after another, by the marks of its compounds.
ghost use Rattle.std.specs.Prelude.{◌≡◌, ℕ, ◌+◌, ◌%◌, ◌^◌, ◌≤◌, ◌<◌, true, false, eqb, leb, length, take, drop};
ghost use Rattle.std.proofs.lemmas.List.Edits.{sets};
ghost use Rattle.standard.specs.Choose.{if};
ghost use Rattle.standard.specs.Bytes.{unbe};
ghost use Rattle.standard.specs.Kinds.{style_of, is_kind, kind_in};
ghost use Rattle.standard.specs.InCode.{kind_is};
ghost use Rattle.standard.specs.Tree.{Tree, Trees, none};
ghost use Rattle.standard.specs.Encode.{encode};
ghost use Rattle.writer.specs.Heads.{head, array_fields, values, elements};
ghost use Rattle.writer.specs.Direct.{is_arrayed, is_list_or_map, Put};
ghost use Rattle.writer.specs.Filling.{fresh, behind, kind_at, number_at, mark_at, Ready, Stepped, Filled, One, Done, Elements, Rows, Run, SomeLeft, Fillable};

use crate::head::Mode;
use crate::row::{Row, Table};
use crate::{head, put, row};
use standard::kind::Kind;
use standard::{format_code, kind};

// The next row and its text, where it is written, and the next mark.
#[derive(Clone, Copy)]
pub struct Cursor {
    pub row: usize,
    pub text: usize,
    pub at: usize,
    pub mark: usize,
}

impl Cursor {
    pub fn new(mark: usize) -> Self
        ensures { result ≡ fresh mark }
    {
        Self {
            row: 0,
            text: 0,
            at: 0,
            mark,
        }
    }

    // Behind a row of so many bytes, so many of them text, with a mark of that width. That the numbers have successors each caller knows of its own
    // table.
    fn behind(self, size: usize, letters: usize, width: usize) -> Self
        requires { (self.row + 1 < 2 ^ 64) × (self.text + letters < 2 ^ 64) × (self.at + size < 2 ^ 64) × (self.mark + width < 2 ^ 64) }
        ensures { result ≡ behind self size letters width }
    {
        Self {
            row: self.row + 1,
            text: self.text + letters,
            at: self.at + size,
            mark: self.mark + width,
        }
    }
}

// The width of the mark of a list, a map or an array with so many children: none has no mark.
fn mark_width(count: u64) -> usize
    ensures { result ≡ if (eqb count 0) 0 3 }
{
    if count == 0 {
        return 0;
    }
    head::MARK_WIDTH
}

// The number in a mark.
fn mark_at(out: &[u8], at: usize) -> usize
    requires { at + 3 ≤ length out.now }
    ensures { (result ≡ unbe (take 3 (drop at out.now))) × (result < 2 ^ 24) }
{
    u32::from_be_bytes([0, out[at], out[at + 1], out[at + 2]]) as usize
}

// The bytes that so many children take, by their mark.
fn body_at(out: &[u8], mark: usize, count: u64) -> usize
    requires { mark + if (eqb count 0) 0 3 ≤ length out.now }
    ensures { (result ≡ unbe (take (if (eqb count 0) 0 3) (drop mark out.now))) × (result < 2 ^ 24) }
{
    if count == 0 {
        return 0;
    }
    mark_at(out, mark)
}

// The head of a list or a map whose mark is at `mark`.
#[tactic(auto, unfolding(crate::specs::Heads::head, standard::specs::Kinds::style_of, standard::specs::Kinds::kinds, standard::specs::Choose::lookup))]
fn put_compound(out: &mut [u8], at: usize, kind: Kind, count: u64, mark: usize) -> usize
    requires { (is_list_or_map (style_of (kind_is kind)) ≡ true) × (mark + if (eqb count 0) 0 3 ≤ length out.old)
        × (at + length (head (style_of (kind_is kind)) (kind_is kind % 256) count (unbe (take (if (eqb count 0) 0 3) (drop mark out.old)))) ≤ length out.old) }
    ensures { Put (head (style_of (kind_is kind)) (kind_is kind % 256) count (unbe (take (if (eqb count 0) 0 3) (drop mark out.old)))) out.old at out.new result }
{
    let body = body_at(out, mark, count) as u64;
    match kind {
        Kind::List if count == 0 => put::put_code(out, at, format_code::LIST_0),
        Kind::List => {
            let (short, code) = (format_code::LIST_8, format_code::LIST_32);
            put::put_enclosure(out, at, short, code, count, body)
        }
        Kind::Map => {
            let (short, code) = (format_code::MAP_8, format_code::MAP_32);
            put::put_enclosure(out, at, short, code, count, body)
        }
        _ => unreachable!(),
    }
}

// A row that is a value of its own, but no array. It goes by its kind at once, which is faster than by a style.
fn put_value(table: Table, out: &mut [u8], c: Cursor) -> Cursor
    requires { Ready values table.words.now table.text.now out.old c × (is_arrayed (style_of (kind_at table.words.now c)) ≡ false) }
    ensures { Stepped values table.entry.words.now table.entry.text.now out.old c out.new result }
{
    let Row { kind, number } = row::known_row(table.words, c.row);
    match kind {
        Kind::Described => {
            let size = put::put_code(out, c.at, format_code::DESCRIBED);
            c.behind(size, 0, 0)
        }
        Kind::Binary | Kind::String | Kind::Symbol => {
            let size = put::put_letters(out, c.at, kind, number, table.text, c.text);
            c.behind(size, number as usize, 0)
        }
        Kind::Decimal128 | Kind::Uuid => {
            let size = put::put_blob(out, c.at, head::wide_code(kind), table.text, c.text);
            c.behind(size, 16, 0)
        }
        Kind::List | Kind::Map => {
            let size = put_compound(out, c.at, kind, number, c.mark);
            c.behind(size, 0, mark_width(number))
        }
        Kind::Array => unreachable!(),
        _ => {
            let size = put::put_number(out, c.at, kind, number);
            c.behind(size, 0, 0)
        }
    }
}

// A row that is an element and no list, map or array: its number in full width, and its text.
fn put_item(table: Table, out: &mut [u8], c: Cursor) -> Cursor
    requires { Ready elements table.words.now table.text.now out.old c × (is_list_or_map (style_of (kind_at table.words.now c)) ≡ false) × (is_arrayed (style_of (kind_at table.words.now c)) ≡ false) }
    ensures { Stepped elements table.entry.words.now table.entry.text.now out.old c out.new result }
{
    let Row { kind, number } = row::known_row(table.words, c.row);
    let letters = kind.style().letters(number) as usize;
    let width = head::item_width(kind);
    put::put_be(out, c.at, width, number);
    put::put_text(out, c.at + width, table.text, c.text, letters);
    c.behind(width + letters, letters, 0)
}

// A row that is an element and a list or a map with a body of so many bytes: its size and its count.
fn put_nested(table: Table, out: &mut [u8], body: usize, c: Cursor) -> Cursor
    requires { Ready elements table.words.now table.text.now out.old c × (is_list_or_map (style_of (kind_at table.words.now c)) ≡ true)
        × (body ≡ unbe (take (mark_at table.words.now c) (drop c.mark out.old))) × (body < 2 ^ 24) }
    ensures { Stepped elements table.entry.words.now table.entry.text.now out.old c out.new result }
{
    let count = row::number_on(table.words, c.row);
    put::put_fields(out, c.at, body as u64, count);
    c.behind(head::ITEM_WIDTH, 0, mark_width(count))
}

// What stands before the code of an array's elements, with a body of so many bytes. The array is a value or an element itself.
fn put_array_fields(out: &mut [u8], at: usize, mode: Mode, count: u64, body: u64) -> usize
    requires { (body + 4 < 2 ^ 64) × (at + length (array_fields mode count body) ≤ length out.old) }
    ensures { Put (array_fields mode count body) out.old at out.new result }
{
    match mode {
        Mode::Values => {
            let (short, code) = (format_code::ARRAY_8, format_code::ARRAY_32);
            put::put_enclosure(out, at, short, code, count, body)
        }
        Mode::Elements => {
            put::put_fields(out, at, body, count);
            head::ITEM_WIDTH
        }
    }
}

// The kind that an array's number tells of its elements.
fn told_kind(number: u64) -> Kind
    requires { is_kind (style_of (kind_in number)) ≡ true }
    ensures { kind_is result ≡ kind_in number }
{
    kind::kind_of_elements(number).unwrap()
}

// The head of an array whose elements take so many bytes: it ends in their code.
fn put_array(table: Table, out: &mut [u8], mode: Mode, elements: usize, c: Cursor) -> Cursor
    requires { Ready mode table.words.now table.text.now out.old c × (kind_at table.words.now c ≡ 0xf0)
        × (is_kind (style_of (kind_in (number_at table.words.now c))) ≡ true)
        × (elements ≡ unbe (take (mark_at table.words.now c) (drop c.mark out.old))) × (elements < 2 ^ 24) }
    ensures { Stepped mode table.entry.words.now table.entry.text.now out.old c out.new result }
{
    let number = row::number_on(table.words, c.row);
    let count = kind::count_of_elements(number);
    let code = head::wide_code(told_kind(number));
    let size = put_array_fields(out, c.at, mode, count, 1 + elements as u64);
    out[c.at + size] = code;
    c.behind(size + 1, 0, mark_width(count))
}

// The values up to `last`, or up to the first that is an array.
fn fill_values(table: Table, out: &mut [u8], last: usize, start: Cursor) -> Cursor
    requires { SomeLeft table.words.now table.text.now out.old last start }
    ensures { Run table.entry.words.now table.entry.text.now out.old last start out.new result }
{
    let mut c = start;
    // no range: a cursor goes on by what each row takes
    while c.at < last {
        if row::is_array(table.words, c.row) {
            return c;
        }
        c = put_value(table, out, c);
    }
    c
}

// The same for `fill_rows`, whose calls share their memory if each stands in a function of its own.
fn fill_run(table: Table, out: &mut [u8], last: usize, c: Cursor) -> Cursor
    requires { SomeLeft table.words.now table.text.now out.old last c }
    ensures { Run table.entry.words.now table.entry.text.now out.old last c out.new result }
{
    let behind = fill_values(table, out, last, c);
    return behind;
}

// The elements up to `end`, none of them a list, a map or an array.
fn fill_plain(table: Table, out: &mut [u8], end: usize, start: Cursor) -> Cursor
    requires { (k : ℕ) × (vs : Trees) × (k < 0xd0) × Elements table.words.now table.text.now out.old end start k vs }
    ensures { (k : ℕ) (vs : Trees) → Elements table.entry.words.now table.entry.text.now out.old end start k vs → k < 0xd0 → Filled out.old start none vs out.new result }
{
    let mut c = start;
    // no range: a cursor goes on by what each row takes
    while c.at < end {
        c = put_item(table, out, c);
    }
    c
}

// The elements up to `end` of an array that tells that kind.
#[cycle(fill_array_fill_items_fill_rows)]
fn fill_items(table: Table, out: &mut [u8], told: Kind, end: usize, c: Cursor) -> Cursor
    requires { (vs : Trees) × Elements table.words.now table.text.now out.old end c (kind_is told) vs }
    ensures { (vs : Trees) → Elements table.entry.words.now table.entry.text.now out.old end c (kind_is told) vs → Filled out.old c none vs out.new result }
{
    match told {
        Kind::List | Kind::Map | Kind::Array => fill_rows(table, out, end, c.at, c),
        _ => fill_plain(table, out, end, c),
    }
}

// An array, which is a value or an element itself: its head, and its elements.
#[cycle(fill_array_fill_items_fill_rows)]
fn fill_array(table: Table, out: &mut [u8], mode: Mode, c: Cursor) -> Cursor
    requires { (kind_at table.words.now c ≡ 0xf0) × ((k : ℕ) × (v : Tree) × One table.words.now table.text.now out.old mode c k v) }
    ensures { (k : ℕ) (v : Tree) → One table.entry.words.now table.entry.text.now out.old mode c k v → Done out.old mode c v out.new result }
{
    let number = row::number_on(table.words, c.row);
    let told = told_kind(number);
    let elements = body_at(out, c.mark, kind::count_of_elements(number));
    let first = put_array(table, out, mode, elements, c);
    fill_items(table, out, told, first.at + elements, first)
}

// What the next row is: values stand before `last`, and elements from there on.
fn mode_at(c: Cursor, last: usize) -> Mode
    ensures { result ≡ if (leb last c.at) elements values }
{
    if last <= c.at {
        return Mode::Elements;
    }
    Mode::Values
}

// The rows up to `end`: values up to `first`, and behind them elements, each a list, a map or an array.
#[cycle(fill_array_fill_items_fill_rows)]
fn fill_rows(table: Table, out: &mut [u8], end: usize, first: usize, start: Cursor) -> Cursor
    requires { (k : ℕ) × (us : Trees) × (vs : Trees) × Rows table.words.now table.text.now out.old end first start k us vs }
    ensures { (k : ℕ) (us vs : Trees) → Rows table.entry.words.now table.entry.text.now out.old end first start k us vs → Filled out.old start us vs out.new result }
{
    let mut c = start;
    let mut last = first;
    // no range: a cursor goes on by what each row takes
    while c.at < end {
        let mode = mode_at(c, last);
        if row::is_array(table.words, c.row) {
            c = fill_array(table, out, mode, c);
            continue;
        }
        match mode {
            Mode::Values => c = fill_run(table, out, last, c),
            Mode::Elements => {
                let body = body_at(out, c.mark, row::number_on(table.words, c.row));
                c = put_nested(table, out, body, c);
                last = c.at + body;
            }
        }
    }
    c
}

// Writes all rows into the first n bytes of the output, at whose end the marks stand from `mark` on.
pub(crate) fn fill(table: Table, out: &mut [u8], n: usize, mark: usize)
    requires { (v : Tree) × Fillable table.words.now table.text.now out.old n mark v }
    ensures { (v : Tree) → Fillable table.entry.words.now table.entry.text.now out.old n mark v → out.new ≡ sets out.old 0 (encode v) }
{
    let c = fill_values(table, out, n, Cursor::new(mark));
    if c.at < n {
        fill_rows(table, out, n, n, c);
    }
}
