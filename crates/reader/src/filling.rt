// Filling rows and text from bytes that begin with a well-formed value, one row after another (docs/FORMAT.md, 4 and 6.4).
//
// There is no recursion into values: what is due is a stack of runs of them (src/due.rt).
ghost use Rattle.std.specs.Prelude.{◌≡◌, ◌+◌, ◌^◌, ◌≤◌, ◌<◌, ◌||◌, T, eqb, false, length, drop};
ghost use Rattle.std.proofs.lemmas.List.Edits.{sets};
ghost use Rattle.standard.specs.Codes.{kind_of, layout_of, element, scalar, compound, array, constant, whole, small, raw, sized};
ghost use Rattle.standard.specs.Kinds.{named};
ghost use Rattle.standard.specs.Grammar.{extend};
ghost use Rattle.standard.specs.Read.{front};
ghost use Rattle.standard.specs.Outcomes.{level_most, over};
ghost use Rattle.standard.specs.InCode.{kind_is};
ghost use Rattle.laws.specs.Flat.{step_of, behind_step};
ghost use Rattle.reader.specs.Entries.{narrow, usual};
ghost use Rattle.reader.specs.Measuring.{is_compound};
ghost use Rattle.reader.specs.Runs.{head_is};
ghost use Rattle.reader.specs.Filling.{Lands, leaf_row, parent_row, RowFound, Fillable, rows_in, text_in};

use crate::due::{Below, Run};
use crate::measuring::{compound_kind, compound_width};
use crate::number::{narrow_at, number_at};
use standard::format_code::{Compound8, Compound32};
use standard::kind::Kind;
use standard::{format_code, kind};

// A row; where its text begins in the bytes, and how long it is; and the run of its children. What stands behind the row begins
// where its text ends.
#[derive(Clone, Copy)]
pub struct Row {
    pub kind: Kind,
    pub number: u64,
    pub from: usize,
    pub text: usize,
    pub children: Run,
}

// A place in the bytes, or their end.
#[derive(Clone, Copy)]
pub struct Cursor<'a> {
    pub bytes: &'a [u8],
    pub at: usize,
    ghost inside: { at ≤ length bytes.now },
}

// A byte, two's complement, in four or eight bytes.
#[tactic(auto, unfolding(standard::specs::Grammar::extend, standard::specs::Grammar::negative))]
fn extended(byte: u8, width: usize) -> u64
    requires { (width ≡ 4 → ⊥) → width ≡ 8 }
    ensures { result ≡ extend width byte }
{
    let number = byte.cast_signed();
    if width == 4 {
        return u64::from(i32::from(number).cast_unsigned());
    }
    i64::from(number).cast_unsigned()
}

// A row with no children.
fn leaf(kind: Kind, number: u64, from: usize, text: usize) -> Row
    ensures { result ≡ leaf_row kind number from text }
{
    Row {
        kind,
        number,
        from,
        text,
        children: Run {
            left: 0,
            code: None,
        },
    }
}

// A row with so many children that begin with their own codes, and no text.
fn parent(kind: Kind, count: u64, from: usize) -> Row
    ensures { result ≡ parent_row kind count from }
{
    Row {
        kind,
        number: count,
        from,
        text: 0,
        children: Run {
            left: count,
            code: None,
        },
    }
}

// The number of an element code's kind: the code itself, where it is that of the wide form. Looking the entry up takes longer. It stays a
// call: in place it would take the registers in which the rows of lists are made.
#[inline(never)]
#[tactic(auto, unfolding(standard::specs::Codes::entry_of, standard::specs::Codes::codes, standard::specs::Choose::lookup))]
fn element_kind(code: u8) -> u64
    requires { T (element (layout_of code)) }
    ensures { result ≡ kind_of code }
{
    match code {
        format_code::SMALL_UINT => u64::from(Kind::Uint),
        format_code::SMALL_ULONG => u64::from(Kind::Ulong),
        format_code::SMALL_INT => u64::from(Kind::Int),
        format_code::SMALL_LONG => u64::from(Kind::Long),
        format_code::BINARY_8 => u64::from(Kind::Binary),
        format_code::STRING_8 => u64::from(Kind::String),
        format_code::SYMBOL_8 => u64::from(Kind::Symbol),
        format_code::LIST_8 => u64::from(Kind::List),
        format_code::MAP_8 => u64::from(Kind::Map),
        format_code::ARRAY_8 => u64::from(Kind::Array),
        _ => u64::from(code),
    }
}

// The number of an array's row: how many elements it has, and their kind, by their code.
#[tactic(auto, unfolding(standard::specs::Kinds::named), using(laws::specs::Bounds::kind_byte))]
fn array_number(count: u64, code: u8) -> u64
    requires { (count < 2 ^ 32) × T (element (layout_of code)) }
    ensures { result ≡ named count (kind_of code) }
{
    count + kind::KIND_UNIT * element_kind(code)
}

// The row of an array, behind its code. The first byte of its body, if there is one, is the elements' code.
#[tactic(auto, using(crate::proofs::RowSteps::array_fits, crate::proofs::RowSteps::empty_row, crate::proofs::RowSteps::items_fit, crate::proofs::RowSteps::items_element, crate::proofs::RowSteps::items_row))]
fn array_row(here: Cursor, kind: Kind, width: usize) -> Row
    requires { T (narrow width) × Lands (behind_step (kind_is kind) (drop here.at here.bytes.now) (array width)) }
    ensures { RowFound here.entry.bytes.now (behind_step (kind_is kind) (drop here.entry.at here.entry.bytes.now) (array width)) result }
{
    let size = narrow_at(here.bytes, here.at, width) as usize;
    let count = narrow_at(here.bytes, here.at + width, width);
    let body = here.at + width + width;
    if size == width {
        return leaf(kind, 0, body, 0);
    }
    let code = here.bytes[body];
    Row {
        kind,
        number: array_number(count, code),
        from: body + 1,
        text: 0,
        children: Run {
            left: count,
            code: Some(code),
        },
    }
}

// The row of a number, behind its code.
#[tactic(auto, using(crate::proofs::RowSteps::first_fits, crate::proofs::RowSteps::whole_row))]
fn whole_row(here: Cursor, kind: Kind, width: usize) -> Row
    requires { T (usual width) × Lands (behind_step (kind_is kind) (drop here.at here.bytes.now) (scalar (whole width))) }
    ensures { RowFound here.entry.bytes.now (behind_step (kind_is kind) (drop here.entry.at here.entry.bytes.now) (scalar (whole width))) result }
{
    leaf(
        kind,
        number_at(here.bytes, here.at, width),
        here.at + width,
        0,
    )
}

// The row of a number of one byte, two's complement.
#[tactic(auto, using(crate::proofs::RowSteps::first_fits, crate::proofs::RowSteps::small_row, crate::proofs::Entries::four_or_eight))]
fn small_row(here: Cursor, kind: Kind, width: usize) -> Row
    requires { T (eqb width 4 || eqb width 8) × Lands (behind_step (kind_is kind) (drop here.at here.bytes.now) (scalar (small width))) }
    ensures { RowFound here.entry.bytes.now (behind_step (kind_is kind) (drop here.entry.at here.entry.bytes.now) (scalar (small width))) result }
{
    leaf(kind, extended(here.bytes[here.at], width), here.at + 1, 0)
}

// The row of a number that its code tells.
#[tactic(auto, using(crate::proofs::RowSteps::constant_row))]
fn constant_row(here: Cursor, kind: Kind, number: u64) -> Row
    ensures { RowFound here.entry.bytes.now (behind_step (kind_is kind) (drop here.entry.at here.entry.bytes.now) (scalar (constant number))) result }
{
    leaf(kind, number, here.at, 0)
}

// The row of so many bytes of text, with no length before them.
#[tactic(auto, using(crate::proofs::RowSteps::raw_row))]
fn raw_row(here: Cursor, kind: Kind, width: usize) -> Row
    requires { Lands (behind_step (kind_is kind) (drop here.at here.bytes.now) (scalar (raw width))) }
    ensures { RowFound here.entry.bytes.now (behind_step (kind_is kind) (drop here.entry.at here.entry.bytes.now) (scalar (raw width))) result }
{
    leaf(kind, 0, here.at, width)
}

// The row of a text, behind its code.
#[tactic(auto, using(crate::proofs::RowSteps::first_fits, crate::proofs::RowSteps::sized_row))]
fn sized_row(here: Cursor, kind: Kind, width: usize) -> Row
    requires { T (narrow width) × Lands (behind_step (kind_is kind) (drop here.at here.bytes.now) (scalar (sized width))) }
    ensures { RowFound here.entry.bytes.now (behind_step (kind_is kind) (drop here.entry.at here.entry.bytes.now) (scalar (sized width))) result }
{
    let length = narrow_at(here.bytes, here.at, width);
    leaf(kind, length, here.at + width, length as usize)
}

// The row of a list or a map, behind its code.
#[tactic(auto, using(crate::proofs::RowSteps::compound_fits, crate::proofs::RowSteps::compound_row))]
fn compound_row(here: Cursor, kind: Kind, width: usize) -> Row
    requires { T (narrow width) × Lands (behind_step (kind_is kind) (drop here.at here.bytes.now) (compound width)) }
    ensures { RowFound here.entry.bytes.now (behind_step (kind_is kind) (drop here.entry.at here.entry.bytes.now) (compound width)) result }
{
    let count = narrow_at(here.bytes, here.at + width, width);
    parent(kind, count, here.at + width + width)
}

// The row of what stands behind a code, but for lists and maps with a size in front. Each code goes its own way at once, with its kind:
// looking its entry up takes as long again, and so does the number of a kind that is not known here.
#[tactic(auto, unfolding(standard::specs::Codes::entry_of, standard::specs::Codes::codes, standard::specs::Choose::lookup), using(crate::proofs::RowSteps::described_row, crate::proofs::RowSteps::entry_there))]
fn other_row(here: Cursor, code: u8) -> Row
    requires { (is_compound (layout_of code) ≡ false) × Lands (behind_step (kind_of code) (drop here.at here.bytes.now) (layout_of code)) }
    ensures { RowFound here.entry.bytes.now (behind_step (kind_of code) (drop here.entry.at here.entry.bytes.now) (layout_of code)) result }
{
    match code {
        format_code::DESCRIBED => parent(Kind::Described, 2, here.at),
        format_code::NULL => whole_row(here, Kind::Null, 0),
        format_code::TRUE => constant_row(here, Kind::Boolean, 1),
        format_code::FALSE => constant_row(here, Kind::Boolean, 0),
        format_code::UINT_0 => constant_row(here, Kind::Uint, 0),
        format_code::ULONG_0 => constant_row(here, Kind::Ulong, 0),
        format_code::LIST_0 => constant_row(here, Kind::List, 0),
        format_code::UBYTE => whole_row(here, Kind::Ubyte, 1),
        format_code::BYTE => whole_row(here, Kind::Byte, 1),
        format_code::SMALL_UINT => whole_row(here, Kind::Uint, 1),
        format_code::SMALL_ULONG => whole_row(here, Kind::Ulong, 1),
        format_code::SMALL_INT => small_row(here, Kind::Int, 4),
        format_code::SMALL_LONG => small_row(here, Kind::Long, 8),
        format_code::BOOLEAN => whole_row(here, Kind::Boolean, 1),
        format_code::USHORT => whole_row(here, Kind::Ushort, 2),
        format_code::SHORT => whole_row(here, Kind::Short, 2),
        format_code::UINT => whole_row(here, Kind::Uint, 4),
        format_code::INT => whole_row(here, Kind::Int, 4),
        format_code::FLOAT => whole_row(here, Kind::Float, 4),
        format_code::CHAR => whole_row(here, Kind::Char, 4),
        format_code::DECIMAL_32 => whole_row(here, Kind::Decimal32, 4),
        format_code::ULONG => whole_row(here, Kind::Ulong, 8),
        format_code::LONG => whole_row(here, Kind::Long, 8),
        format_code::DOUBLE => whole_row(here, Kind::Double, 8),
        format_code::TIMESTAMP => whole_row(here, Kind::Timestamp, 8),
        format_code::DECIMAL_64 => whole_row(here, Kind::Decimal64, 8),
        format_code::DECIMAL_128 => raw_row(here, Kind::Decimal128, 16),
        format_code::UUID => raw_row(here, Kind::Uuid, 16),
        format_code::BINARY_8 => sized_row(here, Kind::Binary, 1),
        format_code::STRING_8 => sized_row(here, Kind::String, 1),
        format_code::SYMBOL_8 => sized_row(here, Kind::Symbol, 1),
        format_code::BINARY_32 => sized_row(here, Kind::Binary, 4),
        format_code::STRING_32 => sized_row(here, Kind::String, 4),
        format_code::SYMBOL_32 => sized_row(here, Kind::Symbol, 4),
        format_code::ARRAY_8 => array_row(here, Kind::Array, Compound8::COUNT_WIDTH),
        format_code::ARRAY_32 => array_row(here, Kind::Array, Compound32::COUNT_WIDTH),
        _ => unreachable!(),
    }
}

// The row of what stands behind a code. Lists and maps, of which there are many, do not take the jump that the others take; the empty list
// with a code of its own does.
fn row_behind(here: Cursor, code: u8) -> Row
    requires { Lands (behind_step (kind_of code) (drop here.at here.bytes.now) (layout_of code)) }
    ensures { RowFound here.entry.bytes.now (behind_step (kind_of code) (drop here.entry.at here.entry.bytes.now) (layout_of code)) result }
{
    if let Some(width) = compound_width(code) {
        return compound_row(here, compound_kind(code), width);
    }
    other_row(here, code)
}

// The row of the next value, which stands behind that code or begins with its own.
#[tactic(auto, unfolding(laws::specs::Flat::step_of), using(crate::proofs::RowSteps::code_fits, crate::proofs::RowSteps::begins_with))]
fn row_at(here: Cursor, code: Option<u8>) -> Row
    requires { Lands (step_of (head_is code) (drop here.at here.bytes.now)) }
    ensures { RowFound here.entry.bytes.now (step_of (head_is code) (drop here.entry.at here.entry.bytes.now)) result }
{
    let Cursor { bytes, at } = here;
    let (code, at) = match code {
        Some(code) => (code, at),
        None => (bytes[at], at + 1),
    };
    row_behind(Cursor { bytes, at }, code)
}

// Copies the text of a row.
fn put_text(text: &mut [u8], at: usize, letters: &[u8])
    requires { at + length letters.now ≤ length text.old }
    ensures { text.new ≡ sets text.old at letters.now }
{
    // by hand: `copy_from_slice` of a length known only as the program runs is a call of memmove for each text, and needs it from outside
    for k in 0..letters.len() {
        text[at + k] = letters[k];
    }
}

// Fills words and text from the value at the front of the bytes, which has so many rows.
#[tactic(auto, using(crate::proofs::Filled::begin))]
pub(crate) fn fill(bytes: &[u8], words: &mut [u64], text: &mut [u8], rows: usize)
    requires { Fillable bytes.now words.old text.old rows }
    ensures { (words.new ≡ over (rows_in (front level_most bytes.now)) words.old)
        × (text.new ≡ over (text_in (front level_most bytes.now)) text.old) }
{
    let mut below = Below::none();
    let mut top = Run {
        left: 1,
        code: None,
    };
    let mut at: usize = 0;
    let mut letters: usize = 0;
    // By the row's number: the library does not say what a slice ends as behind `as_chunks_mut` or `chunks_exact_mut`.
    for row in 0..rows {
        top = below.next_run(top);
        let r = row_at(Cursor { bytes, at }, top.code);
        let k = 2 * row;
        words[k] = u64::from(r.kind);
        words[k + 1] = r.number;
        at = r.from + r.text;
        put_text(text, letters, &bytes[r.from..at]);
        top = below.after_row(top, r.children);
        letters += r.text;
    }
}
