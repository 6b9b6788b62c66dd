// What stands before a row's text: how many bytes its format code takes, and its number or its size and count (docs/FORMAT.md, 3).
ghost use Rattle.std.specs.Prelude.{◌≡◌, ◌+◌, ◌%◌, ◌^◌, ◌<◌, ◌≤◌, ℕ, length, ltb};
ghost use Rattle.standard.specs.Choose.{if};
ghost use Rattle.standard.specs.Kinds.{unsigned, signed, style_of};
ghost use Rattle.standard.specs.Encode.{shortest, short_end};
ghost use Rattle.standard.specs.InCode.{kind_is};
ghost use Rattle.writer.specs.Heads.{head, array_width, item_width};

use standard::format_code::{Compound8, Compound32};
use standard::kind;
use standard::kind::{Kind, Style};

// Texts and bodies of fewer bytes than this take the short form.
pub(crate) const SHORT_END: u64 = 255;

// A mark's bytes.
pub(crate) const MARK_WIDTH: usize = 3;

// Rows are values, with codes of their own, or elements of an array.
#[derive(Clone, Copy, Default)]
pub enum Mode {
    #[default]
    Values,
    Elements,
}

// The format code of a kind's wide form: a function, since a cast in the midst of another is a choice among 25 in its proof.
pub(crate) fn wide_code(kind: Kind) -> u8
    ensures { result ≡ kind_is kind }
{
    kind as u8
}

// The bytes of an unsigned number of that width, and of one in two's complement.
fn unsigned_width(number: u64, width: usize) -> usize
    requires { width ≤ 8 }
    ensures { (z s c : ℕ) → result ≡ length (shortest (unsigned z s) width c number) }
{
    if number == 0 {
        return 1;
    }
    if number < 256 {
        return 2;
    }
    1 + width
}

fn signed_width(number: u64, width: usize) -> usize
    requires { width ≤ 8 }
    ensures { (s c : ℕ) → result ≡ length (shortest (signed s) width c number) }
{
    if kind::fits_byte(number, width) {
        return 2;
    }
    1 + width
}

// Code, size and count before a body of so many bytes.
pub(crate) fn compound_width(body: usize) -> usize
    ensures { result ≡ if (ltb body short_end) 3 9 }
{
    if body < SHORT_END as usize {
        return 1 + 2 * Compound8::COUNT_WIDTH;
    }
    1 + 2 * Compound32::COUNT_WIDTH
}

// Code, size and count of an array before elements of so many bytes, and the code of these.
pub(crate) fn array_width(elements: usize) -> usize
    requires { elements + 1 < 2 ^ 64 }
    ensures { result ≡ array_width elements }
{
    1 + compound_width(1 + elements)
}

// How many bytes stand before the text of a value without children.
#[tactic(auto, unfolding(crate::specs::Heads::head, standard::specs::Kinds::style_of, standard::specs::Kinds::kinds, standard::specs::Choose::lookup, standard::specs::Encode::shortest, standard::specs::Bytes::be, crate::specs::Heads::enclosure), using(crate::proofs::Direct::flag_long))]
pub(crate) fn head_width(kind: Kind, number: u64) -> usize
    ensures { result ≡ length (head (style_of (kind_is kind)) (kind_is kind % 256) number 0) }
{
    match kind {
        Kind::Described | Kind::Null | Kind::Boolean | Kind::Decimal128 | Kind::Uuid => 1,
        Kind::Ubyte | Kind::Byte => 2,
        Kind::Ushort | Kind::Short => 3,
        Kind::Uint => unsigned_width(number, 4),
        Kind::Int => signed_width(number, 4),
        Kind::Float | Kind::Char | Kind::Decimal32 => 5,
        Kind::Ulong => unsigned_width(number, 8),
        Kind::Long => signed_width(number, 8),
        Kind::Double | Kind::Timestamp | Kind::Decimal64 => 9,
        Kind::Binary | Kind::String | Kind::Symbol => { if number < SHORT_END { 2 } else { 5 } }
        Kind::List => { if number == 0 { 1 } else { compound_width(0) } }
        Kind::Map => compound_width(0),
        Kind::Array => array_width(0),
    }
}

// Size and count of a list, a map or an array that is an element.
pub(crate) const ITEM_WIDTH: usize = 8;

// And of an array with the code of its elements.
pub(crate) const ITEM_ARRAY_WIDTH: usize = 9;

// How many bytes stand before the text of an element of an array, which has no code of its own and no short form.
#[tactic(auto, unfolding(crate::specs::Heads::item_width))]
pub(crate) fn item_width(kind: Kind) -> usize
    ensures { result ≡ item_width (style_of (kind_is kind)) }
{
    match kind.style() {
        Style::Numbered(_, width) => width,
        Style::Foreign | Style::Blob(_) | Style::Describing => 0,
        Style::Lettered(_) => 4,
        Style::Listed(_, _) | Style::Mapped(_) => ITEM_WIDTH,
        Style::Arrayed(_) => ITEM_ARRAY_WIDTH,
    }
}
