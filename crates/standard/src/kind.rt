// The 25 kinds of rows, and what a row of each holds (docs/FORMAT.md, 2.2).
ghost use Rattle.std.specs.Prelude.{◌≡◌, ◌-◌, ◌^◌, ◌≤◌, ltb};
ghost use Rattle.standard.specs.Kinds.{style_of, is_kind, member, nameable, fair, count_in, kind_in};
ghost use Rattle.standard.specs.Encode.{fits_byte};
ghost use Rattle.standard.specs.Table.{ranged, letters, children};
ghost use Rattle.standard.specs.InCode.{kind_is, style_is, Names};

use crate::format_code;

/// A kind of row. Its number stands in the row, and is the format code of its wide form.
#[derive(Clone, Copy, Debug, PartialEq, Eq)]
pub enum Kind {
    Described = 0x00,
    Null = 0x40,
    Ubyte = 0x50,
    Byte = 0x51,
    Boolean = 0x56,
    Ushort = 0x60,
    Short = 0x61,
    Uint = 0x70,
    Int = 0x71,
    Float = 0x72,
    Char = 0x73,
    Decimal32 = 0x74,
    Ulong = 0x80,
    Long = 0x81,
    Double = 0x82,
    Timestamp = 0x83,
    Decimal64 = 0x84,
    Decimal128 = 0x94,
    Uuid = 0x98,
    Binary = 0xb0,
    String = 0xb1,
    Symbol = 0xb3,
    List = 0xd0,
    Map = 0xd1,
    Array = 0xf0,
}

/// A number that is none of the 25 kinds.
#[derive(Clone, Copy, Debug, PartialEq, Eq)]
pub struct UnknownKind;

impl TryFrom<u64> for Kind {
    type Error = UnknownKind;

    ghost try_from_gives = { Names };

    // In line it is one jump with the match on the kind that follows it.
    #[inline(always)]
    #[tactic(auto, unfolding(crate::specs::Kinds::style_of, crate::specs::Kinds::kinds, crate::specs::Choose::lookup, crate::specs::Kinds::is_kind))]
    fn try_from(number: u64) -> Result<Self, UnknownKind> {
        match number {
            0x00 => Ok(Kind::Described),
            0x40 => Ok(Kind::Null),
            0x50 => Ok(Kind::Ubyte),
            0x51 => Ok(Kind::Byte),
            0x56 => Ok(Kind::Boolean),
            0x60 => Ok(Kind::Ushort),
            0x61 => Ok(Kind::Short),
            0x70 => Ok(Kind::Uint),
            0x71 => Ok(Kind::Int),
            0x72 => Ok(Kind::Float),
            0x73 => Ok(Kind::Char),
            0x74 => Ok(Kind::Decimal32),
            0x80 => Ok(Kind::Ulong),
            0x81 => Ok(Kind::Long),
            0x82 => Ok(Kind::Double),
            0x83 => Ok(Kind::Timestamp),
            0x84 => Ok(Kind::Decimal64),
            0x94 => Ok(Kind::Decimal128),
            0x98 => Ok(Kind::Uuid),
            0xb0 => Ok(Kind::Binary),
            0xb1 => Ok(Kind::String),
            0xb3 => Ok(Kind::Symbol),
            0xd0 => Ok(Kind::List),
            0xd1 => Ok(Kind::Map),
            0xf0 => Ok(Kind::Array),
            _ => Err(UnknownKind),
        }
    }
}

impl From<Kind> for u64 {
    ghost from_gives = { λ kind n. n ≡ kind_is kind };

    fn from(kind: Kind) -> u64 {
        kind as u64
    }
}

// The shorter forms of a number, by their format codes.
#[derive(Clone, Copy)]
pub enum Short {
    // There is none: a case of the definition too, to which `Kind::style` is an equation.
    Never,
    // For 1, and for 0.
    Flag(u8, u8),
    // For 0, and for what fits a byte.
    Unsigned(u8, u8),
    // For what fits a byte, two's complement.
    Signed(u8),
}

// What a row holds. The format code of the wide form is the kind itself; the codes of shorter forms are named here, as in the definition.
#[derive(Clone, Copy)]
pub enum Style {
    // None of the 25 kinds: a case of the definition too, to which `style_of` is an equation.
    Foreign,
    // A number of that many bytes.
    Numbered(Short, usize),
    // Number 0, and that many bytes of text.
    Blob(usize),
    // The length of its text.
    Lettered(u8),
    // The number of its children. A list also has a code for the empty one.
    Listed(u8, u8),
    Mapped(u8),
    Arrayed(u8),
    // 2, its children: descriptor and value.
    Describing,
}

// The writer's limit on lengths, counts and bytes.
pub const MOST: u64 = 0x10_0000;

// The number of an array's row is its count, and its elements' kind times this.
pub const KIND_UNIT: u64 = 0x1_0000_0000;

impl Kind {
    // What a row of this kind holds.
    #[tactic(auto, unfolding(crate::specs::Kinds::style_of, crate::specs::Kinds::kinds, crate::specs::Choose::lookup, crate::specs::InCode::style_is))]
    pub fn style(self) -> Style
        ensures { style_is result ≡ style_of (kind_is self) }
    {
        match self {
            Kind::Described => Style::Describing,
            Kind::Null => Style::Numbered(Short::Never, 0),
            Kind::Ubyte => Style::Numbered(Short::Never, 1),
            Kind::Byte => Style::Numbered(Short::Never, 1),
            Kind::Boolean => Style::Numbered(Short::Flag(format_code::TRUE, format_code::FALSE), 1),
            Kind::Ushort => Style::Numbered(Short::Never, 2),
            Kind::Short => Style::Numbered(Short::Never, 2),
            Kind::Uint => Style::Numbered(
                Short::Unsigned(format_code::UINT_0, format_code::SMALL_UINT),
                4,
            ),
            Kind::Int => Style::Numbered(Short::Signed(format_code::SMALL_INT), 4),
            Kind::Float => Style::Numbered(Short::Never, 4),
            Kind::Char => Style::Numbered(Short::Never, 4),
            Kind::Decimal32 => Style::Numbered(Short::Never, 4),
            Kind::Ulong => Style::Numbered(
                Short::Unsigned(format_code::ULONG_0, format_code::SMALL_ULONG),
                8,
            ),
            Kind::Long => Style::Numbered(Short::Signed(format_code::SMALL_LONG), 8),
            Kind::Double => Style::Numbered(Short::Never, 8),
            Kind::Timestamp => Style::Numbered(Short::Never, 8),
            Kind::Decimal64 => Style::Numbered(Short::Never, 8),
            Kind::Decimal128 => Style::Blob(16),
            Kind::Uuid => Style::Blob(16),
            Kind::Binary => Style::Lettered(format_code::BINARY_8),
            Kind::String => Style::Lettered(format_code::STRING_8),
            Kind::Symbol => Style::Lettered(format_code::SYMBOL_8),
            Kind::List => Style::Listed(format_code::LIST_0, format_code::LIST_8),
            Kind::Map => Style::Mapped(format_code::MAP_8),
            Kind::Array => Style::Arrayed(format_code::ARRAY_8),
        }
    }

    // May a row of this kind be an element of an array.
    pub fn is_member(self) -> bool
        ensures { result ≡ member (style_of (kind_is self)) }
    {
        self.style().is_member()
    }

    // Is a boolean 0 or 1, and a char no surrogate and at most 0x10ffff. Every other number is fair.
    #[tactic(auto, unfolding(crate::specs::Kinds::fair))]
    pub fn is_fair(self, number: u64) -> bool
        ensures { result ≡ fair (kind_is self) number }
    {
        match self {
            Kind::Boolean => number <= 1,
            Kind::Char => matches!(number, 0..=0xd7ff | 0xe000..=0x10ffff),
            _ => true,
        }
    }
}

// What a row of that kind holds, by the kind's number, whatever that is.
#[tactic(auto, using(crate::specs::Facts::stranger))]
pub fn style_of(kind: u64) -> Style
    ensures { style_is result ≡ style_of kind }
{
    match Kind::try_from(kind) {
        Ok(kind) => kind.style(),
        Err(UnknownKind) => Style::Foreign,
    }
}

// Whether a number is fair, by the kind's number, whatever that is: where it is none of the 25 every number is.
#[tactic(auto, using(crate::specs::Facts::unheld))]
pub fn is_fair(kind: u64, number: u64) -> bool
    ensures { result ≡ fair kind number }
{
    match Kind::try_from(kind) {
        Ok(kind) => kind.is_fair(number),
        Err(UnknownKind) => true,
    }
}

// Does a number fit so many bytes. A table: by a shift it would ask for a width below 8 first, and the powers would not be seen.
#[tactic(auto, using(crate::proofs::Widths::wide_enough))]
pub fn fits_width(number: u64, width: usize) -> bool
    ensures { result ≡ ltb number (256 ^ width) }
{
    match width {
        0 => number < 1,
        1 => number < 0x100,
        2 => number < 0x1_0000,
        3 => number < 0x100_0000,
        4 => number < 0x1_0000_0000,
        5 => number < 0x100_0000_0000,
        6 => number < 0x1_0000_0000_0000,
        7 => number < 0x100_0000_0000_0000,
        8.. => true,
    }
}

// The least number of so many bytes that is −128 or more in two's complement.
fn least_negative(width: usize) -> u64
    requires { width ≤ 8 }
    ensures { result ≡ 256 ^ width - 128 }
{
    match width {
        0 => 0,
        1 => 0x80,
        2 => 0xff80,
        3 => 0xff_ff80,
        4 => 0xffff_ff80,
        5 => 0xff_ffff_ff80,
        6 => 0xffff_ffff_ff80,
        7 => 0xff_ffff_ffff_ff80,
        8.. => 0xffff_ffff_ffff_ff80,
    }
}

// Does a number of so many bytes, two's complement, fit one byte: from −128 to 127.
#[tactic(auto, unfolding(crate::specs::Encode::fits_byte), using(crate::proofs::Widths::too_wide))]
pub fn fits_byte(number: u64, width: usize) -> bool
    ensures { result ≡ fits_byte width number }
{
    number < 128 || width <= 8 && least_negative(width) <= number
}

// How many elements an array's row counts.
#[tactic(auto, unfolding(crate::specs::Kinds::count_in))]
pub fn count_of_elements(number: u64) -> u64
    ensures { result ≡ count_in number }
{
    number % KIND_UNIT
}

// The kind that it tells of its elements, where the number names one.
#[tactic(auto, unfolding(crate::specs::Kinds::kind_in))]
pub fn kind_of_elements(number: u64) -> Result<Kind, UnknownKind>
    ensures { Names (kind_in number) result }
{
    Kind::try_from(number / KIND_UNIT)
}

// May the number of an array's row name that kind, as far as arrays can hold it: 0 names none, and what is no kind is refused for that.
// By the kind's number, whatever that is.
#[tactic(auto, unfolding(crate::specs::Kinds::nameable), using(crate::specs::Facts::known))]
pub fn is_nameable(kind: u64) -> bool
    ensures { result ≡ nameable kind }
{
    match Kind::try_from(kind) {
        Ok(Kind::Described) => true,
        Ok(kind) => kind.is_member(),
        Err(UnknownKind) => true,
    }
}

impl Style {
    // Is it the style of one of the 25 kinds.
    #[tactic(auto, unfolding(crate::specs::Kinds::is_kind, crate::specs::InCode::style_is))]
    pub fn is_kind(self) -> bool
        ensures { result ≡ is_kind (style_is self) }
    {
        !matches!(self, Style::Foreign)
    }

    // May a row of this style be an element of an array.
    #[tactic(auto, unfolding(crate::specs::Kinds::member, crate::specs::InCode::style_is))]
    pub fn is_member(self) -> bool
        ensures { result ≡ member (style_is self) }
    {
        match self {
            Style::Foreign => false,
            Style::Numbered(_, width) | Style::Blob(width) => 1 <= width,
            Style::Describing => false,
            _ => true,
        }
    }

    // How many bytes of text belong to a row of this style.
    #[tactic(auto, unfolding(crate::specs::Table::letters, crate::specs::InCode::style_is))]
    pub fn letters(self, number: u64) -> u64
        ensures { result ≡ letters (style_is self) number }
    {
        match self {
            Style::Blob(width) => width as u64,
            Style::Lettered(_) => number,
            _ => 0,
        }
    }

    // How many children belong to a row of this style.
    #[tactic(auto, unfolding(crate::specs::Table::children, crate::specs::Kinds::count_in, crate::specs::InCode::style_is))]
    pub fn children(self, number: u64) -> u64
        ensures { result ≡ children (style_is self) number }
    {
        match self {
            Style::Foreign | Style::Numbered(_, _) | Style::Blob(_) | Style::Lettered(_) => 0,
            Style::Listed(_, _) | Style::Mapped(_) | Style::Describing => number,
            Style::Arrayed(_) => count_of_elements(number),
        }
    }

    // Is a number in the table's range for its kind, which is of this style. By the kind's number, whatever that is.
    #[tactic(auto, unfolding(crate::specs::Table::ranged, crate::specs::Kinds::count_in, crate::specs::Kinds::kind_in, crate::specs::InCode::style_is), using(crate::specs::Facts::strange))]
    pub fn takes(self, kind: u64, number: u64) -> bool
        ensures { result ≡ ranged (style_is self) kind number }
    {
        match self {
            Style::Foreign => false,
            Style::Numbered(_, width) => fits_width(number, width) && is_fair(kind, number),
            Style::Blob(_) => number == 0,
            Style::Lettered(_) | Style::Listed(_, _) => number <= MOST,
            Style::Mapped(_) => number <= MOST && number % 2 == 0,
            Style::Arrayed(_) => {
                count_of_elements(number) <= MOST
                    && kind_of_elements(number).is_ok_and(|kind| kind.is_member())
            }
            Style::Describing => number == 2,
        }
    }
}
