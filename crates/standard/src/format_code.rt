// The 40 format codes of AMQP 1.0 (Part 1, 1.6; docs/FORMAT.md, 4.1).
// They are named bytes, as they stand in what is written and read: an enum of them would be a second table beside that of `entry_of`,
// which turns a code into types.
ghost use Rattle.std.specs.Prelude.{◌≡◌, Some};
ghost use Rattle.standard.specs.Codes.{entry_of};
ghost use Rattle.standard.specs.InCode.{entry_is};

use crate::kind::Kind;

pub const DESCRIBED: u8 = 0x00;

pub const NULL: u8 = 0x40;

pub const TRUE: u8 = 0x41;

pub const FALSE: u8 = 0x42;

pub const UINT_0: u8 = 0x43;

pub const ULONG_0: u8 = 0x44;

pub const LIST_0: u8 = 0x45;

pub const UBYTE: u8 = 0x50;

pub const BYTE: u8 = 0x51;

pub const SMALL_UINT: u8 = 0x52;

pub const SMALL_ULONG: u8 = 0x53;

pub const SMALL_INT: u8 = 0x54;

pub const SMALL_LONG: u8 = 0x55;

pub const BOOLEAN: u8 = 0x56;

pub const USHORT: u8 = 0x60;

pub const SHORT: u8 = 0x61;

pub const UINT: u8 = 0x70;

pub const INT: u8 = 0x71;

pub const FLOAT: u8 = 0x72;

pub const CHAR: u8 = 0x73;

pub const DECIMAL_32: u8 = 0x74;

pub const ULONG: u8 = 0x80;

pub const LONG: u8 = 0x81;

pub const DOUBLE: u8 = 0x82;

pub const TIMESTAMP: u8 = 0x83;

pub const DECIMAL_64: u8 = 0x84;

pub const DECIMAL_128: u8 = 0x94;

pub const UUID: u8 = 0x98;

pub const BINARY_8: u8 = 0xa0;

pub const STRING_8: u8 = 0xa1;

pub const SYMBOL_8: u8 = 0xa3;

pub const BINARY_32: u8 = 0xb0;

pub const STRING_32: u8 = 0xb1;

pub const SYMBOL_32: u8 = 0xb3;

pub const LIST_8: u8 = 0xc0;

pub const MAP_8: u8 = 0xc1;

pub const LIST_32: u8 = 0xd0;

pub const MAP_32: u8 = 0xd1;

pub const ARRAY_8: u8 = 0xe0;

pub const ARRAY_32: u8 = 0xf0;

// A list, a map or an array whose size and count have one byte each.
#[derive(Clone, Copy)]
pub struct Compound8;

impl Compound8 {
    pub const COUNT_WIDTH: usize = 1;
}

// A list, a map or an array whose size and count have four bytes each.
#[derive(Clone, Copy)]
pub struct Compound32;

impl Compound32 {
    pub const COUNT_WIDTH: usize = 4;
}

// What stands behind a format code.
#[derive(Clone, Copy)]
pub enum Layout {
    // Two values: descriptor and value.
    Described,
    // Nothing: the code says the number.
    Constant(u64),
    // A number of that many bytes.
    Whole(usize),
    // A number of one byte, two's complement, which its row holds in that many bytes.
    Small(usize),
    // That many bytes of text, and no number.
    Raw(usize),
    // A length of that many bytes, and so many bytes of text.
    Sized(usize),
    // Size and count of that many bytes each, and so many values.
    Compound(usize),
    // Size and count of that many bytes each, an element code and so many payloads.
    Array(usize),
}

// The kind of row that a code reads to, and what stands behind the code.
#[derive(Clone, Copy)]
pub struct Entry {
    pub kind: Kind,
    pub layout: Layout,
}

fn reads_to(kind: Kind, layout: Layout) -> Option<Entry>
    ensures { result ≡ Some (record { kind = kind; layout = layout }) }
{
    Some(Entry { kind, layout })
}

// The entry of a format code; none for a byte that is none of the 40.
#[tactic(auto, unfolding(crate::specs::Codes::entry_of, crate::specs::Codes::codes, crate::specs::Choose::lookup, crate::specs::InCode::entry_is))]
pub fn entry_of(code: u8) -> Option<Entry>
    ensures { entry_is code result ≡ entry_of code }
{
    match code {
        DESCRIBED => reads_to(Kind::Described, Layout::Described),
        NULL => reads_to(Kind::Null, Layout::Whole(0)),
        TRUE => reads_to(Kind::Boolean, Layout::Constant(1)),
        FALSE => reads_to(Kind::Boolean, Layout::Constant(0)),
        UINT_0 => reads_to(Kind::Uint, Layout::Constant(0)),
        ULONG_0 => reads_to(Kind::Ulong, Layout::Constant(0)),
        LIST_0 => reads_to(Kind::List, Layout::Constant(0)),
        UBYTE => reads_to(Kind::Ubyte, Layout::Whole(1)),
        BYTE => reads_to(Kind::Byte, Layout::Whole(1)),
        SMALL_UINT => reads_to(Kind::Uint, Layout::Whole(1)),
        SMALL_ULONG => reads_to(Kind::Ulong, Layout::Whole(1)),
        SMALL_INT => reads_to(Kind::Int, Layout::Small(4)),
        SMALL_LONG => reads_to(Kind::Long, Layout::Small(8)),
        BOOLEAN => reads_to(Kind::Boolean, Layout::Whole(1)),
        USHORT => reads_to(Kind::Ushort, Layout::Whole(2)),
        SHORT => reads_to(Kind::Short, Layout::Whole(2)),
        UINT => reads_to(Kind::Uint, Layout::Whole(4)),
        INT => reads_to(Kind::Int, Layout::Whole(4)),
        FLOAT => reads_to(Kind::Float, Layout::Whole(4)),
        CHAR => reads_to(Kind::Char, Layout::Whole(4)),
        DECIMAL_32 => reads_to(Kind::Decimal32, Layout::Whole(4)),
        ULONG => reads_to(Kind::Ulong, Layout::Whole(8)),
        LONG => reads_to(Kind::Long, Layout::Whole(8)),
        DOUBLE => reads_to(Kind::Double, Layout::Whole(8)),
        TIMESTAMP => reads_to(Kind::Timestamp, Layout::Whole(8)),
        DECIMAL_64 => reads_to(Kind::Decimal64, Layout::Whole(8)),
        DECIMAL_128 => reads_to(Kind::Decimal128, Layout::Raw(16)),
        UUID => reads_to(Kind::Uuid, Layout::Raw(16)),
        BINARY_8 => reads_to(Kind::Binary, Layout::Sized(1)),
        STRING_8 => reads_to(Kind::String, Layout::Sized(1)),
        SYMBOL_8 => reads_to(Kind::Symbol, Layout::Sized(1)),
        BINARY_32 => reads_to(Kind::Binary, Layout::Sized(4)),
        STRING_32 => reads_to(Kind::String, Layout::Sized(4)),
        SYMBOL_32 => reads_to(Kind::Symbol, Layout::Sized(4)),
        LIST_8 => reads_to(Kind::List, Layout::Compound(Compound8::COUNT_WIDTH)),
        MAP_8 => reads_to(Kind::Map, Layout::Compound(Compound8::COUNT_WIDTH)),
        LIST_32 => reads_to(Kind::List, Layout::Compound(Compound32::COUNT_WIDTH)),
        MAP_32 => reads_to(Kind::Map, Layout::Compound(Compound32::COUNT_WIDTH)),
        ARRAY_8 => reads_to(Kind::Array, Layout::Array(Compound8::COUNT_WIDTH)),
        ARRAY_32 => reads_to(Kind::Array, Layout::Array(Compound32::COUNT_WIDTH)),
        _ => None,
    }
}
