// Stores into the output: big-endian numbers, runs of text, and what begins with a format code. Each takes the whole output and a place
// in it: of a part from there on, each promise would have to say again what the whole is.
ghost use Rattle.std.specs.Prelude.{◌≡◌, true, [], ◌∷◌, ◌++◌, ◌+◌, ◌%◌, ◌^◌, ◌≤◌, ◌<◌, eqb, length, take, drop};
ghost use Rattle.std.proofs.lemmas.List.Edits.{sets};
ghost use Rattle.standard.specs.Choose.{if};
ghost use Rattle.standard.specs.Bytes.{be};
ghost use Rattle.standard.specs.Kinds.{unsigned, signed, style_of};
ghost use Rattle.standard.specs.Encode.{shortest};
ghost use Rattle.standard.specs.InCode.{kind_is};
ghost use Rattle.writer.specs.Heads.{enclosure, head};
ghost use Rattle.writer.specs.Direct.{is_number, is_lettered, spelled, Put};

use crate::head;
use standard::format_code::{Compound8, Compound32};
use standard::kind::Kind;
use standard::{format_code, kind};

// The low N bytes of a number: one store, where a width that is known only as the program runs would take a call. That N is at most 8
// each asks anew: a const parameter has no invariant.
fn put_low<const N: usize>(out: &mut [u8], at: usize, number: u64)
    requires { (N ≤ 8) × (at + N ≤ length out.old) }
    ensures { out.new ≡ sets out.old at (be N number) }
{
    out[at..at + N].copy_from_slice(&number.to_be_bytes()[8 - N..]);
}

// A mark.
pub(crate) fn put_three(out: &mut [u8], at: usize, number: u64)
    requires { at + 3 ≤ length out.old }
    ensures { out.new ≡ sets out.old at (be 3 number) }
{
    put_low::<3>(out, at, number);
}

// The low bytes of a number, as many as its width. Each width has its own store: a copy of any length would need memmove from outside.
#[tactic(auto, unfolding(standard::specs::Bytes::be))]
pub(crate) fn put_be(out: &mut [u8], at: usize, width: usize, number: u64)
    requires { (width ≤ 8) × (at + width ≤ length out.old) }
    ensures { out.new ≡ sets out.old at (be width number) }
{
    match width {
        0 => {}
        1 => put_low::<1>(out, at, number),
        2 => put_low::<2>(out, at, number),
        3 => put_low::<3>(out, at, number),
        4 => put_low::<4>(out, at, number),
        5 => put_low::<5>(out, at, number),
        6 => put_low::<6>(out, at, number),
        7 => put_low::<7>(out, at, number),
        8 => put_low::<8>(out, at, number),
        _ => unreachable!(),
    }
}

// N bytes of a text from `from` on.
fn copy_run<const N: usize>(out: &mut [u8], at: usize, text: &[u8], from: usize)
    requires { (at + N ≤ length out.old) × (from + N ≤ length text.now) }
    ensures { out.new ≡ sets out.old at (take N (drop from text.now)) }
{
    out[at..at + N].copy_from_slice(&text[from..from + N]);
}

// So many bytes of a text from `from` on. A short text is two runs of four, which may overlap: the processor would guess the end of a loop wrong.
pub(crate) fn put_text(out: &mut [u8], at: usize, text: &[u8], from: usize, count: usize)
    requires { (at + count ≤ length out.old) × (from + count ≤ length text.now) }
    ensures { out.new ≡ sets out.old at (take count (drop from text.now)) }
{
    if 4 <= count && count <= 8 {
        copy_run::<4>(out, at, text, from);
        copy_run::<4>(out, at + count - 4, text, from + count - 4);
        return;
    }
    // by hand: `copy_from_slice` of a length known only as the program runs is a call of memmove for each text, and needs it from outside
    for k in 0..count {
        out[at + k] = text[from + k];
    }
}

// A code alone. This and the functions below give the number of bytes that they write.
pub(crate) fn put_code(out: &mut [u8], at: usize, code: u8) -> usize
    requires { at + 1 ≤ length out.old }
    ensures { Put (code ∷ []) out.old at out.new result }
{
    out[at] = code;
    1
}

// A code, and a number of N bytes behind it.
fn put_coded<const N: usize>(out: &mut [u8], at: usize, code: u8, number: u64) -> usize
    requires { (N ≤ 8) × (at + length (code ∷ be N number) ≤ length out.old) }
    ensures { Put (code ∷ be N number) out.old at out.new result }
{
    let size = put_code(out, at, code);
    put_low::<N>(out, at + size, number);
    size + N
}

// A code, and the size and the count of a body in N bytes each. The size takes in the bytes of the count.
fn put_sized<const N: usize>(out: &mut [u8], at: usize, code: u8, body: u64, count: u64) -> usize
    requires { (N ≤ 8) × (N + body < 2 ^ 64) × (at + length (code ∷ be N (N + body) ++ be N count) ≤ length out.old) }
    ensures { Put (code ∷ be N (N + body) ++ be N count) out.old at out.new result }
{
    let size = put_coded::<N>(out, at, code, N as u64 + body);
    put_low::<N>(out, at + size, count);
    size + N
}

// What stands before a body of so many bytes: the code, the size and the count of a list, a map or an array.
#[tactic(auto, unfolding(crate::specs::Heads::enclosure))]
pub(crate) fn put_enclosure(
    out: &mut [u8],
    at: usize,
    short: u8,
    code: u8,
    count: u64,
    body: u64,
) -> usize
    requires { (body + 4 < 2 ^ 64) × (at + length (enclosure short code count body) ≤ length out.old) }
    ensures { Put (enclosure short code count body) out.old at out.new result }
{
    if body < head::SHORT_END {
        return put_sized::<{ Compound8::COUNT_WIDTH }>(out, at, short, body, count);
    }
    put_sized::<{ Compound32::COUNT_WIDTH }>(out, at, code, body, count)
}

// The size and the count of an element with a body of so many bytes.
pub(crate) fn put_fields(out: &mut [u8], at: usize, body: u64, count: u64)
    requires { (4 + body < 2 ^ 64) × (at + 8 ≤ length out.old) }
    ensures { out.new ≡ sets out.old at (be 4 (4 + body) ++ be 4 count) }
{
    put_low::<4>(out, at, 4 + body);
    put_low::<4>(out, at + 4, count);
}

// A boolean: a code for 1, and a code for 0.
fn put_flag(out: &mut [u8], at: usize, one: u8, zero: u8, number: u64) -> usize
    requires { at + 1 ≤ length out.old }
    ensures { Put (if (eqb number 0) (zero ∷ []) (one ∷ [])) out.old at out.new result }
{
    if number == 0 {
        return put_code(out, at, zero);
    }
    put_code(out, at, one)
}

// An unsigned number: a code for 0, or a code and a byte, or a code and all bytes.
#[tactic(auto, unfolding(standard::specs::Encode::shortest))]
fn put_unsigned<const N: usize>(
    out: &mut [u8],
    at: usize,
    zero: u8,
    byte: u8,
    code: u8,
    number: u64,
) -> usize
    requires { (N ≤ 8) × (at + length (shortest (unsigned zero byte) N code number) ≤ length out.old) }
    ensures { Put (shortest (unsigned zero byte) N code number) out.old at out.new result }
{
    if number == 0 {
        return put_code(out, at, zero);
    }
    if number < 256 {
        return put_coded::<1>(out, at, byte, number);
    }
    put_coded::<N>(out, at, code, number)
}

// A number in two's complement: a code and a byte, or a code and all bytes.
#[tactic(auto, unfolding(standard::specs::Encode::shortest))]
fn put_signed<const N: usize>(out: &mut [u8], at: usize, byte: u8, code: u8, number: u64) -> usize
    requires { (N ≤ 8) × (at + length (shortest (signed byte) N code number) ≤ length out.old) }
    ensures { Put (shortest (signed byte) N code number) out.old at out.new result }
{
    if kind::fits_byte(number, N) {
        return put_coded::<1>(out, at, byte, number);
    }
    put_coded::<N>(out, at, code, number)
}

// A code, the length of a text in N bytes, and the text, from `from` on.
fn put_run<const N: usize>(
    out: &mut [u8],
    at: usize,
    code: u8,
    number: u64,
    text: &[u8],
    from: usize,
) -> usize
    requires { (N ≤ 8) × (from + number ≤ length text.now) × (at + length (code ∷ be N number ++ take number (drop from text.now)) ≤ length out.old) }
    ensures { Put (code ∷ be N number ++ take number (drop from text.now)) out.old at out.new result }
{
    let count = number as usize;
    let size = put_coded::<N>(out, at, code, number);
    put_text(out, at + size, text, from, count);
    size + count
}

// A text behind its length: a code and a byte, or a code and four bytes.
#[tactic(auto, unfolding(crate::specs::Direct::spelled))]
fn put_lettered(
    out: &mut [u8],
    at: usize,
    short: u8,
    code: u8,
    number: u64,
    text: &[u8],
    from: usize,
) -> usize
    requires { (from + number ≤ length text.now) × (at + length (spelled short code number (drop from text.now)) ≤ length out.old) }
    ensures { Put (spelled short code number (drop from text.now)) out.old at out.new result }
{
    if number < head::SHORT_END {
        return put_run::<1>(out, at, short, number, text, from);
    }
    put_run::<4>(out, at, code, number, text, from)
}

// A row of letters with its text, from `from` on.
#[tactic(auto, unfolding(crate::specs::Heads::head, standard::specs::Kinds::style_of, standard::specs::Kinds::kinds, standard::specs::Choose::lookup, crate::specs::Direct::spelled))]
pub(crate) fn put_letters(
    out: &mut [u8],
    at: usize,
    kind: Kind,
    number: u64,
    text: &[u8],
    from: usize,
) -> usize
    requires { (is_lettered (style_of (kind_is kind)) ≡ true) × (from + number ≤ length text.now)
        × (at + length (head (style_of (kind_is kind)) (kind_is kind % 256) number 0 ++ take number (drop from text.now)) ≤ length out.old) }
    ensures { Put (head (style_of (kind_is kind)) (kind_is kind % 256) number 0 ++ take number (drop from text.now)) out.old at out.new result }
{
    let code = head::wide_code(kind);
    match kind {
        Kind::Binary => put_lettered(out, at, format_code::BINARY_8, code, number, text, from),
        Kind::String => put_lettered(out, at, format_code::STRING_8, code, number, text, from),
        Kind::Symbol => put_lettered(out, at, format_code::SYMBOL_8, code, number, text, from),
        _ => unreachable!(),
    }
}

// 16 bytes of text behind their code.
pub(crate) fn put_blob(out: &mut [u8], at: usize, code: u8, text: &[u8], from: usize) -> usize
    requires { (at + 17 ≤ length out.old) × (from + 16 ≤ length text.now) }
    ensures { Put (code ∷ take 16 (drop from text.now)) out.old at out.new result }
{
    let size = put_code(out, at, code);
    copy_run::<16>(out, at + size, text, from);
    size + 16
}

// A number in the shortest form of its kind.
#[tactic(auto, unfolding(crate::specs::Heads::head, standard::specs::Kinds::style_of, standard::specs::Kinds::kinds, standard::specs::Choose::lookup, standard::specs::Encode::shortest))]
pub(crate) fn put_number(out: &mut [u8], at: usize, kind: Kind, number: u64) -> usize
    requires { (is_number (style_of (kind_is kind)) ≡ true)
        × (at + length (head (style_of (kind_is kind)) (kind_is kind % 256) number 0) ≤ length out.old) }
    ensures { Put (head (style_of (kind_is kind)) (kind_is kind % 256) number 0) out.old at out.new result }
{
    let code = head::wide_code(kind);
    match kind {
        Kind::Null => put_code(out, at, code),
        Kind::Boolean => put_flag(out, at, format_code::TRUE, format_code::FALSE, number),
        Kind::Ubyte | Kind::Byte => put_coded::<1>(out, at, code, number),
        Kind::Ushort | Kind::Short => put_coded::<2>(out, at, code, number),
        Kind::Uint => {
            let (zero, byte) = (format_code::UINT_0, format_code::SMALL_UINT);
            put_unsigned::<4>(out, at, zero, byte, code, number)
        }
        Kind::Int => put_signed::<4>(out, at, format_code::SMALL_INT, code, number),
        Kind::Float | Kind::Char | Kind::Decimal32 => put_coded::<4>(out, at, code, number),
        Kind::Ulong => {
            let (zero, byte) = (format_code::ULONG_0, format_code::SMALL_ULONG);
            put_unsigned::<8>(out, at, zero, byte, code, number)
        }
        Kind::Long => put_signed::<8>(out, at, format_code::SMALL_LONG, code, number),
        Kind::Double | Kind::Timestamp | Kind::Decimal64 => {
            put_coded::<8>(out, at, code, number)
        }
        _ => unreachable!(),
    }
}
