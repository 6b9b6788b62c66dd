// Numbers, the most common rows: the bytes that each takes where it stands in no array (docs/FORMAT.md, 3.2).
// A number that is not in the range of its kind takes none.
ghost use Rattle.std.specs.Prelude.{◌≡◌, true, Some, None, IfSome, ℕ, ◌-◌, ◌*◌, ◌/◌, ◌%◌, ◌^◌, ◌≤◌, ◌<◌, min, ltb, length};
ghost use Rattle.standard.specs.Choose.{if};
ghost use Rattle.standard.specs.Kinds.{never, flag, unsigned, signed, numbered, style_of};
ghost use Rattle.standard.specs.Table.{ranged};
ghost use Rattle.standard.specs.Encode.{shortest};
ghost use Rattle.standard.specs.InCode.{kind_is};
ghost use Rattle.writer.specs.Sizing.{number_size, plain_below, plain_kind};

use standard::kind;
use standard::kind::Kind;

// A number with no short form.
#[tactic(auto, using(crate::proofs::Sizes::never_yes))]
fn size_never(number: u64, width: usize) -> Option<usize>
    requires { width ≤ 8 }
    ensures { (c : ℕ) → result ≡ if (ltb number (256 ^ width)) (Some (length (shortest never width c number))) None }
{
    if !kind::fits_width(number, width) {
        return None;
    }
    Some(1 + width)
}

#[tactic(auto, using(crate::proofs::Sizes::boolean_yes, crate::proofs::Sizes::boolean_no))]
fn size_boolean(number: u64) -> Option<usize>
    ensures { (y x c : ℕ) → result ≡ if (ranged (numbered (flag y x) 1) 0x56 number) (Some (length (shortest (flag y x) 1 c number))) None }
{
    if 1 < number {
        return None;
    }
    Some(1)
}

#[tactic(auto, using(crate::proofs::Sizes::char_yes, crate::proofs::Sizes::char_no))]
fn size_char(number: u64) -> Option<usize>
    ensures { (c : ℕ) → result ≡ if (ranged (numbered never 4) 0x73 number) (Some (length (shortest never 4 c number))) None }
{
    if !Kind::Char.is_fair(number) {
        return None;
    }
    size_never(number, 4)
}

// The same rule stands in head.rt: there the number is known to be in range, and is not asked for it (docs/DECISIONS.md, 28).
#[tactic(auto, using(crate::proofs::Sizes::unsigned_zero, crate::proofs::Sizes::unsigned_byte, crate::proofs::Sizes::unsigned_wide))]
fn size_unsigned(number: u64, width: usize) -> Option<usize>
    requires { (1 ≤ width) × (width ≤ 8) }
    ensures { (z s c : ℕ) → result ≡ if (ltb number (256 ^ width)) (Some (length (shortest (unsigned z s) width c number))) None }
{
    if number == 0 {
        return Some(1);
    }
    if number < 256 {
        return Some(2);
    }
    size_never(number, width)
}

#[tactic(auto, using(crate::proofs::Sizes::signed_byte, crate::proofs::Sizes::signed_wide))]
fn size_signed(number: u64, width: usize) -> Option<usize>
    requires { width ≤ 8 }
    ensures { (s c : ℕ) → result ≡ if (ltb number (256 ^ width)) (Some (length (shortest (signed s) width c number))) None }
{
    if !kind::fits_width(number, width) {
        return None;
    }
    if kind::fits_byte(number, width) {
        return Some(2);
    }
    Some(1 + width)
}

// The bytes of a number, by its kind; none where the kind holds no numbers.
#[tactic(auto, unfolding(crate::specs::Sizing::number_size, standard::specs::Table::ranged, standard::specs::Kinds::style_of, standard::specs::Kinds::kinds, standard::specs::Kinds::fair, standard::specs::Choose::lookup), using(crate::proofs::Sizes::fairly))]
pub(crate) fn size_number(kind: Kind, number: u64) -> Option<usize>
    ensures { result ≡ number_size (style_of (kind_is kind)) (kind_is kind) number }
{
    match kind {
        Kind::Null => size_never(number, 0),
        Kind::Ubyte | Kind::Byte => size_never(number, 1),
        Kind::Boolean => size_boolean(number),
        Kind::Ushort | Kind::Short => size_never(number, 2),
        Kind::Uint => size_unsigned(number, 4),
        Kind::Int => size_signed(number, 4),
        Kind::Char => size_char(number),
        Kind::Float | Kind::Decimal32 => size_never(number, 4),
        Kind::Ulong => size_unsigned(number, 8),
        Kind::Long => size_signed(number, 8),
        Kind::Double | Kind::Timestamp | Kind::Decimal64 => size_never(number, 8),
        _ => None,
    }
}

// Plain are most numbers: those whose kind has a small lower half, if they are not negative. Their size is computed, with no branch for each kind:
// kinds come in any order, and a branch that was guessed wrong costs more than the rest of a turn. So a kind is its number here, and not yet a `Kind`.

// Of the kinds with that upper half those are plain whose lower half is below this.
fn plain_below(upper: u64) -> u64
    ensures { result ≡ plain_below upper }
{
    match upper {
        4 => 1,
        5 => 2,
        6 => 2,
        7 => 3,
        8 => 5,
        _ => 0,
    }
}

// The largest number of a kind with that upper half. Not one table with the last: each is asked where the other is not needed yet.
fn plain_most(upper: u64) -> u64
    ensures { result < 256 ^ (2 ^ upper / 32) }
{
    match upper {
        4 => 0,
        5 => 0xff,
        6 => 0xffff,
        7 => 0xffff_ffff,
        8 => 0xffff_ffff_ffff_ffff,
        _ => 0,
    }
}

// The bytes behind its code that a number needs whose short form has 8 - low bits: 0, 1 or all, which is at most 8.
fn plain_need(low: u64, number: u64) -> usize
    requires { low ≤ 8 }
    ensures { result ≡ if (ltb number (2 ^ (8 - low))) (min number 1) 8 }
{
    if 0 < number >> (8 - low) {
        return 8;
    }
    if number == 0 {
        return 0;
    }
    1
}

// The bytes of a number of a plain kind that is in range and not negative.
#[tactic(auto, using(crate::proofs::Plain::plain_low, crate::proofs::Plain::plain_bytes))]
fn plain_bytes(kind: u64, number: u64) -> usize
    requires { (kind < 144) × (plain_kind kind ≡ true)
        × (number < 256 ^ (2 ^ (kind / 16) / 32)) × (kind % 16 ≡ 1 → number * 2 < 256 ^ (2 ^ (kind / 16) / 32)) }
    ensures { Some result ≡ number_size (style_of kind) kind number }
{
    let upper = kind / 16;
    let low = kind % 16;
    // 0, 1, 2, 4 and 8 for the upper halves 4 to 8
    let width = (1usize << upper) / 32;
    // a kind with no short form needs all its bytes, a signed one at least one
    let floor = low + 4096 * (low / 2 + (8 - upper) / 2);
    1 + width.min(plain_need(low, number.max(floor)))
}

// The bytes of a plain number.
pub(crate) fn plain_size(kind: u64, number: u64) -> Option<usize>
    ensures { IfSome result (λ size. Some size ≡ number_size (style_of kind) kind number) }
{
    let upper = kind / 16;
    let low = kind % 16;
    if upper < 4 || 8 < upper {
        return None;
    }
    if plain_below(upper) <= low {
        return None;
    }
    if (plain_most(upper) >> (low % 2)) < number {
        return None;
    }
    Some(plain_bytes(kind, number))
}
