// Text of the listing, put behind what stands on a page.
ghost use Rattle.std.specs.Prelude.{◌≡◌, ◌∷◌, ◌++◌, ◌<◌};
ghost use Rattle.standard.specs.InCode.{reason_is};
ghost use Rattle.standard.specs.Listing.{decimal, hex, space, line, lines};
ghost use Rattle.listing.specs.Lines.{end_line, refused_line, Narrow, HasRoom};

use crate::OUTPUT_MOST;
use arrayvec::ArrayVec;
use standard::refusal::Refusal;

pub(crate) type Page = ArrayVec<u8, OUTPUT_MOST>;

// Bytes as they are.
pub(crate) fn put_bytes(page: &mut Page, bytes: &[u8])
    requires { HasRoom page.old bytes.now }
    ensures { page.new.items ≡ page.old.items ++ bytes.now }
{
    let Ok(()) = page.try_extend_from_slice(bytes) else {
        unreachable!();
    };
}

// A number in decimal. `write!` promises its text where it succeeds, but not that it does, so the digits are put as bytes.
fn put_decimal(page: &mut Page, number: u64)
    requires { HasRoom page.old (decimal number) }
    ensures { page.new.items ≡ page.old.items ++ decimal number }
{
    let mut digits = [0u8; 20];
    let count = io::decimal(number, &mut digits);
    put_bytes(page, &digits[..count]);
}

// A space, and a number in decimal.
fn put_number(page: &mut Page, number: u64)
    requires { HasRoom page.old (space ∷ decimal number) }
    ensures { page.new.items ≡ page.old.items ++ space ∷ decimal number }
{
    page.push(b' ');
    put_decimal(page, number);
}

// A space, and a kind in two hex digits: its number, as it stands in the table.
fn put_hex(page: &mut Page, kind: u64)
    requires { (kind < 256) × HasRoom page.old (space ∷ hex kind) }
    ensures { page.new.items ≡ page.old.items ++ space ∷ hex kind }
{
    let mut digits = [0u8; 16];
    let count = io::hex(kind, 2, &mut digits);
    page.push(b' ');
    put_bytes(page, &digits[..count]);
}

// The line of a row.
fn put_line(page: &mut Page, row: u64, kind: u64, number: u64)
    requires { (kind < 256) × HasRoom page.old (line row kind number) }
    ensures { page.new.items ≡ page.old.items ++ line row kind number }
{
    put_decimal(page, row);
    put_hex(page, kind);
    put_number(page, number);
    page.push(b'\n');
}

// A line for each row.
pub(crate) fn put_lines(page: &mut Page, words: &[u64])
    requires { Narrow words.now × HasRoom page.old (lines 0 words.now) }
    ensures { page.new.items ≡ page.old.items ++ lines 0 words.now }
{
    for (row, [kind, number]) in words.as_chunks::<2>().0.iter().enumerate() {
        put_line(page, row as u64, *kind, *number);
    }
}

// The line behind the rows of a value: its length.
pub(crate) fn put_end(page: &mut Page, size: usize)
    requires { HasRoom page.old (end_line size) }
    ensures { page.new.items ≡ page.old.items ++ end_line size }
{
    put_bytes(page, b"end");
    put_number(page, size as u64);
    page.push(b'\n');
}

// The line of a refusal.
pub(crate) fn put_refusal(page: &mut Page, refusal: Refusal)
    requires { HasRoom page.old (refused_line (reason_is refusal.reason) refusal.place) }
    ensures { page.new.items ≡ page.old.items ++ refused_line (reason_is refusal.reason) refusal.place }
{
    put_bytes(page, b"refused");
    put_number(page, refusal.reason.number());
    put_number(page, refusal.place as u64);
    page.push(b'\n');
}
