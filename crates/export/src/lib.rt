// The C boundary (docs/FORMAT.md, 6 and 7): the entry points of the writer and of the reader, for programs in other languages.
//
// Each function returns 0, or the number of the refusal. All else that it answers is stored behind the pointers: on success the
// place is 0, on a refusal each length and each count is 0. A slice is a pointer and a length.
//
// C calls each in two forms: `afsungar_NAME_within` takes the level limit as its first parameter, and `afsungar_NAME` is the same at 16.
#![tactic(auto)]

ghost use Rattle.std.specs.Prelude.{◌≡◌};
ghost use Rattle.standard.specs.Outcomes as outcome;
ghost use Rattle.standard.specs.Outcomes.{level_default};
ghost use Rattle.writer.specs.InCode.{written_is};
ghost use Rattle.reader.specs.InCode.{measured_is, stepped_is};
ghost use Rattle.export.specs.Boundary.{sizing, writing, measuring, reading, stepping};

use reader::walker::Span;
use reader::{Extent, walker};
use standard::refusal::Refusal;

// Stores a length or the place of a refusal, and says which it is: 0, or the number.
// C lends each number by a pointer of its own.
fn tell_length(answer: Result<usize, Refusal>, place: &mut u64, length: &mut u64) -> u64
    ensures { sizing (written_is answer) ≡ record { code = result; place = place.new; length = length.new } }
{
    match answer {
        Ok(n) => {
            *place = 0;
            *length = n as u64;
            0
        }
        Err(refusal) => {
            *place = refusal.place as u64;
            *length = 0;
            refusal.reason.number()
        }
    }
}

// The same of what was measured.
fn tell_extent(
    answer: Result<Extent, Refusal>,
    place: &mut u64,
    length: &mut u64,
    rows: &mut u64,
    text: &mut u64,
) -> u64
    ensures { measuring (measured_is answer)
        ≡ record { code = result; place = place.new; length = length.new; rows = rows.new; text = text.new } }
{
    match answer {
        Ok(extent) => {
            *rows = extent.rows as u64;
            *text = extent.text as u64;
            tell_length(Ok(extent.length), place, length)
        }
        Err(refusal) => {
            *rows = 0;
            *text = 0;
            tell_length(Err(refusal), place, length)
        }
    }
}

// The same of a step of the walker: its length. Behind a value the caller's place is moved.
fn tell_step(
    found: Result<Option<Span>, Refusal>,
    at: &mut u64,
    place: &mut u64,
    length: &mut u64,
) -> u64
    ensures { stepping (stepped_is at.old found)
        ≡ record { answer = record { code = result; place = place.new; length = length.new }; at = at.new } }
{
    match found {
        Ok(None) => tell_length(Ok(0), place, length),
        Ok(Some(part)) => {
            *at = part.end as u64;
            tell_length(Ok(part.len()), place, length)
        }
        Err(refusal) => tell_length(Err(refusal), place, length),
    }
}

// The length of what would be written within a level limit.
#[unsafe(no_mangle)]
pub extern "C" fn afsungar_size_within(
    limit: u64,
    words: &[u64],
    text: &[u8],
    place: &mut u64,
    length: &mut u64,
) -> u64
    ensures { sizing (outcome.size limit words.now text.now)
        ≡ record { code = result; place = place.new; length = length.new } }
{
    tell_length(
        writer::size_within(limit as usize, words, text),
        place,
        length,
    )
}

// The same within 16 levels.
#[unsafe(no_mangle)]
pub extern "C" fn afsungar_size(
    words: &[u64],
    text: &[u8],
    place: &mut u64,
    length: &mut u64,
) -> u64
    ensures { sizing (outcome.size level_default words.now text.now)
        ≡ record { code = result; place = place.new; length = length.new } }
{
    tell_length(writer::size(words, text), place, length)
}

// Writes a table to the front of the output within a level limit, or refuses and leaves the output as it is.
#[unsafe(no_mangle)]
pub extern "C" fn afsungar_write_within(
    limit: u64,
    words: &[u64],
    text: &[u8],
    out: &mut [u8],
    place: &mut u64,
    length: &mut u64,
) -> u64
    ensures { writing (outcome.write limit words.now text.now out.old)
        ≡ record { answer = record { code = result; place = place.new; length = length.new }; out = out.new } }
{
    tell_length(
        writer::write_within(limit as usize, words, text, out),
        place,
        length,
    )
}

// The same within 16 levels.
#[unsafe(no_mangle)]
pub extern "C" fn afsungar_write(
    words: &[u64],
    text: &[u8],
    out: &mut [u8],
    place: &mut u64,
    length: &mut u64,
) -> u64
    ensures { writing (outcome.write level_default words.now text.now out.old)
        ≡ record { answer = record { code = result; place = place.new; length = length.new }; out = out.new } }
{
    tell_length(writer::write(words, text, out), place, length)
}

// The length of the value at the front of the bytes, and the rows and the bytes of text that it reads to, within a level limit.
#[unsafe(no_mangle)]
pub extern "C" fn afsungar_measure_within(
    limit: u64,
    bytes: &[u8],
    place: &mut u64,
    length: &mut u64,
    rows: &mut u64,
    text: &mut u64,
) -> u64
    ensures { measuring (outcome.measure limit bytes.now)
        ≡ record { code = result; place = place.new; length = length.new; rows = rows.new; text = text.new } }
{
    tell_extent(
        reader::measure_within(limit as usize, bytes),
        place,
        length,
        rows,
        text,
    )
}

// The same within 16 levels.
#[unsafe(no_mangle)]
pub extern "C" fn afsungar_measure(
    bytes: &[u8],
    place: &mut u64,
    length: &mut u64,
    rows: &mut u64,
    text: &mut u64,
) -> u64
    ensures { measuring (outcome.measure level_default bytes.now)
        ≡ record { code = result; place = place.new; length = length.new; rows = rows.new; text = text.new } }
{
    tell_extent(reader::measure(bytes), place, length, rows, text)
}

// Reads the value at the front of the bytes into words and text within a level limit, or refuses and leaves both as they are.
#[unsafe(no_mangle)]
pub extern "C" fn afsungar_read_within(
    limit: u64,
    bytes: &[u8],
    words: &mut [u64],
    text: &mut [u8],
    place: &mut u64,
    length: &mut u64,
    rows: &mut u64,
    used: &mut u64,
) -> u64
    ensures { reading (outcome.read limit bytes.now words.old text.old)
        ≡ record { answer = record { code = result; place = place.new; length = length.new; rows = rows.new; text = used.new }; words = words.new; letters = text.new } }
{
    tell_extent(
        reader::read_within(limit as usize, bytes, words, text),
        place,
        length,
        rows,
        used,
    )
}

// The same within 16 levels.
#[unsafe(no_mangle)]
pub extern "C" fn afsungar_read(
    bytes: &[u8],
    words: &mut [u64],
    text: &mut [u8],
    place: &mut u64,
    length: &mut u64,
    rows: &mut u64,
    used: &mut u64,
) -> u64
    ensures { reading (outcome.read level_default bytes.now words.old text.old)
        ≡ record { answer = record { code = result; place = place.new; length = length.new; rows = rows.new; text = used.new }; words = words.new; letters = text.new } }
{
    tell_extent(reader::read(bytes, words, text), place, length, rows, used)
}

// A step of the walker within a level limit. The caller keeps the place `at`. At the end it is 0 and length 0; for a value 0 and its
// length, and `at` is moved behind it. The place of a refusal counts from `at`, which stays.
#[unsafe(no_mangle)]
pub extern "C" fn afsungar_step_within(
    limit: u64,
    bytes: &[u8],
    at: &mut u64,
    place: &mut u64,
    length: &mut u64,
) -> u64
    ensures { stepping (outcome.step limit bytes.now at.old)
        ≡ record { answer = record { code = result; place = place.new; length = length.new }; at = at.new } }
{
    let found = walker::step_within(limit as usize, bytes, *at as usize);
    tell_step(found, at, place, length)
}

// The same within 16 levels.
#[unsafe(no_mangle)]
pub extern "C" fn afsungar_step(
    bytes: &[u8],
    at: &mut u64,
    place: &mut u64,
    length: &mut u64,
) -> u64
    ensures { stepping (outcome.step level_default bytes.now at.old)
        ≡ record { answer = record { code = result; place = place.new; length = length.new }; at = at.new } }
{
    let found = walker::step_at(bytes, *at as usize);
    tell_step(found, at, place, length)
}
