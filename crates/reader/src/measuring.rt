// Measuring: how long a value is, and how much it reads to (docs/FORMAT.md, 5.3 and 6.3).
//
// The functions go as the definition of reading does, by its names and in its order of checks, and count where it builds a tree.
// They call each other with fewer levels left; values that stand side by side are taken in one loop. A room is a part of the
// caller's bytes, and nothing beyond it is looked at. The place of a value is where its code stands; an element's counts from the
// code before it, as if that stood right in front of it.
ghost use Rattle.std.specs.Prelude.{◌≡◌, true, false, ℕ, ◌+◌, ◌^◌, ◌≤◌, ◌<◌, T, length, take, drop, IfOk, MatchOption};
ghost use Rattle.standard.specs.Bytes.{unbe};
ghost use Rattle.standard.specs.Codes as codes;
ghost use Rattle.standard.specs.Codes.{layout_of, kind_of, entry_of};
ghost use Rattle.standard.specs.Kinds.{fair, paired};
ghost use Rattle.standard.specs.Read as read;
ghost use Rattle.standard.specs.Outcomes as outcome;
ghost use Rattle.standard.specs.Outcomes.{level_default};
ghost use Rattle.standard.specs.InCode.{kind_is, entry_is};
ghost use Rattle.reader.specs.Entries.{narrow, judged, sure, plain_below, plain_width};
ghost use Rattle.reader.specs.InCode.{measured_is, extent_is, Settled, found_is, counted_is, body_is};
ghost use Rattle.reader.specs.Measuring.{block, measured, several, contents, above, closed, below, reads, reach, code_at, element_of, is_text, is_compound, is_array, Taking, Plain};
ghost use Rattle.reader.specs.declared.measuring.Stop.TheVariants.{Refused};

use crate::number::narrow_at;
use standard::format_code::{Entry, Layout};
use standard::kind::Kind;
use standard::refusal::{Reason, Refusal};
use standard::{format_code, limit};

/// The length in bytes of a value, and the rows and the bytes of text that it reads to.
#[derive(Clone, Copy, Debug, PartialEq, Eq)]
pub struct Extent {
    pub length: usize,
    pub rows: usize,
    pub text: usize,
}

// Why a value inside the bytes is none.
#[derive(Clone, Copy)]
enum Stop {
    Refused(Refusal),
    // Bad text, by its faulty byte, whose place is the same in an array.
    Faulty(usize),
}

impl From<Stop> for Refusal {
    ghost from_gives = { Settled };

    fn from(stop: Stop) -> Refusal {
        match stop {
            Stop::Refused(refusal) => refusal,
            Stop::Faulty(place) => Refusal {
                reason: Reason::PayloadBad,
                place,
            },
        }
    }
}

// The code of a value, and where its payload begins.
#[derive(Clone, Copy)]
struct Start {
    code: u8,
    from: usize,
}

// The room behind a code, and the place of the code.
#[derive(Clone, Copy)]
struct Room<'a> {
    bytes: &'a [u8],
    place: usize,
    ghost inside: { place + 1 + length bytes.now < 2 ^ 63 },
}

// How many values stand in a body, and where it ends. The count is below 2^32; as a u32 every use of it would widen it again.
#[derive(Clone, Copy)]
struct Body {
    count: usize,
    end: usize,
}

fn refused(reason: Reason, place: usize) -> Stop
    ensures { result ≡ Refused (record { reason = reason; place = place }) }
{
    Stop::Refused(Refusal { reason, place })
}

// A scalar of so many bytes, the last of them text.
fn fixed(room: Room, width: usize, text: usize) -> Result<Extent, Stop>
    ensures { counted_is result ≡ block (length room.entry.bytes.now) width text room.entry.place }
{
    if room.bytes.len() < width {
        return Err(refused(Reason::InputShort, room.place));
    }
    Ok(Extent {
        length: width,
        rows: 1,
        text,
    })
}

// Is the number of so many bytes one that its kind allows. Only that of a boolean or a char has to be looked at.
#[tactic(auto, unfolding(standard::specs::Kinds::fair, crate::specs::Entries::sure))]
fn fair_at(s: &[u8], width: usize, kind: Kind) -> bool
    requires { T (sure (kind_is kind) (codes.scalar (codes.whole width))) × (width ≤ length s.now) }
    ensures { result ≡ fair (kind_is kind) (unbe (take width s.now)) }
{
    match kind {
        Kind::Boolean | Kind::Char => kind.is_fair(narrow_at(s, 0, width)),
        _ => true,
    }
}

#[tactic(auto, using(crate::proofs::Scalars::whole_short, crate::proofs::Scalars::whole_bad, crate::proofs::Scalars::whole_good))]
fn whole(room: Room, width: usize, kind: Kind) -> Result<Extent, Stop>
    requires { T (sure (kind_is kind) (codes.scalar (codes.whole width))) }
    ensures { counted_is result ≡ measured (length room.entry.bytes.now) (read.leaf (codes.whole width) (kind_is kind) room.entry.place room.entry.bytes.now) }
{
    if room.bytes.len() < width {
        return Err(refused(Reason::InputShort, room.place));
    }
    if !fair_at(room.bytes, width, kind) {
        return Err(refused(Reason::PayloadBad, room.place));
    }
    Ok(Extent {
        length: width,
        rows: 1,
        text: 0,
    })
}

#[tactic(auto, unfolding(crate::specs::Entries::sure), using(crate::proofs::Scalars::sized_short, crate::proofs::Scalars::sized_beyond, crate::proofs::Scalars::sized_bad, crate::proofs::Scalars::sized_good))]
fn sized(room: Room, width: usize, kind: Kind) -> Result<Extent, Stop>
    requires { T (sure (kind_is kind) (codes.scalar (codes.sized width))) }
    ensures { counted_is result ≡ measured (length room.entry.bytes.now) (read.leaf (codes.sized width) (kind_is kind) room.entry.place room.entry.bytes.now) }
{
    let Room { bytes, place } = room;
    if bytes.len() < width {
        return Err(refused(Reason::InputShort, place));
    }
    let count = narrow_at(bytes, 0, width) as usize;
    if bytes.len() - width < count {
        return Err(refused(Reason::InputShort, place));
    }
    let good = text::good_length(u64::from(kind), bytes, width, count);
    if good < count {
        return Err(Stop::Faulty(place + 1 + width + good));
    }
    Ok(Extent {
        length: width + count,
        rows: 1,
        text: count,
    })
}

// The size and the count before a body, of so many bytes each.
#[tactic(auto, using(crate::proofs::Rooms::fields_short, crate::proofs::Rooms::fields_amiss, crate::proofs::Rooms::fields_beyond, crate::proofs::Rooms::fields_got))]
fn fields(room: Room, width: usize) -> Result<Body, Stop>
    requires { T (narrow width) }
    ensures { (body_is width room.entry.bytes.now result ≡ read.fields room.entry.place width room.entry.bytes.now)
        × IfOk result (λ b. (width + width ≤ b.end) × (b.end ≤ length room.entry.bytes.now) × (b.count < 2 ^ 32)) }
{
    let Room { bytes, place } = room;
    if bytes.len() < width {
        return Err(refused(Reason::InputShort, place));
    }
    let size = narrow_at(bytes, 0, width) as usize;
    if size < width {
        return Err(refused(Reason::SizeAmiss, place));
    }
    if bytes.len() - width < size {
        return Err(refused(Reason::InputShort, place));
    }
    Ok(Body {
        count: narrow_at(bytes, width, width) as usize,
        end: width + size,
    })
}

// May a compound of that kind hold so many values: a map holds pairs.
#[tactic(auto, unfolding(standard::specs::Kinds::paired))]
fn is_paired(kind: Kind, count: usize) -> bool
    ensures { result ≡ paired (kind_is kind) count }
{
    match kind {
        Kind::Map => count % 2 == 0,
        _ => true,
    }
}

// The entry of a code. The call answers through memory, which is free again behind this function: so a level takes 32 bytes less of
// the stack. With `?` in place of the match it does not.
#[inline(always)]
fn entry_of(code: u8) -> Option<Entry>
    ensures { entry_is code result ≡ entry_of code }
{
    match format_code::entry_of(code) {
        Some(entry) => Some(Entry {
            kind: entry.kind,
            layout: entry.layout,
        }),
        None => None,
    }
}

// A payload of an element has a byte at least.
#[tactic(auto, unfolding(crate::specs::Measuring::element_of, standard::specs::Codes::is_code, standard::specs::Codes::element, standard::specs::Codes::filled))]
fn filled(width: usize, place: usize) -> Result<(), Stop>
    ensures { found_is result ≡ element_of place (codes.scalar (codes.whole width)) }
{
    if width == 0 {
        return Err(refused(Reason::ElementUnfit, place));
    }
    Ok(())
}

// May a code stand for the elements of an array, whose body begins at that place. That of a list, a map or an array may, and does not wait
// for its entry.
#[tactic(auto, unfolding(crate::specs::Measuring::element_of, standard::specs::Codes::is_code, standard::specs::Codes::element, standard::specs::Codes::filled), using(crate::proofs::Entries::entry_layout, crate::proofs::Entries::entry_none))]
fn element_of(code: u8, place: usize) -> Result<(), Stop>
    ensures { found_is result ≡ element_of place (layout_of code) }
{
    if compound_width(code).is_some() || array_width(code).is_some() {
        return Ok(());
    }
    let Some(entry) = entry_of(code) else {
        return Err(refused(Reason::CodeUnknown, place));
    };
    match entry.layout {
        Layout::Described | Layout::Constant(_) => Err(refused(Reason::ElementUnfit, place)),
        Layout::Small(_) => Ok(()),
        Layout::Whole(width)
        | Layout::Raw(width)
        | Layout::Sized(width)
        | Layout::Compound(width)
        | Layout::Array(width) => filled(width, place),
    }
}

// Values, and the row above them.
fn row_above(values: Extent) -> Extent
    requires { values.rows + 1 < 2 ^ 64 }
    ensures { extent_is result ≡ above (extent_is values) }
{
    Extent {
        rows: values.rows + 1,
        ..values
    }
}

// Values that have to use up a body of so many bytes, and the row above them, which takes `whole` bytes.
#[tactic(auto, unfolding(crate::specs::Measuring::closed))]
fn done(values: Extent, room: usize, whole: usize, place: usize) -> Result<Extent, Stop>
    requires { values.rows + 1 < 2 ^ 64 }
    ensures { counted_is result ≡ closed room whole place (extent_is values) }
{
    if values.length == room {
        return Ok(Extent {
            length: whole,
            ..row_above(values)
        });
    }
    Err(refused(Reason::SizeAmiss, place))
}

// A refusal in the contents of an array has the array's place, but for that of a byte of text.
#[tactic(auto, unfolding(standard::specs::Read::held))]
fn held(contents: Result<Extent, Stop>, place: usize) -> Result<Extent, Stop>
    ensures { counted_is result ≡ read.held place (counted_is contents) }
{
    match contents {
        Ok(extent) => Ok(extent),
        Err(Stop::Refused(refusal)) => Err(refused(refusal.reason, place)),
        Err(Stop::Faulty(byte)) => Err(Stop::Faulty(byte)),
    }
}

// The code of a value that begins there, which is its first byte unless the value stands behind one that is given, as the elements of
// an array do.
#[tactic(auto, using(crate::proofs::Rooms::code_deep, crate::proofs::Rooms::code_none, crate::proofs::Rooms::code_own, crate::proofs::Rooms::code_given))]
fn code_at(
    s: &[u8],
    at: usize,
    given: Option<u8>,
    place: usize,
    levels: usize,
) -> Result<Start, Stop>
    requires { (at ≤ length s.now) × (place + at < 2 ^ 64) }
    ensures { found_is result ≡ code_at given levels at (place + at) (drop at s.now) }
{
    if levels == 0 {
        return Err(refused(Reason::TooDeep, place + at));
    }
    if let Some(code) = given {
        return Ok(Start { code, from: at });
    }
    if at == s.len() {
        return Err(refused(Reason::InputShort, place + at));
    }
    Ok(Start {
        code: s[at],
        from: at + 1,
    })
}

// Plain are the codes of scalars of which nothing but the length has to be looked at, as of most values. Of the codes with that upper
// half those are plain whose lower half is below this. It is computed, with no branch for each code: codes come in any order, and a
// branch that was guessed wrong costs more than the rest of a turn. The writer's table of this shape is of kinds, and has other numbers.
fn plain_below(upper: u8) -> u8
    ensures { result ≡ plain_below upper }
{
    match upper {
        4 => 6,
        5 => 6,
        6 => 2,
        7 => 3,
        8 => 5,
        _ => 0,
    }
}

// Is a code plain. Some that could be are not, and go by their entries.
#[tactic(auto, unfolding(crate::specs::Entries::plain_code), using(crate::proofs::Plain::plain_code_lem))]
fn is_plain(code: u8) -> bool
    ensures { result ≡ true → Plain code (plain_width code) }
{
    code % 16 < plain_below(code / 16)
}

// The width of a scalar with a plain code: 0, 1, 2, 4 and 8 for the upper halves 4 to 8.
#[tactic(auto, using(crate::proofs::Entries::plain_shifts, crate::proofs::Entries::plain_widths))]
fn plain_width(code: u8) -> usize
    ensures { (result ≡ plain_width code) × (result < 2 ^ 16) }
{
    let upper = (code / 16) as usize;
    (1usize << upper) / 32
}

// Lists and maps, arrays, and texts are asked for one sort after the other, each first by the upper three bits of its codes, which no other
// sort has: as one choice among all the codes they would take a jump through a table.

// The width of the size and the count of a list or a map, by its code.
#[tactic(auto, unfolding(standard::specs::Codes::entry_of, standard::specs::Codes::codes, standard::specs::Choose::lookup), using(crate::proofs::Entries::no_compound_bits, crate::proofs::Entries::no_compound))]
pub(crate) fn compound_width(code: u8) -> Option<usize>
    ensures { MatchOption result (is_compound (layout_of code) ≡ false) (λ w. (layout_of code ≡ codes.compound w) × T (narrow w)) }
{
    if code / 32 != format_code::LIST_8 / 32 {
        return None;
    }
    match code {
        format_code::LIST_8 | format_code::MAP_8 => Some(format_code::Compound8::COUNT_WIDTH),
        format_code::LIST_32 | format_code::MAP_32 => Some(format_code::Compound32::COUNT_WIDTH),
        _ => None,
    }
}

// Its kind.
#[tactic(auto, unfolding(standard::specs::Codes::entry_of, standard::specs::Codes::codes, standard::specs::Choose::lookup), using(crate::proofs::Entries::map_kind))]
pub(crate) fn compound_kind(code: u8) -> Kind
    requires { is_compound (layout_of code) ≡ true }
    ensures { kind_of code ≡ kind_is result }
{
    match code {
        format_code::LIST_8 | format_code::LIST_32 => Kind::List,
        _ => Kind::Map,
    }
}

// The width of an array's size and count, by its code.
#[tactic(auto, unfolding(standard::specs::Codes::entry_of, standard::specs::Codes::codes, standard::specs::Choose::lookup), using(crate::proofs::Entries::no_array_bits, crate::proofs::Entries::no_array))]
fn array_width(code: u8) -> Option<usize>
    ensures { MatchOption result (is_array (layout_of code) ≡ false) (λ w. (layout_of code ≡ codes.array w) × T (narrow w)) }
{
    if code / 32 != format_code::ARRAY_8 / 32 {
        return None;
    }
    match code {
        format_code::ARRAY_8 => Some(format_code::Compound8::COUNT_WIDTH),
        format_code::ARRAY_32 => Some(format_code::Compound32::COUNT_WIDTH),
        _ => None,
    }
}

// The width of the length of a text, by its code.
#[tactic(auto, unfolding(standard::specs::Codes::entry_of, standard::specs::Codes::codes, standard::specs::Choose::lookup), using(crate::proofs::Entries::no_text_bits, crate::proofs::Entries::no_text))]
fn text_width(code: u8) -> Option<usize>
    ensures { MatchOption result (is_text (layout_of code) ≡ false) (λ w. (layout_of code ≡ codes.scalar (codes.sized w)) × T (narrow w)) }
{
    if code / 32 != format_code::BINARY_8 / 32 {
        return None;
    }
    match code {
        format_code::BINARY_8 | format_code::STRING_8 | format_code::SYMBOL_8 => Some(1),
        format_code::BINARY_32 | format_code::STRING_32 | format_code::SYMBOL_32 => Some(4),
        _ => None,
    }
}

// Its kind.
#[tactic(auto, unfolding(standard::specs::Codes::entry_of, standard::specs::Codes::codes, standard::specs::Choose::lookup), using(crate::proofs::Entries::binary_kind))]
fn text_kind(code: u8) -> Kind
    requires { is_text (layout_of code) ≡ true }
    ensures { (kind_of code ≡ kind_is result) × (judged (kind_is result) ≡ false) }
{
    match code {
        format_code::STRING_8 | format_code::STRING_32 => Kind::String,
        format_code::SYMBOL_8 | format_code::SYMBOL_32 => Kind::Symbol,
        _ => Kind::Binary,
    }
}

// So many values, one after another, where so many levels are left.
// No count is believed: each turn refuses or takes a byte, for a value has its code, and the payload of an element is never empty.
// So there are never more turns than bytes, and one.
// Bytes and place are no `Room` here, nor in `inside`: no code need stand in front of the bytes, so the place may be one more.
#[cycle(array_behind_compound_inside_items_many_payload)]
fn many(
    s: &[u8],
    given: Option<u8>,
    count: usize,
    place: usize,
    levels: usize,
) -> Result<Extent, Stop>
    requires { (place + reach given + length s.now < 2 ^ 63) × (count < 2 ^ 32) × Taking given }
    ensures { counted_is result ≡ several (length s.now) 0 0 (read.many (reads given levels) count place s.now) }
{
    let mut at: usize = 0;
    let mut rows: usize = 0;
    let mut text: usize = 0;
    for _ in 0..count {
        let start = code_at(s, at, given, place, levels)?;
        let end = start.from + plain_width(start.code);
        if is_plain(start.code) && end <= s.len() {
            at = end;
            rows += 1;
        } else {
            let room = Room {
                bytes: &s[start.from..],
                place: place + at,
            };
            let value = payload(room, start.code, levels)?;
            at = start.from + value.length;
            rows += value.rows;
            text += value.text;
        }
    }
    Ok(Extent {
        length: at,
        rows,
        text,
    })
}

// What stands behind a code. Lists, maps, arrays and texts, of which there are many and which but for the empty list's own code have those
// from 0xa0 up, do not wait for their entry. `levels` is a plain number: it is counted down to 0, and 0 is asked for.
#[cycle(array_behind_compound_inside_items_many_payload)]
fn payload(room: Room, code: u8, levels: usize) -> Result<Extent, Stop>
    requires { 0 < levels }
    ensures { counted_is result ≡ measured (length room.entry.bytes.now) (read.payload levels code room.entry.place room.entry.bytes.now) }
{
    if code < format_code::BINARY_8 {
        return behind(room, code, levels);
    }
    if let Some(width) = compound_width(code) {
        return compound(room, width, compound_kind(code), levels - 1);
    }
    if let Some(width) = array_width(code) {
        return array(room, width, levels - 1);
    }
    if let Some(width) = text_width(code) {
        return sized(room, width, text_kind(code));
    }
    Err(refused(Reason::CodeUnknown, room.place))
}

// What stands behind any other code, all of which are below theirs.
#[cycle(array_behind_compound_inside_items_many_payload)]
fn behind(room: Room, code: u8, levels: usize) -> Result<Extent, Stop>
    requires { (0 < levels) × (code < 0xa0) }
    ensures { counted_is result ≡ measured (length room.entry.bytes.now) (read.payload levels code room.entry.place room.entry.bytes.now) }
{
    let Some(entry) = entry_of(code) else {
        return Err(refused(Reason::CodeUnknown, room.place));
    };
    match entry.layout {
        Layout::Described => Ok(row_above(many(room.bytes, None, 2, room.place + 1, levels - 1)?)),
        Layout::Constant(_) => fixed(room, 0, 0),
        Layout::Whole(width) => whole(room, width, entry.kind),
        Layout::Small(_) => fixed(room, 1, 0),
        Layout::Raw(width) => fixed(room, width, width),
        Layout::Sized(_) | Layout::Compound(_) | Layout::Array(_) => unreachable!(),
    }
}

// A list or a map, behind its code.
#[cycle(array_behind_compound_inside_items_many_payload)]
fn compound(room: Room, width: usize, kind: Kind, levels: usize) -> Result<Extent, Stop>
    requires { T (narrow width) }
    ensures { counted_is result ≡ measured (length room.entry.bytes.now) (read.behind (below levels) levels (kind_is kind) room.entry.place room.entry.bytes.now (codes.compound width)) }
{
    let body = fields(room, width)?;
    if !is_paired(kind, body.count) {
        return Err(refused(Reason::SizeAmiss, room.place));
    }
    let from = width + width;
    let children = &room.bytes[from..body.end];
    let values = many(children, None, body.count, room.place + 1 + from, levels)?;
    done(values, body.end - from, body.end, room.place)
}

// An array, behind its code, of whatever kind.
#[cycle(array_behind_compound_inside_items_many_payload)]
fn array(room: Room, width: usize, levels: usize) -> Result<Extent, Stop>
    requires { T (narrow width) }
    ensures { (k : ℕ) → counted_is result ≡ measured (length room.entry.bytes.now) (read.behind (below levels) levels k room.entry.place room.entry.bytes.now (codes.array width)) }
{
    let body = fields(room, width)?;
    let from = width + width;
    let elements = &room.bytes[from..body.end];
    let place = room.place + 1 + from;
    let contents = inside(elements, body.count, body.end, place, levels);
    held(contents, room.place)
}

// The body of an array that takes `whole` bytes.
#[cycle(array_behind_compound_inside_items_many_payload)]
fn inside(
    body: &[u8],
    count: usize,
    whole: usize,
    place: usize,
    levels: usize,
) -> Result<Extent, Stop>
    requires { (place + length body.now < 2 ^ 63) × (count < 2 ^ 32) }
    ensures { counted_is result ≡ contents whole (read.inside (below levels) levels place count body.now) }
{
    if 0 < count {
        if levels == 0 {
            return Err(refused(Reason::TooDeep, place));
        }
        if body.is_empty() {
            return Err(refused(Reason::InputShort, place));
        }
    }
    let Some((code, rest)) = body.split_first() else {
        return Ok(Extent {
            length: whole,
            rows: 1,
            text: 0,
        });
    };
    let room = Room { bytes: rest, place };
    items(room, *code, count, whole, levels)
}

// So many payloads of one code.
#[cycle(array_behind_compound_inside_items_many_payload)]
fn items(room: Room, code: u8, count: usize, whole: usize, levels: usize) -> Result<Extent, Stop>
    requires { count < 2 ^ 32 }
    ensures { counted_is result ≡ contents whole (read.items (below levels) room.entry.place count code room.entry.bytes.now) }
{
    element_of(code, room.place)?;
    let values = many(room.bytes, Some(code), count, room.place, levels)?;
    done(values, room.bytes.len(), whole, room.place)
}

/// Measures the value at the front of the bytes within a level limit.
pub fn measure_within(limit: usize, bytes: &[u8]) -> Result<Extent, Refusal>
    ensures { measured_is result ≡ outcome.measure limit bytes.now }
{
    if !limit::is_in_force(limit) {
        return Err(Refusal {
            reason: Reason::LimitOutside,
            place: 0,
        });
    }
    Ok(many(bytes, None, 1, 0, limit)?)
}

/// Measures the value at the front of the bytes, within 16 levels.
// The form that names no limit: docs/PROMISES.md and C have both.
pub fn measure(bytes: &[u8]) -> Result<Extent, Refusal>
    ensures { measured_is result ≡ outcome.measure level_default bytes.now }
{
    measure_within(limit::DEFAULT, bytes)
}
