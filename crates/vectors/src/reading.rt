// Cases of the reader: a level limit and bytes, and what is due of measuring, of reading and of the walker.
ghost use Rattle.std.specs.Prelude.{◌≡◌, IfSome};

use crate::call;
use crate::due::{Due, Numbered, Score, in_each_form, is_due};
use crate::form::Fields;
use crate::lent::{fill_bytes, fill_words};
use reader::Extent;
use reader::walker::Span;
use standard::refusal::{Reason, Refusal};

// No case has more words. As in writing, the buffers are on the stack, and of their full size.
const WORDS: usize = 4096;

// Lent memory: words for rows, and bytes for text.
#[derive(Drop)]
struct Lent<'a> {
    words: &'a mut [u64],
    text: &'a mut [u8],
}

impl Lent<'_> {
    fn fill(&mut self) {
        fill_words(self.words);
        fill_bytes(self.text);
    }

    // Field by field: `&mut` of a slice has no equality from which this could be derived.
    fn holds_the_same(&self, other: &Lent<'_>) -> bool {
        &*self.words == &*other.words && &*self.text == &*other.text
    }
}

// What is due of reading, at the front of a line: `LENGTH WORDS TEXT` behind a success, which are put where reading puts them.
fn due_of_reading(fields: &mut Fields<'_>, want: &mut Lent<'_>) -> Option<Due<Extent>> {
    if let Err(refusal) = fields.answer()? {
        return Some(Err(refusal));
    }
    let length = fields.decimal()?;
    fields.space()?;
    let rows = fields.words(want.words)?.len() / 2;
    fields.space()?;
    let text = fields.bytes(want.text)?.len();
    Some(Ok(Extent { length, rows, text }))
}

// Whether measuring's answer goes with what is due of reading. It is the same; but where a room is too small, measuring succeeds.
// Writing has one of its own, since it accepts another refusal.
fn goes_with(given: Result<Extent, Refusal>, due: Due<Extent>) -> bool {
    match due {
        Err(refusal)
            if refusal.number == Reason::RowsShort.number()
                || refusal.number == Reason::TextShort.number() => { given.is_ok() }
        _ => is_due(given, due),
    }
}

// Whether reading's answer is the one that is due, and leaves what is lent as it is wanted, to the last word and byte.
fn reads(
    named: Option<usize>,
    bytes: &[u8],
    lent: &mut Lent<'_>,
    want: &Lent<'_>,
    due: Due<Extent>,
) -> bool {
    lent.fill();
    let given = call::read(named, bytes, lent.words, lent.text);
    is_due(given, due) && lent.holds_the_same(want)
}

// Measuring and reading, where what is due of reading is at the front of the line. What is wanted has as much room as what is lent.
fn read(
    fields: &mut Fields<'_>,
    limit: usize,
    bytes: &[u8],
    mut lent: Lent<'_>,
    mut want: Lent<'_>,
) -> Option<Score>
    ensures { IfSome result (λ score. score.answers ≡ 2) }
{
    want.fill();
    let due = due_of_reading(fields, &mut want)?;
    fields.end()?;
    Some(Score::of([
        in_each_form(limit, |named| goes_with(call::measure(named, bytes), due)),
        in_each_form(limit, |named| reads(named, bytes, &mut lent, &want, due)),
    ]))
}

// The same, where the rooms are at the front of the line.
fn read_into_rooms(fields: &mut Fields<'_>, limit: usize, bytes: &[u8]) -> Option<Score>
    ensures { IfSome result (λ score. score.answers ≡ 2) }
{
    let mut words = [0u64; WORDS];
    let mut want_words = [0u64; WORDS];
    let mut text = io::buffer();
    let mut want_text = io::buffer();
    let room = fields.decimal()?;
    fields.space()?;
    let text_room = fields.decimal()?;
    fields.space()?;
    let lent = Lent {
        words: words.get_mut(..room)?,
        text: text.get_mut(..text_room)?,
    };
    let want = Lent {
        words: want_words.get_mut(..room)?,
        text: want_text.get_mut(..text_room)?,
    };
    read(fields, limit, bytes, lent, want)
}

// `LIMIT BYTES ROOM ROOM ANSWER`, with `LENGTH WORDS TEXT` behind a success.
pub(crate) fn read_case(line: &[u8]) -> Option<Score>
    ensures { IfSome result (λ score. score.answers ≡ 2) }
{
    let mut input = io::buffer();
    let mut fields = Fields::of(line);
    let limit = fields.decimal()?;
    fields.space()?;
    let bytes = fields.bytes(&mut input)?;
    fields.space()?;
    read_into_rooms(&mut fields, limit, bytes)
}

// The place behind a step, if it is the step that is due: being done is a length of 0.
fn place_behind(at: usize, given: Result<Option<Span>, Refusal>, due: Due<usize>) -> Option<usize> {
    match (given, due) {
        (Ok(Some(part)), Ok(length)) if part.start == at && part.len() == length => Some(part.end),
        (Ok(None), Ok(0)) => Some(at),
        (Err(refusal), Err(due)) if Numbered::from(refusal) == due => Some(at),
        _ => None,
    }
}

// Whether the steps that are left of a line are the walker's from that start on.
fn walks(named: Option<usize>, bytes: &[u8], start: usize, mut steps: Fields<'_>) -> Option<()> {
    let mut at = start;
    while !steps.is_done() {
        steps.space()?;
        let due = steps.due_length()?;
        at = place_behind(at, call::step(named, bytes, at), due)?;
    }
    Some(())
}

// The walker from that start on, where bytes and steps are at the front of the line: all its steps are right, or none is.
fn walked(mut fields: Fields<'_>, limit: usize, start: usize) -> Option<Score>
    ensures { IfSome result (λ score. score.answers ≡ 1) }
{
    let mut input = io::buffer();
    let bytes = fields.bytes(&mut input)?;
    Some(Score::of([in_each_form(limit, |named| {
        walks(named, bytes, start, fields).is_some()
    })]))
}

// `LIMIT BYTES ANSWER ANSWER ..`, with the length of the value behind a success: the steps from the front on.
pub(crate) fn walk_case(line: &[u8]) -> Option<Score>
    ensures { IfSome result (λ score. score.answers ≡ 1) }
{
    let mut fields = Fields::of(line);
    let limit = fields.decimal()?;
    fields.space()?;
    walked(fields, limit, 0)
}

// `LIMIT START BYTES ANSWER ANSWER ..`: the steps from START on.
pub(crate) fn start_case(line: &[u8]) -> Option<Score>
    ensures { IfSome result (λ score. score.answers ≡ 1) }
{
    let mut fields = Fields::of(line);
    let limit = fields.decimal()?;
    fields.space()?;
    let start = fields.decimal()?;
    fields.space()?;
    walked(fields, limit, start)
}
