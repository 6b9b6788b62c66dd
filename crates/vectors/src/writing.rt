// Cases of sizing and writing: a level limit and a table, and what is due of the writer.
ghost use Rattle.std.specs.Prelude.{◌≡◌, IfSome};

use crate::call;
use crate::due::{Due, Score, in_each_form, is_due};
use crate::form::Fields;
use crate::lent::fill_bytes;
use standard::refusal::{Reason, Refusal};

// No case has more words. The program takes no memory but its stack, so each case is given buffers of their full size.
const WORDS: usize = 1024;

// The level limit of a case, and its table: words, and text.
#[derive(Clone, Copy)]
struct Table<'a> {
    limit: usize,
    words: &'a [u64],
    text: &'a [u8],
}

impl<'a> Table<'a> {
    // The one at the front of a line, and the space behind it.
    fn of(fields: &mut Fields<'_>, words: &'a mut [u64], text: &'a mut [u8]) -> Option<Table<'a>> {
        let limit = fields.decimal()?;
        fields.space()?;
        let words = fields.words(words)?;
        fields.space()?;
        let text = fields.bytes(text)?;
        fields.space()?;
        Some(Table { limit, words, text })
    }
}

// Whether sizing's answer goes with what is due of writing. It is the same; but where the output is too short, sizing gives a length beyond it.
// Reading has one of its own.
fn goes_with(given: Result<usize, Refusal>, due: Due<usize>, room: usize) -> bool {
    match due {
        Err(refusal) if refusal.number == Reason::OutputShort.number() => {
            given.is_ok_and(|length| room < length)
        }
        _ => is_due(given, due),
    }
}

// Whether writing's answer is the one that is due, and leaves the output as it is wanted, to the last byte.
fn writes(
    named: Option<usize>,
    table: Table<'_>,
    out: &mut [u8],
    want: &[u8],
    due: Due<usize>,
) -> bool {
    fill_bytes(out);
    let given = call::write(named, table.words, table.text, out);
    is_due(given, due) && &*out == want
}

// Sizing and writing, where what is due of writing is at the front of the line. `want` is as long as the output.
fn written(
    fields: &mut Fields<'_>,
    table: Table<'_>,
    out: &mut [u8],
    want: &mut [u8],
) -> Option<Score>
    ensures { IfSome result (λ score. score.answers ≡ 2) }
{
    fill_bytes(want);
    let answer = fields.answer()?;
    // behind a refusal there are none
    let length = fields.bytes(want)?.len();
    let due = answer.map(|()| length);
    fields.end()?;
    Some(Score::of([
        in_each_form(table.limit, |named| {
            goes_with(call::size(named, table.words, table.text), due, want.len())
        }),
        in_each_form(table.limit, |named| writes(named, table, out, want, due)),
    ]))
}

// `LIMIT WORDS TEXT ANSWER`, with the size behind a success.
pub(crate) fn size_case(line: &[u8]) -> Option<Score>
    ensures { IfSome result (λ score. score.answers ≡ 1) }
{
    let mut words = [0u64; WORDS];
    let mut text = io::buffer();
    let mut fields = Fields::of(line);
    let table = Table::of(&mut fields, &mut words, &mut text)?;
    let due = fields.due_length()?;
    fields.end()?;
    Some(Score::of([in_each_form(table.limit, |named| {
        is_due(call::size(named, table.words, table.text), due)
    })]))
}

// `LIMIT WORDS TEXT ROOM ANSWER`, with the bytes behind a success.
pub(crate) fn write_case(line: &[u8]) -> Option<Score>
    ensures { IfSome result (λ score. score.answers ≡ 2) }
{
    let mut words = [0u64; WORDS];
    let mut text = io::buffer();
    let mut out = io::buffer();
    let mut want = io::buffer();
    let mut fields = Fields::of(line);
    let table = Table::of(&mut fields, &mut words, &mut text)?;
    let room = fields.decimal()?;
    fields.space()?;
    written(
        &mut fields,
        table,
        out.get_mut(..room)?,
        want.get_mut(..room)?,
    )
}
