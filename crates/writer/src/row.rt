// A value table, and the checks of one of its rows (docs/FORMAT.md, 2 and 5.2).
//
// That a row begins in the table is asked of each function that looks at one: a table has no place in it.
ghost use Rattle.std.specs.Prelude.{◌≡◌, true, ◌+◌, ◌*◌, ◌≤◌, eqb, length, drop, get_or};
ghost use Rattle.standard.specs.Answer.{element_unfit, number_outside};
ghost use Rattle.standard.specs.Choose.{if};
ghost use Rattle.standard.specs.Kinds.{style_of, is_kind};
ghost use Rattle.standard.specs.Table.{allowed, naming, spot_in};
ghost use Rattle.standard.specs.InCode.{kind_is, reason_is, style_is};
ghost use Rattle.writer.specs.Rows.{Front, check};
ghost use Rattle.writer.specs.InCode.{spot_is, checked_is};

use standard::kind;
use standard::kind::{Kind, Style};
use standard::refusal::{Reason, Refusal};

#[derive(Clone, Copy)]
pub struct Table<'a> {
    pub words: &'a [u64],
    pub text: &'a [u8],
}

impl<'a> Table<'a> {
    // The two words of a row, its kind and its number, where it has both.
    pub(crate) fn row(&self, row: usize) -> Option<(u64, u64)>
        requires { 2 * row ≤ length self.now.words.now }
        ensures { Front (drop (2 * row) self.now.words.now) result }
    {
        let [kind, number] = self.words[2 * row..].first_chunk::<2>()?;
        Some((*kind, *number))
    }
}

// A good row. What is a table by kind takes kind and number apart: its body is a choice by the one, and may not need the other.
#[derive(Clone, Copy)]
pub struct Row {
    pub kind: Kind,
    pub number: u64,
}

pub(crate) fn refuse(reason: Reason, place: usize) -> Refusal
    ensures { result ≡ record { reason = reason; place = place } }
{
    Refusal { reason, place }
}

// May a row of that kind stand there: in no array, or in one that tells a kind of its elements.
#[tactic(auto, unfolding(standard::specs::Table::allowed), using(standard::specs::Facts::same_kind))]
fn is_allowed(told: Option<Kind>, kind: Kind) -> bool
    ensures { result ≡ allowed (spot_is told) (kind_is kind) }
{
    told.is_none_or(|told| kind == told)
}

// The refusal of a number that is not in range: an array that tells a kind which arrays cannot hold is refused for that.
fn outside(style: Style, number: u64) -> Reason
    ensures { reason_is result ≡ if (naming (spot_in (style_is style) number)) number_outside element_unfit }
{
    if is_naming(style, number) {
        return Reason::NumberOutside;
    }
    Reason::ElementUnfit
}

// May a row say what its children are: an array may not tell a kind that arrays cannot hold.
#[tactic(auto, unfolding(standard::specs::Table::naming, standard::specs::Table::spot_in, standard::specs::Kinds::kind_in))]
fn is_naming(style: Style, number: u64) -> bool
    ensures { result ≡ naming (spot_in (style_is style) number) }
{
    match style {
        Style::Arrayed(_) => kind::is_nameable(number / kind::KIND_UNIT),
        _ => true,
    }
}

// The row at `row`, whose text begins at `from`, where so many levels are left, in no array or in one that tells that kind of its elements.
#[tactic(auto, using(crate::proofs::Checks::check_missing, crate::proofs::Checks::check_kind, crate::proofs::Checks::check_deep, crate::proofs::Checks::check_element, crate::proofs::Checks::check_number, standard::specs::Facts::known))]
pub(crate) fn check_row(
    table: &Table,
    row: usize,
    from: usize,
    levels: usize,
    told: Option<Kind>,
) -> Result<Row, Refusal>
    requires { (2 * row ≤ length table.now.words.now) × (from ≤ length table.now.text.now) }
    ensures { checked_is result ≡ check levels (spot_is told) row from (drop (2 * row) table.now.words.now) (drop from table.now.text.now) }
{
    let Some((word, number)) = table.row(row) else {
        return Err(refuse(Reason::RowsAmiss, row));
    };
    let Ok(kind) = Kind::try_from(word) else {
        return Err(refuse(Reason::KindUnknown, row));
    };
    if levels == 0 {
        return Err(refuse(Reason::TooDeep, row));
    }
    if !is_allowed(told, kind) {
        return Err(refuse(Reason::ElementUnfit, row));
    }
    let style = kind.style();
    if !style.takes(word, number) {
        return Err(refuse(outside(style, number), row));
    }
    let count = style.letters(number) as usize;
    if table.text.len() - from < count {
        return Err(refuse(Reason::TextAmiss, row));
    }
    let good = text::good_length(word, table.text, from, count);
    if good < count {
        return Err(refuse(Reason::TextAmiss, from + good));
    }
    Ok(Row { kind, number })
}

// The first word of the row at `row`, its kind.
#[inline(always)]
pub(crate) fn word_on(words: &[u64], row: usize) -> u64
    requires { 2 * row + 2 ≤ length words.now }
    ensures { result ≡ get_or words.now (2 * row) 0 }
{
    words[2 * row]
}

// The second word of the row at `row`, its number.
#[inline(always)]
pub(crate) fn number_on(words: &[u64], row: usize) -> u64
    requires { 2 * row + 2 ≤ length words.now }
    ensures { result ≡ get_or words.now (2 * row + 1) 0 }
{
    words[2 * row + 1]
}

// Is the row at `row` an array. A comparison of the word: the row is not looked at further.
#[inline(always)]
pub(crate) fn is_array(words: &[u64], row: usize) -> bool
    requires { 2 * row + 2 ≤ length words.now }
    ensures { result ≡ eqb (get_or words.now (2 * row) 0) 0xf0 }
{
    word_on(words, row) == u64::from(Kind::Array)
}

// The row at `row` of a table that sizing has accepted. In line, as `Kind::try_from` is.
#[inline(always)]
pub(crate) fn known_row(words: &[u64], row: usize) -> Row
    requires { (2 * row + 2 ≤ length words.now) × (is_kind (style_of (get_or words.now (2 * row) 0)) ≡ true) }
    ensures { (kind_is result.kind ≡ get_or words.now (2 * row) 0) × (result.number ≡ get_or words.now (2 * row + 1) 0) }
{
    Row {
        kind: Kind::try_from(word_on(words, row)).unwrap(),
        number: number_on(words, row),
    }
}
