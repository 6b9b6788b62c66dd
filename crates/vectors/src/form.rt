// The fields of a stored case (data/README.md). Each method of `Fields` takes what it names from the front of the line. Where something
// else stands there it gives None, and the line is no case.
ghost use Rattle.std.specs.Prelude.{◌≡◌, ◌==◌, ◌<◌, ◌≤◌, length, IfSome, IsTrue};
ghost use Rattle.vectors.specs.Form.{digit_of, Ahead};

use crate::due::{Due, Numbered};

// The value of a digit. The library's `to_digit` takes `A` to `F` too.
fn digit(byte: u8) -> Option<u8>
    ensures { result ≡ digit_of byte }
{
    match byte {
        b'0'..=b'9' => Some(byte - b'0'),
        b'a'..=b'f' => Some(byte - b'a' + 10),
        _ => None,
    }
}

// What a field has one after another, each once or several times.
trait Item: Copy {
    // The one at the front. A copy of it cannot fail.
    fn of(fields: &mut Fields<'_>) -> Option<Self>
        ensures ahead { Ahead result fields.old.rest.now fields.new.rest.now }
        ensures plain { IfSome result (λ item. Self.is_infallible item) };
}

// A byte in two digits.
impl Item for u8 {
    fn of(fields: &mut Fields<'_>) -> Option<u8> {
        let high = fields.digit(16)?;
        let low = fields.digit(16)?;
        Some(16 * high + low)
    }
}

// A row: `KIND:NUMBER`.
impl Item for [u64; 2] {
    fn of(fields: &mut Fields<'_>) -> Option<[u64; 2]> {
        let kind = fields.number(16)?;
        fields.mark(b':')?;
        let number = fields.number(10)?;
        Some([kind, number])
    }
}

// What is left of a line.
#[derive(Clone, Copy)]
pub(crate) struct Fields<'a> {
    rest: &'a [u8],
}

impl<'a> Fields<'a> {
    pub(crate) fn of(line: &'a [u8]) -> Fields<'a> {
        Fields { rest: line }
    }

    pub(crate) fn is_done(&self) -> bool
        ensures { result ≡ (length self.now.rest.now == 0) }
    {
        self.rest.is_empty()
    }

    // The end of the line.
    pub(crate) fn end(&self) -> Option<()> {
        self.is_done().then_some(())
    }

    fn is_at_digit(&self) -> bool {
        self.rest.first().is_some_and(|byte| digit(*byte).is_some())
    }

    // Whether that byte is at the front, and then it is taken.
    fn skip(&mut self, byte: u8) -> bool
        ensures taken { IsTrue result → length self.new.rest.now < length self.old.rest.now }
        ensures left { length self.new.rest.now ≤ length self.old.rest.now }
    {
        match self.rest {
            [first, rest @ ..] if *first == byte => {
                self.rest = rest;
                true
            }
            _ => false,
        }
    }

    // That byte.
    fn mark(&mut self, byte: u8) -> Option<()>
        ensures { Ahead result self.old.rest.now self.new.rest.now }
    {
        self.skip(byte).then_some(())
    }

    // The space between two fields.
    pub(crate) fn space(&mut self) -> Option<()>
        ensures { Ahead result self.old.rest.now self.new.rest.now }
    {
        self.mark(b' ')
    }

    fn digit(&mut self, base: u8) -> Option<u8>
        ensures ahead { Ahead result self.old.rest.now self.new.rest.now }
        ensures below { IfSome result (λ d. d < base) }
    {
        let (first, rest) = self.rest.split_first()?;
        let value = digit(*first)?;
        if base <= value {
            return None;
        }
        self.rest = rest;
        Some(value)
    }

    // A number in base 10 or 16. The library reads one from a whole text, with a `+` before it too; here its end is found as it is read.
    fn number(&mut self, base: u8) -> Option<u64>
        ensures { Ahead result self.old.rest.now self.new.rest.now }
    {
        let mut value = u64::from(self.digit(base)?);
        while let Some(digit) = self.digit(base) {
            value = value
                .checked_mul(u64::from(base))?
                .checked_add(u64::from(digit))?;
        }
        Some(value)
    }

    // A length, a place or the like, in base 10.
    pub(crate) fn decimal(&mut self) -> Option<usize>
        ensures { Ahead result self.old.rest.now self.new.rest.now }
    {
        Some(self.number(10)? as usize)
    }

    // How often an item stands: `*N`, or once. A comma may follow. More than `most` are not taken.
    fn times(&mut self, most: usize) -> Option<usize>
        ensures within { IfSome result (λ n. n ≤ most) }
        ensures left { IfSome result (λ _. length self.new.rest.now ≤ length self.old.rest.now) }
    {
        let times = if self.skip(b'*') { self.decimal()? } else { 1 };
        if most < times {
            return None;
        }
        self.skip(b',');
        Some(times)
    }

    // Items to the front of `out`, and how many there are.
    fn items<T: Item>(&mut self, out: &mut [T]) -> Option<usize>
        ensures { IfSome result (λ n. n ≤ length out.new) }
    {
        let mut filled = 0;
        while self.is_at_digit() {
            let item = T::of(self)?;
            let times = self.times(out.len() - filled)?;
            out[filled..filled + times].fill(item);
            filled += times;
        }
        Some(filled)
    }

    // A field of bytes, to the front of `out`.
    pub(crate) fn bytes<'b>(&mut self, out: &'b mut [u8]) -> Option<&'b [u8]> {
        let filled = self.items(out)?;
        self.skip(b'-');
        Some(&out[..filled])
    }

    // A field of words, to the front of `out`: rows, and at the end perhaps a lone word behind a `+`.
    pub(crate) fn words<'b>(&mut self, out: &'b mut [u64]) -> Option<&'b [u64]> {
        let (rows, _) = out.as_chunks_mut::<2>();
        let filled = 2 * self.items(rows)?;
        if self.skip(b'+') {
            *out.get_mut(filled)? = self.number(16)?;
            return Some(&out[..filled + 1]);
        }
        self.skip(b'-');
        Some(&out[..filled])
    }

    // An answer: `!NUMBER@PLACE` for a refusal; for success the `=` before what follows.
    pub(crate) fn answer(&mut self) -> Option<Due<()>>
        ensures { Ahead result self.old.rest.now self.new.rest.now }
    {
        if !self.skip(b'!') {
            self.mark(b'=')?;
            return Some(Ok(()));
        }
        let number = self.number(10)?;
        self.mark(b'@')?;
        let place = self.decimal()?;
        // No refusal has number 0, and a case that tells it is one of success.
        if number == 0 {
            return Some(Ok(()));
        }
        Some(Err(Numbered { number, place }))
    }

    // An answer whose success is a length.
    pub(crate) fn due_length(&mut self) -> Option<Due<usize>>
        ensures { Ahead result self.old.rest.now self.new.rest.now }
    {
        match self.answer()? {
            Ok(()) => Some(Ok(self.decimal()?)),
            Err(refusal) => Some(Err(refusal)),
        }
    }
}
