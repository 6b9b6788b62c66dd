// The walker: values that stand end to end, one after another (docs/FORMAT.md, 7).
//
// `step_within` does the work on a level limit, bytes and a place that the caller keeps. `Walker` keeps all three.
ghost use Rattle.std.specs.Prelude.{◌≡◌, ◌-◌};
ghost use Rattle.std.specs.Iterator.{MakesProgress, endless};
ghost use Rattle.standard.specs.Outcomes as outcome;
ghost use Rattle.standard.specs.Outcomes.{level_default};
ghost use Rattle.reader.specs.InCode.{stepped_is};
ghost use Rattle.reader.specs.Walking.{NextOf};

use standard::limit;
use standard::refusal::{Reason, Refusal};

/// Where a value stands in the bytes: from `start` up to `end`. Unlike a range of the library's it can be copied.
#[derive(Clone, Copy, Debug, PartialEq, Eq)]
pub struct Span {
    pub start: usize,
    pub end: usize,
}

impl Span {
    /// How many bytes it has.
    pub fn len(self) -> usize
        ensures { result ≡ self.end - self.start }
    {
        self.end.saturating_sub(self.start)
    }
}

// A step at a place of the bytes within a level limit: the part of the bytes that the value there is, or none at the end of them,
// or beyond it. A limit that may not be named is refused even there. The place of a refusal counts from the place of the step.
#[tactic(auto, using(laws::specs::Demand1::step_outside, laws::specs::Demand1::step_end))]
pub fn step_within(limit: usize, bytes: &[u8], at: usize) -> Result<Option<Span>, Refusal>
    ensures { stepped_is at result ≡ outcome.step limit bytes.now at }
{
    if !limit::is_in_force(limit) {
        return Err(Refusal {
            reason: Reason::LimitOutside,
            place: 0,
        });
    }
    if bytes.len() <= at {
        return Ok(None);
    }
    let extent = crate::measure_within(limit, &bytes[at..])?;
    Ok(Some(Span {
        start: at,
        end: at + extent.length,
    }))
}

// A step at a place of the bytes, within 16 levels. The form that names no limit: docs/PROMISES.md and C have both.
pub fn step_at(bytes: &[u8], at: usize) -> Result<Option<Span>, Refusal>
    ensures { stepped_is at result ≡ outcome.step level_default bytes.now at }
{
    step_within(limit::DEFAULT, bytes, at)
}

// Goes through values that stand end to end: it keeps the caller's bytes, its place in them, and the level limit of each step. A copy
// of it goes on by itself: lend it with `by_ref` or `&mut` to a loop, where it is to go on behind that.
#[derive(Clone, Copy)]
pub struct Walker<'a> {
    bytes: &'a [u8],
    at: usize,
    limit: usize,
}

impl<'a> Walker<'a> {
    // A limit that may not be named is refused in every step.
    pub fn within(limit: usize, bytes: &'a [u8]) -> Walker<'a>
        ensures { result ≡ record { bytes = bytes.entry; at = 0; limit = limit } }
    {
        Walker {
            bytes,
            at: 0,
            limit,
        }
    }

    // Within 16 levels. The form that names no limit: docs/PROMISES.md has both.
    pub fn new(bytes: &'a [u8]) -> Walker<'a>
        ensures { result ≡ record { bytes = bytes.entry; at = 0; limit = level_default } }
    {
        Walker::within(limit::DEFAULT, bytes)
    }
}

// Each item is the bytes of the next value, and the walker moves behind it. At the end, and on a refusal, it stays, and says the
// same again: so it has no end after a refusal.
impl<'a> Iterator for Walker<'a> {
    type Item = Result<&'a [u8], Refusal>;

    ghost next_gives = { NextOf };

    #[tactic(auto, using(crate::proofs::Stepping::value_placed, crate::proofs::Stepping::value_next))]
    fn next(&mut self) -> Option<Result<&'a [u8], Refusal>>
        ensures steps { NextOf self.old result self.new }
        ensures goes { MakesProgress (λ _. Unit {0}) (λ _. endless) self.old result self.new }
    {
        match step_within(self.limit, self.bytes, self.at) {
            Ok(None) => None,
            Ok(Some(part)) => {
                self.at = part.end;
                Some(Ok(&self.bytes[part.start..part.end]))
            }
            Err(refusal) => Some(Err(refusal)),
        }
    }
}
