// What is due of a call: an answer, in each form of the call that the case is about.
ghost use Rattle.std.specs.Prelude.{◌≡◌, ◌≤◌};

use standard::limit;
use standard::refusal::Refusal;

// A refusal as a case tells it, by its number.
#[derive(Clone, Copy, PartialEq)]
pub(crate) struct Numbered {
    pub(crate) number: u64,
    pub(crate) place: usize,
}

impl From<Refusal> for Numbered {
    fn from(refusal: Refusal) -> Numbered {
        Numbered {
            number: refusal.reason.number(),
            place: refusal.place,
        }
    }
}

// An answer as a case tells it.
pub(crate) type Due<T> = Result<T, Numbered>;

// Whether an answer is the one that is due.
pub(crate) fn is_due<T: PartialEq + Drop>(given: Result<T, Refusal>, due: Due<T>) -> bool {
    given.map_err(Numbered::from) == due
}

// Whether an answer is right in each form of a call in which it is due: in the one that names the limit, and where that is the limit in
// force when none is named, in the one that names none too.
pub(crate) fn in_each_form<F: FnMut(Option<usize>) -> bool>(limit: usize, mut is_right: F) -> bool
    requires { F.IsAlwaysCallable is_right }
{
    is_right(Some(limit)) && (limit != limit::DEFAULT || is_right(None))
}

// How many answers a case has, at most two, and how many of them are right.
#[derive(Clone, Copy)]
pub(crate) struct Score {
    pub(crate) answers: usize,
    pub(crate) right: usize,
    ghost few: { answers ≤ 2 },
    ghost of_these: { right ≤ answers },
}

impl Score {
    // Of answers, each of which is right or not.
    pub(crate) fn of<const N: usize>(answers: [bool; N]) -> Score
        requires { N ≤ 2 }
        ensures { result.answers ≡ N }
    {
        Score {
            answers: N,
            right: answers.iter().filter(|right| **right).count(),
        }
    }

    pub(crate) fn is_full(self) -> bool {
        self.right == self.answers
    }
}
