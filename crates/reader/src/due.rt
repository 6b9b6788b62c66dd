// What is due in filling: a stack of runs of values, the one on top beside it. A run that is used up is not kept, so there are never
// more runs than a value has levels.
ghost use Rattle.std.specs.Prelude.{◌≡◌, [], length};
ghost use Rattle.arrayvec.specs.ArrayVec.{array_vec_len};
ghost use Rattle.reader.specs.Runs.{kept_is};

use arrayvec::ArrayVec;
use standard::limit;

// So many values, which all stand behind that code, as the elements of an array, or each begin with their own, as the children of a
// list.
#[derive(Clone, Copy, Default)]
pub struct Run {
    pub left: u64,
    pub code: Option<u8>,
}

// The runs below the one on top, the last of them next.
#[derive(Drop)]
pub struct Below {
    runs: ArrayVec<Run, { limit::MOST }>,
    ghost full: { length (kept_is runs.items) ≡ array_vec_len runs },
}

impl Below {
    ghost use Rattle.std.specs.Prelude.{◌-◌, ◌<◌, ◌≤◌};
    ghost use Rattle.standard.specs.Outcomes.{level_most};
    ghost use Rattle.laws.specs.Flat.{push};
    ghost use Rattle.reader.specs.Runs.{head_is};
    ghost use Rattle.reader.specs.Filling.{below_is, due_is};

    pub(crate) fn none() -> Below
        ensures { below_is result ≡ [] }
    {
        Below {
            runs: ArrayVec::new(),
        }
    }

    // A run that has a value: the one on top, or where that is used up, the last that is kept.
    #[tactic(auto, using(crate::proofs::Runs::some_kept, crate::proofs::Runs::rest_full, crate::proofs::Runs::last_left, crate::proofs::Runs::popped))]
    pub(crate) fn next_run(&mut self, top: Run) -> Run
        requires { 1 ≤ length (due_is top self.old) }
        ensures { (1 ≤ result.left) × (due_is result self.new ≡ due_is top self.old) }
    {
        if 0 < top.left {
            return top;
        }
        self.runs.pop().unwrap()
    }

    // What is on top once the first value of that run is read: its children, if it has any, and then the others.
    #[tactic(auto, unfolding(laws::specs::Flat::push), using(crate::proofs::Runs::kept_more, crate::proofs::Runs::more_full, crate::proofs::Runs::push_none))]
    pub(crate) fn after_row(&mut self, top: Run, children: Run) -> Run
        requires { (1 ≤ top.left) × (length (below_is self.old) < level_most) }
        ensures { due_is result self.new ≡ push children.left (head_is children.code) (push (top.left - 1) (head_is top.code) (below_is self.old)) }
    {
        let rest = Run {
            left: top.left - 1,
            code: top.code,
        };
        if children.left == 0 {
            return rest;
        }
        if 0 < rest.left {
            self.runs.push(rest);
        }
        children
    }
}
