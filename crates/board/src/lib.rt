// What a sheet means, and the checker: the test of one combination, steps, and the judgement of answers from any author
// (document 01, "When tables fit, when a walk stands"; document 02, request 4). The definitions stand in specs/: Board, Tables
// and Walk are the meaning, JobBoard the board of a job, Tested the test of one combination, Check the checker's outcome.
// Relies on these alone and knows no solver.
#![tactic(auto)]

pub mod check;

ghost use Rattle.std.specs.Prelude.{◌≡◌, ◌^◌, ◌<◌};
ghost use Rattle.board.specs.JobBoard.{head_board, Sized};
ghost use Rattle.board.specs.Tests.{stepb};
ghost use Rattle.board.specs.Tested.{tested};

use sheet::JobHead;
use wires::{Claim, Combination, first_broken, row_count, row_shown, some_within, truths};

// A job in numbers: its head, and its rules and then its excuses at the front of the masks.
#[derive(Clone, Copy)]
pub struct Job<'a> {
    pub head: JobHead,
    pub masks: &'a [u32],
    pub ghost sized: { Sized head masks.now },
}

impl<'a> Job<'a> {
    // The test of one combination: with A at `x` and B at `y`, which rule is broken where the wires have the combination `a`,
    // and `a` not excused? An excuse holds where all its terms are true.
    pub fn test(&self, a: Combination, x: u32, y: u32) -> Option<usize>
        requires { (a.0 < 2 ^ self.now.head.wires) × (x < 2) × (y < 2) }
        ensures { result ≡ tested (head_board self.now.head self.now.masks.now) a.0 x y }
    {
        let set = truths(self.head.wires, a.0 as u32, x, y);
        let count = self.head.rules as usize;
        if some_within(&self.masks[count..count + self.head.excuses as usize], set) {
            return None;
        }
        first_broken(&self.masks[..count], set)
    }

    // Does the step from `l` to `m` by `a` hold? They belong to different cells, `a` shows both rows, and with `l` true and
    // `m` false some rule is broken at `a`.
    pub fn step_holds(&self, l: Claim, m: Claim, a: Combination) -> bool
        requires { a.0 < 2 ^ self.now.head.wires }
        ensures { result ≡ stepb (head_board self.now.head self.now.masks.now) l.0 m.0 a.0 }
    {
        let of_a = row_shown(self.head.sees_a, a.0 as u32);
        let of_b = row_count(self.head.sees_a) as u32 + row_shown(self.head.sees_b, a.0 as u32);
        let from = l.0 as u32;
        let to = m.0 as u32;
        from / 2 == of_a && to / 2 == of_b && self.test(a, from % 2, 1 - to % 2).is_some()
            || from / 2 == of_b && to / 2 == of_a && self.test(a, 1 - to % 2, from % 2).is_some()
    }
}
