// The checker. It reads the job and the answer, and judges the tables or the walk where they stand in the sheet.
// Leans on the test of one combination, and on no table.
ghost use Rattle.std.specs.Prelude.{◌≡◌, not, ◌+◌, ◌^◌, ◌<◌, ◌≤◌, length, IfSome};
ghost use Rattle.std.specs.Option.{unwrap_or};
ghost use Rattle.board.specs.JobBoard.{any_below, head_board, Sized};
ghost use Rattle.board.specs.Places.{word_at, claim_in, combination_in, fault_in, rule_in, tested_in, step_in, opposed_in, walk_in, TablesIn, WalkIn};
ghost use Rattle.board.specs.Check.{tables_at, judge_sheet, check_outcome};
ghost use Rattle.board.specs.Tests.{lowest};

use crate::Job;
use answer::AnswerKind;
use sheet::{Form, JobHead, MASKS};
use steps::{Outcome, refused, refused_answer, refused_job, rule_broken, succeeded};
use wires::{Claim, Combination, row_count, row_shown};

// Tables as they stand in a sheet that was read, for a job.
#[derive(Clone, Copy)]
struct Tables<'a> {
    job: Job<'a>,
    sheet: &'a [u8],
    ghost tables_in: { TablesIn job.head sheet.now },
}

impl<'a> Tables<'a> {
    // With A and B set to the table entries of the rows that `a` shows, which rule is broken?
    fn fault_at(&self, a: Combination) -> Option<usize>
        requires { a.0 < 2 ^ self.now.job.head.wires }
        ensures { result ≡ tested_in self.now.job.head self.now.job.masks.now self.now.sheet.now a.0 }
    {
        let h = self.job.head;
        let at_a = 2 + row_shown(h.sees_a, a.0 as u32) as usize;
        let at_b = 4 + row_count(h.sees_a) + row_shown(h.sees_b, a.0 as u32) as usize;
        self.job
            .test(a, self.sheet[at_a] as u32, self.sheet[at_b] as u32)
    }

    // 10 at the lowest combination where the tables break a rule, with the lowest rule broken there, or 20.
    fn judge(&self) -> Outcome
        ensures { result ≡ tables_at (head_board self.now.job.head self.now.job.masks.now)
            (rule_in self.now.job.head self.now.job.masks.now self.now.sheet.now)
            (lowest (fault_in self.now.job.head self.now.job.masks.now self.now.sheet.now) (2 ^ self.now.job.head.wires)) }
    {
        let combinations: u32 = 1 << self.job.head.wires;
        for a in 0..combinations {
            if let Some(rule) = self.fault_at(Combination(a as u16)) {
                return rule_broken(a as usize, rule);
            }
        }
        succeeded(20, 0)
    }
}

// Two bytes of a sheet, low byte first.
fn word_at(sheet: &[u8], at: usize) -> u16
    requires { at + 2 ≤ length sheet.now }
    ensures { result ≡ word_at sheet.now at }
{
    u16::from_le_bytes([sheet[at], sheet[at + 1]])
}

// A walk as it stands in a sheet that was read, for a job.
#[derive(Clone, Copy)]
struct Walk<'a> {
    job: Job<'a>,
    sheet: &'a [u8],
    count: u32,
    ghost walk_in: { WalkIn job.head sheet.now count },
}

impl<'a> Walk<'a> {
    // What entry `i` says.
    fn claim(&self, i: u32) -> Claim
        requires { i < self.now.count }
        ensures { result.0 ≡ claim_in self.now.sheet.now i }
    {
        Claim(word_at(self.sheet, 6 + 4 * (i as usize)))
    }

    // The combination that entry `i` goes by.
    fn combination(&self, i: u32) -> Combination
        requires { i < self.now.count }
        ensures is { result.0 ≡ combination_in self.now.sheet.now i }
        ensures of_wires { result.0 < 2 ^ self.now.job.head.wires }
    {
        Combination(word_at(self.sheet, 8 + 4 * (i as usize)))
    }

    // Does entry `i` step to the next, the last to the first?
    fn entry_steps(&self, i: u32) -> bool
        requires { i < self.now.count }
        ensures { result ≡ step_in self.now.job.head self.now.job.masks.now self.now.sheet.now self.now.count i }
    {
        let next = if i + 1 == self.count { 0 } else { i + 1 };
        self.job
            .step_holds(self.claim(i), self.claim(next), self.combination(i))
    }

    // The lowest entry whose step does not hold.
    fn lowest_bad_step(&self) -> Option<u32>
        ensures below { IfSome result (λ i. i < self.now.count) }
        ensures lowest { unwrap_or result self.now.count
            ≡ lowest (λ i. not (step_in self.now.job.head self.now.job.masks.now self.now.sheet.now self.now.count i)) self.now.count }
    {
        (0..self.count).find(|i| !self.entry_steps(*i))
    }

    // Is the opposite of the first claim among the claims? Two opposite claims differ in the last bit.
    fn meets_opposite(&self) -> bool
        ensures { result ≡ any_below (opposed_in self.now.sheet.now) self.now.count }
    {
        let opposite = self.claim(0).0 ^ 1;
        (0..self.count).any(|i| self.claim(i).0 == opposite)
    }

    // 12 at the lowest entry whose step does not hold, then 13, or 21.
    fn judge(&self) -> Outcome
        ensures { result ≡ walk_in self.now.job.head self.now.job.masks.now self.now.sheet.now self.now.count }
    {
        if let Some(lowest) = self.lowest_bad_step() {
            return refused(12, 2, lowest as usize);
        }
        if self.meets_opposite() {
            succeeded(21, 0)
        } else {
            refused(13, 2, 0)
        }
    }
}

// The outcome of an answer sheet for an accepted job.
pub fn check_answer<'a>(h: JobHead, masks: &'a [u32], sheet: &'a [u8]) -> Outcome
    requires { Sized h masks.now }
    ensures { result ≡ judge_sheet (head_board h masks.now) sheet.now }
{
    let rows_a = row_count(h.sees_a) as u32;
    let rows_b = row_count(h.sees_b) as u32;
    let job = Job { head: h, masks };
    match answer::read_answer(sheet, rows_a, rows_b, 1 << h.wires) {
        Ok(AnswerKind::Tables) => Tables { job, sheet }.judge(),
        Ok(AnswerKind::Walk(count)) => Walk { job, sheet, count }.judge(),
        Err(w) => refused_answer(w),
    }
}

// The checker: the outcome of an answer sheet for a job sheet, for either form and every two strings of bytes.
pub fn check(form: Form, job: &[u8], answer: &[u8]) -> Outcome
    ensures { result ≡ check_outcome form job.now answer.now }
{
    let mut masks = [0u32; MASKS];
    match sheet::read_job(form, job, &mut masks) {
        Ok(head) => check_answer(head, &masks, answer),
        Err(w) => refused_job(1, w),
    }
}
