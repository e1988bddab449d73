// Whether job Q asks no more than job P, for two job sheets that were accepted (document 01, demand 3). What it means, and the
// test that decides it, stand in specs/Asks; what was found in a sheet in specs/Taking. Leans on `wires` for the sets of terms,
// and on the definitions and laws of `sheet` and `board`.
#![tactic(auto)]

ghost use Rattle.std.specs.Prelude.{◌≡◌};
ghost use Rattle.sheet.specs.Job.{Job};
ghost use Rattle.asking.specs.Asks.{all_within, asksb};
ghost use Rattle.asking.specs.Taking.{IsTaken};

use sheet::JobHead;
use wires::{contains, some_within};

// A job that was taken from its sheet: the sheet, in which the pins stand, the job in numbers, and its rules and then its excuses.
#[derive(Clone, Copy)]
pub struct TakenJob<'a> {
    pub sheet: &'a [u8],
    pub head: JobHead,
    pub masks: &'a [u32],
    pub ghost taken: { ∥ IsTaken sheet.now head masks.now ∥₁ },
}

impl<'a> TakenJob<'a> {
    ghost use Rattle.asking.specs.Taken.{pins, rules, excuses, IsJob};

    // The pins, one byte each, from place 1 of the sheet on.
    fn pins(&self) -> &'a [u8]
        ensures { result.now ≡ pins self.now }
    {
        &self.sheet[1..1 + self.head.wires as usize]
    }

    fn rules(&self) -> &'a [u32]
        ensures { result.now ≡ rules self.now }
    {
        &self.masks[..self.head.rules as usize]
    }

    fn excuses(&self) -> &'a [u32]
        ensures { result.now ≡ excuses self.now }
    {
        &self.masks[self.head.rules as usize..][..self.head.excuses as usize]
    }

    // Does this job ask no more than the job `other`?
    pub fn asks_no_more(&self, other: &TakenJob) -> bool
        ensures { (P Q : Job) → IsJob other.now P → IsJob self.now Q → result ≡ asksb P Q }
    {
        other.pins() == self.pins()
            && contains(self.head.sees_a, other.head.sees_a)
            && contains(self.head.sees_b, other.head.sees_b)
            && all_within(other.rules(), self.rules())
            && all_within(self.excuses(), other.excuses())
    }
}

// Does each of the sets of `wide` contain all of one of the sets of `narrow`?
fn all_within(narrow: &[u32], wide: &[u32]) -> bool
    ensures { result ≡ all_within narrow.now wide.now }
{
    wide.iter().all(|set| some_within(narrow, *set))
}
