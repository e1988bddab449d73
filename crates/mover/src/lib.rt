// The mover: a job sheet in the other form, to a lent buffer (document 02, request 3). Form two of a sheet of form one has a
// section of no excuses more; going back that section is taken off, and a sheet that has excuses is refused. How a call
// ends, for every string of bytes, stands in specs/Moved. Leans on `sheet` for reading.
#![tactic(auto)]

ghost use Rattle.std.specs.Prelude.{◌≡◌, ◌++◌, ◌-◌, ◌≤◌, length, take};
ghost use Rattle.steps.specs.Outcome.{Ended};
ghost use Rattle.sheet.specs.declared.Form.TheVariants.{One, Two};
ghost use Rattle.sheet.specs.JobSheet.{longest};
ghost use Rattle.answer.specs.Written.{two};
ghost use Rattle.mover.specs.Moved.{excuses_at, put, moving};

use answer::page::Page;
use sheet::{Form, MASKS, read_job};
use steps::{Outcome, refused, refused_job, succeeded};

// The bytes of a section of no excuses, which is its count alone.
const NONE: usize = 2;

// The sheet with a section of no excuses, if there is room for it.
fn add_none(sheet: &[u8], out: &mut [u8]) -> Outcome
    requires { length sheet.now ≤ longest One }
    ensures { Ended (put (sheet.now ++ two 0) out.old) result out.new }
{
    if out.len() < sheet.len() + NONE {
        return refused(6, 0, 0);
    }
    let mut page = Page { bytes: out, at: 0 };
    page.write(sheet);
    page.write_two(0);
    succeeded(0, page.at)
}

// The sheet without that section, which stands at its end, if there is room.
fn drop_none(sheet: &[u8], out: &mut [u8]) -> Outcome
    requires { 7 ≤ length sheet.now }
    ensures { Ended (put (take (length sheet.now - 2) sheet.now) out.old) result out.new }
{
    let kept = sheet.len() - NONE;
    if out.len() < kept {
        return refused(6, 0, 0);
    }
    let mut page = Page { bytes: out, at: 0 };
    page.write(&sheet[..kept]);
    succeeded(0, page.at)
}

// The place after the rules: what stands there is left over in form one.
fn excuses_at(sheet: &[u8]) -> usize
    ensures { result ≡ excuses_at sheet.now }
{
    let mut masks = [0u32; MASKS];
    let in_one = read_job(Form::One, sheet, &mut masks);
    match in_one {
        Ok(_) => sheet.len(),
        Err(w) => w.place(),
    }
}

// Moves a sheet of form one to form two.
pub fn to_two(sheet: &[u8], out: &mut [u8]) -> Outcome
    ensures { Ended (moving Two sheet.now out.old) result out.new }
{
    let mut masks = [0u32; MASKS];
    match read_job(Form::One, sheet, &mut masks) {
        Ok(_) => add_none(sheet, out),
        Err(w) => refused_job(1, w),
    }
}

// Moves a sheet of form two back to form one, where it has no excuses. Not one function with `to_two`, by which nothing is lost.
pub fn to_one(sheet: &[u8], out: &mut [u8]) -> Outcome
    ensures { Ended (moving One sheet.now out.old) result out.new }
{
    let mut masks = [0u32; MASKS];
    match read_job(Form::Two, sheet, &mut masks) {
        Ok(head) if head.excuses == 0 => drop_none(sheet, out),
        Ok(_) => refused(16, 1, excuses_at(sheet)),
        Err(w) => refused_job(1, w),
    }
}
