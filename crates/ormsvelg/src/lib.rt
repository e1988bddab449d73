// The C face: functions on numbers and byte slices for the bench's host program, each outcome as one 64-bit number
// (document 01, "Bench use"). A slice passes as a pointer and a length; a null pointer with length 0 is an empty slice.
// What each call does is said below; only the packing is of this crate. C has these names, one for each form.
#![tactic(auto)]

ghost use Rattle.std.specs.Prelude.{◌≡◌, length};
ghost use Rattle.sheet.specs.declared.Form.TheVariants.{One, Two};
ghost use Rattle.sheet.specs.JobSheet.{read_outcome};
ghost use Rattle.writer.specs.JobWritten.{described};
ghost use Rattle.writer.specs.Writing.{write_outcome, write_exit};
ghost use Rattle.mover.specs.Moved.{moving};
ghost use Rattle.board.specs.Check.{check_outcome};
ghost use Rattle.solver.specs.Solved.{Solved};
ghost use Rattle.widener.specs.Widened.{widened};
ghost use Rattle.ormsvelg.specs.Packed.{pack, unpack, Packs};

use sheet::Form;
use steps::Outcome;

// The four numbers of an outcome in one.
fn packed(o: Outcome) -> u64
    requires { Packs o }
    ensures { result ≡ pack o }
{
    (o.code as u64)
        + 0x100 * (o.sheet as u64)
        + 0x10000 * (o.place as u64)
        + 0x10000000000 * (o.written as u64)
}

// The outcome of reading a job sheet of form one.
#[unsafe(no_mangle)]
pub extern "C" fn ormsvelg_read(job: &[u8]) -> u64
    ensures { result ≡ pack (read_outcome One job.now) }
{
    packed(sheet::read_sheet(Form::One, job))
}

// The same for job sheets of form two.
#[unsafe(no_mangle)]
pub extern "C" fn ormsvelg_read_two(job: &[u8]) -> u64
    ensures { result ≡ pack (read_outcome Two job.now) }
{
    packed(sheet::read_sheet(Form::Two, job))
}

// The outcome of writing a job sheet from a description; on success the sheet is at the front of the lent buffer.
#[unsafe(no_mangle)]
pub extern "C" fn ormsvelg_write(
    pins: &[u8],
    sees_a: u32,
    sees_b: u32,
    rules: &[u32],
    sheet: &mut [u8],
) -> u64
    ensures value { result ≡ pack (write_outcome (described pins.now sees_a sees_b rules.now) (length sheet.old)) }
    ensures sheet_after { sheet.new ≡ write_exit (described pins.now sees_a sees_b rules.now) sheet.old }
{
    packed(writer::write_job(pins, sees_a, sees_b, rules, sheet))
}

// The outcome of moving a job sheet of form one to form two; on success the moved sheet is at the front of the lent buffer.
#[unsafe(no_mangle)]
pub extern "C" fn ormsvelg_to_two(job: &[u8], moved: &mut [u8]) -> u64
    ensures value { result ≡ pack (moving Two job.now moved.old).outcome }
    ensures moved_after { moved.new ≡ (moving Two job.now moved.old).exit }
{
    packed(mover::to_two(job, moved))
}

// The same from form two back to form one.
#[unsafe(no_mangle)]
pub extern "C" fn ormsvelg_to_one(job: &[u8], moved: &mut [u8]) -> u64
    ensures value { result ≡ pack (moving One job.now moved.old).outcome }
    ensures moved_after { moved.new ≡ (moving One job.now moved.old).exit }
{
    packed(mover::to_one(job, moved))
}

// The outcome of checking an answer sheet against a job sheet of form one.
#[unsafe(no_mangle)]
pub extern "C" fn ormsvelg_check(job: &[u8], answer: &[u8]) -> u64
    ensures { result ≡ pack (check_outcome One job.now answer.now) }
{
    packed(board::check::check(Form::One, job, answer))
}

// The same for job sheets of form two.
#[unsafe(no_mangle)]
pub extern "C" fn ormsvelg_check_two(job: &[u8], answer: &[u8]) -> u64
    ensures { result ≡ pack (check_outcome Two job.now answer.now) }
{
    packed(board::check::check(Form::Two, job, answer))
}

// The outcome of solving a job sheet of form one; on success one answer sheet is at the front of the lent buffer.
#[unsafe(no_mangle)]
pub extern "C" fn ormsvelg_solve(job: &[u8], answer: &mut [u8]) -> u64
    ensures { Solved One job.now answer.old (unpack result) answer.new }
{
    packed(solver::solve(Form::One, job, answer))
}

// The same for job sheets of form two.
#[unsafe(no_mangle)]
pub extern "C" fn ormsvelg_solve_two(job: &[u8], answer: &mut [u8]) -> u64
    ensures { Solved Two job.now answer.old (unpack result) answer.new }
{
    packed(solver::solve(Form::Two, job, answer))
}

// The outcome of widening an answer for the job P to the job Q, both of form one; on success the tables sheet for Q is at
// the front of `out`.
#[unsafe(no_mangle)]
pub extern "C" fn ormsvelg_widen(p: &[u8], q: &[u8], answer: &[u8], out: &mut [u8]) -> u64
    ensures value { result ≡ pack (widened One p.now q.now answer.now out.old).outcome }
    ensures out_after { out.new ≡ (widened One p.now q.now answer.now out.old).exit }
{
    packed(widener::widen(Form::One, p, q, answer, out))
}

// The same for job sheets of form two.
#[unsafe(no_mangle)]
pub extern "C" fn ormsvelg_widen_two(p: &[u8], q: &[u8], answer: &[u8], out: &mut [u8]) -> u64
    ensures value { result ≡ pack (widened Two p.now q.now answer.now out.old).outcome }
    ensures out_after { out.new ≡ (widened Two p.now q.now answer.now out.old).exit }
{
    packed(widener::widen(Form::Two, p, q, answer, out))
}
