// The widener: from tables that fit job P to tables that fit job Q, which asks no more (document 01, "Widening"). How a call
// ends, for every four strings of bytes, stands in specs/Widened. Leans on the checker for the answer against P, and on
// `asking` for whether Q asks no more.
#![tactic(auto)]

ghost use Rattle.steps.specs.Outcome.{Ended};
ghost use Rattle.sheet.specs.Job.{Job};
ghost use Rattle.sheet.specs.JobSheet.{read_job};
ghost use Rattle.asking.specs.Taken.{IsJob};
ghost use Rattle.widener.specs.Widened.{with_both, with_p, widened};
ghost use Rattle.widener.specs.Writing.{Widens, WidenedOn, Wide, Widely};

use answer::LONGEST;
use answer::page::Page;
use asking::TakenJob;
use sheet::{Form, JobHead, MASKS};
use steps::{Outcome, refused, refused_job, succeeded};
use wires::{row_count, row_placed, row_shown};

// Writes the table of a cell that sees the wires of `more`, from that of a cell that sees those of `few`, whose rows stand in
// `from` from the place `first` on: its count, then its rows.
fn widen_table(few: u32, more: u32, from: &[u8], first: usize, page: &mut Page)
    requires { Widens few more from.now first page.old }
    ensures { WidenedOn few more from.now first page.old page.new }
{
    let rows = row_count(more);
    page.write_two(rows as u16);
    for i in 0..rows {
        let r = row_shown(few, row_placed(more, i as u32)) as usize;
        page.write_byte(from[first + r]);
    }
}

// Writes the widened sheet, from the tables in `sheet`. Answers its length.
fn write_wide(hp: JobHead, hq: JobHead, sheet: &[u8], out: &mut [u8]) -> usize
    requires { Wide hp hq sheet.now out.old }
    ensures { Widely hp hq sheet.now out.old out.new result }
{
    let rows_a = row_count(hp.sees_a);
    let mut page = Page { bytes: out, at: 0 };
    widen_table(hp.sees_a, hq.sees_a, sheet, 2, &mut page);
    widen_table(hp.sees_b, hq.sees_b, sheet, 4 + rows_a, &mut page);
    page.write_two(0);
    page.at
}

// Both jobs were accepted: the answer is checked against P, then the other causes of refusal in their order.
fn widen_both(p: &TakenJob, q: &TakenJob, sheet: &[u8], out: &mut [u8]) -> Outcome
    ensures { (P Q : Job) → IsJob p.now P → IsJob q.now Q → Ended (with_both P Q sheet.now out.old) result out.new }
{
    let checked = board::check::check_answer(p.head, p.masks, sheet);
    if checked.code == 21 {
        return refused(15, 2, 0);
    }
    if checked.code != 20 {
        return checked;
    }
    if !q.asks_no_more(p) {
        return refused(14, 3, 0);
    }
    if out.len() < LONGEST {
        return refused(6, 0, 0);
    }
    let written = write_wide(p.head, q.head, sheet, out);
    succeeded(20, written)
}

// P was accepted.
fn widen_from(form: Form, p: &TakenJob, q: &[u8], sheet: &[u8], out: &mut [u8]) -> Outcome
    ensures { (P : Job) → IsJob p.now P → Ended (with_p P (read_job form q.now) sheet.now out.old) result out.new }
{
    let mut masks = [0u32; MASKS];
    match sheet::read_job(form, q, &mut masks) {
        Ok(head) => {
            let job = TakenJob {
                sheet: q,
                head,
                masks: &masks,
            };
            widen_both(p, &job, sheet, out)
        }
        Err(w) => refused_job(3, w),
    }
}

// The widener: for either form, every two job sheets, every answer sheet and every lent buffer.
pub fn widen(form: Form, p: &[u8], q: &[u8], sheet: &[u8], out: &mut [u8]) -> Outcome
    ensures { Ended (widened form p.now q.now sheet.now out.old) result out.new }
{
    let mut masks = [0u32; MASKS];
    match sheet::read_job(form, p, &mut masks) {
        Ok(head) => {
            let job = TakenJob {
                sheet: p,
                head,
                masks: &masks,
            };
            widen_from(form, &job, q, sheet, out)
        }
        Err(w) => refused_job(1, w),
    }
}
