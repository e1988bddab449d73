// What the bench program prints for a job sheet, as bytes in a lent buffer (document 01, "Bench use"): the tables, the walk or
// the refusal; and the five numbers of an outcome. Every byte is given by a definition in specs/Text and specs/Numbers. Leans
// on the solver.
#![tactic(auto)]

ghost use Rattle.std.specs.Prelude.{◌≡◌, ◌∷◌, ◌+◌, ◌≤◌, length};
ghost use Rattle.steps.specs.Outcome.{Ended};
ghost use Rattle.answer.specs.Page.{Room, Wrote};
ghost use Rattle.board.specs.Places.{word_at};
ghost use Rattle.text.specs.Decimal.{decimal};
ghost use Rattle.text.specs.Text.{longest_text, digits, line_of, refused_text, Texted};
ghost use Rattle.text.specs.Numbers.{first_three, numbered};
ghost use Rattle.text.specs.Printing.{Small, Prints, TablesAsk, tables_of, WalkAsk, walk_of};

use answer::LONGEST;
use answer::page::Page;
use itoa::Buffer;
use sheet::Form;
use steps::{Outcome, refused, succeeded};

// The length of the longest text.
pub const LONGEST_TEXT: usize = 20465;

// The length of the longest line of an outcome's numbers.
pub const LONGEST_NUMBERS: usize = 71;

// Two bytes of a sheet, low byte first, as a place or a number to print; the checker's like tells a claim or a combination.
fn word_at(sheet: &[u8], at: usize) -> usize
    requires { at + 2 ≤ length sheet.now }
    ensures { result ≡ word_at sheet.now at }
{
    usize::from(u16::from_le_bytes([sheet[at], sheet[at + 1]]))
}

// Writes a number in decimal. Not by `write!`: what is promised of it leaves open that it fails where there is room.
fn write_decimal(page: &mut Page, n: usize)
    requires { Room page.old (decimal n) }
    ensures { Wrote page.old (decimal n) page.new }
{
    let mut digits = Buffer::new();
    page.write(digits.format(n).as_bytes());
}

// Writes a space and a number.
fn write_after(page: &mut Page, n: usize)
    requires { Room page.old (32 ∷ decimal n) }
    ensures { Wrote page.old (32 ∷ decimal n) page.new }
{
    page.write(b" ");
    write_decimal(page, n);
}

// Writes the line of a walk's entry: claim, a space, combination, a line feed.
fn write_line(page: &mut Page, claim: usize, combination: usize)
    requires { Room page.old (line_of (record { says = claim; by = combination })) }
    ensures { Wrote page.old (line_of (record { says = claim; by = combination })) page.new }
{
    write_decimal(page, claim);
    write_after(page, combination);
    page.write(b"\n");
}

// Writes a digit for each row.
fn write_digits(page: &mut Page, rows: &[u8])
    requires room { Room page.old (digits rows.now) }
    requires small { Small rows.now }
    ensures { Wrote page.old (digits rows.now) page.new }
{
    for row in rows {
        page.write_byte(b'0' + *row);
    }
}

// Writes the first three numbers of an outcome: code, sheet and place, one space between.
fn write_first_three(page: &mut Page, o: Outcome)
    requires { Room page.old (first_three o) }
    ensures { Wrote page.old (first_three o) page.new }
{
    write_decimal(page, o.code as usize);
    write_after(page, o.sheet as usize);
    write_after(page, o.place);
}

// Prints the tables of an answer sheet.
fn print_tables(sheet: &[u8], out: &mut [u8]) -> usize
    requires { TablesAsk sheet.now out.old }
    ensures { Prints (tables_of sheet.now) out.old out.new result }
{
    let rows_a = word_at(sheet, 0);
    let rows_b = word_at(sheet, 2 + rows_a);
    let first = 4 + rows_a;
    let last = first + rows_b;
    let end_a = 2 + rows_a;
    let mut page = Page { bytes: out, at: 0 };
    page.write(b"tables\nA ");
    write_digits(&mut page, &sheet[2..end_a]);
    page.write(b"\nB ");
    write_digits(&mut page, &sheet[first..last]);
    page.write(b"\n");
    page.at
}

// Prints the walk of an answer sheet.
fn print_walk(sheet: &[u8], out: &mut [u8]) -> usize
    requires { WalkAsk sheet.now out.old }
    ensures { Prints (walk_of sheet.now) out.old out.new result }
{
    let mut page = Page { bytes: out, at: 0 };
    page.write(b"walk\n");
    for i in 0..word_at(sheet, 4) {
        let claim = word_at(sheet, 6 + 4 * i);
        let combination = word_at(sheet, 8 + 4 * i);
        write_line(&mut page, claim, combination);
    }
    page.at
}

// Prints a refusal.
fn print_refused(o: Outcome, out: &mut [u8]) -> usize
    requires { longest_text ≤ length out.old }
    ensures { Prints (refused_text o) out.old out.new result }
{
    let mut page = Page { bytes: out, at: 0 };
    page.write(b"refused ");
    write_first_three(&mut page, o);
    page.write(b"\n");
    page.at
}

// What the bench program of a form prints for a job sheet, for every string of bytes and every lent buffer.
pub fn text(form: Form, job: &[u8], out: &mut [u8]) -> Outcome
    ensures { Texted form job.now out.old result out.new }
{
    if out.len() < LONGEST_TEXT {
        return refused(6, 0, 0);
    }
    let mut answer = [0u8; LONGEST];
    let o = solver::solve(form, job, &mut answer);
    // The code is the paper's number, which C is handed too: 20 for tables, 21 for a walk.
    let written = match o.code {
        20 => print_tables(&answer, out),
        21 => print_walk(&answer, out),
        _ => print_refused(o, out),
    };
    succeeded(0, written)
}

// The five numbers of an outcome as a line, for every outcome and every lent buffer.
pub fn numbers(o: Outcome, out: &mut [u8]) -> Outcome
    ensures { Ended (numbered o out.old) result out.new }
{
    if out.len() < LONGEST_NUMBERS {
        return refused(6, 0, 0);
    }
    let mut page = Page { bytes: out, at: 0 };
    write_first_three(&mut page, o);
    write_after(&mut page, o.written);
    write_after(&mut page, o.rule);
    page.write(b"\n");
    succeeded(0, page.at)
}
