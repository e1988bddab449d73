// The solver: the first fitting pair of tables, or a walk that stands (document 01, demand 2). The arrays of the job's board are
// filled, searched, and what was found is written as an answer sheet. How a call can end stands in specs/Solved. Leans on
// `board` by its promises, on `faults`, `grid` and `search`.
#![tactic(auto)]

ghost use Rattle.std.specs.Prelude.{◌++◌, ◌/◌, ◌≤◌, length, take, drop};
ghost use Rattle.answer.specs.AnswerSheet.{longest};
ghost use Rattle.answer.specs.Page.{Room, Wrote};
ghost use Rattle.answer.specs.Written.{two, tables_sheet};
ghost use Rattle.board.specs.JobBoard.{head_board, Sized};
ghost use Rattle.grid.specs.Grid.{grid_board};
ghost use Rattle.grid.specs.Held.{held};
ghost use Rattle.solver.specs.Solved.{SolvedOn, Solved};

use answer::LONGEST;
use answer::page::Page;
use cubes::table::{Table, WORDS};
use faults::{fill_faults, strike};
use grid::{Grid, Shape, fill_rows, unpack};
use search::{UNSETTLED, search};
use sheet::{Form, JobHead, MASKS};
use steps::{Outcome, refused, refused_job, succeeded};
use wires::row_count;

// Places for the most rows and combinations, and for the bytes of the longest walk.
const ROWS: usize = 512;

const COMBINATIONS: usize = 4096;

const WALK: usize = 8184;

// Writes the sheet of two tables, which stand one after the other in `state`.
fn write_tables(state: &[u8], rows_a: usize, page: &mut Page)
    requires within { (rows_a ≤ length state.now) × (length state.now ≤ 512) }
    requires room { Room page.old (tables_sheet (take rows_a state.now) (drop rows_a state.now)) }
    ensures { Wrote page.old (tables_sheet (take rows_a state.now) (drop rows_a state.now)) page.new }
{
    page.write_table(&state[..rows_a]);
    page.write_table(&state[rows_a..]);
    page.write_two(0);
}

// Writes the sheet of a walk whose entries are the bytes of `walk`.
fn write_walk(walk: &[u8], page: &mut Page)
    requires few { length walk.now ≤ 8184 }
    requires room { Room page.old (two 0 ++ two 0 ++ two (length walk.now / 4) ++ walk.now) }
    ensures { Wrote page.old (two 0 ++ two 0 ++ two (length walk.now / 4) ++ walk.now) page.new }
{
    page.write_two(0);
    page.write_two(0);
    page.write_two((walk.len() / 4) as u16);
    page.write(walk);
}

// Solves a board that stands in its arrays.
fn solve_grid(grid: &Grid, answer: &mut [u8]) -> Outcome
    requires { longest ≤ length answer.old }
    ensures { SolvedOn (grid_board (held grid.now)) answer.old result answer.new }
{
    let mut state = [UNSETTLED; ROWS];
    let mut walk = [0u8; WALK];
    let rows_a = grid.shape.rows_a;
    let rows = rows_a + grid.shape.rows_b;
    let mut page = Page {
        bytes: answer,
        at: 0,
    };
    match search(grid, &mut state[..rows], &mut walk) {
        None => {
            write_tables(&state[..rows], rows_a, &mut page);
            succeeded(20, page.at)
        }
        Some(end) => {
            write_walk(&walk[..end], &mut page);
            succeeded(21, page.at)
        }
    }
}

// Solves the board of an accepted job: its arrays are filled once.
fn solve_board(h: JobHead, masks: &[u32], answer: &mut [u8]) -> Outcome
    requires sized { Sized h masks.now }
    requires longest_in_bounds { longest ≤ length answer.old }
    ensures { SolvedOn (head_board h masks.now) answer.old result answer.new }
{
    let combinations: usize = 1 << h.wires;
    let rules = h.rules as usize;
    let end = rules + h.excuses as usize;
    let mut table = Table {
        wires: h.wires,
        words: [0; WORDS],
    };
    fill_faults(&mut table, &masks[..rules]);
    strike(&mut table, &masks[rules..end]);
    let mut faults = [0u8; COMBINATIONS];
    unpack(&table.words, &mut faults[..combinations]);
    let mut row_a = [0u8; COMBINATIONS];
    fill_rows(h.wires, h.sees_a, &mut row_a);
    let mut row_b = [0u8; COMBINATIONS];
    fill_rows(h.wires, h.sees_b, &mut row_b);
    let grid = Grid {
        shape: Shape {
            wires: h.wires,
            sees_a: h.sees_a,
            sees_b: h.sees_b,
            rows_a: row_count(h.sees_a),
            rows_b: row_count(h.sees_b),
            combinations,
        },
        row_a: &row_a,
        row_b: &row_b,
        faults: &faults,
    };
    solve_grid(&grid, answer)
}

// The solver: for either form, every job sheet and every lent buffer.
pub fn solve(form: Form, job: &[u8], answer: &mut [u8]) -> Outcome
    ensures { Solved form job.now answer.old result answer.new }
{
    let mut masks = [0u32; MASKS];
    match sheet::read_job(form, job, &mut masks) {
        Ok(_) if answer.len() < LONGEST => refused(6, 0, 0),
        Ok(head) => solve_board(head, &masks, answer),
        Err(w) => refused_job(1, w),
    }
}
