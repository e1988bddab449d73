// The small program: reads one job sheet from standard input and prints what `text` says of it (document 01, "Bench use").
// Everything that matters is in `printer` and `text`; here standard input and output are handed on.
#![tactic(auto)]

use printer::print_answer;
use sheet::Form;
use std::io;

// One byte beyond the longest job sheet: 7,458 bytes decide the outcome of any longer input.
const JOB: usize = 7458;

fn main(rt: HostRuntime) -> io::Result<()> {
    print_answer::<JOB, _, _>(Form::One, &mut rt.stdin(), &mut io::writer(&rt))
}
