// The small program for form two: reads one job sheet of form two from standard input and prints what `text` says of it
// (document 02, request 2). Everything that matters is in `printer` and `text`; here standard input and output are handed on.
#![tactic(auto)]

use printer::print_answer;
use sheet::Form;
use std::io;

// One byte beyond the longest job sheet of form two: 9,060 bytes decide the outcome of any longer input.
const JOB: usize = 9060;

fn main(rt: HostRuntime) -> io::Result<()> {
    print_answer::<JOB, _, _>(Form::Two, &mut rt.stdin(), &mut io::writer(&rt))
}
