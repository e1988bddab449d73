// What the small programs do: a job sheet is read, and what `text` says of it is printed (document 01, "Bench use"; document
// 02, request 2). Leans on `input` and `text`.
#![tactic(auto)]

ghost use Rattle.std.specs.Prelude.{List, ℕ, ◌<◌, ◌≤◌, ◌^◌, OnErr, OnOk, length};
ghost use Rattle.std.specs.Io.KnownBytes.{Consumes};
ghost use Rattle.printer.specs.Answered.{Answered};

use sheet::Form;
use std::io;
use std::io::{Read, Write};
use text::LONGEST_TEXT;

// Reads a job sheet of the form to its end, or its first `ROOM` bytes where it is longer, and prints what `text` says of these
// bytes. The only errors are those of a read or a write that failed. What is asked of `ROOM` holds of the length of every array.
pub fn print_answer<const ROOM: usize, R: Read, W: Write>(
    form: Form,
    from: &mut R,
    to: &mut W,
) -> io::Result<()>
    requires room { ROOM < 2 ^ 63 }
    ensures answered { OnOk result
        (Answered form ROOM (R.remaining from.old) (R.remaining from.new) (W.contents to.old) (W.contents to.new)) }
    ensures failed { OnErr result
        ((bytes : List ℕ) × (length bytes ≤ ROOM) × Consumes (R.remaining from.old) (R.remaining from.new) bytes) }
{
    let mut job = [0u8; ROOM];
    let length = input::read_full(from, &mut job)?;
    let mut out = [0u8; LONGEST_TEXT];
    let printed = text::text(form, &job[..length], &mut out);
    to.write_all(&out[..printed.written])
}
