// The outcomes of a case book (document 02, request 4): for each case the checker's and the widener's, five numbers on a line.
// The fifth number, the rule that broke, isn't handed to the C host, so this program is where it can be seen; the tests of the
// host command and of the second program compare with it. Everything that matters is in `board`, `widener` and `text`; here
// bytes come in and go out.
//
// A book has its numbers low byte first: two bytes, how many cases; then each case: one byte, the form of its job sheets, 1 or
// 2 (any other byte is taken as 1), and job P, job Q and the answer, each as two bytes of length and so many bytes. Where the
// input ends early, a byte of a number is 0 and a sheet is what was read of it.
#![tactic(auto)]

ghost use Rattle.std.specs.Prelude.{◌≡◌, ◌+◌, ◌*◌, ◌<◌, ◌≤◌, IfOk, length};

use answer::LONGEST;
use sheet::Form;
use std::io;
use std::io::{Read, Write};
use steps::Outcome;
use text::LONGEST_NUMBERS;

// A length is two bytes, so this many bytes hold any sheet.
const SHEET: usize = 65536;

// A number of two bytes, low byte first.
fn word(low: u8, high: u8) -> u16
    ensures { result ≡ low + 256 * high }
{
    u16::from_le_bytes([low, high])
}

// Reads a number of two bytes.
fn read_word<R: Read>(book: &mut R) -> io::Result<u16>
    ensures { IfOk result (λ n. n < 65536) }
{
    let mut bytes = [0u8; 2];
    input::read_full(book, &mut bytes)?;
    Ok(word(bytes[0], bytes[1]))
}

// Reads the form of a case's job sheets: two for the byte 2, one for any other.
fn read_form<R: Read>(book: &mut R) -> io::Result<Form> {
    let mut number = [0u8; 1];
    input::read_full(book, &mut number)?;
    Ok(match number {
        [2] => Form::Two,
        _ => Form::One,
    })
}

// Reads a sheet to the front of an array. Answers the bytes that came.
fn read_sheet<'a, R: Read>(book: &mut R, sheet: &'a mut [u8; SHEET]) -> io::Result<&'a [u8]>
    ensures { IfOk result (λ bytes. length bytes.now ≤ 65536) }
{
    let asked = usize::from(read_word(book)?);
    let length = input::read_full(book, &mut sheet[..asked])?;
    Ok(&sheet[..length])
}

// Prints a line: a name, and the numbers of an outcome.
fn print_numbers<W: Write>(lines: &mut W, name: &[u8], o: Outcome) -> io::Result<()> {
    lines.write_all(name)?;
    let mut line = [0u8; LONGEST_NUMBERS];
    let printed = text::numbers(o, &mut line);
    lines.write_all(&line[..printed.written])
}

// Reads a case and prints its two lines. The lent buffer is never too short.
fn answer_case<R: Read, W: Write>(book: &mut R, lines: &mut W) -> io::Result<()> {
    let form = read_form(book)?;
    let mut room_p = [0u8; SHEET];
    let p = read_sheet(book, &mut room_p)?;
    let mut room_q = [0u8; SHEET];
    let q = read_sheet(book, &mut room_q)?;
    let mut room = [0u8; SHEET];
    let answer = read_sheet(book, &mut room)?;
    let checked = board::check::check(form, p, answer);
    print_numbers(lines, b"check ", checked)?;
    let mut out = [0u8; LONGEST];
    let widened = widener::widen(form, p, q, answer, &mut out);
    print_numbers(lines, b"widen ", widened)
}

// As many cases as the book says.
fn main(rt: HostRuntime) -> io::Result<()> {
    let mut book = rt.stdin();
    let mut lines = io::writer(&rt);
    let cases = read_word(&mut book)?;
    for _ in 0..cases {
        answer_case(&mut book, &mut lines)?;
    }
    Ok(())
}
