// What is written. The answers of a batch are written at once.
ghost use Rattle.std.specs.Prelude.{◌+◌, ◌≤◌, ◌↔◌, length, IsOk};
ghost use Rattle.arrayvec.specs.ArrayVec.{array_vec_len};
ghost use Rattle.batch.specs.Room.{BATCH, ANSWER_BYTES, NUMBER_BYTES};

use crate::End;
use arrayvec::{ArrayString, ArrayVec};
use itoa::Buffer;
use machine::entries::FreePages;
use numbers::{ANSWER_NUMBERS, PhysPage, Refused};
use std::fmt::{Display, Write as _};
use std::io;
use std::io::Write;

// Rows that are carried out together.
pub const BATCH: usize = 1024;
// The most bytes of a number and the byte after it.
pub const NUMBER_BYTES: usize = 21;

const TEXT: usize = BATCH * ANSWER_NUMBERS * NUMBER_BYTES;

// ---- The answers of a batch.

// The number and the byte that ends it, behind the text. By itoa and not by `write!`, of which nothing says that it succeeds
// where there is room.
pub fn put<const N: usize>(text: &mut ArrayVec<u8, N>, number: u64, end: u8)
    requires { array_vec_len text.old + NUMBER_BYTES ≤ N }
    ensures { array_vec_len text.new ≤ array_vec_len text.old + NUMBER_BYTES }
{
    let mut buffer = Buffer::new();
    let digits = buffer.format(number).as_bytes();
    text.try_extend_from_slice(digits).unwrap();
    text.push(end);
}

// An answer, a line of four numbers.
pub fn put_answer<const N: usize>(text: &mut ArrayVec<u8, N>, answer: &[u64; ANSWER_NUMBERS])
    requires { array_vec_len text.old + ANSWER_BYTES ≤ N }
    ensures { array_vec_len text.new ≤ array_vec_len text.old + ANSWER_BYTES }
{
    let [number, index, dropped, word] = *answer;
    put(text, number, b' ');
    put(text, index, b' ');
    put(text, dropped, b' ');
    put(text, word, b'\n');
}

pub fn print_answers<W: Write>(to: &mut W, answers: &[[u64; ANSWER_NUMBERS]]) -> Result<(), End>
    requires { length answers.now ≤ BATCH }
{
    let mut text: ArrayVec<u8, TEXT> = ArrayVec::new();
    for answer in answers {
        put_answer(&mut text, answer);
    }
    print_text(to, text.as_slice())
}

// ---- Single lines, each written at once, so that whoever reads one has the whole of it.

// The most bytes of such a line.
const LINE: usize = 64;

// A line is put together here before it is written; each that there is has room.
pub type LineText = ArrayString<LINE>;

// How it ended where not all of it was written.
pub fn printed(wrote: io::Result<()>) -> Result<(), End>
    ensures { IsOk result ↔ IsOk wrote }
{
    wrote.map_err(|_| End::CannotWrite)
}

pub fn print_text<W: Write>(to: &mut W, text: &[u8]) -> Result<(), End> {
    printed(to.write_all(text))
}

pub fn print_line<W: Write>(to: &mut W, line: &LineText) -> Result<(), End> {
    print_text(to, line.as_str().as_bytes())
}

// What ended a program, of which its wrapper makes an exit status.
pub fn print_end<W: Write, D: Display + Drop>(errors: &mut W, program: &str, end: D) {
    let mut line = LineText::new();
    let _ = writeln!(line, "{program}: {end}");
    let _ = print_line(errors, &line);
}

pub fn print_start<W: Write>(to: &mut W, refused: Option<Refused>) -> Result<(), End> {
    let number = refused.map_or(0, |refused| u64::from(refused.refusal));
    let mut line = LineText::new();
    let _ = writeln!(line, "start {number}");
    print_line(to, &line)
}

pub fn print_free<W: Write>(to: &mut W, free: Result<FreePages, Refused>) -> Result<(), End> {
    let mut line = LineText::new();
    let _ = match free {
        Ok(
            FreePages {
                count,
                lowest: Some(PhysPage(page)),
            },
        ) => writeln!(line, "free {count} {page}"),
        Ok(
            FreePages {
                count,
                lowest: None,
            },
        ) => writeln!(line, "free {count} none"),
        Err(_) => writeln!(line, "free refused 1"),
    };
    print_line(to, &line)
}

pub fn print_not_understood<W: Write>(to: &mut W, line: u64) -> Result<(), End> {
    let mut text = LineText::new();
    let _ = writeln!(text, "line {line}: not understood");
    print_line(to, &text)
}
