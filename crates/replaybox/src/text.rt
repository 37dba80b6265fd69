// The lines of records that were taken.
ghost use Rattle.std.specs.Prelude.{◌+◌, ◌≤◌, length};
ghost use Rattle.arrayvec.specs.ArrayVec.{array_vec_len};
ghost use Rattle.batch.specs.Room.{BATCH};
ghost use Rattle.replaybox.specs.Room.{ROW_BYTES};

use arrayvec::ArrayVec;
use batch::End;
use batch::print::{BATCH, NUMBER_BYTES, print_text, put, put_answer};
use numbers::{ANSWER_NUMBERS, ROW_NUMBERS};
use operation_log::Reader;
use std::io::Write;

// The most arguments of a kind.
const ARGUMENTS: usize = 5;
// The most bytes of a line: the kind, its arguments, a blank and the answer.
const LINE_BYTES: usize = (1 + ARGUMENTS + ANSWER_NUMBERS) * NUMBER_BYTES + 1;

const TEXT: usize = BATCH * LINE_BYTES;

// The row's kind and as many arguments as it has, a colon and a blank.
fn put_row<const N: usize>(text: &mut ArrayVec<u8, N>, row: [u64; ROW_NUMBERS])
    requires { array_vec_len text.old + ROW_BYTES ≤ N }
    ensures { array_vec_len text.new ≤ array_vec_len text.old + ROW_BYTES }
{
    let count = operation_log::argument_count(row[0]);
    for number in &row[..count] {
        put(text, *number, b' ');
    }
    put(text, row[count], b':');
    text.push(b' ');
}

// Records from a place of the log on, each with its answer.
pub fn print_records<W: Write>(
    to: &mut W,
    log: &[u8],
    place: usize,
    answers: &[[u64; ANSWER_NUMBERS]],
) -> Result<(), End>
    requires { length answers.now ≤ BATCH }
{
    let mut text: ArrayVec<u8, TEXT> = ArrayVec::new();
    let mut records = Reader::new(log, place);
    for answer in answers {
        if let Ok(Some(taken)) = records.next() {
            put_row(&mut text, taken.row);
        }
        put_answer(&mut text, answer);
    }
    print_text(to, text.as_slice())
}
