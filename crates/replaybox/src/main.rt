// Runs a box script as runbox does, then replays a log on the box that stands at its end, with a line for each record
// (docs/MACHINE.md, 14). What ended it is one line more, on standard error.
#![tactic(auto)]

mod source;
mod text;

ghost use Rattle.std.specs.Prelude.{◌≡◌, ◌≤◌, length};
ghost use Rattle.batch.specs.Room.{BATCH, MEMORY_WORDS};

use batch::carry::words_of;
use batch::print::{BATCH, LineText, print_end, print_line};
use batch::{Batch, End, MEMORY_WORDS};
use numbers::ANSWER_NUMBERS;
use operation_log::LogRefusal;
use replay::{Replayed, Stop};
use script::Part;
use source::Source;
use std::env::FillError;
use std::fmt::Write as _;
use std::io::{Read, Write};
use std::rt::{Env, Files};
use std::{fmt, fs, str};
use text::print_records;

// ---- What ended the program before it was through.
#[derive(Clone, Copy)]
enum Failure {
    OtherCount,
    NoNumber,
    // As a script is ended, or a log that is not understood.
    Ended(End),
    CannotOpen,
    CannotReadLog,
}

impl From<End> for Failure {
    fn from(end: End) -> Failure {
        Failure::Ended(end)
    }
}

impl fmt::Display for Failure {
    fn fmt<W: fmt::Write>(&self, f: &mut fmt::Formatter<W>) -> fmt::Result {
        match self {
            Failure::OtherCount => f.write_str("cannot take other arguments than LOG [MOST]"),
            Failure::NoNumber => f.write_str("cannot read MOST: it is no number of 64 bits"),
            Failure::Ended(end) => end.fmt(f),
            Failure::CannotOpen => f.write_str("cannot open the log"),
            Failure::CannotReadLog => f.write_str("cannot read the log"),
        }
    }
}

// ---- The arguments.

// Bytes of the longest word that is read.
const WORD: usize = 4096;

// A number is written as in a script.
fn number(text: &[u8]) -> Option<u64> {
    let part = text.iter().fold(Part::Nothing, |part, &byte| script::lengthened(part, byte));
    match part {
        Part::Digits(number) => Some(number),
        _ => None,
    }
}

// Whether the program was called with a word at the place, of which 0 has its own name.
fn is_given<R: Env>(rt: &R, i: usize) -> bool {
    let mut text = [0; WORD];
    !matches!(rt.arg(i, &mut text), Err(FillError::NotPresent))
}

// Puts the word at the start of the text and answers its length, 0 where it is missing or longer than the text.
fn word<R: Env>(rt: &R, i: usize, text: &mut [u8]) -> usize
    ensures { result ≤ length text.new }
{
    rt.arg(i, text).unwrap_or(0)
}

// How many records were asked for.
fn asked<R: Env>(rt: &R) -> Result<u64, Failure> {
    if !is_given(rt, 1) || is_given(rt, 3) {
        return Err(Failure::OtherCount);
    }
    if !is_given(rt, 2) {
        return Ok(u64::MAX);
    }
    let mut text = [0; WORD];
    let length = word(rt, 2, &mut text);
    number(&text[..length]).ok_or(Failure::NoNumber)
}

// The log's file, where it can be opened. The library opens files by names of UTF-8 alone.
fn open_log<R: Env + Files>(rt: &R) -> Option<R::File> {
    let mut path = [0; WORD];
    let length = word(rt, 1, &mut path);
    let name = str::from_utf8(&path[..length]).ok()?;
    fs::open(rt, name).ok()
}

// ---- The replay.

// How far it has come: records that are taken, and that may still be, and what stopped it.
#[derive(Drop)]
struct Course<'f, F> {
    source: Source<'f, F>,
    taken: u64,
    left: u64,
    stop: Result<(), Stop>,
}

// Records of the log from a place on, carried out.
fn carried(
    batch: &mut Batch,
    memory: &mut [u64],
    log: &[u8],
    place: usize,
    most: usize,
    room: &mut [[u64; ANSWER_NUMBERS]; BATCH],
) -> Replayed
    requires { (length memory.old ≡ MEMORY_WORDS) × (place ≤ length log.now) }
    ensures { (result.taken ≤ most) × (result.place ≤ length log.now) }
{
    let words = words_of(batch.work.machine.fixed.pages);
    let mut lent = batch.tables.lend(&mut memory[..words]);
    replay::replay(
        &mut batch.work.machine,
        &mut lent,
        log,
        place,
        most,
        room.as_flattened_mut(),
    )
}

impl<'f, F: Read> Course<'f, F> {
    // More of the file where it is wanted, and the records that follow, as far as they stand in the buffer, carried out together
    // and printed. Answers whether it goes on: a record that is cut short, and a log that ended, may do so where more of the file
    // is to come.
    fn turn<W: Write>(
        &mut self,
        to: &mut W,
        batch: &mut Batch,
        memory: &mut [u64; MEMORY_WORDS],
    ) -> Result<bool, Failure> {
        self.source.refill().map_err(|_| Failure::CannotReadLog)?;
        let mut room = [[0; ANSWER_NUMBERS]; BATCH];
        let most = self.left.min(BATCH as u64) as usize;
        let place = self.source.place;
        let log = self.source.log();
        let Replayed {
            stop,
            taken,
            place: next,
        } = carried(batch, memory, log, place, most, &mut room);
        print_records(to, log, place, &room[..taken])?;
        self.source.pass(next);
        self.taken = self.taken.wrapping_add(taken as u64);
        self.left -= taken as u64;
        self.stop = stop;
        Ok(match stop {
            Ok(()) => self.left > 0 && (taken == most || self.source.more),
            Err(Stop::Unreadable(LogRefusal::CutShort)) => self.source.more,
            Err(_) => false,
        })
    }

    // Turn by turn, until it has ended. As with a script, the loop has a number of turns that no run uses up.
    fn run<W: Write>(
        &mut self,
        to: &mut W,
        batch: &mut Batch,
        memory: &mut [u64; MEMORY_WORDS],
    ) -> Result<(), Failure> {
        for _ in 0..u64::MAX {
            if !self.turn(to, batch, memory)? {
                break;
            }
        }
        Ok(())
    }

    // The lines behind those of the records.
    fn print_stop<W: Write>(&self, to: &mut W) -> Result<(), End> {
        let mut line = LineText::new();
        match self.stop {
            Ok(()) => {}
            Err(Stop::NotValid) => {
                let _ = writeln!(line, "refused 1");
            }
            Err(Stop::Unreadable(why)) => {
                let _ = writeln!(line, "byte {}: {why}", self.source.offset());
            }
        }
        print_line(to, &line)?;
        let mut last = LineText::new();
        let _ = writeln!(last, "taken {}", self.taken);
        print_line(to, &last)
    }
}

// The script, and then the log.
fn box_and_log<S: Env + Files, R: Read, W: Write>(
    rt: &S,
    from: &mut R,
    to: &mut W,
) -> Result<(), Failure> {
    let left = asked(rt)?;
    let mut batch = Batch::new();
    let mut memory = [0; MEMORY_WORDS];
    reading::run(from, to, &mut batch, &mut memory)?;
    let mut file = open_log(rt).ok_or(Failure::CannotOpen)?;
    let mut course = Course {
        source: Source::new(&mut file),
        taken: 0,
        left,
        stop: Ok(()),
    };
    course.run(to, &mut batch, &mut memory)?;
    course.print_stop(to)?;
    match course.stop {
        Err(Stop::Unreadable(_)) => Err(Failure::Ended(End::NotUnderstood)),
        _ => Ok(()),
    }
}

fn main(rt: HostRuntime) {
    let ran = box_and_log(&rt, &mut rt.stdin(), &mut rt.stdout());
    let mut errors = rt.stderr();
    match ran {
        Ok(()) => print_end(&mut errors, "replaybox", "ended"),
        Err(failure) => print_end(&mut errors, "replaybox", failure),
    }
}
