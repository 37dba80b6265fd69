// Writes the log of a box script: reads the script from standard input, in pieces, and writes a record for each row to standard
// output (docs/MACHINE.md, 14). Where a line ends it before the script does, standard error says which and why. What ended it is
// one line more there.
#![tactic(auto)]

ghost use Rattle.std.specs.Prelude.{◌≡◌, ◌≤◌};
ghost use Rattle.logbox.specs.Room.{LOG_ROOM};

use batch::print::{LineText, print_end, print_line, print_text};
use batch::{End, Phase};
use numbers::ROW_NUMBERS;
use reading::{Script, read_script};
use script::Line;
use std::fmt::{Display, Write as _};
use std::io::{Read, Write};

// The room in which records wait to be written.
const LOG_ROOM: usize = 65536;
// So many bytes do not wait: what is left of the room is enough for any record.
const MANY: usize = LOG_ROOM / 2;

// How far the script has come, by whose phase a line has its place or not, and how many bytes of its log wait in the room.
// No vector has them: `operation_log::write` puts a record at a place of a slice.
#[derive(Drop)]
struct Logger<'t, 'e, W, E> {
    to: &'t mut W,
    errors: &'e mut E,
    phase: Phase,
    line: u64,
    room: [u8; LOG_ROOM],
    waiting: usize,
    ghost fits: { waiting ≤ LOG_ROOM },
}

impl<'t, 'e, W: Write, E: Write> Logger<'t, 'e, W, E> {
    // What waits is written.
    fn flush(&mut self) -> Result<(), End> {
        let count = self.waiting;
        self.waiting = 0;
        let room = &self.room[..];
        print_text(self.to, &room[..count])
    }

    // A line that ends it: which one, and why. What waits stays, and is written at the end.
    fn refuse<D: Display + Drop>(&mut self, why: D) -> Result<(), End>
        ensures { (self.new.waiting ≡ self.old.waiting) × (self.new.room ≡ self.old.room) }
    {
        let line = self.line;
        let mut text = LineText::new();
        let _ = writeln!(text, "line {line}: {why}");
        let _ = print_line(self.errors, &text);
        Err(End::NotUnderstood)
    }

    // The row's record, behind those that wait.
    fn row(&mut self, row: [u64; ROW_NUMBERS]) -> Result<(), End> {
        match operation_log::write(row, &mut self.room, self.waiting) {
            Ok(next) => self.waiting = next,
            Err(why) => return self.refuse(why),
        }
        self.phase = Phase::Begun;
        if self.waiting < MANY {
            return Ok(());
        }
        self.flush()
    }
}

impl<'t, 'e, W: Write, E: Write> Script for Logger<'t, 'e, W, E> {
    fn line(&mut self, said: Line) -> Result<(), End> {
        self.line = self.line.wrapping_add(1);
        match lines::in_place(self.phase, false, said) {
            Line::Box { .. } => {
                if !matches!(self.phase, Phase::NoBox) {
                    return self.refuse("a second box");
                }
                self.phase = Phase::Told;
            }
            Line::Row {
                operation,
                a,
                b,
                c,
                d,
                e,
                f,
                g,
            } => return self.row([operation, a, b, c, d, e, f, g]),
            Line::Free => self.phase = Phase::Begun,
            Line::Unreadable => return self.refuse("not understood"),
            Line::Blank | Line::Unit { .. } => {}
        }
        Ok(())
    }

    fn pause(&mut self) -> Result<(), End> {
        self.flush()
    }
}

// The whole script, and all that still waits when it ends, or a line ends it.
fn run<R: Read, W: Write, E: Write>(from: &mut R, to: &mut W, errors: &mut E) -> Result<(), End> {
    let mut logger = Logger {
        to,
        errors,
        phase: Phase::NoBox,
        line: 0,
        room: [0; LOG_ROOM],
        waiting: 0,
    };
    let read = read_script(from, &mut logger);
    logger.flush()?;
    read
}

fn main(rt: HostRuntime) {
    let mut errors = rt.stderr();
    let ran = run(&mut rt.stdin(), &mut rt.stdout(), &mut errors);
    match ran {
        Ok(()) => print_end(&mut errors, "logbox", "ended"),
        Err(End::NotUnderstood) => print_end(&mut errors, "logbox", "refused"),
        Err(end) => print_end(&mut errors, "logbox", end),
    }
}
