// Reads a box script from its reader, in pieces, and has it answered line by line (docs/MACHINE.md, 11).
#![tactic(auto)]

use batch::{Batch, End, MEMORY_WORDS};
use script::{Line, Reader};
use std::io::{Read, Write};

// What ends a line.
pub const LF: u8 = b'\n';
// The most bytes of a piece of the script.
pub const PIECE: usize = 65536;
// A bad line is given up when so many bytes have followed its first bad one without a line end.
const BAD_BYTES: usize = 65536;

// ---- The reading, whatever is done with the lines.

// What is done with the lines of a script, one after the other.
pub trait Script {
    fn line(&mut self, said: Line) -> Result<(), End>;

    // After a piece of the script: whoever told it may wait.
    fn pause(&mut self) -> Result<(), End>;
}

// Where the reading has come to: the line under way, and how many of its bytes came since it was bad, the first bad one among them.
#[derive(Clone, Copy)]
pub struct Place {
    pub reader: Reader,
    pub bad: usize,
}

impl Place {
    // At the start of a line.
    fn new() -> Place {
        Place {
            reader: script::line_start(),
            bad: 0,
        }
    }

    // The line with one byte more, other than the LF that ends it.
    fn feed(&mut self, byte: u8) {
        self.reader = script::feed(self.reader, byte);
        self.bad = if script::is_bad(self.reader) {
            self.bad.saturating_add(1)
        } else {
            0
        };
    }

    // What the line says where it ends with the byte, or is given up at it.
    fn take(&mut self, byte: u8) -> Option<Line> {
        if byte != LF {
            self.feed(byte);
            if self.bad <= BAD_BYTES {
                return None;
            }
        }
        let said = script::line_end(self.reader);
        *self = Place::new();
        Some(said)
    }
}

// One piece of the script, byte by byte.
fn piece<S: Script>(script: &mut S, place: &mut Place, bytes: &[u8]) -> Result<(), End> {
    for &byte in bytes {
        if let Some(said) = place.take(byte) {
            script.line(said)?;
        }
    }
    script.pause()
}

// Piece by piece, until the input ends, and then the last line, with or without a line end. A loop has to end and nothing says
// that the input does, so this one has a number of turns that no run uses up.
pub fn read_script<R: Read, S: Script>(from: &mut R, script: &mut S) -> Result<(), End> {
    let mut place = Place::new();
    let mut bytes = [0; PIECE];
    for _ in 0..u64::MAX {
        let count = from.read(&mut bytes).map_err(|_| End::CannotRead)?;
        if count == 0 {
            break;
        }
        piece(script, &mut place, &bytes[..count])?;
    }
    script.line(script::line_end(place.reader))
}

// ---- A box that a script tells.
#[derive(Drop)]
struct Runner<'t, 'b, 'm, W> {
    to: &'t mut W,
    batch: &'b mut Batch,
    memory: &'m mut [u64; MEMORY_WORDS],
}

impl<'t, 'b, 'm, W: Write> Script for Runner<'t, 'b, 'm, W> {
    // One line of the script, after what must be answered before it, or where no further row has room.
    fn line(&mut self, said: Line) -> Result<(), End> {
        // No script has as many lines as would make the count wrap.
        self.batch.work.line = self.batch.work.line.wrapping_add(1);
        let placed = lines::in_place(self.batch.work.phase, !self.batch.rows.is_empty(), said);
        if lines::asks(placed) || self.batch.rows.is_full() {
            self.batch.settle(self.to, self.memory)?;
        }
        if let Line::Free = placed {
            self.batch.query(self.to, self.memory)?;
        }
        lines::take(self.to, self.batch, placed)
    }

    // Rows that wait are carried out and written: whoever told them may wait for their answers. A box without rows goes on
    // waiting, since units may follow.
    fn pause(&mut self) -> Result<(), End> {
        if self.batch.rows.is_empty() {
            return Ok(());
        }
        self.batch.settle(self.to, self.memory)
    }
}

// The whole script, and all that still waits at its end.
pub fn run<R: Read, W: Write>(
    from: &mut R,
    to: &mut W,
    batch: &mut Batch,
    memory: &mut [u64; MEMORY_WORDS],
) -> Result<(), End> {
    read_script(from, &mut Runner { to, batch, memory })?;
    batch.settle(to, memory)
}
