// A log's file, read through a buffer. What is left of it moves to the buffer's front before more is read, so that a log may be
// of any length.
ghost use Rattle.std.specs.Prelude.{◌≡◌, ◌≤◌, length};
ghost use Rattle.replaybox.specs.Room.{LOG_ROOM};

use std::io;
use std::io::Read;

// Bytes of the buffer.
const LOG_ROOM: usize = 131072;
// Bytes of the longest record: a length of two bytes, and as many as it may say.
const LONGEST: usize = 65537;

// No heap here, as std's BufReader needs; and `read` fills a slice, so that no vector has the bytes.
#[derive(Drop)]
pub struct Source<'f, F> {
    file: &'f mut F,
    buffer: [u8; LOG_ROOM],
    // Whether more of the file may come.
    pub more: bool,
    // How many bytes of the file came before the buffer's first.
    before: u64,
    // How many bytes stand in the buffer, and where among them the next record does.
    filled: usize,
    pub place: usize,
    ghost read: { place ≤ filled },
    ghost held: { filled ≤ LOG_ROOM },
}

impl<'f, F: Read> Source<'f, F> {
    // The file from its start.
    pub fn new(file: &'f mut F) -> Source<'f, F> {
        Source {
            file,
            buffer: [0; LOG_ROOM],
            more: true,
            before: 0,
            filled: 0,
            place: 0,
        }
    }

    // What stands in the buffer.
    pub fn log(&self) -> &[u8]
        ensures { length result.now ≡ self.now.filled }
    {
        let buffer = &self.buffer[..];
        &buffer[..self.filled]
    }

    // Where in the file the next record stands.
    pub fn offset(&self) -> u64 {
        self.before.wrapping_add(self.place as u64)
    }

    // The next record stands there.
    pub fn pass(&mut self, place: usize)
        requires { place ≤ self.old.filled }
    {
        self.place = place;
    }

    // Reads until the buffer is full or the file gives no more. A `while`, since a reading gives as many bytes as it likes: there is
    // nothing to count or to go through.
    fn fill(&mut self) -> io::Result<()> {
        while self.filled < LOG_ROOM {
            let buffer = &mut self.buffer[..];
            let count = self.file.read(&mut buffer[self.filled..])?;
            if count == 0 {
                self.more = false;
                break;
            }
            self.filled += count;
        }
        Ok(())
    }

    // Where less than the longest record stands in the buffer and there may be more, what stands there moves to the front and the
    // buffer is filled: so a record is cut short only where the file ends.
    pub fn refill(&mut self) -> io::Result<()> {
        let count = self.filled - self.place;
        if count >= LONGEST || !self.more {
            return Ok(());
        }
        self.buffer.copy_within(self.place..self.filled, 0);
        self.before = self.before.wrapping_add(self.place as u64);
        self.place = 0;
        self.filled = count;
        self.fill()
    }
}
