// What the machine does for the box: start it, and carry out the rows that wait.
ghost use Rattle.std.specs.Prelude.{◌≡◌, ◌≤◌, length};
ghost use Rattle.batch.specs.Room.{MEMORY_WORDS};
ghost use Rattle.arrayvec.specs.ArrayVec.{array_vec_len};

use crate::print::BATCH;
use crate::{Batch, End, MEMORY_WORDS, Phase, print};
use machine::entries;
use numbers::{ANSWER_NUMBERS, PAGE_WORDS, PAGES, Refusal};
use std::io::Write;

// The words of a machine of so many pages; all there are where they are too many, which start refuses.
pub fn words_of(pages: u64) -> usize
    ensures { result ≤ MEMORY_WORDS }
{
    (pages.min(PAGES) * PAGE_WORDS) as usize
}

impl Batch {
    // Starts the machine as it was told, unless it was started already.
    fn begin<W: Write>(&mut self, to: &mut W, memory: &mut [u64]) -> Result<(), End>
        requires { length memory.old ≡ MEMORY_WORDS }
    {
        let work = &mut self.work;
        let Phase::Told = work.phase else {
            return Ok(());
        };
        work.phase = Phase::Begun;
        let words = words_of(work.pages);
        let mut lent = self.tables.lend(&mut memory[..words]);
        let units = self.units.as_slice().as_flattened();
        let m = &mut work.machine;
        let answer = start::start(m, &mut lent, work.pages, work.base, work.count, units);
        print::print_start(to, answer.err())
    }

    // The rows that wait, in one sequence. Refused as a whole, as after a refused start, every row is refused with 1.
    fn carry_out(&mut self, memory: &mut [u64], room: &mut [[u64; ANSWER_NUMBERS]; BATCH])
        requires { length memory.old ≡ MEMORY_WORDS }
    {
        let m = &mut self.work.machine;
        let words = words_of(m.fixed.pages);
        let mut lent = self.tables.lend(&mut memory[..words]);
        let rows = self.rows.as_slice().as_flattened();
        let answer = entries::sequence(m, &mut lent, rows, room.as_flattened_mut());
        if answer.is_err() {
            let refused = numbers::refuse(Refusal::StateNotValid, 0);
            room.fill(numbers::answer_numbers(refused));
        }
    }

    // The free query.
    pub fn query<W: Write>(&self, to: &mut W, memory: &[u64; MEMORY_WORDS]) -> Result<(), End> {
        let words = words_of(self.work.machine.fixed.pages);
        let seen = self.tables.seen(&memory[..words]);
        print::print_free(to, entries::free(&self.work.machine, seen))
    }

    // Answers all that waits. However it ends, no row waits after it.
    pub fn settle<W: Write>(
        &mut self,
        to: &mut W,
        memory: &mut [u64; MEMORY_WORDS],
    ) -> Result<(), End>
        ensures { array_vec_len self.new.rows ≡ 0 }
    {
        if let Err(end) = self.begin(to, memory) {
            self.rows.clear();
            return Err(end);
        }
        let mut room = [[0; ANSWER_NUMBERS]; BATCH];
        self.carry_out(memory, &mut room);
        let count = self.rows.len();
        self.rows.clear();
        print::print_answers(to, &room[..count])
    }
}
