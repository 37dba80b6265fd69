// A box that a script tells: what waits of it, and how far it has come. What waits is carried out together and printed.
#![tactic(auto)]

ghost use Rattle.std.specs.Prelude.{◌≡◌};
ghost use Rattle.model.specs.Header.{lists, seen_lists};
ghost use Rattle.batch.specs.Lending.{lists_with};
ghost use Rattle.batch.specs.Room.{units_kept};

pub mod carry;
pub mod print;

use crate::print::BATCH;
use arrayvec::ArrayVec;
use model::{Lent, Machine};
use numbers::{ENTRIES, PAGE_WORDS, PAGES, PAIRS, ROW_NUMBERS, SET_WORDS, SETS, SLOTS, UNITS};
use start::UNIT_NUMBERS;
use std::fmt;

// ---- The rooms that a program lends, by how many words they have.

pub const SETS_WORDS: usize = SETS * SET_WORDS;

pub const CACHE_WORDS: usize = SLOTS as usize;

pub const MEMORY_WORDS: usize = (PAGES * PAGE_WORDS) as usize;
// One unit more than a machine may have, by which start sees that there are too many; those after it make no difference.
pub const UNITS_KEPT: usize = UNITS + 1;

// The tables of a machine.
#[derive(Drop)]
pub struct Tables {
    pub sets: [u64; SETS_WORDS],
    pub pairs: [u64; PAIRS],
    pub cpu_map: [u64; ENTRIES],
    pub cpu_walker: [u64; ENTRIES],
    pub cpu_cache: [u64; CACHE_WORDS],
    pub dma_map: [u64; ENTRIES],
    pub dma_walker: [u64; ENTRIES],
    pub dma_cache: [u64; CACHE_WORDS],
}

impl Tables {
    pub fn new() -> Tables {
        Tables {
            sets: [0; SETS_WORDS],
            pairs: [0; PAIRS],
            cpu_map: [0; ENTRIES],
            cpu_walker: [0; ENTRIES],
            cpu_cache: [0; CACHE_WORDS],
            dma_map: [0; ENTRIES],
            dma_walker: [0; ENTRIES],
            dma_cache: [0; CACHE_WORDS],
        }
    }

    // They and the memory, as an entry takes them.
    pub fn lend<'a>(&'a mut self, memory: &'a mut [u64]) -> Lent<&'a mut [u64]>
        ensures { lists result ≡ lists_with self.old memory.old }
    {
        let Tables {
            sets,
            pairs,
            cpu_map,
            cpu_walker,
            cpu_cache,
            dma_map,
            dma_walker,
            dma_cache,
        } = self;
        Lent {
            sets,
            pairs,
            cpu_map,
            cpu_walker,
            cpu_cache,
            dma_map,
            dma_walker,
            dma_cache,
            memory,
        }
    }

    // The same to be read.
    pub fn seen<'a>(&'a self, memory: &'a [u64]) -> Lent<&'a [u64]>
        ensures { seen_lists result ≡ lists_with self.now memory.now }
    {
        Lent {
            sets: &self.sets,
            pairs: &self.pairs,
            cpu_map: &self.cpu_map,
            cpu_walker: &self.cpu_walker,
            cpu_cache: &self.cpu_cache,
            dma_map: &self.dma_map,
            dma_walker: &self.dma_walker,
            dma_cache: &self.dma_cache,
            memory,
        }
    }
}

// ---- How far the box has come.
#[derive(Clone, Copy)]
pub enum Phase {
    // There was no box line yet.
    NoBox,
    // It is told, and not started yet.
    Told,
    // Start has answered, whatever it said: a machine that it refused refuses every row.
    Begun,
}

// What ended the reading before the script did.
#[derive(Clone, Copy)]
pub enum End {
    NotUnderstood,
    CannotRead,
    CannotWrite,
}

impl fmt::Display for End {
    fn fmt<W: fmt::Write>(&self, f: &mut fmt::Formatter<W>) -> fmt::Result {
        f.write_str(match self {
            End::NotUnderstood => "not understood",
            End::CannotRead => "cannot read",
            End::CannotWrite => "cannot write",
        })
    }
}

#[derive(Clone, Copy)]
pub struct Work {
    pub phase: Phase,
    // The number of the line.
    pub line: u64,
    pub machine: Machine,
    // What its box line says.
    pub pages: u64,
    pub base: u64,
    pub count: u64,
}

impl Work {
    // The work before any line, with no box.
    pub fn new() -> Work {
        Work {
            phase: Phase::NoBox,
            line: 0,
            machine: start::empty_machine(),
            pages: 0,
            base: 0,
            count: 0,
        }
    }
}

// ---- A box with its tables and with what waits of it.
#[derive(Drop)]
pub struct Batch {
    pub work: Work,
    pub tables: Tables,
    // The units that it was told.
    pub units: ArrayVec<[u64; UNIT_NUMBERS], UNITS_KEPT>,
    // Rows that wait to be carried out.
    pub rows: ArrayVec<[u64; ROW_NUMBERS], BATCH>,
}

impl Batch {
    // Before any line: no unit and no row.
    pub fn new() -> Batch {
        Batch {
            work: Work::new(),
            tables: Tables::new(),
            units: ArrayVec::new(),
            rows: ArrayVec::new(),
        }
    }

    // One unit more; of units that are too many only the first is kept.
    pub fn keep_unit(&mut self, unit: [u64; UNIT_NUMBERS])
        ensures unit { self.new.units.items ≡ units_kept self.old.units.items unit }
        ensures rows { self.new.rows ≡ self.old.rows }
    {
        let _ = self.units.try_push(unit);
    }
}
