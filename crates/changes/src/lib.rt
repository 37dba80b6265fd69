// One change each, and the line of the state that it gives.
#![tactic(auto)]

ghost use Rattle.std.specs.Prelude.{◌*◌, ◌<◌};
ghost use Rattle.numbers.specs.Limits.{PAGES, PAGE_WORDS, VMS, PORTS, SETS};
ghost use Rattle.changes.specs.Words.{N};

pub mod base;
pub mod harmless;
pub mod state;

use crate::state::{Cut, Table, WORDS, is_valid, start_of};
use model::{Machine, SideRegisters};
use numbers::{SET_WORDS, Side};
use std::io::Write;

// ---- Page sets: rows 0 and 1, then two for each VM.

pub const POOL: usize = 0;

pub const SHARED: usize = 1;

pub fn cpu_row(vm: usize) -> usize
    requires { vm < VMS }
    ensures { result < SETS }
{
    2 + 2 * vm
}

pub fn dma_row(vm: usize) -> usize
    requires { vm < VMS }
    ensures { result < SETS }
{
    3 + 2 * vm
}

// The page goes into the row's set, or out of it where it is there.
pub fn toggle(words: &mut [u64; WORDS], row: usize, page: u64)
    requires { (row < SETS) × (page < PAGES) }
{
    let at = row * SET_WORDS + (page / 64) as usize;
    words[at] ^= 1 << (page % 64);
}

// ---- The header.

// What the header has of a side.
fn registers_of(m: &mut Machine, side: Side) -> &mut SideRegisters {
    match side {
        Side::Cpu => &mut m.registers.cpu,
        Side::Dma => &mut m.registers.dma,
    }
}

// ---- Changes.

// A state, the rule that its changes are about, and where their lines go. The clause that a change breaks is another each time, so
// it is handed on and no field.
#[derive(Drop)]
pub struct Cases<'a, W> {
    pub to: &'a mut W,
    pub rule: &'a [u8],
    pub m: &'a Machine,
    pub words: &'a [u64; WORDS],
}

impl<W: Write> Cases<'_, W> {
    // All of the text. A line goes on where a part of it could not be written.
    fn put(&mut self, text: &[u8]) {
        let _ = self.to.write_all(text);
    }

    // The line of a header and words, of which one slice may be lent with a length not its own.
    fn line(&mut self, clause: &[u8], m: &Machine, words: &[u64; WORDS], cut: Option<Cut>) {
        self.put(self.rule);
        self.put(b", ");
        self.put(clause);
        if is_valid(m, words, cut) {
            self.put(b": valid\n");
        } else {
            self.put(b": not valid\n");
        }
    }

    // The state as it is.
    pub fn show(&mut self, clause: &[u8]) {
        self.line(clause, self.m, self.words, None);
    }

    // One slice is lent with another length.
    pub fn cut(&mut self, clause: &[u8], cut: Cut) {
        self.line(clause, self.m, self.words, Some(cut));
    }

    // A change of a table or a set, in a copy of the words.
    fn tables<F: FnOnce(&mut [u64; WORDS])>(&mut self, clause: &[u8], change: F)
        requires { F.IsAlwaysCallable change }
    {
        let mut words = *self.words;
        change(&mut words);
        self.line(clause, self.m, &words, None);
    }

    // The bits are flipped in the word at a place of a table. Of an empty place these are the bits of the word that comes there.
    pub fn flip(&mut self, clause: &[u8], table: Table, place: usize, bits: u64)
        requires { place < PAGE_WORDS * N }
    {
        let at = start_of(table) + place;
        self.tables(clause, |words| words[at] ^= bits);
    }

    // Two words change places.
    pub fn swap(&mut self, clause: &[u8], table: Table, place: usize, other: usize)
        requires { (place < PAGE_WORDS * N) × (other < PAGE_WORDS * N) }
    {
        let start = start_of(table);
        self.tables(clause, |words| words.swap(start + place, start + other));
    }

    // A page goes into a row's set, or out of it.
    pub fn set(&mut self, clause: &[u8], row: usize, page: u64)
        requires { (row < SETS) × (page < PAGES) }
    {
        self.tables(clause, |words| toggle(words, row, page));
    }

    // A change of the header, in a copy of it.
    pub fn header<F: FnOnce(&mut Machine)>(&mut self, clause: &[u8], change: F)
        requires { F.IsAlwaysCallable change }
    {
        let mut m = *self.m;
        change(&mut m);
        self.line(clause, &m, self.words, None);
    }

    // A VM is known where it was not, or the other way round.
    pub fn known(&mut self, clause: &[u8], vm: u64)
        requires { vm < 64 }
    {
        self.header(clause, |m| m.registers.known ^= 1 << vm);
    }

    // A port has another VM, or is idle.
    pub fn port(&mut self, clause: &[u8], side: Side, port: usize, vm: u64)
        requires { port < PORTS }
    {
        self.header(clause, |m| registers_of(m, side).ports[port] = vm);
    }

    pub fn hand(&mut self, clause: &[u8], side: Side, hand: u64) {
        self.header(clause, |m| registers_of(m, side).hand = hand);
    }
}
