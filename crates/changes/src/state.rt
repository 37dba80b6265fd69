// The words of a state in one array: the nine slices in the order of the machine, each with a spare word after it, so that a
// slice can be lent a word too long. A change is of one word, of one number of the header, or of one length.
ghost use Rattle.std.specs.Prelude.{◌+◌, ◌*◌, ◌≤◌, ◌<◌};
ghost use Rattle.numbers.specs.Limits.{PAGE_WORDS};
ghost use Rattle.changes.specs.Words.{N, WORDS};

use model::{Lent, Machine};
use numbers::{ENTRIES, PAGE_WORDS, PAIRS, SET_WORDS, SETS, SLOTS};

// Physical pages of the states: the last word of a page set that is used is used in part.
pub const N: u64 = 70;

// ---- Where each slice begins.

pub const SETS_WORDS: usize = SETS * SET_WORDS;

pub const CACHE_WORDS: usize = SLOTS as usize;

pub const MEMORY_WORDS: usize = (PAGE_WORDS * N) as usize;

pub const SETS_AT: usize = 0;

pub const PAIRS_AT: usize = SETS_AT + SETS_WORDS + 1;

pub const CPU_MAP_AT: usize = PAIRS_AT + PAIRS + 1;

pub const CPU_WALKER_AT: usize = CPU_MAP_AT + ENTRIES + 1;

pub const CPU_CACHE_AT: usize = CPU_WALKER_AT + ENTRIES + 1;

pub const DMA_MAP_AT: usize = CPU_CACHE_AT + CACHE_WORDS + 1;

pub const DMA_WALKER_AT: usize = DMA_MAP_AT + ENTRIES + 1;

pub const DMA_CACHE_AT: usize = DMA_WALKER_AT + ENTRIES + 1;

pub const MEMORY_AT: usize = DMA_CACHE_AT + CACHE_WORDS + 1;

pub const WORDS: usize = MEMORY_AT + MEMORY_WORDS + 1;

// The slices of which a single word is changed. Page sets are changed by pages. An enum, as it names a place and no step.
#[derive(Clone, Copy)]
pub enum Table {
    Pairs,
    CpuMap,
    CpuWalker,
    CpuCache,
    DmaMap,
    DmaWalker,
    DmaCache,
    Memory,
}

pub fn start_of(table: Table) -> usize
    ensures { result + PAGE_WORDS * N < WORDS }
{
    match table {
        Table::Pairs => PAIRS_AT,
        Table::CpuMap => CPU_MAP_AT,
        Table::CpuWalker => CPU_WALKER_AT,
        Table::CpuCache => CPU_CACHE_AT,
        Table::DmaMap => DMA_MAP_AT,
        Table::DmaWalker => DMA_WALKER_AT,
        Table::DmaCache => DMA_CACHE_AT,
        Table::Memory => MEMORY_AT,
    }
}

// ---- Judging.

// A slice that is lent with a length not its own: where it begins, and how many words of it are lent.
#[derive(Clone, Copy)]
pub struct Cut {
    pub at: usize,
    pub count: usize,
    pub ghost inside: { at + count ≤ WORDS },
}

// The slice of `own` words that begins at `at`, as it is lent.
fn part(words: &[u64; WORDS], at: usize, own: usize, cut: Option<Cut>) -> &[u64]
    requires { at + own < WORDS }
{
    match cut {
        Some(cut) if cut.at == at => &words[at..at + cut.count],
        _ => &words[at..at + own],
    }
}

pub fn is_valid(m: &Machine, words: &[u64; WORDS], cut: Option<Cut>) -> bool {
    let seen = Lent {
        sets: part(words, SETS_AT, SETS_WORDS, cut),
        pairs: part(words, PAIRS_AT, PAIRS, cut),
        cpu_map: part(words, CPU_MAP_AT, ENTRIES, cut),
        cpu_walker: part(words, CPU_WALKER_AT, ENTRIES, cut),
        cpu_cache: part(words, CPU_CACHE_AT, CACHE_WORDS, cut),
        dma_map: part(words, DMA_MAP_AT, ENTRIES, cut),
        dma_walker: part(words, DMA_WALKER_AT, ENTRIES, cut),
        dma_cache: part(words, DMA_CACHE_AT, CACHE_WORDS, cut),
        memory: part(words, MEMORY_AT, MEMORY_WORDS, cut),
    };
    judge::valid(m, seen)
}
