// The page sets of a valid state (docs/MACHINE.md, 4), tested by whole words: 64 pages at a time.
#![tactic(auto)]

ghost use Rattle.std.specs.Prelude.{◌≡◌, ◌+◌, ◌*◌, ◌^◌, ◌<◌, ◌≤◌, length};
ghost use Rattle.numbers.specs.Decides.{Decides};
ghost use Rattle.numbers.specs.Limits.{PAGES, VMS, SETS, SET_WORDS};
ghost use Rattle.pages.specs.Columns.{column_word, below_word};
ghost use Rattle.model.specs.Valid.{PagesGood};
ghost use Rattle.judge_homes.specs.Columns.{VmGood, HomesGood, ColumnGood};

use numbers::{SET_WORDS, VMS, VmId};

// The word of a row in column k: a bit for each of the 64 pages from k * 64 on.
fn column_word(sets: &[u64], row: u64, k: u64) -> u64
    requires { (length sets.now ≡ SETS * SET_WORDS) × (row < SETS) × (k < SET_WORDS) }
    ensures { result ≡ column_word sets.now row k }
{
    sets[row as usize * SET_WORDS + k as usize]
}

// The word of column k with a bit for each page below n.
fn below(n: u64, k: u64) -> u64
    requires { k < SET_WORDS }
    ensures { result ≡ below_word n k }
{
    let from = k * 64;
    if n <= from {
        return 0;
    }
    let count = n - from;
    if count >= 64 {
        return !0;
    }
    (1 << count) - 1
}

// A VM's pages for CPU have no other home and those for DMA no other holder, each of these is its own CPU page or in the
// pool, and a VM that is not known has none.
fn vm_good(known: bool, pool: u64, held: u64, dma_held: u64, cpu: u64, dma: u64) -> bool
    ensures { Decides result (VmGood known pool held dma_held cpu dma) }
{
    (held & cpu == 0)
        & (dma_held & dma == 0)
        & (dma & (cpu | pool) == dma)
        & (known | (cpu | dma == 0))
}

// No page has two homes or two holders for DMA, and the homes together hold the pages of `all`.
fn homes_good(sets: &[u64], known: u64, k: u64, all: u64) -> bool
    requires { (length sets.now ≡ SETS * SET_WORDS) × (k < SET_WORDS) }
    ensures { Decides result (HomesGood known sets.now k all) }
{
    let pool = column_word(sets, pages::POOL, k);
    let shared = column_word(sets, pages::SHARED, k);
    if pool & shared != 0 {
        return false;
    }
    let mut held = pool | shared;
    let mut dma_held = 0;
    for vm in 0..VMS {
        let cpu = column_word(sets, pages::cpu_row(VmId(vm)), k);
        let dma = column_word(sets, pages::dma_row(VmId(vm)), k);
        if !vm_good(pages::has_bit(known, vm), pool, held, dma_held, cpu, dma) {
            return false;
        }
        held |= cpu;
        dma_held |= dma;
    }
    held == all
}

// The 64 pages of column k.
fn column_good(
    sets: &[u64],
    pages: u64,
    shared_base: u64,
    shared_count: u64,
    known: u64,
    k: u64,
) -> bool
    requires { (length sets.now ≡ SETS * SET_WORDS) × (shared_base + shared_count ≤ PAGES) × (k < SET_WORDS) }
    ensures { Decides result (ColumnGood pages shared_base shared_count known sets.now k) }
{
    let span = below(shared_base + shared_count, k) ^ below(shared_base, k);
    (column_word(sets, pages::SHARED, k) == span) & homes_good(sets, known, k, below(pages, k))
}

// Rule 4 of a valid state, for a machine whose pages, shared span and known VMs are in range.
pub fn page_sets(sets: &[u64], pages: u64, shared_base: u64, shared_count: u64, known: u64) -> bool
    requires { (length sets.now ≡ SETS * SET_WORDS) × (pages ≤ PAGES) × (shared_base + shared_count ≤ pages) × (known < 2 ^ VMS) }
    ensures { Decides result (PagesGood pages shared_base shared_count known sets.now) }
{
    (0..SET_WORDS as u64).all(|k| column_good(sets, pages, shared_base, shared_count, known, k))
}
