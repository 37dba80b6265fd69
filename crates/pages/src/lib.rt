// Sets of pages, one bit a page in lent 64-bit words.
#![tactic(auto)]

ghost use Rattle.std.specs.Prelude.{◌≡◌, ◌+◌, ◌*◌, ◌/◌, ◌<◌, ◌≤◌, eqb, length};
ghost use Rattle.numbers.specs.Limits.{PAGES, SETS, SET_WORDS};
ghost use Rattle.numbers.specs.Packing.{VM_FIELD};
ghost use Rattle.table.specs.Scan.{any_below};
ghost use Rattle.pages.specs.Bits.{has_bit, with_bit, without_bit};
ghost use Rattle.pages.specs.Columns.{column_word};
ghost use Rattle.pages.specs.Pour.{pour, emptied};
ghost use Rattle.pages.specs.Rows.{cpu_row, dma_row, holds, add, remove, held_for_dma, is_free, free_count, lowest_free};

use numbers::{PhysPage, SET_WORDS, VMS, VmId};

// ---- Rows: the pool, the shared span, then two for each VM.
pub const POOL: u64 = 0;

pub const SHARED: u64 = 1;

pub fn cpu_row(vm: VmId) -> u64
    requires { vm.0 < VM_FIELD }
    ensures { result ≡ cpu_row vm.0 }
{
    2 + 2 * vm.0
}

pub fn dma_row(vm: VmId) -> u64
    requires { vm.0 < VM_FIELD }
    ensures { result ≡ dma_row vm.0 }
{
    3 + 2 * vm.0
}

// ---- One bit of a word. The word of known VMs is read and written by these too.

pub fn has_bit(w: u64, k: u64) -> bool
    requires { k < 64 }
    ensures { result ≡ has_bit w k }
{
    (w >> k) & 1 == 1
}

pub fn with_bit(w: u64, k: u64) -> u64
    requires { k < 64 }
    ensures { result ≡ with_bit w k }
{
    w | (1 << k)
}

pub fn without_bit(w: u64, k: u64) -> u64
    requires { k < 64 }
    ensures { result ≡ without_bit w k }
{
    w & !(1 << k)
}

// ---- One page of a set: bit page % 64 of the row's word page / 64.

// Where that word stands. It counts words and not pages, since 64 times as many need not fit a u64.
fn word_of(row: u64, page: PhysPage) -> usize
    requires { (page.0 < PAGES) × ((row + 1) * SET_WORDS < 18446744073709551616) }
    ensures { result ≡ (row * PAGES + page.0) / 64 }
{
    row as usize * SET_WORDS + (page.0 / 64) as usize
}

pub fn holds(sets: &[u64], row: u64, page: PhysPage) -> bool
    requires { (page.0 < PAGES) × ((row + 1) * SET_WORDS ≤ length sets.now) }
    ensures { result ≡ holds sets.now row page.0 }
{
    let at = word_of(row, page);
    has_bit(sets[at], page.0 % 64)
}

pub fn add(sets: &mut [u64], row: u64, page: PhysPage)
    requires { (page.0 < PAGES) × ((row + 1) * SET_WORDS ≤ length sets.old) }
    ensures { sets.new ≡ add sets.old row page.0 }
{
    let at = word_of(row, page);
    sets[at] = with_bit(sets[at], page.0 % 64);
}

pub fn remove(sets: &mut [u64], row: u64, page: PhysPage)
    requires { (page.0 < PAGES) × ((row + 1) * SET_WORDS ≤ length sets.old) }
    ensures { sets.new ≡ remove sets.old row page.0 }
{
    let at = word_of(row, page);
    sets[at] = without_bit(sets[at], page.0 % 64);
}

// ---- Whether a set has a page at all: it has one exactly where a word of it is not 0.

pub fn holds_any(sets: &[u64], row: u64) -> bool
    requires { (row + 1) * SET_WORDS ≤ length sets.now }
    ensures { result ≡ any_below (λ page. holds sets.now row page) PAGES }
{
    let from = word_of(row, PhysPage(0));
    for k in 0..SET_WORDS {
        if sets[from + k] != 0 {
            return true;
        }
    }
    false
}

// Whether a set has none of the 64 pages that share this page's word.
pub fn none_beside(sets: &[u64], row: u64, page: PhysPage) -> bool
    requires { (page.0 < PAGES) × ((row + 1) * SET_WORDS ≤ length sets.now) }
    ensures { result ≡ eqb (column_word sets.now row (page.0 / 64)) 0 }
{
    let at = word_of(row, page);
    sets[at] == 0
}

// ---- All pages of a set at once, by whole words.

// What the one row has goes to the other, which keeps what it has.
pub fn pour(sets: &mut [u64], from: u64, to: u64)
    requires { ((from + 1) * SET_WORDS ≤ length sets.old) × ((to + 1) * SET_WORDS ≤ length sets.old) }
    ensures { sets.new ≡ pour sets.old from to }
{
    let source = word_of(from, PhysPage(0));
    let target = word_of(to, PhysPage(0));
    for k in 0..SET_WORDS {
        sets[target + k] = sets[target + k] | sets[source + k];
        sets[source + k] = 0;
    }
}

// The row has no page any more.
pub fn empty(sets: &mut [u64], row: u64)
    requires { (row + 1) * SET_WORDS ≤ length sets.old }
    ensures { sets.new ≡ emptied sets.old row }
{
    let start = word_of(row, PhysPage(0));
    for k in 0..SET_WORDS {
        sets[start + k] = 0;
    }
}

// ---- The free pages of a machine of so many pages: those in the pool that no VM holds for DMA. Each search visits every page.

// Some VM holds the page for DMA.
fn held_for_dma(sets: &[u64], page: PhysPage) -> bool
    requires { (page.0 < PAGES) × (SETS * SET_WORDS ≤ length sets.now) }
    ensures { result ≡ held_for_dma sets.now page.0 }
{
    for vm in 0..VMS {
        if holds(sets, dma_row(VmId(vm)), page) {
            return true;
        }
    }
    false
}

pub fn is_free(sets: &[u64], page: PhysPage) -> bool
    requires { (page.0 < PAGES) × (SETS * SET_WORDS ≤ length sets.now) }
    ensures { result ≡ is_free sets.now page.0 }
{
    holds(sets, POOL, page) && !held_for_dma(sets, page)
}

pub fn free_count(sets: &[u64], pages: u64) -> u64
    requires { (pages ≤ PAGES) × (SETS * SET_WORDS ≤ length sets.now) }
    ensures { result ≡ free_count sets.now pages }
{
    let mut count: u64 = 0;
    for page in 0..pages {
        if is_free(sets, PhysPage(page)) {
            count += 1;
        }
    }
    count
}

pub fn lowest_free(sets: &[u64], pages: u64) -> Option<PhysPage>
    requires { (pages ≤ PAGES) × (SETS * SET_WORDS ≤ length sets.now) }
    ensures { result ≡ lowest_free sets.now pages }
{
    for lowest in 0..pages {
        if is_free(sets, PhysPage(lowest)) {
            return Some(PhysPage(lowest));
        }
    }
    None
}
