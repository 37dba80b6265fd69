// Operation 27: a VM is retired with all that it has. Nothing is written before the last check.
#![tactic(auto)]

ghost use Rattle.std.specs.Prelude.{◌≡◌, ◌*◌, ◌<◌, ◌≤◌, length};
ghost use Rattle.numbers.specs.Limits.{PAGES, PAGE_WORDS, VMS, SETS, SET_WORDS};
ghost use Rattle.model.specs.Effect.{cleared_pages};
ghost use Rattle.model.specs.Header.{Same, lists};
ghost use Rattle.model.specs.Retire.{onto_its, goes, retire_may, retire_answer, retire_pairs, retire_sets, retire_clears};
ghost use Rattle.retire.specs.Parts.{Ready, Swept, RouteSwept, Done, Left};

use ledger::vm_early;
use model::Lent;
use numbers::{Answer, PAGES, PORTS, PhysPage, Refusal, Side, VmId, accept, refuse};

// ---- Maps and caches.

// A word of the side's map or cache is onto one of the VM's CPU pages; no DMA mapping of another VM is.
fn onto_its(side: Side, sets: &[u64], vm: VmId, w: u64) -> bool
    requires { (vm.0 < VMS) × (length sets.now ≡ SETS * SET_WORDS) }
    ensures { result ≡ onto_its side sets.now vm.0 w }
{
    match side {
        Side::Cpu => {
            let page = numbers::page_of(w);
            page.0 < PAGES && pages::holds(sets, pages::cpu_row(vm), page)
        }
        Side::Dma => false,
    }
}

// A word that goes: the VM's, or, for CPU, onto one of its pages.
fn goes(side: Side, sets: &[u64], vm: VmId, w: u64) -> bool
    requires { (vm.0 < VMS) × (length sets.now ≡ SETS * SET_WORDS) }
    ensures { result ≡ goes side sets.now vm.0 w }
{
    numbers::filled_of(w) == 1 && (numbers::vm_of(w).0 == vm.0 || onto_its(side, sets, vm, w))
}

// One pass over a map or a cache: empties every word that goes, and answers how many there were.
fn sweep(side: Side, sets: &[u64], vm: VmId, words: &mut [u64]) -> u64
    requires { (vm.0 < VMS) × (length sets.now ≡ SETS * SET_WORDS) }
    ensures { Swept side sets.now vm.0 words.old result words.new }
{
    table::wipe(words, |w| goes(side, sets, vm, w))
}

// All tables of a side. Answers how many slots there were.
fn sweep_side(
    side: Side,
    sets: &[u64],
    vm: VmId,
    map: &mut [u64],
    walker: &mut [u64],
    cache: &mut [u64],
) -> u64
    requires { (vm.0 < VMS) × (length sets.now ≡ SETS * SET_WORDS) }
    ensures { RouteSwept side sets.now vm.0 map.old walker.old cache.old result map.new walker.new cache.new }
{
    sweep(side, sets, vm, map);
    sweep(side, sets, vm, walker);
    sweep(side, sets, vm, cache)
}

// ---- Pairs, pages and memory.

// Empties every pair that has the VM at an end.
fn drop_pairs(pairs: &mut [u64], vm: VmId)
    ensures { pairs.new ≡ retire_pairs pairs.old vm.0 }
{
    table::wipe(pairs, |w| views::joins(w, vm));
}

// Clears every page that the VM owns or holds for DMA: it goes by the sets as they are before the pages are given back. 64 pages are
// passed over at once where a whole word of both its sets is 0.
fn clear_held(sets: &[u64], memory: &mut [u64], pages: u64, vm: VmId)
    requires { Ready pages sets.now memory.old vm.0 }
    ensures { memory.new ≡ cleared_pages (retire_clears sets.now pages vm.0) memory.old }
{
    for block in 0..pages.div_ceil(64) {
        let first = block * 64;
        if pages::none_beside(sets, pages::cpu_row(vm), PhysPage(first))
            && pages::none_beside(sets, pages::dma_row(vm), PhysPage(first))
        {
            continue;
        }
        for page in first..pages.min(first + 64) {
            if views::claims(Side::Cpu, sets, vm, PhysPage(page))
                | views::claims(Side::Dma, sets, vm, PhysPage(page))
            {
                access::clear_page(memory, PhysPage(page));
            }
        }
    }
}

// Its CPU pages go to the pool, and its DMA claims end.
fn give_back(sets: &mut [u64], vm: VmId)
    requires { (vm.0 < VMS) × (length sets.old ≡ SETS * SET_WORDS) }
    ensures { sets.new ≡ retire_sets sets.old vm.0 }
{
    pages::pour(sets, pages::cpu_row(vm), pages::POOL);
    pages::empty(sets, pages::dma_row(vm));
}

// ---- The operation.

// What retiring a VM decides: whatever the VM has, if it is on no CPU and no device.
pub fn retire_may(
    known: u64,
    cpus: [u64; PORTS as usize],
    devices: [u64; PORTS as usize],
    vm: VmId,
) -> Answer
    ensures { result ≡ retire_may known cpus devices vm.0 }
{
    vm_early(known, vm)?;
    if table::any(&cpus, |on| on == vm.0) | table::any(&devices, |on| on == vm.0) {
        return refuse(Refusal::VmBusy, 0);
    }
    accept(0)
}

// What retiring a VM does to the lists; the page sets, by which the rest goes, come last. Answers how many slots went.
pub fn retire_do(pages: u64, lent: &mut Lent<&mut [u64]>, vm: VmId) -> u64
    requires { Ready pages lent.old.sets.now lent.old.memory.now vm.0 }
    ensures done { Done pages vm.0 (lists lent.old) result (lists lent.new) }
    ensures same { Same lent.old lent.new }
{
    let sets = &mut *lent.sets;
    let cpu = sweep_side(
        Side::Cpu,
        sets,
        vm,
        lent.cpu_map,
        lent.cpu_walker,
        lent.cpu_cache,
    );
    let dma = sweep_side(
        Side::Dma,
        sets,
        vm,
        lent.dma_map,
        lent.dma_walker,
        lent.dma_cache,
    );
    drop_pairs(lent.pairs, vm);
    clear_held(sets, lent.memory, pages, vm);
    give_back(sets, vm);
    cpu + dma
}

// Operation 27.
pub fn retire_vm(
    known: &mut u64,
    pages: u64,
    cpus: [u64; PORTS as usize],
    devices: [u64; PORTS as usize],
    lent: &mut Lent<&mut [u64]>,
    vm: VmId,
) -> Answer
    requires { (pages ≤ PAGES) × (length lent.old.sets.now ≡ SETS * SET_WORDS) × (length lent.old.memory.now ≡ PAGE_WORDS * pages) }
    ensures left { Left (retire_answer known.old lent.old.sets.now lent.old.cpu_cache.now lent.old.dma_cache.now cpus devices vm.0) pages vm.0
        known.old (lists lent.old) result known.new (lists lent.new) }
    ensures same { Same lent.old lent.new }
{
    retire_may(*known, cpus, devices, vm)?;
    let dropped = retire_do(pages, lent, vm);
    *known = ledger::vms::remove_vm_do(*known, vm);
    accept(dropped)
}
