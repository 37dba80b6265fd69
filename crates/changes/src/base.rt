// The two valid states that are damaged: the machine as start leaves it, and one with VMs at work.
ghost use Rattle.std.specs.Prelude.{◌+◌, ◌*◌, ◌<◌};
ghost use Rattle.numbers.specs.Limits.{PAGES, VMS, ENTRIES};
ghost use Rattle.numbers.specs.Packing.{ACCESS_FIELD, PAGE_FIELD, GUEST_FIELD, VM_FIELD, PORT_FIELD};
ghost use Rattle.changes.specs.Words.{WORDS};

use crate::state::{
    CACHE_WORDS, CPU_CACHE_AT, CPU_MAP_AT, DMA_CACHE_AT, DMA_MAP_AT, N, PAIRS_AT, SETS_AT, WORDS,
};
use crate::{POOL, SHARED, cpu_row, dma_row, toggle};
use model::{Fixed, Machine, Registers, SideRegisters};
use numbers::{
    ACCESS_BIT, ACCESSES, ENTRIES, FILLED_BIT, GENERATIONS, GUEST_BIT, GUEST_PAGES, GuestPage,
    IDLE, PAGE_BIT, PAIRS, PORT_BIT, PORTS, PhysPage, Region, UNITS, VM_BIT, VMS, VmId,
};
use units::{Mark, Unit};

// The last VM, which the state at work knows.
pub const LAST_VM: u64 = VMS - 1;

// ---- Words and units.

// A filled word by its fields; an entry has port 0.
pub fn slot(port: u64, vm: u64, guest: u64, page: u64, access: u64, generation: u64) -> u64
    requires { (port < PORT_FIELD) × (vm < VM_FIELD) × (guest < GUEST_FIELD) × (page < PAGE_FIELD) × (access < ACCESS_FIELD) }
{
    let low = (page * PAGE_BIT) | (access * ACCESS_BIT) | generation;
    (port * PORT_BIT) | (vm * VM_BIT) | (guest * GUEST_BIT) | FILLED_BIT | low
}

pub fn entry(vm: u64, guest: u64, page: u64, access: u64, generation: u64) -> u64
    requires { (vm < VM_FIELD) × (guest < GUEST_FIELD) × (page < PAGE_FIELD) × (access < ACCESS_FIELD) }
{
    slot(0, vm, guest, page, access, generation)
}

pub fn pair(left: u64, right: u64, page: u64) -> u64
    requires { (left < VM_FIELD) × (right < GUEST_FIELD) × (page < PAGE_FIELD) }
{
    entry(left, right, page, 0, 0)
}

pub fn unit(vm: u64, guest: u64, page: u64, count: u64, access: u64) -> Unit {
    let region = Region {
        vm: VmId(vm),
        guest: GuestPage(guest),
        page: PhysPage(page),
        count,
        access,
    };
    Unit {
        region,
        mark: Mark::Both,
    }
}

// ---- After start: N pages, all in the pool, and an empty shared span at their end.

pub fn fresh_header() -> Machine {
    let side = SideRegisters {
        ports: [IDLE; PORTS as usize],
        hand: 0,
    };
    Machine {
        fixed: Fixed {
            pages: N,
            shared_base: N,
            shared_count: 0,
            units: [unit(0, 0, 0, 0, 0); UNITS],
            unit_count: 0,
        },
        registers: Registers {
            known: 0,
            cpu: side,
            dma: side,
        },
    }
}

// The pages below N.
pub fn fill_pool(words: &mut [u64; WORDS]) {
    words[SETS_AT] = u64::MAX;
    words[SETS_AT + 1] = (1 << (N - 64)) - 1;
}

// ---- At work. The VMs that only one rule speaks of: 5 maps a shared page, 6 and 7 borrow, 8 is on a CPU and 9 on a device,
// 10 has a CPU page, 11 a DMA page, 14 nothing.

// The units reach the last page and the last guest page; the last of them is not counted.
pub fn busy_header() -> Machine {
    let mut units = [unit(1, 16, 0, 3, 3); UNITS];
    units[UNITS - 2] = unit(LAST_VM, GUEST_PAGES - 1, N - 1, 1, ACCESSES - 1);
    let mut cpus = [IDLE; PORTS as usize];
    cpus[0] = 1;
    cpus[1] = 2;
    cpus[2] = LAST_VM;
    cpus[3] = 8;
    let mut devices = [IDLE; PORTS as usize];
    devices[2] = 1;
    devices[4] = 9;
    Machine {
        fixed: Fixed {
            pages: N,
            shared_base: 66,
            shared_count: 2,
            units,
            unit_count: UNITS as u64 - 1,
        },
        registers: Registers {
            // 1, 2, 5 to 11, 14 and the last.
            known: 20454 | (1 << LAST_VM),
            cpu: SideRegisters {
                ports: cpus,
                hand: 7,
            },
            dma: SideRegisters {
                ports: devices,
                hand: 5,
            },
        },
    }
}

// From the pool to the VM's CPU pages.
fn give(words: &mut [u64; WORDS], vm: usize, page: u64)
    requires { (vm < VMS) × (page < PAGES) }
{
    toggle(words, POOL, page);
    toggle(words, cpu_row(vm), page);
}

fn fill_sets(words: &mut [u64; WORDS]) {
    toggle(words, POOL, 66);
    toggle(words, SHARED, 66);
    toggle(words, POOL, 67);
    toggle(words, SHARED, 67);
    give(words, 1, 0);
    give(words, 1, 1);
    give(words, 1, 2);
    give(words, 2, 3);
    give(words, 2, 64);
    give(words, 10, 65);
    give(words, LAST_VM as usize, 6);
    // Their own pages, and pages of the pool.
    toggle(words, dma_row(1), 0);
    toggle(words, dma_row(1), 1);
    toggle(words, dma_row(1), 4);
    toggle(words, dma_row(2), 64);
    toggle(words, dma_row(2), 5);
    toggle(words, dma_row(11), 69);
}

// Of pages owned by the left end and by the right. VMs 6 and 7 borrow and do nothing else.
fn fill_pairs(words: &mut [u64; WORDS]) {
    words[PAIRS_AT] = pair(1, 2, 0);
    words[PAIRS_AT + 1] = pair(LAST_VM, 2, 3);
    words[PAIRS_AT + 2] = pair(1, 6, 1);
    words[PAIRS_AT + PAIRS - 1] = pair(7, 1, 2);
}

// An entry at its places in a side's software map and in its walker's.
fn enter(words: &mut [u64; WORDS], map: usize, place: usize, walker_place: usize, entry: u64)
    requires { (map + 2 * ENTRIES < WORDS) × (place < ENTRIES) × (walker_place < ENTRIES) }
{
    words[map + place] = entry;
    words[map + ENTRIES + 1 + walker_place] = entry;
}

// The CPU side: own pages and borrowed ones, the walker's in another order. The two sides stay two lists, whose words
// differ in pages and VMs: one function of both would take as many parameters.
fn fill_cpu(words: &mut [u64; WORDS]) {
    enter(words, CPU_MAP_AT, 0, 9, entry(1, 16, 0, 3, 0));
    enter(words, CPU_MAP_AT, 1, 1, entry(1, 17, 1, 1, GENERATIONS - 1));
    enter(words, CPU_MAP_AT, 2, 7, entry(2, 16, 3, 7, 1));
    enter(words, CPU_MAP_AT, 3, 6, entry(2, 40, 0, 1, 0));
    let last = entry(LAST_VM, GUEST_PAGES - 1, 3, 0, 2);
    enter(words, CPU_MAP_AT, ENTRIES - 1, 0, last);
    words[CPU_CACHE_AT] = slot(0, 1, 16, 0, 3, 0);
    words[CPU_CACHE_AT + 1] = slot(7, 1, 16, 0, 3, 0);
    words[CPU_CACHE_AT + CACHE_WORDS - 1] = slot(1, 2, 40, 0, 1, 0);
}

// The DMA side: own pages, a page of the pool and a shared one.
fn fill_dma(words: &mut [u64; WORDS]) {
    enter(words, DMA_MAP_AT, 0, 9, entry(1, 16, 0, 3, 0));
    enter(words, DMA_MAP_AT, 1, 1, entry(1, 17, 1, 1, GENERATIONS - 1));
    enter(words, DMA_MAP_AT, 2, 7, entry(2, 16, 64, 7, 1));
    enter(words, DMA_MAP_AT, 3, 6, entry(1, 40, 4, 1, 0));
    let last = entry(5, GUEST_PAGES - 1, 66, 0, 2);
    enter(words, DMA_MAP_AT, ENTRIES - 1, 0, last);
    words[DMA_CACHE_AT] = slot(0, 1, 16, 0, 3, 0);
    words[DMA_CACHE_AT + 1] = slot(7, 1, 16, 0, 3, 0);
    words[DMA_CACHE_AT + CACHE_WORDS - 1] = slot(2, 1, 40, 4, 1, 0);
}

// From the words of the fresh state to those of the one at work.
pub fn fill(words: &mut [u64; WORDS]) {
    fill_sets(words);
    fill_pairs(words);
    fill_cpu(words);
    fill_dma(words);
}
