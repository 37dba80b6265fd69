// What an accepted region operation changes: page sets, maps and caches, and memory.
ghost use Rattle.std.specs.Prelude.{◌≡◌, ◌+◌, ◌*◌, ◌<◌, ◌≤◌, length};
ghost use Rattle.numbers.specs.Limits.{PAGES, VMS, SETS, SET_WORDS, PAGE_WORDS};
ghost use Rattle.model.specs.Views.{other_side};
ghost use Rattle.model.specs.Effect.{cleared_pages};
ghost use Rattle.model.specs.Regions.{insert_page, insert_sets, insert_table, remove_page, remove_sets, remove_clears};
ghost use Rattle.regions.specs.Parts.{Swept};

use crate::placed::PlacedRegion;
use numbers::{PhysPage, Side, VmId};

// ---- Insertion.

// One page more for the VM. DMA leaves the pool alone.
#[tactic(auto, unfolding(model::specs::Ledger::assign_sets))]
fn take_page(side: Side, sets: &mut [u64], vm: VmId, page: PhysPage)
    requires { (vm.0 < VMS) × (page.0 < PAGES) × (length sets.old ≡ SETS * SET_WORDS) }
    ensures { sets.new ≡ insert_page side vm.0 page.0 sets.old }
{
    match side {
        Side::Cpu => {
            pages::remove(sets, pages::POOL, page);
            pages::add(sets, pages::cpu_row(vm), page);
        }
        Side::Dma => pages::add(sets, pages::dma_row(vm), page),
    }
}

pub fn take_pages(side: Side, sets: &mut [u64], placed: PlacedRegion)
    requires { length sets.old ≡ SETS * SET_WORDS }
    ensures { sets.new ≡ insert_sets side sets.old placed.region }
{
    for k in 0..placed.region.count {
        take_page(side, sets, placed.region.vm, placed.page(k));
    }
}

pub fn install(map: &mut [u64], placed: PlacedRegion)
    ensures { map.new ≡ insert_table map.old placed.region }
{
    for k in 0..placed.region.count {
        table::put(map, placed.key(k), placed.entry(k));
    }
}

// ---- Removal.

// One page fewer for the VM. A CPU page goes back to the pool.
#[tactic(auto, unfolding(model::specs::Ledger::reclaim_sets))]
fn return_page(side: Side, sets: &mut [u64], vm: VmId, page: PhysPage)
    requires { (vm.0 < VMS) × (page.0 < PAGES) × (length sets.old ≡ SETS * SET_WORDS) }
    ensures { sets.new ≡ remove_page side vm.0 page.0 sets.old }
{
    match side {
        Side::Cpu => {
            pages::remove(sets, pages::cpu_row(vm), page);
            pages::add(sets, pages::POOL, page);
        }
        Side::Dma => pages::remove(sets, pages::dma_row(vm), page),
    }
}

pub fn return_pages(side: Side, sets: &mut [u64], placed: PlacedRegion)
    requires { length sets.old ≡ SETS * SET_WORDS }
    ensures { sets.new ≡ remove_sets side sets.old placed.region }
{
    for k in 0..placed.region.count {
        return_page(side, sets, placed.region.vm, placed.page(k));
    }
}

// Empties every word of the region, in a map or a cache, and answers how many there were.
pub fn sweep(words: &mut [u64], placed: PlacedRegion) -> u64
    ensures { Swept words.old placed.region result words.new }
{
    table::wipe(words, |w| placed.has(w))
}

fn other_side(side: Side) -> Side
    ensures { result ≡ other_side side }
{
    match side {
        Side::Cpu => Side::Dma,
        Side::Dma => Side::Cpu,
    }
}

// Clears each page on which the VM has no claim left: it goes by the sets as they are before the removal.
#[tactic(auto, using(crate::specs::RegionLaws::clear_start, crate::specs::RegionLaws::clear_hit, crate::specs::RegionLaws::clear_miss, crate::specs::RegionLaws::clear_end))]
pub fn clear_pages(side: Side, sets: &[u64], memory: &mut [u64], placed: PlacedRegion)
    requires { (length sets.now ≡ SETS * SET_WORDS) × ((placed.region.page.0 + placed.region.count) * PAGE_WORDS ≤ length memory.old) }
    ensures { memory.new ≡ cleared_pages (remove_clears side sets.now placed.region) memory.old }
{
    for k in 0..placed.region.count {
        let page = placed.page(k);
        if !views::claims(other_side(side), sets, placed.region.vm, page) {
            access::clear_page(memory, page);
        }
    }
}
