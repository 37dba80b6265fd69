// Operations 3 and 4: a page goes from the pool to a VM, and back.
ghost use Rattle.std.specs.Prelude.{◌≡◌, ◌*◌, ◌≤◌, length};
ghost use Rattle.numbers.specs.Limits.{PAGES, PAGE_WORDS, SETS, SET_WORDS};
ghost use Rattle.model.specs.Effect.{clears, apply};
ghost use Rattle.model.specs.Ledger.{assign_answer, assign_sets, reclaim_answer, reclaim_sets, reclaim_clears};
ghost use Rattle.ledger.specs.Parts.{PageReady, SetsLeft, ReclaimReady, ReclaimDone, ReclaimLeft};

use super::page_early;
use numbers::{Answer, PhysPage, Refusal, Side, VmId, accept, refuse};

// What assign decides.
pub fn assign_answer(known: u64, pages: u64, sets: &[u64], vm: VmId, page: PhysPage) -> Answer
    requires { (pages ≤ PAGES) × (length sets.now ≡ SETS * SET_WORDS) }
    ensures { result ≡ assign_answer known pages sets.now vm.0 page.0 }
{
    page_early(known, pages, vm, page)?;
    if !pages::holds(sets, pages::POOL, page) {
        return refuse(Refusal::PageNotHeld, 0);
    }
    if views::claimed_elsewhere(Side::Dma, sets, vm, page) {
        return refuse(Refusal::PageClaimed, 0);
    }
    accept(0)
}

// What assign does: the page goes from the pool to the VM.
pub fn assign_do(sets: &mut [u64], vm: VmId, page: PhysPage)
    requires { PageReady sets.old vm.0 page.0 }
    ensures { sets.new ≡ assign_sets sets.old vm.0 page.0 }
{
    pages::remove(sets, pages::POOL, page);
    pages::add(sets, pages::cpu_row(vm), page);
}

// Operation 3: from the pool to the VM.
pub fn assign_page(known: u64, pages: u64, sets: &mut [u64], vm: VmId, page: PhysPage) -> Answer
    requires { (pages ≤ PAGES) × (length sets.old ≡ SETS * SET_WORDS) }
    ensures { SetsLeft (assign_answer known pages sets.old vm.0 page.0) sets.old (assign_sets sets.old vm.0 page.0) result sets.new }
{
    let accepted = assign_answer(known, pages, sets, vm, page)?;
    assign_do(sets, vm, page);
    Ok(accepted)
}

// Clears a page that the VM gives up, unless it still claims the page for DMA.
fn clear_given_up(sets: &[u64], memory: &mut [u64], vm: VmId, page: PhysPage)
    requires { ReclaimReady sets.now memory.old vm.0 page.0 }
    ensures { memory.new ≡ apply (clears (reclaim_clears sets.now vm.0 page.0)) memory.old }
{
    if views::claims(Side::Dma, sets, vm, page) {
        return;
    }
    access::clear_page(memory, page);
}

// What reclaim decides: no CPU mapping may target the page, and no edge name it.
pub fn reclaim_answer(
    known: u64,
    pages: u64,
    sets: &[u64],
    pairs: &[u64],
    cpu_map: &[u64],
    vm: VmId,
    page: PhysPage,
) -> Answer
    requires { (pages ≤ PAGES) × (length sets.now ≡ SETS * SET_WORDS) }
    ensures { result ≡ reclaim_answer known pages sets.now pairs.now cpu_map.now vm.0 page.0 }
{
    page_early(known, pages, vm, page)?;
    if !views::claims(Side::Cpu, sets, vm, page) {
        return refuse(Refusal::PageNotHeld, 0);
    }
    if table::any(cpu_map, |w| views::on_page(w, page))
        | table::any(pairs, |w| views::on_page(w, page))
    {
        return refuse(Refusal::StillInUse, 0);
    }
    accept(0)
}

// What reclaim does: the page goes from the VM to the pool, cleared where no claim of the VM remains.
pub fn reclaim_do(sets: &mut [u64], memory: &mut [u64], vm: VmId, page: PhysPage)
    requires { ReclaimReady sets.old memory.old vm.0 page.0 }
    ensures { ReclaimDone sets.old memory.old vm.0 page.0 sets.new memory.new }
{
    clear_given_up(sets, memory, vm, page);
    pages::remove(sets, pages::cpu_row(vm), page);
    pages::add(sets, pages::POOL, page);
}

// Operation 4: back to the pool, once no CPU mapping targets the page and no edge names it.
pub fn reclaim_page(
    known: u64,
    pages: u64,
    sets: &mut [u64],
    pairs: &[u64],
    cpu_map: &[u64],
    memory: &mut [u64],
    vm: VmId,
    page: PhysPage,
) -> Answer
    requires { (pages ≤ PAGES) × (length sets.old ≡ SETS * SET_WORDS) × (length memory.old ≡ PAGE_WORDS * pages) }
    ensures { ReclaimLeft (reclaim_answer known pages sets.old pairs.now cpu_map.now vm.0 page.0) sets.old memory.old vm.0 page.0 result sets.new memory.new }
{
    let accepted = reclaim_answer(known, pages, sets, pairs, cpu_map, vm, page)?;
    reclaim_do(sets, memory, vm, page);
    Ok(accepted)
}
