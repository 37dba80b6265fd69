// The questions that operations ask of the tables: who claims a page, who maps it, who shares it.
#![tactic(auto)]

ghost use Rattle.std.specs.Prelude.{◌≡◌, ◌*◌, ◌<◌, length};
ghost use Rattle.numbers.specs.Limits.{PAGES, VMS, SETS, SET_WORDS};
ghost use Rattle.numbers.specs.Packing.{pair_key, pair_key_of};
ghost use Rattle.table.specs.Table.{find};
ghost use Rattle.model.specs.Views.{knows, claims, claimed_elsewhere, has_pages, on_page, of_vm, joins, may_map};

use numbers::{PhysPage, Side, VMS, VmId};

// ---- VMs and their pages.

pub fn knows(known: u64, vm: VmId) -> bool
    requires { vm.0 < VMS }
    ensures { result ≡ knows known vm.0 }
{
    pages::has_bit(known, vm.0)
}

pub fn claims(side: Side, sets: &[u64], vm: VmId, page: PhysPage) -> bool
    requires { (vm.0 < VMS) × (page.0 < PAGES) × (length sets.now ≡ SETS * SET_WORDS) }
    ensures { result ≡ claims side sets.now vm.0 page.0 }
{
    match side {
        Side::Cpu => pages::holds(sets, pages::cpu_row(vm), page),
        Side::Dma => pages::holds(sets, pages::dma_row(vm), page),
    }
}

// A VM other than this one claims the page on the side.
pub fn claimed_elsewhere(side: Side, sets: &[u64], vm: VmId, page: PhysPage) -> bool
    requires { (page.0 < PAGES) × (length sets.now ≡ SETS * SET_WORDS) }
    ensures { result ≡ claimed_elsewhere side sets.now vm.0 page.0 }
{
    for other in 0..VMS {
        if !(other == vm.0) & claims(side, sets, VmId(other), page) {
            return true;
        }
    }
    false
}

pub fn has_pages(side: Side, sets: &[u64], vm: VmId) -> bool
    requires { (vm.0 < VMS) × (length sets.now ≡ SETS * SET_WORDS) }
    ensures { result ≡ has_pages side sets.now vm.0 }
{
    match side {
        Side::Cpu => pages::holds_any(sets, pages::cpu_row(vm)),
        Side::Dma => pages::holds_any(sets, pages::dma_row(vm)),
    }
}

// ---- Words of a table: what `table::any` and the like may ask of each.

// A mapping onto the page, or a pair on it.
pub fn on_page(w: u64, page: PhysPage) -> bool
    ensures { result ≡ on_page page.0 w }
{
    (numbers::filled_of(w) == 1) & (numbers::page_of(w) == page)
}

// A mapping of the VM. `&&`, so that a search passes over an empty place at once.
pub fn of_vm(w: u64, vm: VmId) -> bool
    ensures { result ≡ of_vm vm.0 w }
{
    (numbers::filled_of(w) == 1) && (numbers::vm_of(w) == vm)
}

// A pair that has the VM at an end.
pub fn joins(w: u64, vm: VmId) -> bool
    ensures { result ≡ joins vm.0 w }
{
    (numbers::filled_of(w) == 1) && ((numbers::left_of(w) == vm) | (numbers::right_of(w) == vm))
}

// Where the pair of these two on the page stands, in whichever order of its ends.
pub fn find_pair(pairs: &[u64], left: VmId, right: VmId, page: PhysPage) -> Option<usize>
    requires { (left.0 < VMS) × (right.0 < VMS) × (page.0 < PAGES) }
    ensures { result ≡ find pair_key_of pairs.now (pair_key left.0 right.0 page.0) }
{
    let key = numbers::pair_key(left, right, page);
    table::first(pairs, |w| numbers::pair_key_of(w) == key)
}

// Whether the VM may map the page: for CPU its own or one shared with it, for DMA its DMA page or the shared span's.
pub fn may_map(side: Side, sets: &[u64], pairs: &[u64], vm: VmId, page: PhysPage) -> bool
    requires { (vm.0 < VMS) × (page.0 < PAGES) × (length sets.now ≡ SETS * SET_WORDS) }
    ensures { result ≡ may_map side sets.now pairs.now vm.0 page.0 }
{
    if claims(side, sets, vm, page) {
        return true;
    }
    match side {
        Side::Cpu => table::any(pairs, |w| joins(w, vm) & on_page(w, page)),
        Side::Dma => pages::holds(sets, pages::SHARED, page),
    }
}
