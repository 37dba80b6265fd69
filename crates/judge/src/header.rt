// Rules 1 to 3: the lengths of what is lent, the setup, and the known VMs.
ghost use Rattle.std.specs.Prelude.{◌≡◌, ℕ, ◌≤◌, ◌<◌, get_or, length, IsTrue};
ghost use Rattle.numbers.specs.Decides.{Decides};
ghost use Rattle.numbers.specs.Limits.{UNITS};
ghost use Rattle.units.specs.Units.{no_unit};
ghost use Rattle.model.specs.Header.{setup_of};
ghost use Rattle.model.specs.Valid.{UnitGood, SetupGood, KnownGood};
ghost use Rattle.model.specs.Views.{knows};
ghost use Rattle.judge.specs.Parts.{RouteSizes, Sizes, SetupNumbers};

use model::Fixed;
use numbers::{ACCESSES, ENTRIES, PAGES, PAIRS, SET_WORDS, SETS, SLOTS, UNITS, VMS, VmId};
use units::Unit;

// ---- 1: lengths. The units and the ports have theirs by type.

fn route_lengths(map: usize, walker: usize, cache: usize) -> bool
    ensures { Decides result (RouteSizes map walker cache) }
{
    (map == ENTRIES) & (walker == ENTRIES) & (cache == SLOTS as usize)
}

pub fn lengths(
    sets: usize,
    pairs: usize,
    cpu_map: usize,
    cpu_walker: usize,
    cpu_cache: usize,
    dma_map: usize,
    dma_walker: usize,
    dma_cache: usize,
) -> bool
    ensures { Decides result (Sizes sets pairs cpu_map cpu_walker cpu_cache dma_map dma_walker dma_cache) }
{
    (sets == SETS * SET_WORDS)
        & (pairs == PAIRS)
        & route_lengths(cpu_map, cpu_walker, cpu_cache)
        & route_lengths(dma_map, dma_walker, dma_cache)
}

// ---- 2: setup.

fn unit_good(unit: &Unit, pages: u64) -> bool
    ensures { Decides result (UnitGood pages unit.now) }
{
    let region = unit.region;
    (region.vm.0 < VMS) & (region.access < ACCESSES) & units::region_span(region, pages)
}

// Units past the count are not judged.
fn units_good(units: &[Unit; UNITS], count: u64, pages: u64) -> bool
    requires { count ≤ UNITS }
    ensures exact { Decides result ((k : ℕ) → k < count → UnitGood pages (get_or units.now k no_unit)) }
    ensures size { length units.now ≡ UNITS }
{
    units[..count as usize]
        .iter()
        .all(|unit| unit_good(unit, pages))
}

fn setup_numbers(fixed: &Fixed) -> bool
    ensures { Decides result (SetupNumbers fixed.now) }
{
    (0 < fixed.pages)
        & (fixed.pages <= PAGES)
        & units::span_within(fixed.shared_base, fixed.shared_count, fixed.pages)
        & (fixed.unit_count <= UNITS as u64)
}

pub fn setup(fixed: &Fixed) -> bool
    ensures exact { Decides result (SetupGood (setup_of fixed.now)) }
    ensures size { IsTrue result → length fixed.now.units ≡ UNITS }
{
    setup_numbers(fixed) && units_good(&fixed.units, fixed.unit_count, fixed.pages)
}

// ---- 3: known VMs.

pub fn known_vms(known: u64) -> bool
    ensures { Decides result (KnownGood known) }
{
    known < 1 << VMS
}

// Whether a VM of any number at all is known: by rule 3 none at VMS or above is.
pub fn is_known(known: u64, vm: VmId) -> bool
    requires { KnownGood known }
    ensures { result ≡ knows known vm.0 }
{
    vm.0 < VMS && views::knows(known, vm)
}
