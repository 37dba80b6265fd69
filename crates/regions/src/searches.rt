// The searches of region operations. Each goes over the region's pages, and gives the lowest index that fails.
ghost use Rattle.std.specs.Prelude.{◌≡◌, ◌*◌, ◌<◌, length};
ghost use Rattle.numbers.specs.Limits.{SETS, SET_WORDS};
ghost use Rattle.model.specs.Regions.{not_free, present, claimed, not_held, differs, in_use};
ghost use Rattle.regions.specs.Parts.{lowest_failing, binding};

use crate::placed::PlacedRegion;
use numbers::Side;

// ---- Insertion.

// A CPU page comes from the pool, which DMA leaves alone.
fn not_free(side: Side, sets: &[u64], placed: PlacedRegion, k: u64) -> bool
    requires { (k < placed.region.count) × (length sets.now ≡ SETS * SET_WORDS) }
    ensures { result ≡ not_free side sets.now placed.region k }
{
    match side {
        Side::Cpu => !pages::holds(sets, pages::POOL, placed.page(k)),
        Side::Dma => false,
    }
}

pub fn lowest_not_free(side: Side, sets: &[u64], placed: PlacedRegion) -> Option<u64>
    requires { length sets.now ≡ SETS * SET_WORDS }
    ensures { result ≡ lowest_failing (not_free side sets.now placed.region) placed.region.count }
{
    (0..placed.region.count).find(|k| not_free(side, sets, placed, *k))
}

// The page's key is mapped already.
fn is_present(map: &[u64], placed: PlacedRegion, k: u64) -> bool
    requires { k < placed.region.count }
    ensures { result ≡ present map.now placed.region k }
{
    table::find(map, placed.key(k)).is_some()
}

pub fn lowest_present(map: &[u64], placed: PlacedRegion) -> Option<u64>
    ensures { result ≡ lowest_failing (present map.now placed.region) placed.region.count }
{
    (0..placed.region.count).find(|k| is_present(map, placed, *k))
}

// Another VM's DMA page; for DMA also another VM's CPU page, and one of the shared span.
fn is_claimed(side: Side, sets: &[u64], placed: PlacedRegion, k: u64) -> bool
    requires { (k < placed.region.count) × (length sets.now ≡ SETS * SET_WORDS) }
    ensures { result ≡ claimed side sets.now placed.region k }
{
    let page = placed.page(k);
    let held = views::claimed_elsewhere(Side::Dma, sets, placed.region.vm, page);
    match side {
        Side::Cpu => held,
        Side::Dma => {
            held | views::claimed_elsewhere(Side::Cpu, sets, placed.region.vm, page)
                | pages::holds(sets, pages::SHARED, page)
        }
    }
}

pub fn lowest_claimed(side: Side, sets: &[u64], placed: PlacedRegion) -> Option<u64>
    requires { length sets.now ≡ SETS * SET_WORDS }
    ensures { result ≡ lowest_failing (claimed side sets.now placed.region) placed.region.count }
{
    (0..placed.region.count).find(|k| is_claimed(side, sets, placed, *k))
}

// ---- Removal.

pub fn lowest_not_held(side: Side, sets: &[u64], placed: PlacedRegion) -> Option<u64>
    requires { length sets.now ≡ SETS * SET_WORDS }
    ensures { result ≡ lowest_failing (not_held side sets.now placed.region) placed.region.count }
{
    (0..placed.region.count).find(|k| !views::claims(side, sets, placed.region.vm, placed.page(*k)))
}

// The word of the page's key, 0 where there is none, is not the region's entry.
fn differs(map: &[u64], placed: PlacedRegion, k: u64) -> bool
    requires { k < placed.region.count }
    ensures { result ≡ differs map.now placed.region k }
{
    table::lookup(map, placed.key(k)) != placed.entry(k)
}

pub fn lowest_differs(map: &[u64], placed: PlacedRegion) -> Option<u64>
    ensures { result ≡ lowest_failing (differs map.now placed.region) placed.region.count }
{
    (0..placed.region.count).find(|k| differs(map, placed, *k))
}

// The pairs that may hold a page back: edges are the CPU's alone.
fn binding_pairs(side: Side, pairs: &[u64]) -> &[u64]
    ensures { result.now ≡ binding side pairs.now }
{
    match side {
        Side::Cpu => pairs,
        Side::Dma => &[],
    }
}

// A mapping whose key is not the region's own for the page targets it, or an edge names it. This search through map and pairs is
// left by a label that gives the index, a form that the paper names for it (docs/COVERAGE.md, 13.2).
pub fn lowest_in_use(side: Side, pairs: &[u64], map: &[u64], placed: PlacedRegion) -> Option<u64>
    ensures { result ≡ lowest_failing (in_use side pairs.now map.now placed.region) placed.region.count }
{
    let edges = binding_pairs(side, pairs);
    'region: {
        for k in 0..placed.region.count {
            let page = placed.page(k);
            let own = placed.key(k);
            for w in map {
                if !(numbers::key_of(*w) == own) & views::on_page(*w, page) {
                    break 'region Some(k);
                }
            }
            for pair in edges {
                if views::on_page(*pair, page) {
                    break 'region Some(k);
                }
            }
        }
        None
    }
}
