// Operations 11 to 14: a unit's pages go to its VM with their entries, and come back, for CPU or DMA. Each is an answer,
// of which every check searches the whole region before the next begins, and a deed, done where the answer accepts.
#![tactic(auto)]

ghost use Rattle.std.specs.Prelude.{◌≡◌};
ghost use Rattle.model.specs.Regions.{region_early, insert_answer, remove_may, remove_answer};
ghost use Rattle.regions.specs.Parts.{Sized, InsertReady, InsertDone, InsertLeft, RemoveSized, RemoveReady, RemoveDone, RemoveLeft};

use crate::placed::PlacedRegion;
use numbers::{ACCESSES, Answer, Refusal, Region, Side, VMS, accept, refuse};

mod edits; // edits.rt: what the deeds change
mod placed; // placed.rt: a region whose numbers are in range
mod searches; // searches.rt: the lowest page of a region that fails a check

// Early checks, of numbers alone. Spans are judged by refusal 3 and never by 2.
pub fn region_early(known: u64, pages: u64, region: Region) -> Answer
    ensures { result ≡ region_early known pages region }
{
    if !((region.vm.0 < VMS) & (region.access < ACCESSES)) {
        return refuse(Refusal::OutOfRange, 0);
    }
    if !units::region_span(region, pages) {
        return refuse(Refusal::BadSpan, 0);
    }
    if !views::knows(known, region.vm) {
        return refuse(Refusal::VmUnknown, 0);
    }
    accept(0)
}

// ---- Operations 11 and 13: insert.

// Whether a region may be inserted; `unit`: whether it is a unit's for this side.
#[tactic(auto, using(crate::specs::RegionLaws::failing_some, crate::specs::RegionLaws::failing_nothing), unfolding(model::specs::Regions::insert_answer))]
pub fn insert_answer(
    side: Side,
    known: u64,
    pages: u64,
    unit: bool,
    sets: &[u64],
    map: &[u64],
    region: Region,
) -> Answer
    requires { Sized pages sets.now }
    ensures { result ≡ insert_answer side known pages unit sets.now map.now region }
{
    region_early(known, pages, region)?;
    if !unit {
        return refuse(Refusal::NoSuchUnit, 0);
    }
    let placed = PlacedRegion { region };
    if let Some(taken) = searches::lowest_not_free(side, sets, placed) {
        return refuse(Refusal::PageNotHeld, taken);
    }
    if let Some(mapped) = searches::lowest_present(map, placed) {
        return refuse(Refusal::MappingPresent, mapped);
    }
    if let Some(claimed) = searches::lowest_claimed(side, sets, placed) {
        return refuse(Refusal::PageClaimed, claimed);
    }
    if table::free_entries(map) < region.count {
        return refuse(Refusal::NoRoom, 0);
    }
    accept(0)
}

// The region's pages go to the VM's pages of the side, and their entries into its map and its walker's.
pub fn insert_do(side: Side, sets: &mut [u64], map: &mut [u64], walker: &mut [u64], region: Region)
    requires { InsertReady sets.old region }
    ensures { InsertDone sets.old map.old walker.old side region sets.new map.new walker.new }
{
    let placed = PlacedRegion { region };
    edits::take_pages(side, sets, placed);
    edits::install(map, placed);
    edits::install(walker, placed);
}

pub fn insert_region(
    side: Side,
    known: u64,
    pages: u64,
    unit: bool,
    sets: &mut [u64],
    map: &mut [u64],
    walker: &mut [u64],
    region: Region,
) -> Answer
    requires { Sized pages sets.old }
    ensures { InsertLeft (insert_answer side known pages unit sets.old map.old region)
        sets.old map.old walker.old side region result sets.new map.new walker.new }
{
    let accepted = insert_answer(side, known, pages, unit, sets, map, region)?;
    insert_do(side, sets, map, walker, region);
    Ok(accepted)
}

// ---- Operations 12 and 14: remove.

// Whether a region may be removed.
#[tactic(auto, using(crate::specs::RegionLaws::failing_some, crate::specs::RegionLaws::failing_nothing), unfolding(model::specs::Regions::remove_may))]
pub fn remove_may(
    side: Side,
    known: u64,
    pages: u64,
    unit: bool,
    sets: &[u64],
    pairs: &[u64],
    map: &[u64],
    region: Region,
) -> Answer
    requires { Sized pages sets.now }
    ensures { result ≡ remove_may side known pages unit sets.now pairs.now map.now region }
{
    region_early(known, pages, region)?;
    if !unit {
        return refuse(Refusal::NoSuchUnit, 0);
    }
    let placed = PlacedRegion { region };
    if let Some(missing) = searches::lowest_not_held(side, sets, placed) {
        return refuse(Refusal::PageNotHeld, missing);
    }
    if let Some(other) = searches::lowest_differs(map, placed) {
        return refuse(Refusal::MappingDiffers, other);
    }
    if let Some(used) = searches::lowest_in_use(side, pairs, map, placed) {
        return refuse(Refusal::StillInUse, used);
    }
    accept(0)
}

// The region's pages leave the VM's pages of the side, their entries both maps and their slots the cache; answers how many
// slots there were. A page on which the VM has no claim left is cleared.
pub fn remove_do(
    side: Side,
    sets: &mut [u64],
    map: &mut [u64],
    walker: &mut [u64],
    cache: &mut [u64],
    memory: &mut [u64],
    region: Region,
) -> u64
    requires { RemoveReady sets.old memory.old region }
    ensures { RemoveDone sets.old map.old walker.old cache.old memory.old side region result
        sets.new map.new walker.new cache.new memory.new }
{
    let placed = PlacedRegion { region };
    edits::clear_pages(side, sets, memory, placed);
    edits::return_pages(side, sets, placed);
    edits::sweep(map, placed);
    edits::sweep(walker, placed);
    edits::sweep(cache, placed)
}

#[tactic(auto, unfolding(model::specs::Regions::remove_answer, model::specs::Effect::apply, model::specs::Effect::cleared_pages))]
pub fn remove_region(
    side: Side,
    known: u64,
    pages: u64,
    unit: bool,
    sets: &mut [u64],
    pairs: &[u64],
    map: &mut [u64],
    walker: &mut [u64],
    cache: &mut [u64],
    memory: &mut [u64],
    region: Region,
) -> Answer
    requires { RemoveSized pages sets.old memory.old }
    ensures { RemoveLeft (remove_answer side known pages unit sets.old pairs.now map.old cache.old region)
        sets.old map.old walker.old cache.old memory.old side region result
        sets.new map.new walker.new cache.new memory.new }
{
    remove_may(side, known, pages, unit, sets, pairs, map, region)?;
    accept(remove_do(side, sets, map, walker, cache, memory, region))
}
