// The test for a valid state (docs/MACHINE.md, 4): a function a rule, each exact, in the order of the manual.
#![tactic(auto)]

ghost use Rattle.std.specs.Prelude.{◌≡◌, length, IsTrue};
ghost use Rattle.numbers.specs.Decides.{Decides};
ghost use Rattle.numbers.specs.Limits.{UNITS};
ghost use Rattle.model.specs.Header.{state_of, seen_lists};
ghost use Rattle.model.specs.Valid.{Valid};
ghost use Rattle.judge.specs.Parts.{HomesGood};

use crate::homes::Homes;
use crate::routes::Ground;
use model::{Lent, Machine};
use numbers::{PAGE_WORDS, Side};

pub mod header;
pub mod homes;
pub mod routes;
pub mod sharing;
pub mod words;

// Rules 1 to 4: the lengths, the setup, the known VMs and the page sets.
fn homes_good(m: &Machine, seen: Lent<&[u64]>) -> bool
    ensures exact { Decides result (HomesGood m.now (seen_lists seen.entry)) }
    ensures size { IsTrue result → length m.now.fixed.units ≡ UNITS }
{
    let fixed = &m.fixed;
    let known = m.registers.known;
    header::lengths(
        seen.sets.len(),
        seen.pairs.len(),
        seen.cpu_map.len(),
        seen.cpu_walker.len(),
        seen.cpu_cache.len(),
        seen.dma_map.len(),
        seen.dma_walker.len(),
        seen.dma_cache.len(),
    ) && header::setup(fixed)
        && header::known_vms(known)
        && judge_homes::page_sets(
            seen.sets,
            fixed.pages,
            fixed.shared_base,
            fixed.shared_count,
            known,
        )
}

// Whether a header and what is lent with it, of whatever numbers and lengths, are a valid state.
pub fn valid(m: &Machine, seen: Lent<&[u64]>) -> bool
    ensures { Decides result (Valid (state_of m.now (seen_lists seen.entry))) }
{
    if !homes_good(m, seen) {
        return false;
    }
    let pages = m.fixed.pages;
    let homes = Homes {
        sets: seen.sets,
        pages,
        known: m.registers.known,
    };
    let mut lent = [0u64; sharing::LENT_WORDS];
    if !homes.pairs(seen.pairs, &mut lent) {
        return false;
    }
    let ground = Ground {
        homes,
        pairs: seen.pairs,
        lent: &lent,
    };
    routes::route(
        Side::Cpu,
        &ground,
        &m.registers.cpu,
        seen.cpu_map,
        seen.cpu_walker,
        seen.cpu_cache,
    ) && routes::route(
        Side::Dma,
        &ground,
        &m.registers.dma,
        seen.dma_map,
        seen.dma_walker,
        seen.dma_cache,
    ) && seen.memory.len() as u64 == PAGE_WORDS * pages
}
