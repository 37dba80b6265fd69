// The entries over numbers alone that only read a box: whether it is valid, and the free query. Like those of `box_cores` they are
// lent the 64 words of each cache, beside how many slots there were, and say what they give for any box at all (docs/MACHINE.md, 13).
#![tactic(auto)]

ghost use Rattle.std.specs.Prelude.{◌≡◌, length};
ghost use Rattle.numbers.specs.Decides.{Decides};
ghost use Rattle.model.specs.Start.{free_refused};
ghost use Rattle.box_header.specs.Numbers.{HeaderGood};
ghost use Rattle.model.specs.Header.{seen_lists};
ghost use Rattle.box_cores.specs.Boxes.{box_with, BoxValid};
ghost use Rattle.box_cores.specs.Given.{Judgement, free_gives, free_told, FreeAsked, free_given, FREE_NUMBERS, Whole, same};

use box_cores::ready;
use machine::entries::FreePages;
use model::Lent;
use numbers::{Refusal, SLOTS};

// Numbers of the free query's result: how many pages, and the lowest.
const FREE_NUMBERS: usize = 2;

// What every entry asks first, with a room of its length for the free query.
fn free_ready(header: &[u64], free_pages: &[u64], cpu_slots: usize, dma_slots: usize) -> bool
    ensures { Decides result ((Whole cpu_slots dma_slots × HeaderGood header.now) × (length free_pages.now ≡ FREE_NUMBERS)) }
{
    ready(header, cpu_slots, dma_slots) & (free_pages.len() == FREE_NUMBERS)
}

// ---- Validity.
pub fn valid(header: &[u64], seen: Lent<&[u64]>, cpu_slots: usize, dma_slots: usize) -> bool
    ensures { Decides result (Whole cpu_slots dma_slots × BoxValid same (box_with header.now (seen_lists seen.entry))) }
{
    ready(header, cpu_slots, dma_slots) && judge::valid(&box_header::machine_in(header), seen)
}

// ---- The free query.
pub fn free(
    header: &[u64],
    seen: Lent<&[u64]>,
    free_pages: &mut [u64],
    cpu_slots: usize,
    dma_slots: usize,
) -> u64
    ensures { let before = box_with header.now (seen_lists seen.entry) in
        Judgement (Whole cpu_slots dma_slots × FreeAsked same before free_pages.old)
        (free_gives same before free_pages.old) (free_told free_pages.old free_refused)
        (free_given result free_pages.new) }
{
    if !free_ready(header, free_pages, cpu_slots, dma_slots) {
        box_header::put_free(free_pages, 0, None);
        return Refusal::StateNotValid.into();
    }
    match machine::entries::free(&box_header::machine_in(header), seen) {
        Ok(FreePages { count, lowest }) => {
            box_header::put_free(free_pages, count, lowest);
            0
        }
        Err(refused) => {
            box_header::put_free(free_pages, 0, None);
            refused.refusal.into()
        }
    }
}
