// The entry that makes a box: start, over caches of slot records. The entries over a box that stands are crate `tiligormis`.
#![tactic(auto)]

ghost use Rattle.start.specs.Begun.{told};
ghost use Rattle.box_cores.specs.Boxes.{box};
ghost use Rattle.box_cores.specs.Given.{Judgement, start_gives, start_given, start_refused, HeaderWhole};
ghost use Rattle.slots.specs.Slots.{words, slots_of};

use model::Lent;
use numbers::SLOTS;
use slots::Slot;

// Start. Refused, it leaves all that is lent as it was, and the header says the empty machine.
#[unsafe(no_mangle)]
pub extern "C" fn tiligormis_start(
    machine: &mut [u64],
    sets: &mut [u64],
    pairs: &mut [u64],
    cpu_map: &mut [u64],
    cpu_walker: &mut [u64],
    cpu_cache: &mut [Slot],
    dma_map: &mut [u64],
    dma_walker: &mut [u64],
    dma_cache: &mut [Slot],
    memory: &mut [u64],
    pages: u64,
    shared_base: u64,
    shared_count: u64,
    units: &[u64],
) -> u64
    ensures { let before = box machine.old sets.old pairs.old cpu_map.old cpu_walker.old cpu_cache.old
        dma_map.old dma_walker.old dma_cache.old memory.old in
        let left = box machine.new sets.new pairs.new cpu_map.new cpu_walker.new cpu_cache.new
        dma_map.new dma_walker.new dma_cache.new memory.new in
        Judgement (HeaderWhole machine.old)
        (start_gives words slots_of before (told pages shared_base shared_count units.now)) (start_refused before)
        (start_given result left) }
{
    let cpu_slots = cpu_cache.len();
    let dma_slots = dma_cache.len();
    let mut cpu_words = slots::load(&*cpu_cache, SLOTS as usize);
    let mut dma_words = slots::load(&*dma_cache, SLOTS as usize);
    let mut lent: Lent<&mut [u64]> = Lent {
        sets,
        pairs,
        cpu_map,
        cpu_walker,
        cpu_cache: &mut cpu_words,
        dma_map,
        dma_walker,
        dma_cache: &mut dma_words,
        memory,
    };
    let number = box_cores::start(
        machine,
        &mut lent,
        pages,
        shared_base,
        shared_count,
        units,
        cpu_slots,
        dma_slots,
    );
    slots::store(cpu_cache, &cpu_words, number == 0);
    slots::store(dma_cache, &dma_words, number == 0);
    number
}
