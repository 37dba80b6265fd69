// The entries, as C and Rust call them: a header of numbers, tables of words, and caches of slot records. Each loads both caches,
// calls the core over their words, and stores them again where it may change them. include/tiligormis.h is their manual.
ghost use Rattle.numbers.specs.Decides.{Decides};
ghost use Rattle.model.specs.Start.{free_refused};
ghost use Rattle.box_cores.specs.Boxes.{box, BoxValid};
ghost use Rattle.box_cores.specs.Given.{Judgement, given, operation_gives, operation_refused, OperationAsked, sequence_gives, refused_whole, free_gives, free_told, free_given, FreeAsked};
ghost use Rattle.slots.specs.Slots.{words, slots_of};

use model::Lent;
use numbers::SLOTS;
use slots::Slot;

// Whether a box is valid.
#[unsafe(no_mangle)]
pub extern "C" fn tiligormis_valid(
    machine: &[u64],
    sets: &[u64],
    pairs: &[u64],
    cpu_map: &[u64],
    cpu_walker: &[u64],
    cpu_cache: &[Slot],
    dma_map: &[u64],
    dma_walker: &[u64],
    dma_cache: &[Slot],
    memory: &[u64],
) -> bool
    ensures { Decides result (BoxValid words (box machine.now sets.now pairs.now cpu_map.now cpu_walker.now
        cpu_cache.now dma_map.now dma_walker.now dma_cache.now memory.now)) }
{
    let cpu_slots = cpu_cache.len();
    let dma_slots = dma_cache.len();
    let cpu_words = slots::load(cpu_cache, SLOTS as usize);
    let dma_words = slots::load(dma_cache, SLOTS as usize);
    let seen: Lent<&[u64]> = Lent {
        sets,
        pairs,
        cpu_map,
        cpu_walker,
        cpu_cache: &cpu_words,
        dma_map,
        dma_walker,
        dma_cache: &dma_words,
        memory,
    };
    box_reads::valid(machine, seen, cpu_slots, dma_slots)
}

// One operation, as a row. One that is refused leaves the box as it was.
#[unsafe(no_mangle)]
pub extern "C" fn tiligormis_operation(
    machine: &mut [u64],
    sets: &mut [u64],
    pairs: &mut [u64],
    cpu_map: &mut [u64],
    cpu_walker: &mut [u64],
    cpu_cache: &mut [Slot],
    dma_map: &mut [u64],
    dma_walker: &mut [u64],
    dma_cache: &mut [Slot],
    memory: &mut [u64],
    row: &[u64],
    answer: &mut [u64],
) -> u64
    ensures { let before = box machine.old sets.old pairs.old cpu_map.old cpu_walker.old cpu_cache.old
        dma_map.old dma_walker.old dma_cache.old memory.old in
        let left = box machine.new sets.new pairs.new cpu_map.new cpu_walker.new cpu_cache.new
        dma_map.new dma_walker.new dma_cache.new memory.new in
        Judgement (OperationAsked words before row.now answer.old)
        (operation_gives words slots_of before row.now answer.old)
        (operation_refused before answer.old) (given result answer.new left) }
{
    let cpu_slots = cpu_cache.len();
    let dma_slots = dma_cache.len();
    let mut cpu_words = slots::load(&*cpu_cache, SLOTS as usize);
    let mut dma_words = slots::load(&*dma_cache, SLOTS as usize);
    let mut lent: Lent<&mut [u64]> = Lent {
        sets,
        pairs,
        cpu_map,
        cpu_walker,
        cpu_cache: &mut cpu_words,
        dma_map,
        dma_walker,
        dma_cache: &mut dma_words,
        memory,
    };
    let number = box_cores::operation(machine, &mut lent, row, answer, cpu_slots, dma_slots);
    slots::store(cpu_cache, &cpu_words, number == 0);
    slots::store(dma_cache, &dma_words, number == 0);
    number
}

// All the rows, one after the other. Refused as a whole, it leaves the box and the answers as they were.
#[unsafe(no_mangle)]
pub extern "C" fn tiligormis_sequence(
    machine: &mut [u64],
    sets: &mut [u64],
    pairs: &mut [u64],
    cpu_map: &mut [u64],
    cpu_walker: &mut [u64],
    cpu_cache: &mut [Slot],
    dma_map: &mut [u64],
    dma_walker: &mut [u64],
    dma_cache: &mut [Slot],
    memory: &mut [u64],
    rows: &[u64],
    answers: &mut [u64],
) -> u64
    ensures { let before = box machine.old sets.old pairs.old cpu_map.old cpu_walker.old cpu_cache.old
        dma_map.old dma_walker.old dma_cache.old memory.old in
        let left = box machine.new sets.new pairs.new cpu_map.new cpu_walker.new cpu_cache.new
        dma_map.new dma_walker.new dma_cache.new memory.new in
        Judgement (BoxValid words before) (sequence_gives words slots_of before rows.now answers.old)
        (refused_whole before answers.old) (given result answers.new left) }
{
    let cpu_slots = cpu_cache.len();
    let dma_slots = dma_cache.len();
    let mut cpu_words = slots::load(&*cpu_cache, SLOTS as usize);
    let mut dma_words = slots::load(&*dma_cache, SLOTS as usize);
    let mut lent: Lent<&mut [u64]> = Lent {
        sets,
        pairs,
        cpu_map,
        cpu_walker,
        cpu_cache: &mut cpu_words,
        dma_map,
        dma_walker,
        dma_cache: &mut dma_words,
        memory,
    };
    let number = box_cores::sequence(machine, &mut lent, rows, answers, cpu_slots, dma_slots);
    slots::store(cpu_cache, &cpu_words, number == 0);
    slots::store(dma_cache, &dma_words, number == 0);
    number
}

// How many pages are free, and the lowest.
#[unsafe(no_mangle)]
pub extern "C" fn tiligormis_free(
    machine: &[u64],
    sets: &[u64],
    pairs: &[u64],
    cpu_map: &[u64],
    cpu_walker: &[u64],
    cpu_cache: &[Slot],
    dma_map: &[u64],
    dma_walker: &[u64],
    dma_cache: &[Slot],
    memory: &[u64],
    free_pages: &mut [u64],
) -> u64
    ensures { let before = box machine.now sets.now pairs.now cpu_map.now cpu_walker.now cpu_cache.now
        dma_map.now dma_walker.now dma_cache.now memory.now in
        Judgement (FreeAsked words before free_pages.old) (free_gives words before free_pages.old)
        (free_told free_pages.old free_refused) (free_given result free_pages.new) }
{
    let cpu_slots = cpu_cache.len();
    let dma_slots = dma_cache.len();
    let cpu_words = slots::load(cpu_cache, SLOTS as usize);
    let dma_words = slots::load(dma_cache, SLOTS as usize);
    let seen: Lent<&[u64]> = Lent {
        sets,
        pairs,
        cpu_map,
        cpu_walker,
        cpu_cache: &cpu_words,
        dma_map,
        dma_walker,
        dma_cache: &dma_words,
        memory,
    };
    box_reads::free(machine, seen, free_pages, cpu_slots, dma_slots)
}
