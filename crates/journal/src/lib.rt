// The operation log for C and Rust: a row written as a record, a record read as a row, and the records of a log replayed over a box
// whose caches are slot records (docs/MACHINE.md, 14). include/tiligormis.h is their manual.
#![tactic(auto)]

ghost use Rattle.std.specs.Prelude.{◌≡◌};
ghost use Rattle.box_cores.specs.Boxes.{box};
ghost use Rattle.box_cores.specs.Given.{Judgement};
ghost use Rattle.box_replay.specs.Given.{replay_given, ReplayAsked, replay_gives, replay_not_valid, stored_by};
ghost use Rattle.journal.specs.Given.{shaped, log_given, log_written, row_given, log_read};
ghost use Rattle.slots.specs.Slots.{words, slots_of};

use model::Lent;
use numbers::{ROW_NUMBERS, Refusal, SLOTS};
use replay::Stop;
use slots::Slot;

// Whether a row and a place are of their lengths.
fn shaped(row: &[u64], place: &[u64]) -> bool
    ensures { result ≡ shaped row.now place.now }
{
    (row.len() == ROW_NUMBERS) & (place.len() == 1)
}

// Writes a row's record at the place, and moves the place past it. Refused, it leaves both.
#[unsafe(no_mangle)]
pub extern "C" fn tiligormis_log_write(row: &[u64], log: &mut [u8], place: &mut [u64]) -> u64
    ensures { log_given result log.new place.new ≡ log_written row.now log.old place.old }
{
    if !shaped(row, place) {
        return Refusal::StateNotValid.into();
    }
    match operation_log::write(box_header::eight(row), log, place[0] as usize) {
        Ok(next) => {
            place[0] = next as u64;
            0
        }
        Err(why) => why.into(),
    }
}

// Reads the record at the place as a row, and moves the place past it; at the log's end the row is zeros, and the place stays.
// Refused, it leaves both.
#[unsafe(no_mangle)]
pub extern "C" fn tiligormis_log_read(log: &[u8], place: &mut [u64], row: &mut [u64]) -> u64
    ensures { row_given result place.new row.new ≡ log_read log.now place.old row.old }
{
    if !shaped(row, place) {
        return Refusal::StateNotValid.into();
    }
    match operation_log::record_at(log, place[0] as usize) {
        Ok(Some(taken)) => {
            row.copy_from_slice(&taken.row);
            place[0] = taken.next as u64;
            0
        }
        Ok(None) => {
            row.fill(0);
            0
        }
        Err(why) => why.into(),
    }
}

// Whether caches are stored: those of a box that was taken.
fn stored_by(stop: Result<(), Stop>) -> bool
    ensures { result ≡ stored_by stop }
{
    stop != Err(Stop::NotValid)
}

// At most so many records from the place on, one after the other, and the place of the next. A box that is not valid is refused with 1
// and left; a record that cannot be read stops it, with the box as far as it came.
#[unsafe(no_mangle)]
pub extern "C" fn tiligormis_replay(
    machine: &mut [u64],
    sets: &mut [u64],
    pairs: &mut [u64],
    cpu_map: &mut [u64],
    cpu_walker: &mut [u64],
    cpu_cache: &mut [Slot],
    dma_map: &mut [u64],
    dma_walker: &mut [u64],
    dma_cache: &mut [Slot],
    memory: &mut [u64],
    log: &[u8],
    place: &mut [u64],
    most: u64,
    answers: &mut [u64],
    taken: &mut [u64],
) -> u64
    ensures { let before = box machine.old sets.old pairs.old cpu_map.old cpu_walker.old cpu_cache.old
        dma_map.old dma_walker.old dma_cache.old memory.old in
        let left = box machine.new sets.new pairs.new cpu_map.new cpu_walker.new cpu_cache.new
        dma_map.new dma_walker.new dma_cache.new memory.new in
        Judgement (ReplayAsked words before place.old taken.old)
        (replay_gives words slots_of before log.now place.old most answers.old)
        (replay_not_valid before place.old answers.old taken.old)
        (replay_given result place.new answers.new taken.new left) }
{
    let cpu_slots = cpu_cache.len();
    let dma_slots = dma_cache.len();
    let mut cpu_words = slots::load(&*cpu_cache, SLOTS as usize);
    let mut dma_words = slots::load(&*dma_cache, SLOTS as usize);
    let mut lent: Lent<&mut [u64]> = Lent {
        sets,
        pairs,
        cpu_map,
        cpu_walker,
        cpu_cache: &mut cpu_words,
        dma_map,
        dma_walker,
        dma_cache: &mut dma_words,
        memory,
    };
    let stop = box_replay::replay(
        machine, &mut lent, log, place, most, answers, taken, cpu_slots, dma_slots,
    );
    let stored = stored_by(stop);
    slots::store(cpu_cache, &cpu_words, stored);
    slots::store(dma_cache, &dma_words, stored);
    replay::stop_number(stop)
}
