// One cache by itself: a slot searched, filled and emptied. Each function loads the slots, calls a core over their words, and
// stores them again where it may change them.
#![tactic(auto)]

ghost use Rattle.std.specs.Prelude.{◌≡◌};
ghost use Rattle.slots.specs.Calls.{find_slot, change, change_number, fill_slot, empty_slot};

use numbers::{Refusal, SLOTS};
use slots::Slot;

// The lowest filled slot, of the first 64, that holds this port, VM and guest page; 64 where there is none.
#[unsafe(no_mangle)]
pub extern "C" fn tiligormis_find_slot(slots: &[Slot], port: u64, vm: u64, guest: u64) -> usize
    ensures { result ≡ find_slot slots.now port vm guest }
{
    let words = slots::load(slots, slots.len());
    slots::find(&words, port, vm, guest).unwrap_or(SLOTS as usize)
}

// What C is told of a change: 0, or the number of its refusal.
fn number_of(answer: Result<(), Refusal>) -> u64
    ensures { result ≡ change_number answer }
{
    match answer {
        Ok(()) => 0,
        Err(refusal) => refusal.into(),
    }
}

// Fills slot `place`, or leaves all slots as they were and answers why.
#[unsafe(no_mangle)]
pub extern "C" fn tiligormis_fill_slot(
    slots: &mut [Slot],
    place: u64,
    port: u64,
    vm: u64,
    guest: u64,
    page: u64,
    access: u64,
    generation: u64,
) -> u64
    ensures { change result slots.new ≡ fill_slot slots.old place port vm guest page access generation }
{
    let count = slots.len();
    let mut words = slots::load(&*slots, SLOTS as usize);
    let answer = slots::fill(
        count, &mut words, place, port, vm, guest, page, access, generation,
    );
    slots::store(slots, &words, answer.is_ok());
    number_of(answer)
}

// Empties slot `place`, or leaves all slots as they were and answers why.
#[unsafe(no_mangle)]
pub extern "C" fn tiligormis_empty_slot(slots: &mut [Slot], place: u64) -> u64
    ensures { change result slots.new ≡ empty_slot slots.old place }
{
    let count = slots.len();
    let mut words = slots::load(&*slots, SLOTS as usize);
    let answer = slots::empty(count, &mut words, place);
    slots::store(slots, &words, answer.is_ok());
    number_of(answer)
}
