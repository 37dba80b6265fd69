// Slot records, and one cache of them as the words of the core: loaded, stored, and one slot searched, filled and emptied.
#![tactic(auto)]

ghost use Rattle.std.specs.Prelude.{◌≡◌, map};
ghost use Rattle.slots.specs.Calls.{found, find_slot, change, change_number, fill_word, empty_word};
ghost use Rattle.slots.specs.Slots.{Fits, word_of, slot_of, turns_of, loaded, Fitting, stores_of, stored};

use numbers::{
    ACCESSES, GENERATIONS, GUEST_FIELD, GUEST_PAGES, GuestPage, PAGES, PORT_FIELD, PORTS, PhysPage,
    Refusal, SLOTS, VM_FIELD, VMS, VmId,
};

// ---- A slot of a translation cache. Its numbers fill 64 bits, so that any record is the slot of one word.
#[repr(C)]
#[derive(Clone, Copy)]
pub struct Slot {
    pub port: u8,
    pub vm: u8,
    pub guest: u16,
    pub entry: u32,
}

impl From<Slot> for u64 {
    ghost from_gives = { λ slot word. (word ≡ word_of slot) × Fits slot };

    fn from(slot: Slot) -> u64 {
        let vm = VmId(slot.vm.into());
        let guest = GuestPage(slot.guest.into());
        numbers::slot_word(slot.port.into(), vm, guest, slot.entry.into())
    }
}

impl From<u64> for Slot {
    ghost from_gives = { λ word slot. slot ≡ slot_of word };

    fn from(word: u64) -> Slot {
        Slot {
            port: numbers::port_of(word) as u8,
            vm: numbers::vm_of(word).0 as u8,
            guest: numbers::guest_of(word).0 as u16,
            entry: numbers::entry_of(word) as u32,
        }
    }
}

// ---- A cache as the words of the core, by value.

// How many slots of a cache are gone through: its first 64, and none of a cache that has not as many slots as are wanted.
fn turns(count: usize, wanted: usize) -> usize
    ensures { result ≡ turns_of count wanted }
{
    if count != wanted {
        return 0;
    }
    count.min(SLOTS as usize)
}

// The words of the first 64 slots of a cache that has as many as are wanted, 0 where there are fewer. Of another cache no
// slot is looked at, and all words are 0. It tells as well that every number of a slot that was loaded is within its field.
pub fn load(slots: &[Slot], wanted: usize) -> [u64; SLOTS as usize]
    ensures { (result ≡ loaded wanted slots.now) × Fitting wanted slots.now }
{
    let first = &slots[..turns(slots.len(), wanted)];
    let mut words = [0; SLOTS as usize];
    // By index, as in `store`: of what a zip with `words.iter_mut()` leaves, a proof knows no word.
    for (i, slot) in first.iter().enumerate() {
        words[i] = u64::from(*slot);
    }
    words
}

// How many slots are stored: all of a whole cache where the call was accepted, none where it was refused.
fn stores(count: usize, accepted: bool) -> usize
    ensures { result ≡ stores_of count accepted }
{
    if !accepted {
        return 0;
    }
    turns(count, SLOTS as usize)
}

// The slots of the words that a call left. One that was refused stores nothing; nor is a cache changed that has not 64 slots.
pub fn store(slots: &mut [Slot], words: &[u64; SLOTS as usize], accepted: bool)
    ensures { slots.new ≡ stored accepted words.now slots.old }
{
    let first = &words[..stores(slots.len(), accepted)];
    for (i, word) in first.iter().enumerate() {
        slots[i] = Slot::from(*word);
    }
}

// ---- The search. No slot holds a number that is too large for its field.
#[tactic(auto, using(crate::specs::CallLaws::find_by_key))]
pub fn find(words: &[u64; SLOTS as usize], port: u64, vm: u64, guest: u64) -> Option<usize>
    ensures { result ≡ found (find_slot (map slot_of words.now) port vm guest) }
{
    if !((port < PORT_FIELD) & (vm < VM_FIELD) & (guest < GUEST_FIELD)) {
        return None;
    }
    table::find(words, numbers::slot_key(port, VmId(vm), GuestPage(guest)))
}

// ---- A change of one slot. C names its numbers one by one, and lends a cache of any length: `count` says how many slots it has,
// where its words are always 64.

// Fills slot `place`, or says why not.
#[tactic(auto, unfolding(crate::specs::Calls::fill_word))]
pub fn fill(
    count: usize,
    words: &mut [u64; SLOTS as usize],
    place: u64,
    port: u64,
    vm: u64,
    guest: u64,
    page: u64,
    access: u64,
    generation: u64,
) -> Result<(), Refusal>
    ensures { change (change_number result) words.new ≡ fill_word count words.old place port vm guest page access generation }
{
    if count != SLOTS as usize {
        return Err(Refusal::StateNotValid);
    }
    if !((place < SLOTS)
        & (port < PORTS)
        & (vm < VMS)
        & (guest < GUEST_PAGES)
        & (page < PAGES)
        & (access < ACCESSES)
        & (generation < GENERATIONS))
    {
        return Err(Refusal::OutOfRange);
    }
    let low = numbers::entry(PhysPage(page), access, generation);
    words[place as usize] = numbers::slot_word(port, VmId(vm), GuestPage(guest), low);
    Ok(())
}

// Empties slot `place`, or says why not.
#[tactic(auto, unfolding(crate::specs::Calls::empty_word))]
pub fn empty(count: usize, words: &mut [u64; SLOTS as usize], place: u64) -> Result<(), Refusal>
    ensures { change (change_number result) words.new ≡ empty_word count words.old place }
{
    if count != SLOTS as usize {
        return Err(Refusal::StateNotValid);
    }
    if !(place < SLOTS) {
        return Err(Refusal::OutOfRange);
    }
    words[place as usize] = 0;
    Ok(())
}
