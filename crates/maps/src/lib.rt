// Operations 7 to 10 and 15 to 20: what is mapped, who is on a port, and what a translation cache holds. CPU and DMA go the
// same way, each over the maps, the ports, the cache and the hand of its side.
#![tactic(auto)]

ghost use Rattle.std.specs.Prelude.{◌≡◌, ◌*◌, ◌<◌, ◌≤◌, length, set};
ghost use Rattle.std.specs.Prelude.{if◌then◌else◌};
ghost use Rattle.numbers.specs.Limits.{PAGES, PORTS, SETS, SET_WORDS};
ghost use Rattle.numbers.specs.Packing.{key_of};
ghost use Rattle.table.specs.Table.{place, is_found, set_at};
ghost use Rattle.maps.specs.Parts.{MapMay, MapReady, MapDone, MapLeft, UnmapReady, UnmapDone, UnmapLeft, PortLeft, FillReady, FillAnswer, FillDone, FillLeft, EmptyLeft};
ghost use Rattle.model.specs.Maps.{map_early, unmap_early, map_may, map_answer, unmap_may, unmap_answer};
ghost use Rattle.model.specs.Ports.{port_answer, port_ports, fill_answer, fill_place, next_hand, empty_answer, empty_cache};

use numbers::{
    ACCESSES, Answer, GENERATIONS, GUEST_PAGES, GuestPage, PORTS, PhysPage, Refusal, Refused,
    SLOTS, Side, VMS, VmId, accept, refuse,
};

// ---- Maps.

// A mapping that is asked for: where it goes, and what its entry says.
#[derive(Clone, Copy)]
pub struct Mapping {
    pub vm: VmId,
    pub guest: GuestPage,
    pub page: PhysPage,
    pub access: u64,
    pub generation: u64,
}

// What map decides before it looks at a table.
pub fn map_early(known: u64, pages: u64, m: Mapping) -> Answer
    ensures { result ≡ map_early known pages m.vm.0 m.guest.0 m.page.0 m.access m.generation }
{
    if !((m.vm.0 < VMS)
        & (m.guest.0 < GUEST_PAGES)
        & (m.page.0 < pages)
        & (m.access < ACCESSES)
        & (m.generation < GENERATIONS))
    {
        return refuse(Refusal::OutOfRange, 0);
    }
    if !views::knows(known, m.vm) {
        return refuse(Refusal::VmUnknown, 0);
    }
    accept(0)
}

// What unmap decides before it looks at a table.
pub fn unmap_early(known: u64, vm: VmId, guest: GuestPage) -> Answer
    ensures { result ≡ unmap_early known vm.0 guest.0 }
{
    if !((vm.0 < VMS) & (guest.0 < GUEST_PAGES)) {
        return refuse(Refusal::OutOfRange, 0);
    }
    if !views::knows(known, vm) {
        return refuse(Refusal::VmUnknown, 0);
    }
    accept(0)
}

// What map decides: where its entry goes, over the one of its key, else into the lowest empty place.
#[tactic(auto, unfolding(model::specs::Maps::map_may))]
pub fn map_may(
    side: Side,
    known: u64,
    pages: u64,
    sets: &[u64],
    pairs: &[u64],
    map: &[u64],
    m: Mapping,
) -> Result<usize, Refused>
    requires { (pages ≤ PAGES) × (length sets.now ≡ SETS * SET_WORDS) }
    ensures { MapMay (map_may side known pages sets.now pairs.now map.now m.vm.0 m.guest.0 m.page.0 m.access m.generation)
        map.now m result }
{
    map_early(known, pages, m)?;
    if !views::may_map(side, sets, pairs, m.vm, m.page) {
        return refuse(Refusal::PageNotHeld, 0);
    }
    match table::place(map, numbers::key(m.vm, m.guest)) {
        Some(at) => Ok(at),
        None => refuse(Refusal::NoRoom, 0),
    }
}

// What map does: the entry goes to its place and to the walker, and the slots of its VM and guest page go. Answers how many
// they were.
#[tactic(auto, using(table::specs::TableLaws::place_within), unfolding(model::specs::Maps::map_table, model::specs::Maps::matching_slots, model::specs::Maps::without_slots, table::specs::Table::put))]
pub fn map_do(map: &mut [u64], walker: &mut [u64], cache: &mut [u64], at: usize, m: Mapping) -> u64
    requires { MapReady map.old m at }
    ensures { MapDone map.old walker.old cache.old m result map.new walker.new cache.new }
{
    let key = numbers::key(m.vm, m.guest);
    let word = numbers::map_word(
        m.vm,
        m.guest,
        numbers::entry(m.page, m.access, m.generation),
    );
    map[at] = word;
    table::put(walker, key, word);
    table::drop_slots(cache, key)
}

// Operations 7 and 8.
#[tactic(auto, unfolding(model::specs::Maps::map_answer))]
pub fn map_page(
    side: Side,
    known: u64,
    pages: u64,
    sets: &[u64],
    pairs: &[u64],
    map: &mut [u64],
    walker: &mut [u64],
    cache: &mut [u64],
    m: Mapping,
) -> Answer
    requires { (pages ≤ PAGES) × (length sets.now ≡ SETS * SET_WORDS) }
    ensures { MapLeft (map_answer side known pages sets.now pairs.now map.old cache.old m.vm.0 m.guest.0 m.page.0 m.access m.generation)
        map.old walker.old cache.old m result map.new walker.new cache.new }
{
    let at = map_may(side, known, pages, sets, pairs, map, m)?;
    accept(map_do(map, walker, cache, at, m))
}

// What unmap decides.
#[tactic(auto, unfolding(model::specs::Maps::unmap_may))]
pub fn unmap_may(known: u64, map: &[u64], vm: VmId, guest: GuestPage) -> Answer
    ensures { result ≡ unmap_may known map.now vm.0 guest.0 }
{
    unmap_early(known, vm, guest)?;
    if table::find(map, numbers::key(vm, guest)).is_none() {
        return refuse(Refusal::MappingDiffers, 0);
    }
    accept(0)
}

// What unmap does: the entry of the VM and guest page goes from map and walker, and their slots go. Answers how many they were.
#[tactic(auto, unfolding(model::specs::Maps::unmap_table, model::specs::Maps::matching_slots, model::specs::Maps::without_slots))]
pub fn unmap_do(
    map: &mut [u64],
    walker: &mut [u64],
    cache: &mut [u64],
    vm: VmId,
    guest: GuestPage,
) -> u64
    requires { UnmapReady vm.0 guest.0 }
    ensures { UnmapDone map.old walker.old cache.old vm.0 guest.0 result map.new walker.new cache.new }
{
    let key = numbers::key(vm, guest);
    table::erase(map, key);
    table::erase(walker, key);
    table::drop_slots(cache, key)
}

// Operations 9 and 10. No claim ends, so nothing is cleared.
#[tactic(auto, unfolding(model::specs::Maps::unmap_answer))]
pub fn unmap_page(
    known: u64,
    map: &mut [u64],
    walker: &mut [u64],
    cache: &mut [u64],
    vm: VmId,
    guest: GuestPage,
) -> Answer
    ensures { UnmapLeft (unmap_answer known map.old cache.old vm.0 guest.0)
        map.old walker.old cache.old vm.0 guest.0 result map.new walker.new cache.new }
{
    unmap_may(known, map, vm, guest)?;
    accept(unmap_do(map, walker, cache, vm, guest))
}

// ---- Ports.

// What a switch decides.
#[tactic(auto, unfolding(model::specs::Ports::port_answer))]
pub fn port_answer(known: u64, port: u64, target: Option<VmId>) -> Answer
    ensures { result ≡ port_answer known port target }
{
    if !(port < PORTS) {
        return refuse(Refusal::OutOfRange, 0);
    }
    if let Some(vm) = target {
        if !(vm.0 < VMS) {
            return refuse(Refusal::OutOfRange, 0);
        }
        if !views::knows(known, vm) {
            return refuse(Refusal::VmUnknown, 0);
        }
    }
    accept(0)
}

// What a switch does: the target is on the port.
pub fn port_do(ports: &mut [u64; PORTS as usize], port: u64, target: Option<VmId>)
    requires { port < PORTS }
    ensures { ports.new ≡ port_ports ports.old port target }
{
    ports[port as usize] = numbers::target_number(target);
}

// Operations 15 and 16. A VM may be on several ports.
pub fn give_port(
    known: u64,
    ports: &mut [u64; PORTS as usize],
    port: u64,
    target: Option<VmId>,
) -> Answer
    ensures { PortLeft (port_answer known port target) ports.old port target result ports.new }
{
    let accepted = port_answer(known, port, target)?;
    port_do(ports, port, target);
    Ok(accepted)
}

// ---- Slots.

// Sets a slot; one past the end of the cache is none. By its index, since no clause of `get_mut` says what it leaves in a slice.
fn set_slot(cache: &mut [u64], slot: u64, word: u64)
    ensures { cache.new ≡ set cache.old slot word }
{
    let at = slot as usize;
    if at < cache.len() {
        cache[at] = word;
    }
}

// The slot after this one, from the last to the first. A hand past the last goes to the first too.
fn next_hand(hand: u64) -> u64
    ensures { result ≡ next_hand hand }
{
    if hand < SLOTS - 1 { hand + 1 } else { 0 }
}

// Stores a word over the slot of its key, else in the lowest empty slot, else in the slot at the hand, which steps only where
// its slot was taken.
#[tactic(auto, using(table::specs::TableLaws::place_within), unfolding(model::specs::Ports::fill_place))]
fn take_slot(cache: &mut [u64], hand: &mut u64, key: u64, word: u64)
    ensures { (hand.new ≡ (if is_found (place key_of cache.old key) then hand.old else next_hand hand.old))
        × (cache.new ≡ set_at cache.old (fill_place cache.old hand.old key) word) }
{
    match table::place(cache, key) {
        Some(slot) => cache[slot] = word,
        None => {
            set_slot(cache, *hand, word);
            *hand = next_hand(*hand);
        }
    }
}

// What a fill decides: the VM on the port, and the word that the walker has for it.
#[tactic(auto, unfolding(model::specs::Ports::fill_answer))]
pub fn fill_answer(
    ports: [u64; PORTS as usize],
    walker: &[u64],
    port: u64,
    guest: GuestPage,
) -> Result<(VmId, u64), Refused>
    ensures { FillAnswer (fill_answer ports walker.now port guest.0) ports walker.now port guest.0 result }
{
    if !((port < PORTS) & (guest.0 < GUEST_PAGES)) {
        return refuse(Refusal::OutOfRange, 0);
    }
    let vm = VmId(ports[port as usize]);
    if !(vm.0 < VMS) {
        return refuse(Refusal::PortIdle, 0);
    }
    let found = table::lookup(walker, numbers::key(vm, guest));
    if found == 0 {
        return refuse(Refusal::MappingDiffers, 0);
    }
    Ok((vm, found))
}

// What a fill does: a slot gets the walker's word.
pub fn fill_do(cache: &mut [u64], hand: &mut u64, port: u64, vm: VmId, guest: GuestPage, found: u64)
    requires { FillReady port vm.0 guest.0 }
    ensures { FillDone cache.old hand.old port vm.0 guest.0 found cache.new hand.new }
{
    let key = numbers::slot_key(port, vm, guest);
    let word = numbers::slot_word(port, vm, guest, numbers::entry_of(found));
    take_slot(cache, hand, key, word);
}

// Operations 17 and 18. The slot gets what the walker has for the port's VM and the guest page.
pub fn fill_slot(
    ports: [u64; PORTS as usize],
    walker: &[u64],
    cache: &mut [u64],
    hand: &mut u64,
    port: u64,
    guest: GuestPage,
) -> Answer
    ensures { FillLeft (fill_answer ports walker.now port guest.0) ports walker.now port guest.0 cache.old hand.old result cache.new hand.new }
{
    let (vm, found) = fill_answer(ports, walker, port, guest)?;
    fill_do(cache, hand, port, vm, guest, found);
    accept(0)
}

// What emptying a slot decides.
#[tactic(auto, unfolding(model::specs::Ports::empty_answer))]
pub fn empty_answer(slot: u64) -> Answer
    ensures { result ≡ empty_answer slot }
{
    if !(slot < SLOTS) {
        return refuse(Refusal::OutOfRange, 0);
    }
    accept(0)
}

// What emptying a slot does.
pub fn empty_do(cache: &mut [u64], slot: u64)
    ensures { cache.new ≡ empty_cache cache.old slot }
{
    set_slot(cache, slot, 0);
}

// Operations 19 and 20.
pub fn empty_slot(cache: &mut [u64], slot: u64) -> Answer
    ensures { EmptyLeft (empty_answer slot) cache.old slot result cache.new }
{
    let accepted = empty_answer(slot)?;
    empty_do(cache, slot);
    Ok(accepted)
}
