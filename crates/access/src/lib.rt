// Memory: clearing a page, and what a port reads and writes of it. CPUs and devices go the same way, each over the ports,
// the cache and the walker of its side.
#![tactic(auto)]

ghost use Rattle.std.specs.Prelude.{◌≡◌, ◌+◌, ◌*◌, ◌<◌, ◌≤◌, length};
ghost use Rattle.numbers.specs.Limits.{PAGE_WORDS, WRITE};
ghost use Rattle.numbers.specs.Packing.{PORT_FIELD, VM_FIELD, GUEST_FIELD};
ghost use Rattle.model.specs.Access.{translate, allows, access_answer};
ghost use Rattle.model.specs.Effect.{clear_page};
ghost use Rattle.model.specs.Ports.{vm_on};
ghost use Rattle.access.specs.Words.{answer_of, place_of, access_index, read_answer, written_memory};

use numbers::{
    Accepted, Answer, GUEST_PAGES, GuestPage, IDLE, PAGE_WORDS, PORTS, PhysPage, Refusal, Refused,
    VMS, VmId, accept, refuse,
};

// ---- Clearing.

// The page's words become 0. They are lent alone, so that no other word can change.
pub fn clear_page(memory: &mut [u64], page: PhysPage)
    requires { page.0 * PAGE_WORDS + PAGE_WORDS ≤ length memory.old }
    ensures { memory.new ≡ clear_page memory.old page.0 }
{
    let start = (page.0 * PAGE_WORDS) as usize;
    table::clear_words(&mut memory[start..start + PAGE_WORDS as usize]);
}

// ---- Access.

// The bits of an access that operations 21 to 24 ask for.
pub const READ: u64 = 1;

pub const WRITE: u64 = 2;

// The VM on a port; nobody is on one that there is not.
pub fn vm_on(ports: [u64; PORTS as usize], port: u64) -> u64
    ensures { result ≡ vm_on ports port }
{
    if port < PORTS {
        ports[port as usize]
    } else {
        IDLE
    }
}

// The word that translates: the port's slot if one is held, else the walker's entry, 0 where there is neither.
pub fn translate(cache: &[u64], walker: &[u64], port: u64, vm: VmId, guest: GuestPage) -> u64
    requires { (port < PORT_FIELD) × (vm.0 < VM_FIELD) × (guest.0 < GUEST_FIELD) }
    ensures { result ≡ translate cache.now walker.now port vm.0 guest.0 }
{
    let slot = table::lookup(cache, numbers::slot_key(port, vm, guest));
    if slot == 0 {
        return table::lookup(walker, numbers::key(vm, guest));
    }
    slot
}

// The entry has the access bit.
fn allows(bit: u64, entry: u64) -> bool
    requires { 0 < bit }
    ensures { result ≡ allows bit entry }
{
    numbers::access_of(entry) / bit % 2 == 1
}

// The place in memory at which an access ends, past the refusals in their order.
fn reach(
    ports: [u64; PORTS as usize],
    cache: &[u64],
    walker: &[u64],
    bit: u64,
    port: u64,
    guest: GuestPage,
    word: u64,
) -> Result<usize, Refused>
    requires { 0 < bit }
    ensures { (answer_of result ≡ access_answer ports cache.now walker.now bit port guest.0 word)
        × (place_of result ≡ access_index ports cache.now walker.now bit port guest.0 word) }
{
    if !((port < PORTS) & (guest.0 < GUEST_PAGES) & (word < PAGE_WORDS)) {
        return refuse(Refusal::OutOfRange, 0);
    }
    let vm = vm_on(ports, port);
    if !(vm < VMS) {
        return refuse(Refusal::PortIdle, 0);
    }
    let entry = translate(cache, walker, port, VmId(vm), guest);
    if entry == 0 {
        return refuse(Refusal::MappingDiffers, 0);
    }
    if !allows(bit, entry) {
        return refuse(Refusal::AccessLacking, 0);
    }
    let page = numbers::page_of(entry);
    Ok((page.0 * PAGE_WORDS + word) as usize)
}

// Operations 21 and 22. A word past the end of memory reads as 0.
pub fn read_word(
    ports: [u64; PORTS as usize],
    cache: &[u64],
    walker: &[u64],
    memory: &[u64],
    port: u64,
    guest: GuestPage,
    word: u64,
) -> Answer
    ensures { result ≡ read_answer ports cache.now walker.now memory.now port guest.0 word }
{
    let place = reach(ports, cache, walker, READ, port, guest, word)?;
    let word = memory.get(place).copied().unwrap_or(0);
    Ok(Accepted { dropped: 0, word })
}

// Operations 23 and 24. A place past the end of memory is not written.
pub fn write_word(
    ports: [u64; PORTS as usize],
    cache: &[u64],
    walker: &[u64],
    memory: &mut [u64],
    port: u64,
    guest: GuestPage,
    word: u64,
    value: u64,
) -> Answer
    ensures { (result ≡ access_answer ports cache.now walker.now WRITE port guest.0 word)
        × (memory.new ≡ written_memory ports cache.now walker.now memory.old port guest.0 word value) }
{
    let place = reach(ports, cache, walker, WRITE, port, guest, word)?;
    if place < memory.len() {
        memory[place] = value;
    }
    accept(0)
}
