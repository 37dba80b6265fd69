// The machine's vocabulary: its limits, kinds of number, answers, operations and packed words.
// docs/MACHINE.md, sections 1 and 2, say what each means; specs/ gives each enum its numbers.
#![tactic(auto)]

ghost use Rattle.std.specs.Prelude.{◌≡◌, ◌<◌};
ghost use Rattle.numbers.specs.Meaning.{accept, refusal_number, answer_numbers, target_number};
ghost use Rattle.numbers.specs.Packing.{GENERATION_FIELD, ACCESS_FIELD, PAGE_FIELD, GUEST_BIT, GUEST_FIELD, VM_FIELD, PORT_FIELD, entry, slot_word, map_word, pair_word, slot_key, key, port_of, vm_of, guest_of, entry_of, page_of, access_of, generation_of, key_of, address_of, left_of, right_of, filled_of, pair_key, pair_key_of};

// ---- Limits. Each has this one name in code and the same name in specs/Limits.antt.

// A page is this many 64-bit words.
pub const PAGE_WORDS: u64 = 512;
// The most physical pages a machine may have.
pub const PAGES: u64 = 1024;
// Guest pages of a VM.
pub const GUEST_PAGES: u64 = 65536;
// VM ids.
pub const VMS: u64 = 16;
// CPUs, and as many devices.
pub const PORTS: u64 = 8;
// Entries of a map, software or walker.
pub const ENTRIES: usize = 512;
// Sharing pairs.
pub const PAIRS: usize = 128;
// Slots of a translation cache.
pub const SLOTS: u64 = 64;
// Units that start may be given.
pub const UNITS: usize = 32;
// Accesses: every sum of read 1, write 2 and execute 4.
pub const ACCESSES: u64 = 8;
// Generations of an entry.
pub const GENERATIONS: u64 = 65536;
// Words of one page set: a bit for each of PAGES.
pub const SET_WORDS: usize = (PAGES / 64) as usize;
// Page sets: the pool, the shared span, and two for each VM.
pub const SETS: usize = 2 + 2 * VMS as usize;
// How rows and the header write that a port is idle.
pub const IDLE: u64 = 4294967295;
// Numbers in a row of the sequence, and in its answer.
pub const ROW_NUMBERS: usize = 8;

pub const ANSWER_NUMBERS: usize = 4;

// ---- Fields of a packed word (docs/MACHINE.md, 3): how many numbers each can hold, and its lowest bit, which stands right
// above the field below it. Each has the same name in specs/Packing.antt.

// Generation, the lowest field.
pub const GENERATION_BIT: u64 = 1;

pub const GENERATION_FIELD: u64 = 65536;

pub const ACCESS_BIT: u64 = GENERATION_BIT * GENERATION_FIELD;

pub const ACCESS_FIELD: u64 = 8;

pub const PAGE_BIT: u64 = ACCESS_BIT * ACCESS_FIELD;

pub const PAGE_FIELD: u64 = 4096;
// The one bit that says filled.
pub const FILLED_BIT: u64 = PAGE_BIT * PAGE_FIELD;
// Below it stands the entry.
pub const GUEST_BIT: u64 = FILLED_BIT * 2;

pub const GUEST_FIELD: u64 = 65536;

pub const VM_BIT: u64 = GUEST_BIT * GUEST_FIELD;

pub const VM_FIELD: u64 = 256;

pub const PORT_BIT: u64 = VM_BIT * VM_FIELD;
// The highest field, up to bit 63.
pub const PORT_FIELD: u64 = 256;
// What VM, guest page and the bit that says filled can be together.
pub const ADDRESS_FIELD: u64 = VM_FIELD * GUEST_FIELD * 2;

// ---- Kinds of number, kept apart.

#[derive(Clone, Copy, PartialEq, Eq)]
pub struct VmId(pub u64);

#[derive(Clone, Copy, PartialEq, Eq)]
pub struct GuestPage(pub u64);

#[derive(Clone, Copy, PartialEq, Eq)]
pub struct PhysPage(pub u64);

// ---- The two sides of the machine, each with a map, a walker map, a cache, a hand and eight ports.
#[derive(Clone, Copy)]
pub enum Side {
    Cpu,
    Dma,
}

// ---- Why something is refused, in the order of the refusal numbers 1 to 16.
#[derive(Clone, Copy)]
pub enum Refusal {
    StateNotValid = 1,
    OutOfRange = 2,
    BadSpan = 3,
    VmUnknown = 4,
    VmKnown = 5,
    PageNotHeld = 6,
    PageClaimed = 7,
    NoSuchUnit = 8,
    MappingDiffers = 9,
    MappingPresent = 10,
    StillInUse = 11,
    PairWrong = 12,
    VmBusy = 13,
    NoRoom = 14,
    PortIdle = 15,
    AccessLacking = 16,
}

// ---- What an operation answers: how many slots it dropped and the word that it read, or why it is refused and where in its
// region.
#[derive(Clone, Copy)]
pub struct Accepted {
    pub dropped: u64,
    pub word: u64,
}

#[derive(Clone, Copy)]
pub struct Refused {
    pub refusal: Refusal,
    pub index: u64,
}

pub type Answer = Result<Accepted, Refused>;

// ---- A region as a caller names it: the five fields that a unit must equal.
#[derive(Clone, Copy, PartialEq, Eq)]
pub struct Region {
    pub vm: VmId,
    pub guest: GuestPage,
    pub page: PhysPage,
    pub count: u64,
    pub access: u64,
}

// ---- What each side has of its own: an operation on the CPU's tables or the same on the devices'.
#[derive(Clone, Copy)]
pub enum SideOperation {
    MapPage {
        vm: VmId,
        guest: GuestPage,
        page: PhysPage,
        access: u64,
        generation: u64,
    },
    UnmapPage(VmId, GuestPage),
    InsertRegion(Region),
    RemoveRegion(Region),
    GivePort(u64, Option<VmId>),
    FillSlot(u64, GuestPage),
    EmptySlot(u64),
    ReadWord {
        port: u64,
        guest: GuestPage,
        word: u64,
    },
    WriteWord {
        port: u64,
        guest: GuestPage,
        word: u64,
        value: u64,
    },
}

// ---- The operations, eighteen for the twenty-seven numbers: an operation of a side names the side once.
#[derive(Clone, Copy)]
pub enum Operation {
    AddVm(VmId),
    RemoveVm(VmId),
    AssignPage(VmId, PhysPage),
    ReclaimPage(VmId, PhysPage),
    SharePage(VmId, VmId, PhysPage),
    UnsharePage(VmId, VmId, PhysPage),
    On(Side, SideOperation),
    DataBarrier,
    InstructionBarrier,
    RetireVm(VmId),
}

// ---- Answers, made.

pub fn accept(dropped: u64) -> Answer
    ensures { result ≡ accept dropped 0 }
{
    Ok(Accepted { dropped, word: 0 })
}

// A refusal, in place of whatever is asked for.
pub fn refuse<T>(refusal: Refusal, index: u64) -> Result<T, Refused>
    ensures { result ≡ Err (record { refusal = refusal; index = index }) }
{
    Err(Refused { refusal, index })
}

// ---- The numbers of an enum.

impl From<Refusal> for u64 {
    ghost from_gives = { λ refusal number. number ≡ refusal_number refusal };

    fn from(refusal: Refusal) -> u64 {
        refusal as u64
    }
}

// Number, region index, dropped slots, word.
pub fn answer_numbers(answer: Answer) -> [u64; ANSWER_NUMBERS]
    ensures { result ≡ answer_numbers answer }
{
    match answer {
        Ok(Accepted { dropped, word }) => [0, 0, dropped, word],
        Err(Refused { refusal, index }) => [refusal.into(), index, 0, 0],
    }
}

// What a port is given: a VM, or nobody.
pub fn target_number(target: Option<VmId>) -> u64
    ensures { result ≡ target_number target }
{
    match target {
        Some(vm) => vm.0,
        None => IDLE,
    }
}

// ---- Packing. Each asks for the width of a field, not for a limit of the machine.

// The low half of a word: what a translation gives.
pub fn entry(page: PhysPage, access: u64, generation: u64) -> u64
    requires { (page.0 < PAGE_FIELD) × (access < ACCESS_FIELD) × (generation < GENERATION_FIELD) }
    ensures { result ≡ entry page.0 access generation }
{
    FILLED_BIT + page.0 * PAGE_BIT + access * ACCESS_BIT + generation
}

pub fn slot_word(port: u64, vm: VmId, guest: GuestPage, low: u64) -> u64
    requires { (port < PORT_FIELD) × (vm.0 < VM_FIELD) × (guest.0 < GUEST_FIELD) × (low < GUEST_BIT) }
    ensures { result ≡ slot_word port vm.0 guest.0 low }
{
    ((port * VM_FIELD + vm.0) * GUEST_FIELD + guest.0) * GUEST_BIT + low
}

pub fn map_word(vm: VmId, guest: GuestPage, low: u64) -> u64
    requires { (vm.0 < VM_FIELD) × (guest.0 < GUEST_FIELD) × (low < GUEST_BIT) }
    ensures { result ≡ map_word vm.0 guest.0 low }
{
    slot_word(0, vm, guest, low)
}

pub fn pair_word(left: VmId, right: VmId, page: PhysPage) -> u64
    requires { (left.0 < VM_FIELD) × (right.0 < GUEST_FIELD) × (page.0 < PAGE_FIELD) }
    ensures { result ≡ pair_word left.0 right.0 page.0 }
{
    slot_word(0, left, GuestPage(right.0), entry(page, 0, 0))
}

pub fn slot_key(port: u64, vm: VmId, guest: GuestPage) -> u64
    requires { (port < PORT_FIELD) × (vm.0 < VM_FIELD) × (guest.0 < GUEST_FIELD) }
    ensures { result ≡ slot_key port vm.0 guest.0 }
{
    ((port * VM_FIELD + vm.0) * GUEST_FIELD + guest.0) * 2 + 1
}

pub fn key(vm: VmId, guest: GuestPage) -> u64
    requires { (vm.0 < VM_FIELD) × (guest.0 < GUEST_FIELD) }
    ensures { result ≡ key vm.0 guest.0 }
{
    (vm.0 * GUEST_FIELD + guest.0) * 2 + 1
}

// The key of a pair, the same for either order of its ends.
pub fn pair_key(left: VmId, right: VmId, page: PhysPage) -> u64
    requires { (left.0 < GUEST_FIELD) × (right.0 < GUEST_FIELD) × (page.0 < PAGE_FIELD) }
    ensures { result ≡ pair_key left.0 right.0 page.0 }
{
    if left.0 < right.0 {
        return ((left.0 * GUEST_FIELD + right.0) * PAGE_FIELD + page.0) * 2 + 1;
    }
    ((right.0 * GUEST_FIELD + left.0) * PAGE_FIELD + page.0) * 2 + 1
}

// ---- Unpacking, of any word at all.

pub fn port_of(w: u64) -> u64
    ensures { result ≡ port_of w }
{
    w / PORT_BIT
}

pub fn vm_of(w: u64) -> VmId
    ensures { result.0 ≡ vm_of w }
{
    VmId(w / VM_BIT % VM_FIELD)
}

pub fn guest_of(w: u64) -> GuestPage
    ensures { result.0 ≡ guest_of w }
{
    GuestPage(w / GUEST_BIT % GUEST_FIELD)
}

pub fn entry_of(w: u64) -> u64
    ensures { result ≡ entry_of w }
{
    w % GUEST_BIT
}

// 1 where the word is filled, 0 where it is empty.
pub fn filled_of(w: u64) -> u64
    ensures { result ≡ filled_of w }
{
    w / FILLED_BIT % 2
}

pub fn page_of(w: u64) -> PhysPage
    ensures { result.0 ≡ page_of w }
{
    PhysPage(w / PAGE_BIT % PAGE_FIELD)
}

pub fn access_of(w: u64) -> u64
    ensures { result ≡ access_of w }
{
    w / ACCESS_BIT % ACCESS_FIELD
}

pub fn generation_of(w: u64) -> u64
    ensures { result ≡ generation_of w }
{
    w % GENERATION_FIELD
}

pub fn key_of(w: u64) -> u64
    ensures { result ≡ key_of w }
{
    w / FILLED_BIT
}

pub fn address_of(w: u64) -> u64
    ensures { result ≡ address_of w }
{
    w / FILLED_BIT % ADDRESS_FIELD
}

// The ends of a pair, in the order in which they were given.
pub fn left_of(w: u64) -> VmId
    ensures { result.0 ≡ left_of w }
{
    vm_of(w)
}

pub fn right_of(w: u64) -> VmId
    ensures { result.0 ≡ right_of w }
{
    let right = guest_of(w);
    VmId(right.0)
}

pub fn pair_key_of(w: u64) -> u64
    ensures { result ≡ pair_key_of w }
{
    let left = left_of(w);
    let right = right_of(w);
    let page = page_of(w);
    if left.0 < right.0 {
        return ((left.0 * GUEST_FIELD + right.0) * PAGE_FIELD + page.0) * 2 + filled_of(w);
    }
    ((right.0 * GUEST_FIELD + left.0) * PAGE_FIELD + page.0) * 2 + filled_of(w)
}
