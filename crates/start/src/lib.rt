// Start: what it is told is judged whole before a word is touched; then every table is made anew.
#![tactic(auto)]

ghost use Rattle.std.specs.Prelude.{◌≡◌, ◌&&◌, ◌+◌, ◌*◌, ◌<◌, ◌≤◌, ltb, leb, length, replicate};
ghost use Rattle.numbers.specs.Limits.{PAGES, SETS, SET_WORDS, UNITS};
ghost use Rattle.table.specs.Scan.{any_below, repeat};
ghost use Rattle.units.specs.Units.{no_unit};
ghost use Rattle.model.specs.Header.{Same, lists, seen_lists};
ghost use Rattle.model.specs.Start.{UNIT_NUMBERS, count_told, unit_told, units_told, bad_field, bad_span, lengths_good, start_answer, first_home, start};
ghost use Rattle.start.specs.Begun.{Sixes, told, told_by, began, left_by, zeros, fresh_registers, fresh_header, empty_header};

use model::{Fixed, Lent, Machine, Registers, SideRegisters};
use numbers::{
    ACCESSES, Answer, ENTRIES, GuestPage, IDLE, PAGE_WORDS, PAGES, PAIRS, PORTS, PhysPage, Refusal,
    Refused, Region, SET_WORDS, SETS, SLOTS, UNITS, VMS, VmId, accept, refuse,
};
use units::{Mark, Unit};

// ---- What start is told: pages, the shared span, and six numbers for each unit.
#[derive(Clone, Copy)]
struct Told<'a> {
    pages: u64,
    shared_base: u64,
    shared_count: u64,
    units: &'a [u64],
}

// ---- The units that start is told.

// Numbers of a unit: VM, guest page, page, count, access, mark.
pub const UNIT_NUMBERS: usize = 6;

// The numbers, six by six; fewer than six after the last unit are no unit.
fn sixes(units: &[u64]) -> &[[u64; UNIT_NUMBERS]]
    ensures { Sixes result.now units.now }
{
    units.as_chunks().0
}

// A number that is no mark's reads as CPU, which `bad_field` tells apart.
fn unit_told(six: [u64; UNIT_NUMBERS]) -> Unit
    ensures { result ≡ unit_told six 0 }
{
    let [vm, guest, page, count, access, mark] = six;
    Unit {
        region: Region {
            vm: VmId(vm),
            guest: GuestPage(guest),
            page: PhysPage(page),
            count,
            access,
        },
        mark: units::mark_of(mark),
    }
}

fn no_unit() -> Unit
    ensures { result ≡ no_unit }
{
    Unit {
        region: Region {
            vm: VmId(0),
            guest: GuestPage(0),
            page: PhysPage(0),
            count: 0,
            access: 0,
        },
        mark: Mark::Cpu,
    }
}

// The units that are told, and no unit past them. By `array::from_fn` the compiled start keeps three arrays more on its stack.
pub fn units_told(units: &[u64]) -> [Unit; UNITS]
    requires { count_told units.now ≤ UNITS }
    ensures { result ≡ units_told units.now }
{
    let mut all = [no_unit(); UNITS];
    for (k, six) in sixes(units).iter().enumerate() {
        all[k] = unit_told(*six);
    }
    all
}

// ---- What may be wrong with a unit: a field, by refusal 2, or its span, by 3.

fn bad_field(six: [u64; UNIT_NUMBERS]) -> bool
    ensures { result ≡ bad_field six 0 }
{
    let [vm, _, _, _, access, mark] = six;
    vm >= VMS || access >= ACCESSES || !units::is_mark(mark)
}

fn any_bad_field(units: &[u64]) -> bool
    ensures { result ≡ any_below (bad_field units.now) (count_told units.now) }
{
    sixes(units).iter().any(|six| bad_field(*six))
}

fn bad_span(pages: u64, six: [u64; UNIT_NUMBERS]) -> bool
    ensures { result ≡ bad_span pages six 0 }
{
    !units::region_span(unit_told(six).region, pages)
}

fn any_bad_span(pages: u64, units: &[u64]) -> bool
    ensures { result ≡ any_below (bad_span pages units.now) (count_told units.now) }
{
    sixes(units).iter().any(|six| bad_span(pages, *six))
}

// ---- The refusals.

// What refusal 1 asks: N and every length. N is judged first, so that its words can be counted.
fn lengths_good(seen: Lent<&[u64]>, told: Told) -> bool
    ensures { result ≡ (lengths_good (told_by told.entry) (seen_lists seen.entry) && ltb 0 told.entry.pages && leb told.entry.pages PAGES) }
{
    (1..=PAGES).contains(&told.pages)
        && seen.memory.len() as u64 == PAGE_WORDS * told.pages
        && seen.sets.len() == SETS * SET_WORDS
        && seen.pairs.len() == PAIRS
        && seen.cpu_map.len() == ENTRIES
        && seen.cpu_walker.len() == ENTRIES
        && seen.cpu_cache.len() == SLOTS as usize
        && seen.dma_map.len() == ENTRIES
        && seen.dma_walker.len() == ENTRIES
        && seen.dma_cache.len() == SLOTS as usize
        && told.units.len() % UNIT_NUMBERS == 0
}

// Every field is judged before any span.
#[tactic(auto, unfolding(model::specs::Start::start_answer))]
fn start_answer(seen: Lent<&[u64]>, told: Told) -> Answer
    ensures { result ≡ start_answer (told_by told.entry) (seen_lists seen.entry) }
{
    if !lengths_good(seen, told) {
        return refuse(Refusal::StateNotValid, 0);
    }
    if told.units.len() / UNIT_NUMBERS > UNITS || any_bad_field(told.units) {
        return refuse(Refusal::OutOfRange, 0);
    }
    if any_bad_span(told.pages, told.units) {
        return refuse(Refusal::BadSpan, 0);
    }
    if !units::span_within(told.shared_base, told.shared_count, told.pages) {
        return refuse(Refusal::BadSpan, 0);
    }
    accept(0)
}

// ---- The fresh page sets.

// The page goes into the shared span or into the pool.
fn first_home(sets: &mut [u64], shared_base: u64, shared_count: u64, page: PhysPage)
    requires { (shared_base + shared_count ≤ PAGES) × (page.0 < PAGES) × (length sets.old ≡ SETS * SET_WORDS) }
    ensures { sets.new ≡ first_home shared_base shared_count page.0 sets.old }
{
    let row = if (shared_base..shared_base + shared_count).contains(&page.0) {
        pages::SHARED
    } else {
        pages::POOL
    };
    pages::add(sets, row, page);
}

fn fresh_sets(sets: &mut [u64], told: Told)
    requires { (told.pages ≤ PAGES) × (told.shared_base + told.shared_count ≤ told.pages) × (length sets.old ≡ SETS * SET_WORDS) }
    ensures { sets.new ≡ repeat (first_home told.entry.shared_base told.entry.shared_count) 0 told.entry.pages (zeros sets.old) }
{
    table::clear_words(sets);
    for page in 0..told.pages {
        first_home(sets, told.shared_base, told.shared_count, PhysPage(page));
    }
}

// Every entry and every slot of a side becomes empty.
fn clear_route(map: &mut [u64], walker: &mut [u64], cache: &mut [u64])
    ensures { (map.new ≡ zeros map.old) × (walker.new ≡ zeros walker.old) × (cache.new ≡ zeros cache.old) }
{
    table::clear_words(map);
    table::clear_words(walker);
    table::clear_words(cache);
}

// ---- The two headers that start gives. Crate `box_header` reads one from numbers, and `changes` has its own to be damaged.

// No VM is known, every port is idle, and replacement begins at the first slot.
fn fresh_registers() -> Registers
    ensures { result ≡ fresh_registers }
{
    let side = SideRegisters {
        ports: [IDLE; PORTS as usize],
        hand: 0,
    };
    Registers {
        known: 0,
        cpu: side,
        dma: side,
    }
}

fn fresh_machine(told: Told) -> Machine
    requires { count_told told.units.now ≤ UNITS }
    ensures { result ≡ fresh_header (told_by told.entry) }
{
    Machine {
        fixed: Fixed {
            pages: told.pages,
            shared_base: told.shared_base,
            shared_count: told.shared_count,
            units: units_told(told.units),
            unit_count: (told.units.len() / UNIT_NUMBERS) as u64,
        },
        registers: fresh_registers(),
    }
}

// The machine of no pages, which is never valid.
pub fn empty_machine() -> Machine
    ensures { result ≡ empty_header }
{
    Machine {
        fixed: Fixed {
            pages: 0,
            shared_base: 0,
            shared_count: 0,
            units: [no_unit(); UNITS],
            unit_count: 0,
        },
        registers: fresh_registers(),
    }
}

// ---- Start.

// Refused, it touches nothing; accepted, every word that it was lent is made anew. The machine is a value, which the entry for C puts into the
// header without another one on its stack.
pub fn begin(
    lent: &mut Lent<&mut [u64]>,
    pages: u64,
    shared_base: u64,
    shared_count: u64,
    units: &[u64],
) -> Result<Machine, Refused>
    ensures begun { began result (lists lent.new) ≡ start (told pages shared_base shared_count units.now) (lists lent.old) }
    ensures same { Same lent.old lent.new }
{
    let told = Told {
        pages,
        shared_base,
        shared_count,
        units,
    };
    start_answer(lent.seen(), told)?;
    fresh_sets(lent.sets, told);
    table::clear_words(lent.pairs);
    clear_route(lent.cpu_map, lent.cpu_walker, lent.cpu_cache);
    clear_route(lent.dma_map, lent.dma_walker, lent.dma_cache);
    table::clear_words(lent.memory);
    Ok(fresh_machine(told))
}

// The same with a machine that it is lent: refused, it gives the empty machine.
pub fn start(
    m: &mut Machine,
    lent: &mut Lent<&mut [u64]>,
    pages: u64,
    shared_base: u64,
    shared_count: u64,
    units: &[u64],
) -> Answer
    ensures begun { left_by result m.new (lists lent.new) ≡ start (told pages shared_base shared_count units.now) (lists lent.old) }
    ensures same { Same lent.old lent.new }
{
    match begin(lent, pages, shared_base, shared_count, units) {
        Ok(machine) => {
            *m = machine;
            accept(0)
        }
        Err(refused) => {
            *m = empty_machine();
            Err(refused)
        }
    }
}
