// The header of a machine as numbers alone, as it crosses to C: read into a machine, and written back.
#![tactic(auto)]

ghost use Rattle.std.specs.Prelude.{◌≡◌, ◌+◌, ◌*◌, ◌≤◌, length};
ghost use Rattle.numbers.specs.Decides.{Decides};
ghost use Rattle.numbers.specs.Limits.{PORTS, UNITS};
ghost use Rattle.numbers.specs.Meaning.{answer_numbers, number_of};
ghost use Rattle.table.specs.Scan.{any_below, repeat};
ghost use Rattle.model.specs.Sequence.{write_at};
ghost use Rattle.model.specs.Start.{UNIT_NUMBERS};
ghost use Rattle.box_header.specs.Numbers.{MACHINE_NUMBERS, fixed_of, registers_of, machine_of, HeaderGood, bad_mark, changed_by, unit_numbers, unit_written, begun_by, answered, lowest_number, free_numbers};

use model::{Fixed, Machine, Registers, SideRegisters};
use numbers::{Answer, PORTS, PhysPage, UNITS};
use start::UNIT_NUMBERS;
use units::Unit;

// ---- Where its numbers stand: the setup's four, then those that operations change, then the units.
const UNIT_COUNT_AT: usize = 3;

const KNOWN_AT: usize = 4;

const CPU_HAND_AT: usize = 5;

const DMA_HAND_AT: usize = 6;

const CPUS_AT: usize = 7;

const DEVICES_AT: usize = CPUS_AT + PORTS as usize;

const UNITS_AT: usize = DEVICES_AT + PORTS as usize;

// Of a unit's numbers, its mark.
const MARK_AT: usize = 5;

pub const MACHINE_NUMBERS: usize = UNITS_AT + UNITS * UNIT_NUMBERS;

// The lowest free page where none is free.
pub const NO_PAGE: u64 = u64::MAX;

// ---- Reading.

// Some unit within the count has a mark that is none.
fn any_bad_mark(units: &[u64], count: u64) -> bool
    requires { length units.now ≡ UNITS * UNIT_NUMBERS }
    ensures { result ≡ any_below (bad_mark units.now count) UNITS }
{
    for k in 0..UNITS {
        let mark = units[k * UNIT_NUMBERS + MARK_AT];
        if ((k as u64) < count) & !units::is_mark(mark) {
            return true;
        }
    }
    false
}

// Whether numbers are a header: as many as it has, and marks that are marks.
pub fn is_header(numbers: &[u64]) -> bool
    ensures { Decides result (HeaderGood numbers.now) }
{
    numbers.len() == MACHINE_NUMBERS
        && !any_bad_mark(&numbers[UNITS_AT..MACHINE_NUMBERS], numbers[UNIT_COUNT_AT])
}

// Eight numbers by value: the ports of a side, or a row.
pub fn eight(numbers: &[u64]) -> [u64; PORTS as usize]
    requires { length numbers.now ≡ PORTS }
    ensures { result ≡ numbers.now }
{
    numbers.try_into().unwrap()
}

fn fixed_in(numbers: &[u64]) -> Fixed
    requires { length numbers.now ≡ MACHINE_NUMBERS }
    ensures { result ≡ fixed_of numbers.now }
{
    Fixed {
        pages: numbers[0],
        shared_base: numbers[1],
        shared_count: numbers[2],
        units: start::units_told(&numbers[UNITS_AT..MACHINE_NUMBERS]),
        unit_count: numbers[UNIT_COUNT_AT],
    }
}

fn registers_in(numbers: &[u64]) -> Registers
    requires { length numbers.now ≡ MACHINE_NUMBERS }
    ensures { result ≡ registers_of numbers.now }
{
    Registers {
        known: numbers[KNOWN_AT],
        cpu: SideRegisters {
            ports: eight(&numbers[CPUS_AT..DEVICES_AT]),
            hand: numbers[CPU_HAND_AT],
        },
        dma: SideRegisters {
            ports: eight(&numbers[DEVICES_AT..UNITS_AT]),
            hand: numbers[DMA_HAND_AT],
        },
    }
}

#[inline(never)]
pub fn machine_in(numbers: &[u64]) -> Machine
    requires { length numbers.now ≡ MACHINE_NUMBERS }
    ensures { result ≡ machine_of numbers.now }
{
    Machine {
        fixed: fixed_in(numbers),
        registers: registers_in(numbers),
    }
}

// ---- Writing.

// The numbers of `from` over those of `numbers` from place `at` on.
fn put_numbers(numbers: &mut [u64], at: usize, from: &[u64])
    requires { at + length from.now ≤ length numbers.old }
    ensures { numbers.new ≡ write_at numbers.old at from.now }
{
    numbers[at..at + from.len()].copy_from_slice(from);
}

// The numbers that an operation may change; all others stay.
pub fn put_changed(numbers: &mut [u64], m: &Machine)
    requires { length numbers.old ≡ MACHINE_NUMBERS }
    ensures { numbers.new ≡ changed_by numbers.old m.now }
{
    let Registers { known, cpu, dma } = m.registers;
    put_numbers(numbers, KNOWN_AT, &[known, cpu.hand, dma.hand]);
    put_numbers(numbers, CPUS_AT, &cpu.ports);
    put_numbers(numbers, DEVICES_AT, &dma.ports);
}

fn unit_numbers(unit: Unit) -> [u64; UNIT_NUMBERS]
    ensures { result ≡ unit_numbers unit }
{
    let Unit { region, mark } = unit;
    [
        region.vm.0,
        region.guest.0,
        region.page.0,
        region.count,
        region.access,
        mark.into(),
    ]
}

// By value: of units by reference the compiled start keeps a second array on its stack, 1,536 bytes.
fn put_units(numbers: &mut [u64], units: [Unit; UNITS])
    requires { length numbers.old ≡ MACHINE_NUMBERS }
    ensures { numbers.new ≡ repeat (unit_written units) 0 UNITS numbers.old }
{
    for (k, unit) in units.iter().enumerate() {
        put_numbers(numbers, UNITS_AT + k * UNIT_NUMBERS, &unit_numbers(*unit));
    }
}

// All the numbers of a header.
pub fn put_machine(numbers: &mut [u64], m: &Machine)
    requires { length numbers.old ≡ MACHINE_NUMBERS }
    ensures { numbers.new ≡ begun_by numbers.old m.now }
{
    let fixed = &m.fixed;
    let setup = [
        fixed.pages,
        fixed.shared_base,
        fixed.shared_count,
        fixed.unit_count,
    ];
    put_numbers(numbers, 0, &setup);
    put_changed(numbers, m);
    put_units(numbers, fixed.units);
}

// ---- Answers as numbers.

pub fn number_of(answer: Answer) -> u64
    ensures { result ≡ number_of answer }
{
    match answer {
        Ok(_) => 0,
        Err(refused) => refused.refusal.into(),
    }
}

// Into a room of just as many places, and no other.
fn put_all(room: &mut [u64], from: &[u64])
    ensures { room.new ≡ answered room.old from.now }
{
    if room.len() == from.len() {
        put_numbers(room, 0, from);
    }
}

pub fn put_answer(room: &mut [u64], answer: Answer)
    ensures { room.new ≡ answered room.old (answer_numbers answer) }
{
    put_all(room, &numbers::answer_numbers(answer));
}

fn lowest_number(lowest: Option<PhysPage>) -> u64
    ensures { result ≡ lowest_number lowest }
{
    lowest.map_or(NO_PAGE, |page| page.0)
}

pub fn put_free(room: &mut [u64], count: u64, lowest: Option<PhysPage>)
    ensures { room.new ≡ answered room.old (free_numbers count lowest) }
{
    put_all(room, &[count, lowest_number(lowest)]);
}
