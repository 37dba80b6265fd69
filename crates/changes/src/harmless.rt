// Changes that leave a state valid: what the test must not mind.
use crate::base::{LAST_VM, pair, slot, unit};
use crate::state::{MEMORY_WORDS, Table};
use crate::{Cases, dma_row};
use numbers::{ACCESSES, IDLE, PORT_BIT, PORTS, SLOTS, Side, UNITS, VMS};
use std::io::Write;

// Of the state after start.
pub fn fresh<W: Write>(cases: &mut Cases<W>) {
    cases.rule = b"harmless";
    cases.header(b"empty span elsewhere", |m| m.fixed.shared_base = 0);
}

fn header<W: Write>(cases: &mut Cases<W>) {
    cases.rule = b"harmless";
    let past = unit(VMS, 0, 0, 0, ACCESSES);
    cases.header(b"unit past the count", |m| m.fixed.units[UNITS - 1] = past);
    cases.header(b"no units", |m| m.fixed.unit_count = 0);
    cases.header(b"every unit", |m| m.fixed.unit_count = UNITS as u64);
    cases.known(b"a VM more", 3);
    cases.known(b"a VM less", 14);
}

fn tables<W: Write>(cases: &mut Cases<W>) {
    cases.rule = b"harmless";
    cases.set(b"page of the pool for DMA", dma_row(1), 20);
    cases.set(b"page of its own for DMA", dma_row(1), 2);
    cases.set(b"DMA page that no map needs", dma_row(2), 5);
    let turned = pair(1, 2, 0) ^ pair(2, 1, 0);
    cases.flip(b"a pair more", Table::Pairs, 20, pair(1, LAST_VM, 2));
    cases.flip(b"a pair less", Table::Pairs, 2, pair(1, 6, 1));
    cases.flip(b"ends of a pair turned", Table::Pairs, 0, turned);
    cases.flip(b"memory", Table::Memory, MEMORY_WORDS - 1, 9);
}

// Places 0 and 9 of a walker are filled, 8 is empty.
fn walker<W: Write>(cases: &mut Cases<W>, table: Table) {
    cases.swap(b"two entries", table, 0, 9);
    cases.swap(b"an entry and an empty place", table, 8, 9);
}

fn cache<W: Write>(cases: &mut Cases<W>, table: Table) {
    let kept = slot(0, 1, 16, 0, 3, 0);
    cases.flip(b"a slot less", table, 0, kept);
    cases.flip(b"a slot more", table, 20, kept | 6 * PORT_BIT);
    cases.flip(b"a slot of another port", table, 0, PORT_BIT);
}

fn ports<W: Write>(cases: &mut Cases<W>, side: Side) {
    cases.port(b"port 2 idle", side, 2, IDLE);
    cases.port(
        b"last port with the last VM",
        side,
        PORTS as usize - 1,
        LAST_VM,
    );
    cases.hand(b"hand 0", side, 0);
    cases.hand(b"last hand", side, SLOTS - 1);
}

// Of the state at work.
pub fn busy<W: Write>(cases: &mut Cases<W>) {
    header(cases);
    tables(cases);
    cases.rule = b"harmless in the CPU walker";
    walker(cases, Table::CpuWalker);
    cases.rule = b"harmless in the DMA walker";
    walker(cases, Table::DmaWalker);
    cases.rule = b"harmless in the CPU cache";
    cache(cases, Table::CpuCache);
    cases.rule = b"harmless in the DMA cache";
    cache(cases, Table::DmaCache);
    cases.rule = b"harmless on the CPUs";
    ports(cases, Side::Cpu);
    cases.rule = b"harmless on the devices";
    ports(cases, Side::Dma);
}
