// The damaged states of rules 6 and 7, for a map or a cache of either side, which hold the same entries of VM 1.
use changes::base::{entry, pair, slot};
use changes::state::{N, Table};
use changes::{Cases, dma_row};
use numbers::{
    ACCESS_BIT, FILLED_BIT, GENERATION_BIT, GENERATIONS, GUEST_BIT, PAGE_BIT, PORT_BIT, PORT_FIELD,
    PORTS, VM_BIT, VMS,
};
use std::io::Write;

// ---- 6: maps.

// A map that has guest page 17 of VM 1 at place 1, on page 1 with access 1 and the last generation, and nothing at place 20. One
// field changes: VM 3 is not known, page 3 is not VM 1's, page 0 is.
fn map<W: Write>(cases: &mut Cases<W>, table: Table) {
    let kept = entry(1, 17, 1, 1, GENERATIONS - 1);
    let more = entry(1, 18, 1, 1, GENERATIONS - 1);
    cases.flip(b"port 1", table, 1, PORT_BIT);
    cases.flip(b"not filled", table, 1, FILLED_BIT);
    cases.flip(b"unknown VM", table, 1, 2 * VM_BIT);
    cases.flip(b"VM past the last", table, 1, VMS * VM_BIT);
    cases.flip(b"page N", table, 1, (N ^ 1) * PAGE_BIT);
    cases.flip(b"page not its own", table, 1, 2 * PAGE_BIT);
    cases.flip(b"other page", table, 1, PAGE_BIT);
    cases.flip(b"other access", table, 1, 2 * ACCESS_BIT);
    cases.flip(b"other generation", table, 1, GENERATION_BIT);
    cases.flip(b"key twice", table, 20, kept);
    cases.flip(b"key with two pages", table, 20, kept ^ PAGE_BIT);
    cases.flip(b"an entry less", table, 1, kept);
    cases.flip(b"an entry more", table, 20, more);
}

pub fn rule_6<W: Write>(cases: &mut Cases<W>) {
    cases.rule = b"6 CPU map";
    map(cases, Table::CpuMap);
    cases.rule = b"6 CPU walker";
    map(cases, Table::CpuWalker);
    cases.rule = b"6 DMA map";
    map(cases, Table::DmaMap);
    cases.rule = b"6 DMA walker";
    map(cases, Table::DmaWalker);
}

// Software and walker stay equal, and no other rule is broken.
pub fn rule_6_elsewhere<W: Write>(cases: &mut Cases<W>) {
    cases.rule = b"6 CPU maps";
    cases.flip(b"page not lent", Table::Pairs, 0, pair(1, 2, 0));
    cases.rule = b"6 DMA maps";
    cases.set(b"page not held", dma_row(1), 4);
    cases.known(b"VM not known", 5);
}

// ---- 7: caches.

// A cache that has port 0's guest page 16 of VM 1 in slot 0, on page 0 with access 3 and generation 0, and nothing in slot 20.
fn cache<W: Write>(cases: &mut Cases<W>, table: Table) {
    cases.flip(b"port past the last", table, 0, PORTS * PORT_BIT);
    cases.flip(b"highest bit of port", table, 0, PORT_FIELD / 2 * PORT_BIT);
    cases.flip(b"not filled", table, 0, FILLED_BIT);
    cases.flip(b"unknown VM", table, 0, 2 * VM_BIT);
    cases.flip(b"VM past the last", table, 0, VMS * VM_BIT);
    cases.flip(b"no such entry", table, 0, 2 * GUEST_BIT);
    cases.flip(b"entry of another key", table, 0, GUEST_BIT);
    cases.flip(b"other page", table, 0, PAGE_BIT);
    cases.flip(b"other access", table, 0, ACCESS_BIT);
    cases.flip(b"other generation", table, 0, GENERATION_BIT);
    cases.flip(b"key twice", table, 20, slot(0, 1, 16, 0, 3, 0));
}

pub fn rule_7<W: Write>(cases: &mut Cases<W>) {
    cases.rule = b"7 CPU cache";
    cache(cases, Table::CpuCache);
    cases.rule = b"7 DMA cache";
    cache(cases, Table::DmaCache);
}
