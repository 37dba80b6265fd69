// The damaged states, a function or two for each rule of the manual. Most break one clause of one rule and no other.
ghost use Rattle.std.specs.Prelude.{◌+◌, ◌<◌};
ghost use Rattle.changes.specs.Words.{WORDS};

use changes::base::{LAST_VM, fresh_header, pair, unit};
use changes::state::{
    CACHE_WORDS, CPU_CACHE_AT, CPU_MAP_AT, CPU_WALKER_AT, Cut, DMA_CACHE_AT, DMA_MAP_AT,
    DMA_WALKER_AT, MEMORY_AT, MEMORY_WORDS, N, PAIRS_AT, SETS_AT, SETS_WORDS, Table, WORDS,
};
use changes::{Cases, POOL, SHARED, cpu_row, dma_row};
use numbers::{
    ACCESS_BIT, ACCESSES, ENTRIES, FILLED_BIT, GENERATION_BIT, GUEST_PAGES, IDLE, PAGES, PAIRS,
    PORT_BIT, PORTS, SLOTS, Side, UNITS, VM_FIELD, VMS,
};
use std::io::Write;
use units::Unit;

// ---- 1: lengths.

// The slice that begins at `at`, of `own` words.
fn length<W: Write>(cases: &mut Cases<W>, slice: &[u8], at: usize, own: usize)
    requires { (0 < own) × (at + own < WORDS) }
{
    cases.rule = b"1 a word short";
    cases.cut(slice, Cut { at, count: own - 1 });
    cases.rule = b"1 a word long";
    cases.cut(slice, Cut { at, count: own + 1 });
}

pub fn rule_1<W: Write>(cases: &mut Cases<W>) {
    length(cases, b"page sets", SETS_AT, SETS_WORDS);
    length(cases, b"pairs", PAIRS_AT, PAIRS);
    length(cases, b"CPU map", CPU_MAP_AT, ENTRIES);
    length(cases, b"CPU walker", CPU_WALKER_AT, ENTRIES);
    length(cases, b"CPU cache", CPU_CACHE_AT, CACHE_WORDS);
    length(cases, b"DMA map", DMA_MAP_AT, ENTRIES);
    length(cases, b"DMA walker", DMA_WALKER_AT, ENTRIES);
    length(cases, b"DMA cache", DMA_CACHE_AT, CACHE_WORDS);
}

// ---- 2: setup.

// What a refused start gives, over words that are all 0 and no memory: all that is wrong is that it has no pages.
pub fn rule_2_empty_machine<W: Write>(to: &mut W, words: &[u64; WORDS]) {
    let mut none = fresh_header();
    none.fixed.pages = 0;
    none.fixed.shared_base = 0;
    let mut cases = Cases {
        to,
        rule: b"2 setup",
        m: &none,
        words,
    };
    let at = MEMORY_AT;
    cases.cut(b"empty machine", Cut { at, count: 0 });
}

// Of the state after start, whose shared span is empty: no row says where it lies.
pub fn rule_2_empty_span<W: Write>(cases: &mut Cases<W>) {
    cases.rule = b"2 empty span";
    cases.header(b"past N", |m| m.fixed.shared_base = N + 1);
    // N and this are 2^64.
    let count = u64::MAX - N + 1;
    cases.header(b"its end wraps", |m| m.fixed.shared_count = count);
}

pub fn rule_2<W: Write>(cases: &mut Cases<W>) {
    cases.rule = b"2 setup";
    cases.header(b"N is 0", |m| m.fixed.pages = 0);
    cases.header(b"N a page less", |m| m.fixed.pages = N - 1);
    cases.header(b"N a page more", |m| m.fixed.pages = N + 1);
    cases.header(b"N past PAGES", |m| m.fixed.pages = PAGES + 1);
    cases.header(b"N is 2^64 - 1", |m| m.fixed.pages = u64::MAX);
    cases.header(b"span past N", |m| m.fixed.shared_base = N - 1);
    cases.header(b"span wraps", |m| m.fixed.shared_base = u64::MAX);
    cases.header(
        b"a unit too many",
        |m| m.fixed.unit_count = UNITS as u64 + 1,
    );
    cases.header(b"2^64 - 1 units", |m| m.fixed.unit_count = u64::MAX);
}

// The last unit that is counted.
fn last<W: Write>(cases: &mut Cases<W>, clause: &[u8], unit: Unit) {
    cases.header(clause, |m| m.fixed.units[UNITS - 2] = unit);
}

pub fn rule_2_unit<W: Write>(cases: &mut Cases<W>) {
    cases.rule = b"2 unit";
    last(cases, b"VM past the last", unit(VMS, 16, 0, 3, 3));
    last(cases, b"access past the last", unit(1, 16, 0, 3, ACCESSES));
    last(cases, b"no pages", unit(1, 16, 0, 0, 3));
    last(cases, b"past N", unit(1, 16, N - 2, 3, 3));
    last(
        cases,
        b"past guest pages",
        unit(1, GUEST_PAGES - 2, 0, 3, 3),
    );
    last(cases, b"page wraps", unit(1, 16, u64::MAX, 3, 3));
    last(cases, b"guest page wraps", unit(1, u64::MAX, 0, 3, 3));
    last(cases, b"count wraps", unit(1, 16, 1, u64::MAX, 3));
}

// ---- 3: known VMs.

pub fn rule_3<W: Write>(cases: &mut Cases<W>) {
    cases.rule = b"3 known";
    cases.known(b"VM past the last", VMS);
    cases.known(b"VM 63", 63);
}

// ---- 4: page sets.

// By the header: the shared row is no longer the span, or a VM with a page is no longer known.
pub fn rule_4_header<W: Write>(cases: &mut Cases<W>) {
    cases.rule = b"4 page sets";
    cases.header(b"span too long", |m| m.fixed.shared_count = 3);
    cases.header(b"span too short", |m| m.fixed.shared_count = 1);
    cases.header(b"span too far", |m| m.fixed.shared_base = 67);
    cases.known(b"owner of a page not known", 10);
    cases.known(b"holder for DMA not known", 11);
}

pub fn rule_4_bounds<W: Write>(cases: &mut Cases<W>) {
    cases.rule = b"4 page sets";
    let last_row = dma_row(LAST_VM as usize);
    cases.set(b"page N in the pool", POOL, N);
    cases.set(b"last page in the pool", POOL, PAGES - 1);
    cases.set(b"page N in the shared row", SHARED, N);
    cases.set(b"page N among CPU pages", cpu_row(1), N);
    cases.set(b"page N among DMA pages", dma_row(1), N);
    cases.set(b"last page among DMA pages", last_row, PAGES - 1);
}

pub fn rule_4_homes<W: Write>(cases: &mut Cases<W>) {
    cases.rule = b"4 page sets";
    cases.set(b"shared row a page short", SHARED, 66);
    cases.set(b"shared row a page long", SHARED, 68);
    cases.set(b"page in no home", POOL, 20);
    cases.set(b"page of pool and span", POOL, 67);
    cases.set(b"page of pool and VM", cpu_row(1), 20);
    cases.set(b"page of span and VM", cpu_row(5), 66);
    cases.set(b"page of two VMs", cpu_row(2), 2);
    cases.set(b"CPU page of an unknown VM", cpu_row(3), 20);
    cases.set(b"DMA page of an unknown VM", dma_row(3), 20);
    cases.set(b"DMA page of two VMs", dma_row(2), 4);
    cases.set(b"DMA page of another owner", dma_row(1), 65);
    cases.set(b"DMA page of the span", dma_row(1), 66);
}

// ---- 5: pairs. At place 20, which is empty, a pair of VM 1 and the last on page 2 would be good.

fn word<W: Write>(cases: &mut Cases<W>, clause: &[u8], word: u64) {
    cases.flip(clause, Table::Pairs, 20, word);
}

pub fn rule_5_fields<W: Write>(cases: &mut Cases<W>) {
    cases.rule = b"5 pair";
    let good = pair(1, LAST_VM, 2);
    word(cases, b"port 1", good | PORT_BIT);
    word(cases, b"not filled", good ^ FILLED_BIT);
    word(cases, b"access 1", good | ACCESS_BIT);
    word(cases, b"generation 1", good | GENERATION_BIT);
    word(cases, b"page N", pair(1, LAST_VM, N));
    word(cases, b"page past PAGES", pair(1, LAST_VM, PAGES));
    word(cases, b"left end unknown", pair(3, 1, 2));
    word(cases, b"right end unknown", pair(1, 3, 2));
    word(cases, b"left end past the last VM", pair(VMS + 2, 1, 2));
    word(
        cases,
        b"right end past a VM field",
        pair(1, VM_FIELD + 2, 2),
    );
    cases.known(b"left end not known", 7);
    cases.known(b"right end not known", 6);
}

pub fn rule_5_ends<W: Write>(cases: &mut Cases<W>) {
    cases.rule = b"5 pair";
    word(cases, b"the same VM twice", pair(1, 1, 2));
    word(cases, b"page of a third VM", pair(1, 2, 65));
    word(cases, b"page of the span", pair(1, 2, 66));
    word(cases, b"page held for DMA only", pair(1, 2, 4));
    word(cases, b"stored twice", pair(1, 2, 0));
    word(cases, b"stored twice, ends turned", pair(2, 1, 0));
}

// ---- 8: ports and hands, of a side. `only` is the VM that is known for its port and nothing else; the last port is idle.

pub fn rule_8<W: Write>(cases: &mut Cases<W>, side: Side, only: u64)
    requires { only < 64 }
{
    let port = PORTS as usize - 1;
    cases.known(b"VM not known", only);
    cases.port(b"unknown VM", side, port, 3);
    cases.port(b"VM past the last", side, port, VMS);
    cases.port(b"VM 1 past VMS", side, port, VMS + 1);
    cases.port(b"VM 65", side, port, 65);
    cases.port(b"one less than idle", side, port, IDLE - 1);
    cases.port(b"one more than idle", side, port, IDLE + 1);
    cases.port(b"VM 2^64 - 1", side, port, u64::MAX);
    cases.hand(b"hand past the last", side, SLOTS);
    cases.hand(b"hand 2^64 - 1", side, u64::MAX);
}

// ---- 9: memory.

pub fn rule_9<W: Write>(cases: &mut Cases<W>) {
    cases.rule = b"9 memory";
    let at = MEMORY_AT;
    let own = MEMORY_WORDS;
    cases.cut(b"a word short", Cut { at, count: own - 1 });
    cases.cut(b"a word long", Cut { at, count: own + 1 });
}
