// Damaged states, each a valid one with one change, and what the test for validity says of each (docs/MACHINE.md, 4).
#![tactic(auto)]

mod routes;
mod rules;

use changes::state::WORDS;
use changes::{Cases, base, harmless};
use numbers::Side;
use std::io::Write;

// The machine that a refused start gives, and the state after start.
fn fresh<W: Write>(to: &mut W, words: &mut [u64; WORDS]) {
    rules::rule_2_empty_machine(to, words);
    base::fill_pool(words);
    let m = base::fresh_header();
    let mut cases = Cases {
        to,
        rule: b"undamaged",
        m: &m,
        words,
    };
    cases.show(b"after start");
    rules::rule_2_empty_span(&mut cases);
    harmless::fresh(&mut cases);
}

// Every damaged state, in the order of the rules.
fn harmed<W: Write>(cases: &mut Cases<W>) {
    rules::rule_1(cases);
    rules::rule_2(cases);
    rules::rule_2_unit(cases);
    rules::rule_3(cases);
    rules::rule_4_header(cases);
    rules::rule_4_bounds(cases);
    rules::rule_4_homes(cases);
    rules::rule_5_fields(cases);
    rules::rule_5_ends(cases);
    routes::rule_6(cases);
    routes::rule_6_elsewhere(cases);
    routes::rule_7(cases);
    cases.rule = b"8 CPUs";
    rules::rule_8(cases, Side::Cpu, 8);
    cases.rule = b"8 devices";
    rules::rule_8(cases, Side::Dma, 9);
    rules::rule_9(cases);
}

// All that is said of the state with VMs at work. It is shown again at the end: no change has stayed.
fn at_work<W: Write>(cases: &mut Cases<W>) {
    cases.show(b"at work");
    harmed(cases);
    harmless::busy(cases);
    cases.rule = b"undamaged";
    cases.show(b"at work, at the end");
}

fn busy<W: Write>(to: &mut W, words: &mut [u64; WORDS]) {
    base::fill(words);
    let m = base::busy_header();
    at_work(&mut Cases {
        to,
        rule: b"undamaged",
        m: &m,
        words,
    });
}

fn main(rt: HostRuntime) {
    let mut to = rt.stdout();
    let mut words = [0u64; WORDS];
    fresh(&mut to, &mut words);
    busy(&mut to, &mut words);
}
