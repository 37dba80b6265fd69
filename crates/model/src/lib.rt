// The machine as its code hands it on: a header and what is lent with it. specs/ says what it means, proofs/ what is proved of it.
#![tactic(auto)]

ghost use Rattle.std.specs.Prelude.{◌≡◌};
ghost use Rattle.model.specs.Header.{lists, seen_lists};

use numbers::{PORTS, UNITS};
use units::Unit;

// What start fixes for good.
#[derive(Clone, Copy)]
pub struct Fixed {
    pub pages: u64,
    pub shared_base: u64,
    pub shared_count: u64,
    pub units: [Unit; UNITS],
    pub unit_count: u64,
}

// What the header has of a side: the VM on each port, or IDLE, and the next slot to be replaced in its cache.
#[derive(Clone, Copy)]
pub struct SideRegisters {
    pub ports: [u64; PORTS as usize],
    pub hand: u64,
}

// What operations may change.
#[derive(Clone, Copy)]
pub struct Registers {
    // A bit for each known VM.
    pub known: u64,
    pub cpu: SideRegisters,
    pub dma: SideRegisters,
}

// The header of a machine. Its tables and memory are lent.
#[derive(Clone, Copy)]
pub struct Machine {
    pub fixed: Fixed,
    pub registers: Registers,
}

// What is lent with a header: the tables and memory, each as a slice to be changed, `Lent<&mut [u64]>`, or to be read,
// `Lent<&[u64]>`.
#[derive(Clone, Copy)]
pub struct Lent<L> {
    pub sets: L,
    pub pairs: L,
    pub cpu_map: L,
    pub cpu_walker: L,
    pub cpu_cache: L,
    pub dma_map: L,
    pub dma_walker: L,
    pub dma_cache: L,
    pub memory: L,
}

impl Lent<&mut [u64]> {
    // The same to be read.
    pub fn seen(&self) -> Lent<&[u64]>
        ensures { seen_lists result ≡ lists self.now }
    {
        Lent {
            sets: self.sets,
            pairs: self.pairs,
            cpu_map: self.cpu_map,
            cpu_walker: self.cpu_walker,
            cpu_cache: self.cpu_cache,
            dma_map: self.dma_map,
            dma_walker: self.dma_walker,
            dma_cache: self.dma_cache,
            memory: self.memory,
        }
    }
}
