// Rules 6 to 8, written once for a side: its maps, its cache, its ports and its hand.
ghost use Rattle.std.specs.Prelude.{◌≡◌, ℕ, ◌<◌, length, IsTrue};
ghost use Rattle.numbers.specs.Decides.{Decides};
ghost use Rattle.numbers.specs.Limits.{VMS, PORTS, ENTRIES, SLOTS};
ghost use Rattle.numbers.specs.Packing.{key_of};
ghost use Rattle.table.specs.Table.{Has, Distinct};
ghost use Rattle.model.specs.Header.{route_of};
ghost use Rattle.model.specs.Valid.{EntryGood, CacheGood, PortsGood, RouteGood};
ghost use Rattle.model.specs.Views.{may_map};
ghost use Rattle.judge_keys.specs.Keys.{Packed};
ghost use Rattle.judge.specs.Parts.{NotEmpty, MapsGood, SlotPacked, PortGood};
ghost use Rattle.judge.specs.Sharing.{Lends};

use super::homes::Homes;
use model::SideRegisters;
use numbers::{IDLE, PORTS, PhysPage, SLOTS, Side, VmId};

// What rules 1 to 5 have shown where rule 6 begins. `lent` says what `pairs` says, which contracts name and nothing reads.
#[derive(Clone, Copy)]
pub struct Ground<'a> {
    pub homes: Homes<'a>,
    pub pairs: &'a [u64],
    pub lent: &'a [u64],
    pub ghost lends: { Lends homes.pages homes.sets.now pairs.now lent.now },
}

// ---- 6: maps.

impl Ground<'_> {
    // Whether the VM may map the page: for CPU its own or one lent to it, for DMA its DMA page or the shared span's.
    fn may_map(&self, side: Side, vm: VmId, page: PhysPage) -> bool
        requires { (vm.0 < VMS) × (page.0 < self.now.homes.pages) }
        ensures { result ≡ may_map side self.now.homes.sets.now self.now.pairs.now vm.0 page.0 }
    {
        let sets = self.homes.sets;
        if views::claims(side, sets, vm, page) {
            return true;
        }
        match side {
            Side::Cpu => pages::holds(self.lent, vm.0, page),
            Side::Dma => pages::holds(sets, pages::SHARED, page),
        }
    }

    // One word of a map: empty, or an entry of a known VM onto a page that it may map.
    fn entry_good(&self, side: Side, w: u64) -> bool
        ensures { Decides result (NotEmpty w → EntryGood side self.now.homes.pages self.now.homes.known self.now.homes.sets.now self.now.pairs.now w) }
    {
        w == 0
            || self.homes.known_word(w)
                && self.may_map(side, numbers::vm_of(w), numbers::page_of(w))
    }

    // Every word of a map, software or walker. The ground comes by value, so that its fields stay in registers over the words.
    fn entries(self, side: Side, table: &[u64]) -> bool
        ensures { Decides result ((w : ℕ) → Has table.now w → EntryGood side self.entry.homes.pages self.entry.homes.known self.entry.homes.sets.now self.entry.pairs.now w) }
    {
        table.iter().all(|w| self.entry_good(side, *w))
    }

    // Both maps of a side: every word of each, then the keys of the two together.
    fn maps(&self, side: Side, map: &[u64], walker: &[u64]) -> bool
        requires { (length map.now ≡ ENTRIES) × (length walker.now ≡ ENTRIES) }
        ensures { Decides result (MapsGood side self.now.homes.pages self.now.homes.known self.now.homes.sets.now self.now.pairs.now map.now walker.now) }
    {
        self.entries(side, map) && self.entries(side, walker) && judge_keys::same_maps(map, walker)
    }
}

// ---- 7: caches.

// One slot: empty, or filled and of a port.
fn slot_packed(w: u64) -> bool
    ensures { Decides result (NotEmpty w → SlotPacked w) }
{
    (w == 0) | ((numbers::port_of(w) < PORTS) & (numbers::filled_of(w) == 1))
}

fn slots(cache: &[u64]) -> bool
    ensures { Decides result ((w : ℕ) → Has cache.now w → SlotPacked w) }
{
    cache.iter().all(|w| slot_packed(*w))
}

// Every slot of a cache, then what it holds against the walker.
fn caches(walker: &[u64], cache: &[u64]) -> bool
    requires { (length walker.now ≡ ENTRIES) × (length cache.now ≡ SLOTS) × (Packed walker.now) × (Distinct key_of walker.now) }
    ensures { Decides result (CacheGood walker.now cache.now) }
{
    slots(cache) && judge_keys::slots_held(walker, cache)
}

// ---- 8: ports.

// One port: idle, or with a known VM on it.
fn port_good(homes: &Homes, vm: u64) -> bool
    ensures { Decides result (PortGood homes.now.known vm) }
{
    (vm == IDLE) | homes.knows(VmId(vm))
}

fn ports(homes: &Homes, ports: &[u64; PORTS as usize]) -> bool
    ensures exact { Decides result (PortsGood homes.now.known ports.now) }
    ensures size { length ports.now ≡ PORTS }
{
    ports.iter().all(|vm| port_good(homes, *vm))
}

// ---- A side: 6 to 8.

pub fn route(
    side: Side,
    ground: &Ground,
    registers: &SideRegisters,
    map: &[u64],
    walker: &[u64],
    cache: &[u64],
) -> bool
    requires { (length map.now ≡ ENTRIES) × (length walker.now ≡ ENTRIES) × (length cache.now ≡ SLOTS) }
    ensures exact { Decides result (RouteGood side ground.now.homes.pages ground.now.homes.known ground.now.homes.sets.now ground.now.pairs.now (route_of registers.now map.now walker.now cache.now)) }
    ensures size { IsTrue result → length registers.now.ports ≡ PORTS }
{
    ground.maps(side, map, walker)
        && caches(walker, cache)
        && ports(&ground.homes, &registers.ports)
        && registers.hand < SLOTS
}
