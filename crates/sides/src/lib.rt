// An operation of one side, over the tables of that side alone: what stands on the other is not handed here.
#![tactic(auto)]

ghost use Rattle.std.specs.Prelude.{◌≡◌};
ghost use Rattle.sides.specs.Sides.{sight, side_stepped, side_step, Sized};

use maps::Mapping;
use model::SideRegisters;
use numbers::{Answer, Side, SideOperation};

// Each arm hands on what it touches: the slices, and of the header the side's own registers. Of what start fixed it has the pages,
// and whether the region named is a unit's.
pub fn side_step(
    side: Side,
    pages: u64,
    unit: bool,
    known: u64,
    registers: &mut SideRegisters,
    sets: &mut [u64],
    pairs: &[u64],
    map: &mut [u64],
    walker: &mut [u64],
    cache: &mut [u64],
    memory: &mut [u64],
    operation: SideOperation,
) -> Answer
    requires { Sized pages sets.old memory.old }
    ensures { side_stepped result (sight sets.new map.new walker.new cache.new registers.new.hand registers.new.ports memory.new)
        ≡ side_step side pages unit known pairs.now (sight sets.old map.old walker.old cache.old registers.old.hand registers.old.ports memory.old) operation }
{
    match operation {
        SideOperation::MapPage {
            vm,
            guest,
            page,
            access,
            generation,
        } => {
            let m = Mapping {
                vm,
                guest,
                page,
                access,
                generation,
            };
            maps::map_page(side, known, pages, sets, pairs, map, walker, cache, m)
        }
        SideOperation::UnmapPage(vm, guest) => {
            maps::unmap_page(known, map, walker, cache, vm, guest)
        }
        SideOperation::InsertRegion(region) => {
            regions::insert_region(side, known, pages, unit, sets, map, walker, region)
        }
        SideOperation::RemoveRegion(region) => regions::remove_region(
            side, known, pages, unit, sets, pairs, map, walker, cache, memory, region,
        ),
        SideOperation::GivePort(port, target) => {
            maps::give_port(known, &mut registers.ports, port, target)
        }
        SideOperation::FillSlot(port, guest) => {
            let hand = &mut registers.hand;
            maps::fill_slot(registers.ports, walker, cache, hand, port, guest)
        }
        SideOperation::EmptySlot(slot) => maps::empty_slot(cache, slot),
        SideOperation::ReadWord { port, guest, word } => {
            access::read_word(registers.ports, cache, walker, memory, port, guest, word)
        }
        SideOperation::WriteWord {
            port,
            guest,
            word,
            value,
        } => access::write_word(
            registers.ports,
            cache,
            walker,
            memory,
            port,
            guest,
            word,
            value,
        ),
    }
}
