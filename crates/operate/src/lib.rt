// The joined operation: one of the twenty-seven, on a header and what is lent with it.
#![tactic(auto)]

ghost use Rattle.std.specs.Prelude.{◌≡◌, ◌≤◌};
ghost use Rattle.numbers.specs.Limits.{UNITS};
ghost use Rattle.model.specs.Header.{setup_of, header_of, lists, Same, state_of};
ghost use Rattle.model.specs.Step.{unit_for, step};
ghost use Rattle.operate.specs.Fit.{Fit};
ghost use Rattle.operate.specs.Outcome.{outcome};

use model::{Fixed, Lent, Machine, Registers};
use numbers::{Answer, Operation, Side, SideOperation, accept};

// Whether the region that an operation names is a unit's for this side.
pub fn unit_for(fixed: &Fixed, side: Side, operation: SideOperation) -> bool
    requires { fixed.now.unit_count ≤ UNITS }
    ensures { result ≡ unit_for side (setup_of fixed.now) operation }
{
    match operation {
        SideOperation::InsertRegion(region) | SideOperation::RemoveRegion(region) => {
            units::assignable(fixed.units, fixed.unit_count, side, region)
        }
        _ => false,
    }
}

// One operation. Each arm hands on the slices that it touches and the registers that it changes; an operation of a side gets that
// side's tables and never the other's.
pub fn step(
    fixed: &Fixed,
    registers: &mut Registers,
    lent: &mut Lent<&mut [u64]>,
    operation: Operation,
) -> Answer
    requires { Fit fixed.now lent.old.sets.now lent.old.memory.now }
    ensures stepped { outcome result (header_of fixed.now registers.new) (lists lent.new)
        ≡ step (state_of (header_of fixed.now registers.old) (lists lent.old)) operation }
    ensures same { Same lent.old lent.new }
{
    let known = registers.known;
    match operation {
        Operation::AddVm(vm) => ledger::vms::add_vm(&mut registers.known, vm),
        Operation::RemoveVm(vm) => {
            let cpus = registers.cpu.ports;
            let devices = registers.dma.ports;
            let sets = &mut *lent.sets;
            let pairs = &mut *lent.pairs;
            let cpu_map = &mut *lent.cpu_map;
            let dma_map = &mut *lent.dma_map;
            ledger::vms::remove_vm(
                &mut registers.known,
                sets,
                pairs,
                cpu_map,
                dma_map,
                cpus,
                devices,
                vm,
            )
        }
        Operation::AssignPage(vm, page) => {
            ledger::owners::assign_page(known, fixed.pages, lent.sets, vm, page)
        }
        Operation::ReclaimPage(vm, page) => {
            let pairs = &mut *lent.pairs;
            let cpu_map = &mut *lent.cpu_map;
            ledger::owners::reclaim_page(
                known,
                fixed.pages,
                lent.sets,
                pairs,
                cpu_map,
                lent.memory,
                vm,
                page,
            )
        }
        Operation::SharePage(left, right, page) => {
            let sets = &mut *lent.sets;
            ledger::sharing::share_page(known, fixed.pages, sets, lent.pairs, left, right, page)
        }
        Operation::UnsharePage(left, right, page) => {
            let sets = &mut *lent.sets;
            let cpu_map = &mut *lent.cpu_map;
            ledger::sharing::unshare_page(
                known,
                fixed.pages,
                sets,
                lent.pairs,
                cpu_map,
                left,
                right,
                page,
            )
        }
        Operation::On(side, operation) => {
            let unit = unit_for(fixed, side, operation);
            let pairs = &mut *lent.pairs;
            match side {
                Side::Cpu => sides::side_step(
                    Side::Cpu,
                    fixed.pages,
                    unit,
                    known,
                    &mut registers.cpu,
                    lent.sets,
                    pairs,
                    lent.cpu_map,
                    lent.cpu_walker,
                    lent.cpu_cache,
                    lent.memory,
                    operation,
                ),
                Side::Dma => sides::side_step(
                    Side::Dma,
                    fixed.pages,
                    unit,
                    known,
                    &mut registers.dma,
                    lent.sets,
                    pairs,
                    lent.dma_map,
                    lent.dma_walker,
                    lent.dma_cache,
                    lent.memory,
                    operation,
                ),
            }
        }
        Operation::DataBarrier => accept(0),
        Operation::InstructionBarrier => accept(0),
        Operation::RetireVm(vm) => {
            let cpus = registers.cpu.ports;
            let devices = registers.dma.ports;
            retire::retire_vm(&mut registers.known, fixed.pages, cpus, devices, lent, vm)
        }
    }
}

// The same on a whole header.
pub fn operate(m: &mut Machine, lent: &mut Lent<&mut [u64]>, operation: Operation) -> Answer
    requires { Fit m.old.fixed lent.old.sets.now lent.old.memory.now }
    ensures stepped { outcome result m.new (lists lent.new) ≡ step (state_of m.old (lists lent.old)) operation }
    ensures same { Same lent.old lent.new }
{
    step(&m.fixed, &mut m.registers, lent, operation)
}
