// Operations 1 and 2: a VM is known, and unknown again.
ghost use Rattle.std.specs.Prelude.{◌≡◌, ◌*◌, ◌<◌, length};
ghost use Rattle.numbers.specs.Limits.{VMS, SETS, SET_WORDS};
ghost use Rattle.model.specs.Ledger.{add_vm_answer, add_vm_known, remove_vm_answer, remove_vm_known};
ghost use Rattle.ledger.specs.Parts.{KnownLeft};

use super::vm_early;
use numbers::{Answer, PORTS, Refusal, Side, VMS, VmId, accept, refuse};

// What adding a VM decides.
pub fn add_vm_answer(known: u64, vm: VmId) -> Answer
    ensures { result ≡ add_vm_answer known vm.0 }
{
    if !(vm.0 < VMS) {
        return refuse(Refusal::OutOfRange, 0);
    }
    if views::knows(known, vm) {
        return refuse(Refusal::VmKnown, 0);
    }
    accept(0)
}

// What adding a VM does: it is known.
pub fn add_vm_do(known: u64, vm: VmId) -> u64
    requires { vm.0 < VMS }
    ensures { result ≡ add_vm_known known vm.0 }
{
    pages::with_bit(known, vm.0)
}

// Operation 1.
pub fn add_vm(known: &mut u64, vm: VmId) -> Answer
    ensures { KnownLeft (add_vm_answer known.old vm.0) known.old (add_vm_known known.old vm.0) result known.new }
{
    let accepted = add_vm_answer(*known, vm)?;
    *known = add_vm_do(*known, vm);
    Ok(accepted)
}

// What removing a VM decides: refused while the VM has pages, mappings or edges, or is on a CPU or a device.
pub fn remove_vm_answer(
    known: u64,
    sets: &[u64],
    pairs: &[u64],
    cpu_map: &[u64],
    dma_map: &[u64],
    cpus: [u64; PORTS as usize],
    devices: [u64; PORTS as usize],
    vm: VmId,
) -> Answer
    requires { length sets.now ≡ SETS * SET_WORDS }
    ensures { result ≡ remove_vm_answer known sets.now pairs.now cpu_map.now dma_map.now cpus devices vm.0 }
{
    vm_early(known, vm)?;
    let busy = views::has_pages(Side::Cpu, sets, vm)
        | views::has_pages(Side::Dma, sets, vm)
        | table::any(cpu_map, |w| views::of_vm(w, vm))
        | table::any(dma_map, |w| views::of_vm(w, vm))
        | table::any(pairs, |w| views::joins(w, vm))
        | table::any(&cpus, |on| on == vm.0)
        | table::any(&devices, |on| on == vm.0);
    if busy {
        return refuse(Refusal::VmBusy, 0);
    }
    accept(0)
}

// What removing a VM does: it is unknown.
pub fn remove_vm_do(known: u64, vm: VmId) -> u64
    requires { vm.0 < VMS }
    ensures { result ≡ remove_vm_known known vm.0 }
{
    pages::without_bit(known, vm.0)
}

// Operation 2.
pub fn remove_vm(
    known: &mut u64,
    sets: &[u64],
    pairs: &[u64],
    cpu_map: &[u64],
    dma_map: &[u64],
    cpus: [u64; PORTS as usize],
    devices: [u64; PORTS as usize],
    vm: VmId,
) -> Answer
    requires { length sets.now ≡ SETS * SET_WORDS }
    ensures { KnownLeft (remove_vm_answer known.old sets.now pairs.now cpu_map.now dma_map.now cpus devices vm.0) known.old (remove_vm_known known.old vm.0) result known.new }
{
    let accepted = remove_vm_answer(*known, sets, pairs, cpu_map, dma_map, cpus, devices, vm)?;
    *known = remove_vm_do(*known, vm);
    Ok(accepted)
}
