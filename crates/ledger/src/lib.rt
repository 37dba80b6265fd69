// Operations 1 to 6: which VMs there are, who owns a page, and who shares it. Here is what they have in common.
#![tactic(auto)]

ghost use Rattle.std.specs.Prelude.{◌≡◌};
ghost use Rattle.model.specs.Ledger.{vm_early, page_early, pair_early};

use numbers::{Answer, PhysPage, Refusal, VMS, VmId, accept, refuse};

pub mod owners;
pub mod sharing;
pub mod vms;

// ---- Early checks, of header numbers alone, one for each shape of arguments.

pub fn vm_early(known: u64, vm: VmId) -> Answer
    ensures { result ≡ vm_early known vm.0 }
{
    if !(vm.0 < VMS) {
        return refuse(Refusal::OutOfRange, 0);
    }
    if !views::knows(known, vm) {
        return refuse(Refusal::VmUnknown, 0);
    }
    accept(0)
}

pub fn page_early(known: u64, pages: u64, vm: VmId, page: PhysPage) -> Answer
    ensures { result ≡ page_early known pages vm.0 page.0 }
{
    if !((vm.0 < VMS) & (page.0 < pages)) {
        return refuse(Refusal::OutOfRange, 0);
    }
    if !views::knows(known, vm) {
        return refuse(Refusal::VmUnknown, 0);
    }
    accept(0)
}

pub fn pair_early(known: u64, pages: u64, left: VmId, right: VmId, page: PhysPage) -> Answer
    ensures { result ≡ pair_early known pages left.0 right.0 page.0 }
{
    if !((left.0 < VMS) & (right.0 < VMS) & (page.0 < pages)) {
        return refuse(Refusal::OutOfRange, 0);
    }
    if !(views::knows(known, left) & views::knows(known, right)) {
        return refuse(Refusal::VmUnknown, 0);
    }
    accept(0)
}
