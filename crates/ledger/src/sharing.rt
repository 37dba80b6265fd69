// Operations 5 and 6: the pairs of VMs that share a page.
ghost use Rattle.std.specs.Prelude.{◌≡◌, ◌*◌, ◌<◌, ◌≤◌, length};
ghost use Rattle.numbers.specs.Limits.{PAGES, VMS, SETS, SET_WORDS};
ghost use Rattle.numbers.specs.Packing.{pair_key_of};
ghost use Rattle.table.specs.Table.{erase};
ghost use Rattle.model.specs.Ledger.{share_answer, share_pairs, borrower_maps, unshare_answer, unshare_pairs};
ghost use Rattle.ledger.specs.Parts.{PairReady, ShareReady, ShareAnswer, PairsLeft};

use super::pair_early;
use numbers::{Answer, PhysPage, Refusal, Refused, Side, VmId, accept, refuse};

// What share decides, and the place for its pair: none where the pair is stored already, which needs no room, in whichever order
// its ends stand.
pub fn share_answer(
    known: u64,
    pages: u64,
    sets: &[u64],
    pairs: &[u64],
    left: VmId,
    right: VmId,
    page: PhysPage,
) -> Result<Option<usize>, Refused>
    requires { (pages ≤ PAGES) × (length sets.now ≡ SETS * SET_WORDS) }
    ensures { ShareAnswer (share_answer known pages sets.now pairs.now left.0 right.0 page.0) pairs.now left.0 right.0 page.0 result }
{
    pair_early(known, pages, left, right, page)?;
    if left.0 == right.0 {
        return refuse(Refusal::PairWrong, 0);
    }
    if !views::claims(Side::Cpu, sets, left, page) {
        return refuse(Refusal::PageNotHeld, 0);
    }
    if views::find_pair(pairs, left, right, page).is_some() {
        return Ok(None);
    }
    match table::lowest_free(pairs) {
        Some(free) => Ok(Some(free)),
        None => refuse(Refusal::NoRoom, 0),
    }
}

// What share does: the pair goes into its place, where it has one.
pub fn share_do(pairs: &mut [u64], free: Option<usize>, left: VmId, right: VmId, page: PhysPage)
    requires { ShareReady pairs.old left.0 right.0 page.0 free }
    ensures { pairs.new ≡ share_pairs pairs.old left.0 right.0 page.0 }
{
    if let Some(spot) = free {
        pairs[spot] = numbers::pair_word(left, right, page);
    }
}

// Operation 5. A pair that is stored already stays.
pub fn share_page(
    known: u64,
    pages: u64,
    sets: &[u64],
    pairs: &mut [u64],
    left: VmId,
    right: VmId,
    page: PhysPage,
) -> Answer
    requires { (pages ≤ PAGES) × (length sets.now ≡ SETS * SET_WORDS) }
    ensures { PairsLeft (share_answer known pages sets.now pairs.old left.0 right.0 page.0) pairs.old (share_pairs pairs.old left.0 right.0 page.0) result pairs.new }
{
    let free = share_answer(known, pages, sets, pairs, left, right, page)?;
    share_do(pairs, free, left, right, page);
    accept(0)
}

// The VM maps a page that it does not own.
fn borrower_maps(sets: &[u64], cpu_map: &[u64], vm: VmId, page: PhysPage) -> bool
    requires { (vm.0 < VMS) × (page.0 < PAGES) × (length sets.now ≡ SETS * SET_WORDS) }
    ensures { result ≡ borrower_maps sets.now cpu_map.now vm.0 page.0 }
{
    if views::claims(Side::Cpu, sets, vm, page) {
        return false;
    }
    table::any(cpu_map, |w| views::of_vm(w, vm) & views::on_page(w, page))
}

// Empties every place that has the pair of this key.
fn erase_pair(pairs: &mut [u64], key: u64)
    ensures { pairs.new ≡ erase pair_key_of pairs.old key }
{
    table::wipe(pairs, |w| numbers::pair_key_of(w) == key);
}

// What unshare decides, in either order of the ends.
pub fn unshare_answer(
    known: u64,
    pages: u64,
    sets: &[u64],
    pairs: &[u64],
    cpu_map: &[u64],
    left: VmId,
    right: VmId,
    page: PhysPage,
) -> Answer
    requires { (pages ≤ PAGES) × (length sets.now ≡ SETS * SET_WORDS) }
    ensures { result ≡ unshare_answer known pages sets.now pairs.now cpu_map.now left.0 right.0 page.0 }
{
    pair_early(known, pages, left, right, page)?;
    if views::find_pair(pairs, left, right, page).is_none() {
        return refuse(Refusal::PairWrong, 0);
    }
    if borrower_maps(sets, cpu_map, left, page) | borrower_maps(sets, cpu_map, right, page) {
        return refuse(Refusal::StillInUse, 0);
    }
    accept(0)
}

// What unshare does: the pair goes.
pub fn unshare_do(pairs: &mut [u64], left: VmId, right: VmId, page: PhysPage)
    requires { PairReady left.0 right.0 page.0 }
    ensures { pairs.new ≡ unshare_pairs pairs.old left.0 right.0 page.0 }
{
    erase_pair(pairs, numbers::pair_key(left, right, page));
}

// Operation 6.
pub fn unshare_page(
    known: u64,
    pages: u64,
    sets: &[u64],
    pairs: &mut [u64],
    cpu_map: &[u64],
    left: VmId,
    right: VmId,
    page: PhysPage,
) -> Answer
    requires { (pages ≤ PAGES) × (length sets.now ≡ SETS * SET_WORDS) }
    ensures { PairsLeft (unshare_answer known pages sets.now pairs.old cpu_map.now left.0 right.0 page.0) pairs.old (unshare_pairs pairs.old left.0 right.0 page.0) result pairs.new }
{
    let accepted = unshare_answer(known, pages, sets, pairs, cpu_map, left, right, page)?;
    unshare_do(pairs, left, right, page);
    Ok(accepted)
}
