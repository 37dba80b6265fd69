// Rule 5: sharing pairs, in one pass. A page has one owner by rule 4, so a pair is known by its page and its other end, the
// borrower: a pair stored twice marks the same bit twice.
ghost use Rattle.std.specs.Prelude.{◌≡◌, ◌*◌, ◌<◌, length, replicate};
ghost use Rattle.numbers.specs.Decides.{Decides};
ghost use Rattle.numbers.specs.Limits.{PAGES, VMS, SET_WORDS};
ghost use Rattle.numbers.specs.Packing.{left_of, page_of};
ghost use Rattle.model.specs.Valid.{PairGood};
ghost use Rattle.judge.specs.Parts.{PairPacked};
ghost use Rattle.judge.specs.Sharing.{OneOwner, borrower_of, Marked, PairsJudged};

use super::homes::Homes;
use numbers::{SET_WORDS, Side, VMS, VmId};

// Words of a set of pages for each VM.
pub const LENT_WORDS: usize = VMS as usize * SET_WORDS;

impl Homes<'_> {
    // A word that packs a pair of two different known VMs.
    fn packs_pair(&self, w: u64) -> bool
        ensures { Decides result (PairPacked self.now.pages self.now.known w) }
    {
        let left = numbers::left_of(w);
        let right = numbers::right_of(w);
        self.known_word(w)
            & (numbers::access_of(w) == 0)
            & (numbers::generation_of(w) == 0)
            & (left != right)
            & self.knows(right)
    }

    // One whose page belongs to one of the two.
    fn pair_good(&self, w: u64) -> bool
        ensures { Decides result (PairGood self.now.pages self.now.known self.now.sets.now w) }
    {
        if !self.packs_pair(w) {
            return false;
        }
        let page = numbers::page_of(w);
        views::claims(Side::Cpu, self.sets, numbers::left_of(w), page)
            | views::claims(Side::Cpu, self.sets, numbers::right_of(w), page)
    }

    // The end of a pair that does not own its page.
    fn borrower(&self, w: u64) -> VmId
        requires { (page_of w < PAGES) × (left_of w < VMS) }
        ensures { result.0 ≡ borrower_of self.now.sets.now w }
    {
        let left = numbers::left_of(w);
        if views::claims(Side::Cpu, self.sets, left, numbers::page_of(w)) {
            return numbers::right_of(w);
        }
        left
    }

    // One word of the pairs: empty, or a good pair whose page is not marked as lent to its borrower. It is marked then.
    fn mark_pair(&self, w: u64, lent: &mut [u64]) -> bool
        requires { length lent.old ≡ VMS * SET_WORDS }
        ensures { Marked self.now.pages self.now.known self.now.sets.now w lent.old lent.new result }
    {
        if w == 0 {
            return true;
        }
        if !self.pair_good(w) {
            return false;
        }
        let page = numbers::page_of(w);
        let vm = self.borrower(w);
        if pages::holds(lent, vm.0, page) {
            return false;
        }
        pages::add(lent, vm.0, page);
        true
    }

    // All pairs. What was an empty set for each VM leaves as the pages that pairs lend to it.
    pub fn pairs(&self, pairs: &[u64], lent: &mut [u64]) -> bool
        requires empty { lent.old ≡ replicate (VMS * SET_WORDS) 0 }
        requires owners { OneOwner self.now.pages self.now.sets.now }
        ensures { PairsJudged self.now.pages self.now.known self.now.sets.now pairs.now lent.new result }
    {
        for w in pairs {
            if !self.mark_pair(*w, lent) {
                return false;
            }
        }
        true
    }
}
