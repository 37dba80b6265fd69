// What rules 1 to 3 have shown, on which rules 5 to 8 stand, and what these ask of a VM and of a filled word alike.
ghost use Rattle.std.specs.Prelude.{◌≡◌, ◌*◌, ◌≤◌, length};
ghost use Rattle.numbers.specs.Decides.{Decides};
ghost use Rattle.numbers.specs.Limits.{PAGES, SETS, SET_WORDS};
ghost use Rattle.model.specs.Valid.{KnownGood};
ghost use Rattle.model.specs.Views.{knows};
ghost use Rattle.judge.specs.Parts.{KnownWord};

use super::header::is_known;
use super::words::known_word;
use numbers::VmId;

// Page sets, the machine's pages, and a bit for each known VM. That a page has one owner at most, which rule 4 shows, is asked by `pairs` alone.
#[derive(Clone, Copy)]
pub struct Homes<'a> {
    pub sets: &'a [u64],
    pub pages: u64,
    pub known: u64,
    pub ghost size: { length sets.now ≡ SETS * SET_WORDS },
    pub ghost most_pages: { pages ≤ PAGES },
    pub ghost known_vms: { KnownGood known },
}

impl Homes<'_> {
    // Whether a VM of any number at all is known: by rule 3 none at VMS or above is.
    pub fn knows(&self, vm: VmId) -> bool
        ensures { result ≡ knows self.now.known vm.0 }
    {
        is_known(self.known, vm)
    }

    // A word with no port, said to be filled, of a known VM and a page of the machine.
    pub fn known_word(&self, w: u64) -> bool
        ensures { Decides result (KnownWord self.now.pages self.now.known w) }
    {
        known_word(w, self.pages, self.known)
    }
}
