// A region whose every number is in range: its pages, their keys and their entries.
ghost use Rattle.std.specs.Prelude.{◌≡◌, ◌<◌};
ghost use Rattle.model.specs.Regions.{page_in, key_in, region_entry, in_region};
ghost use Rattle.regions.specs.Parts.{Placed};

use numbers::{GuestPage, PhysPage, Region};

#[derive(Clone, Copy)]
pub struct PlacedRegion {
    pub region: Region,
    ghost placed: { Placed region },
}

impl PlacedRegion {
    // The k-th page, its key in a map, and the entry that a map has for it.

    pub fn page(self, k: u64) -> PhysPage
        requires { k < self.region.count }
        ensures { result.0 ≡ page_in self.region k }
    {
        PhysPage(self.region.page.0 + k)
    }

    pub fn key(self, k: u64) -> u64
        requires { k < self.region.count }
        ensures { result ≡ key_in self.region k }
    {
        numbers::key(self.region.vm, GuestPage(self.region.guest.0 + k))
    }

    pub fn entry(self, k: u64) -> u64
        requires { k < self.region.count }
        ensures { result ≡ region_entry self.region k }
    {
        let low = numbers::entry(self.page(k), self.region.access, 0);
        numbers::map_word(self.region.vm, GuestPage(self.region.guest.0 + k), low)
    }

    // A filled word of the region's VM whose guest page lies in the region, whatever its port.
    pub fn has(self, w: u64) -> bool
        ensures { result ≡ in_region self.region w }
    {
        let guest = numbers::guest_of(w);
        (numbers::filled_of(w) == 1)
            & (numbers::vm_of(w).0 == self.region.vm.0)
            & (self.region.guest.0 <= guest.0)
            & (guest.0 < self.region.guest.0 + self.region.count)
    }
}
