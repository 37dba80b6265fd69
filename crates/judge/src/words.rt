// What rules 5 and 6 ask of a filled word alike.
ghost use Rattle.numbers.specs.Decides.{Decides};
ghost use Rattle.model.specs.Valid.{KnownGood};
ghost use Rattle.judge.specs.Parts.{KnownWord};

use super::header::is_known;

// A word with no port, said to be filled, of a known VM and a page of the machine.
pub fn known_word(w: u64, pages: u64, known: u64) -> bool
    requires { KnownGood known }
    ensures { Decides result (KnownWord pages known w) }
{
    (numbers::port_of(w) == 0)
        & (numbers::filled_of(w) == 1)
        & (numbers::page_of(w).0 < pages)
        & is_known(known, numbers::vm_of(w))
}
