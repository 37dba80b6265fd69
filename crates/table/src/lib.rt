// Bounded tables of packed words over lent slices: a word is 0, an empty place, or is filed under its key.
// Table code goes by the slice's length and knows no capacity.
#![tactic(auto)]

ghost use Rattle.std.specs.Prelude.{◌≡◌, ℕ, Bool, length, replicate};
ghost use Rattle.numbers.specs.Packing.{key_of, address_of};
ghost use Rattle.table.specs.Loops.{Seeking};
ghost use Rattle.table.specs.Scan.{first, any, count, wipe};
ghost use Rattle.table.specs.Table.{is_empty, has_key, find, lookup, lowest_free, free_entries, place, put, erase};
ghost use Rattle.table.specs.Tests.{Tells};

// ---- Searches, for any test of a word.

// A place before which no word passes: four words a step, for as long as there are four and none of them passes.
fn past_failing<P: Fn(u64) -> bool>(words: &[u64], passes: &P) -> usize
    requires { P.IsAlwaysCallable passes.now }
    ensures { (p : ℕ → Bool) → Tells (P.post passes.now) p → Seeking p words.now result }
{
    for block in 0..words.len() / 4 {
        let spot = 4 * block;
        if passes(words[spot])
            | passes(words[spot + 1])
            | passes(words[spot + 2])
            | passes(words[spot + 3])
        {
            return spot;
        }
    }
    words.len() / 4 * 4
}

// The lowest place whose word passes.
pub fn first<P: Fn(u64) -> bool>(words: &[u64], passes: P) -> Option<usize>
    requires { P.IsAlwaysCallable passes }
    ensures { (p : ℕ → Bool) → Tells (P.post passes) p → result ≡ first p words.now }
{
    for spot in past_failing(words, &passes)..words.len() {
        if passes(words[spot]) {
            return Some(spot);
        }
    }
    None
}

// Whether a word passes.
pub fn any<P: Fn(u64) -> bool>(words: &[u64], passes: P) -> bool
    requires { P.IsAlwaysCallable passes }
    ensures { (p : ℕ → Bool) → Tells (P.post passes) p → result ≡ any p words.now }
{
    for w in words {
        if passes(*w) {
            return true;
        }
    }
    false
}

// Empties every word that passes, and answers how many there were. Each turn stores, so that several words can be done at once.
pub fn wipe<P: Fn(u64) -> bool>(words: &mut [u64], passes: P) -> u64
    requires { P.IsAlwaysCallable passes }
    ensures { (p : ℕ → Bool) → Tells (P.post passes) p → (result ≡ count p words.old) × (words.new ≡ wipe p words.old) }
{
    let mut wiped = 0;
    for w in words {
        let mut left = *w;
        if passes(left) {
            left = 0;
            wiped += 1;
        }
        *w = left;
    }
    wiped
}

// ---- By key.

// The lowest place whose word has the key.
pub fn find(words: &[u64], key: u64) -> Option<usize>
    ensures { result ≡ find key_of words.now key }
{
    first(words, |w| numbers::key_of(w) == key)
}

// The word of the key, 0 where there is none.
pub fn lookup(words: &[u64], key: u64) -> u64
    ensures { result ≡ lookup key_of words.now key }
{
    match find(words, key) {
        Some(i) => words[i],
        None => 0,
    }
}

// The lowest empty place.
pub fn lowest_free(words: &[u64]) -> Option<usize>
    ensures { result ≡ lowest_free words.now }
{
    first(words, |w| w == 0)
}

// How many places are empty.
pub fn free_entries(words: &[u64]) -> u64
    ensures { result ≡ free_entries words.now }
{
    words.iter().filter(|w| **w == 0).count() as u64
}

// Where a word of the key goes: over the one that is there, so that no key is there twice, else into the lowest empty place.
pub fn place(words: &[u64], key: u64) -> Option<usize>
    ensures { result ≡ place key_of words.now key }
{
    match find(words, key) {
        Some(i) => Some(i),
        None => lowest_free(words),
    }
}

// Stores the word in its place. A full table stays as it is: callers ask for room first.
pub fn put(words: &mut [u64], key: u64, word: u64)
    ensures { words.new ≡ put key_of words.old key word }
{
    if let Some(i) = place(words, key) {
        words[i] = word;
    }
}

// Empties every place whose word has the key.
pub fn erase(words: &mut [u64], key: u64)
    ensures { words.new ≡ erase key_of words.old key }
{
    wipe(words, |w| numbers::key_of(w) == key);
}

// Empties every slot of a cache whose word is of this address, whatever its port, and answers how many there were.
pub fn drop_slots(cache: &mut [u64], address: u64) -> u64
    ensures { (result ≡ count (has_key address_of address) cache.old) × (cache.new ≡ erase address_of cache.old address) }
{
    wipe(cache, |w| numbers::address_of(w) == address)
}

// Every word becomes 0.
pub fn clear_words(words: &mut [u64])
    ensures { words.new ≡ replicate (length words.old) 0 }
{
    words.fill(0);
}
