// The keys of maps and caches: that none is there twice, that software map and walker are the same map, and that each slot
// holds what the walker has. Linear in the tables whatever the keys are, since guests choose some of them.
#![tactic(auto)]

ghost use Rattle.std.specs.Prelude.{◌≡◌, ◌<◌, ◌+◌, length, replicate, MatchOption};
ghost use Rattle.std.specs.Iterator.{at_most};
ghost use Rattle.numbers.specs.Decides.{Decides};
ghost use Rattle.numbers.specs.Limits.{ENTRIES, SLOTS};
ghost use Rattle.numbers.specs.Packing.{key_of};
ghost use Rattle.table.specs.Table.{Distinct};
ghost use Rattle.judge_keys.specs.Keys.{CLASSES, PLACES, LINKS, class_of, low_of, map_word_of, Packed, Filled, Agreement, SlotsHeld, Held, ClassAgree, SlotsWithin, ClassHeld, NewKey, Chained, Chain, Stands, WalksOn, Blank, Inside, Shown, Entered, NoneLeft, Entering, Taking, Tested};

use numbers::{ENTRIES, GUEST_FIELD, SLOTS, VMS};

// Places of a class: the low bits of a guest page.
const PLACES: usize = 1024;
// Classes of keys: a VM, and the high bits of a guest page. A slot's VM may be any, and then classes wrap: words are compared
// whole.
const CLASSES: usize = (VMS * GUEST_FIELD) as usize / PLACES;

// ---- Links: one more than a place, or 0, in 16 bits. An array of Option<u16> would take twice the memory, which is fixed.

fn place_of(link: u16) -> Option<usize>
    ensures { MatchOption result (link ≡ 0) (λ spot. link ≡ spot + 1) }
{
    usize::from(link).checked_sub(1)
}

fn link_to(spot: usize) -> u16
    requires { spot + 1 < LINKS }
    ensures { result ≡ spot + 1 }
{
    (spot + 1) as u16
}

// ---- Words: half an address is VM and guest page.

fn class_of(word: u64) -> usize
    ensures { (result ≡ class_of word) × (result < CLASSES) }
{
    let page = (numbers::address_of(word) / 2) as usize;
    page / PLACES % CLASSES
}

fn low_of(word: u64) -> usize
    ensures { (result ≡ low_of word) × (result < PLACES) }
{
    let page = (numbers::address_of(word) / 2) as usize;
    page % PLACES
}

// The map's word that a slot holds.
fn map_word_of(slot: u64) -> u64
    ensures { result ≡ map_word_of slot }
{
    numbers::map_word(
        numbers::vm_of(slot),
        numbers::guest_of(slot),
        numbers::entry_of(slot),
    )
}

// ---- Chains: the filled places of a table by class, the last first.

// A table, for each class the link to its last place, and for each filled place the link to the one of its class before it.
// The arrays are lent: those of a struct that had them would be copied when it is handed on.
#[derive(Clone, Copy)]
struct Chains<'a> {
    words: &'a [u64],
    head: &'a [u16],
    next: &'a [u16],
    ghost short: { length words.now < LINKS },
    ghost chained: { Chained words.now head.now next.now (length words.now) },
}

impl<'a> Chains<'a> {
    // Chains a whole table, for which head is lent empty.
    fn new(words: &'a [u64], head: &'a mut [u16], next: &'a mut [u16]) -> Self
        requires { (head.old ≡ replicate CLASSES 0) × (length next.old ≡ length words.now) × (length words.now < LINKS) }
        ensures { result.words.now ≡ words.now }
    {
        for (i, word) in words.iter().enumerate() {
            if *word != 0 {
                let class = class_of(*word);
                next[i] = head[class];
                head[class] = link_to(i);
            }
        }
        Chains { words, head, next }
    }

    // The places of a class.
    fn places(self, class: usize) -> Walk<'a>
        requires { class < CLASSES }
        ensures { (result.chains ≡ self.entry) × Chain self.entry.words.now self.entry.next.now class result.at }
    {
        Walk {
            chains: self,
            at: self.head[class],
        }
    }
}

// A walk along the places of a class, with the link to the next.
#[derive(Drop)]
struct Walk<'a> {
    chains: Chains<'a>,
    at: u16,
    ghost stands: { Stands chains.words.now at },
}

impl Iterator for Walk<'_> {
    type Item = usize;

    ghost next_gives = { λ s r t. (t.chains ≡ s.chains) × WalksOn s.chains.next.now s.at r t.at };

    ghost remaining = { λ s. at_most s.at };

    fn next(&mut self) -> Option<usize> {
        let spot = place_of(self.at)?;
        self.at = self.chains.next[spot];
        Some(spot)
    }
}

// ---- One class: a key of it has a place of its own in the table of places.

// Enters the places of a class into the table of places, and answers whether no key is there twice.
fn enter(map: Chains<'_>, class: usize, place: &mut [u16]) -> bool
    requires { (class < CLASSES) × (Blank place.old) }
    ensures { Entering map.entry.words.now class place.new result }
{
    for spot in map.places(class) {
        let low = low_of(map.words[spot]);
        if place[low] != 0 {
            return false;
        }
        place[low] = link_to(spot);
    }
    true
}

// Whether the table of places shows the word where it is looked for.
fn has_word(word: u64, map: &[u64], place: &[u16]) -> bool
    requires { Inside map.now place.now }
    ensures { Decides result (Shown map.now place.now word) }
{
    match place_of(place[low_of(word)]) {
        Some(spot) => map[spot] == word,
        None => false,
    }
}

// ---- One class of map and walker.

// Takes the walker's words out of the table of places, and answers whether each was there.
fn take(walker: Chains<'_>, class: usize, map: &[u64], place: &mut [u16]) -> bool
    requires { (class < CLASSES) × (Entered map.now class 0 place.old) }
    ensures { Taking map.now walker.entry.words.now class place.new result }
{
    for spot in walker.places(class) {
        let word = walker.words[spot];
        if !has_word(word, map, place) {
            return false;
        }
        place[low_of(word)] = 0;
    }
    true
}

// Whether nothing of the class is left in the table of places.
fn none_left(map: Chains<'_>, class: usize, place: &[u16]) -> bool
    requires { (class < CLASSES) × (length place.now ≡ PLACES) }
    ensures { Decides result (NoneLeft map.entry.words.now class place.now) }
{
    for spot in map.places(class) {
        if place[low_of(map.words[spot])] != 0 {
            return false;
        }
    }
    true
}

// Whether, of this class, no key is twice in map or walker, and the two have the same words.
fn class_agrees(map: Chains<'_>, walker: Chains<'_>, class: usize, place: &mut [u16]) -> bool
    requires { (class < CLASSES) × (Blank place.old) }
    ensures { Tested (ClassAgree map.entry.words.now walker.entry.words.now class) place.new result }
{
    enter(map, class, place)
        && take(walker, class, map.words, place)
        && none_left(map, class, place)
}

// ---- One class of a cache and the walker. Slots of several ports may hold one entry, so none is taken out.

// Whether the map has the word that each slot holds.
fn has_words(slots: Chains<'_>, class: usize, map: &[u64], place: &[u16]) -> bool
    requires { (class < CLASSES) × (Entered map.now class 0 place.now) }
    ensures { Decides result (SlotsWithin slots.entry.words.now map.now class) }
{
    for spot in slots.places(class) {
        if !has_word(map_word_of(slots.words[spot]), map, place) {
            return false;
        }
    }
    true
}

// Empties the table of places of what was entered.
fn clear(map: Chains<'_>, class: usize, place: &mut [u16])
    requires { (class < CLASSES) × (Entered map.words.now class 0 place.old) }
    ensures { Blank place.new }
{
    for spot in map.places(class) {
        place[low_of(map.words[spot])] = 0;
    }
}

// Whether, of this class, no key is twice in the map, and the map has the word that each slot holds.
fn class_held(slots: Chains<'_>, map: Chains<'_>, class: usize, place: &mut [u16]) -> bool
    requires { (class < CLASSES) × (Blank place.old) }
    ensures { Tested (ClassHeld slots.entry.words.now map.entry.words.now class) place.new result }
{
    let held = enter(map, class, place) && has_words(slots, class, map.words, place);
    if held {
        clear(map, class, place);
    }
    held
}

// ---- All classes. One function over the test of a class would say of it in clauses what the two below say by calling it.

// Whether no key is twice in map or walker, and the two are the same map.
fn agreed(map: Chains<'_>, walker: Chains<'_>, place: &mut [u16]) -> bool
    requires { (Blank place.old) × (Packed map.words.now) × (Packed walker.words.now) }
    ensures { Decides result (Agreement map.entry.words.now walker.entry.words.now) }
{
    for class in 0..CLASSES {
        if !class_agrees(map, walker, class, place) {
            return false;
        }
    }
    true
}

// Whether no key is twice in the map, and each slot holds the map's entry.
fn held(slots: Chains<'_>, map: Chains<'_>, place: &mut [u16]) -> bool
    requires { (Blank place.old) × (Packed map.words.now) × (Filled slots.words.now) }
    ensures { Decides result (Held slots.entry.words.now map.entry.words.now) }
{
    for class in 0..CLASSES {
        if !class_held(slots, map, class, place) {
            return false;
        }
    }
    true
}

// Whether the place is empty or no place before it has its key.
fn first_of_key(words: &[u64], i: usize) -> bool
    requires { i < length words.now }
    ensures { Decides result (NewKey words.now i) }
{
    let key = numbers::key_of(words[i]);
    match table::find(words, key) {
        Some(k) => (k == i) | (key == 0),
        None => true,
    }
}

// Whether no key is there twice: each place is the first of its key. It takes half the square of the length in steps, which
// for the few slots of a cache is less than chains by port and VM would.
fn once(words: &[u64]) -> bool
    ensures { Decides result (Distinct key_of words.now) }
{
    for i in 0..words.len() {
        if !first_of_key(words, i) {
            return false;
        }
    }
    true
}

// Rule 6, of the keys: none twice in map or walker, and the two are the same map.
pub fn same_maps(map: &[u64], walker: &[u64]) -> bool
    requires { (length map.now ≡ ENTRIES) × (length walker.now ≡ ENTRIES) × (Packed map.now) × (Packed walker.now) }
    ensures { Decides result (Agreement map.now walker.now) }
{
    let mut map_head = [0u16; CLASSES];
    let mut map_next = [0u16; ENTRIES];
    let mut head = [0u16; CLASSES];
    let mut next = [0u16; ENTRIES];
    let mut place = [0u16; PLACES];
    agreed(
        Chains::new(map, &mut map_head, &mut map_next),
        Chains::new(walker, &mut head, &mut next),
        &mut place,
    )
}

// Rule 7, of the keys: each slot holds what the walker has for the slot's VM and guest page, and no key is twice in the cache.
pub fn slots_held(walker: &[u64], cache: &[u64]) -> bool
    requires { (length walker.now ≡ ENTRIES) × (length cache.now ≡ SLOTS) × (Packed walker.now) × (Distinct key_of walker.now) × (Filled cache.now) }
    ensures { Decides result (SlotsHeld walker.now cache.now) }
{
    if !once(cache) {
        return false;
    }
    let mut head = [0u16; CLASSES];
    let mut next = [0u16; ENTRIES];
    let mut slot_head = [0u16; CLASSES];
    let mut slot_next = [0u16; SLOTS as usize];
    let mut place = [0u16; PLACES];
    held(
        Chains::new(cache, &mut slot_head, &mut slot_next),
        Chains::new(walker, &mut head, &mut next),
        &mut place,
    )
}
