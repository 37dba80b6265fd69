// The entries over numbers alone that may change a box: a header as numbers, and what is lent with it, whose caches are the 64 words
// of each, beside how many slots were lent. Each says what it gives for any box at all (docs/MACHINE.md, 13). What only reads is
// crate `box_reads`.
#![tactic(auto)]

ghost use Rattle.std.specs.Prelude.{◌≡◌, length};
ghost use Rattle.numbers.specs.Decides.{Decides};
ghost use Rattle.numbers.specs.Limits.{ROW_NUMBERS, ANSWER_NUMBERS};
ghost use Rattle.start.specs.Begun.{told};
ghost use Rattle.box_header.specs.Numbers.{HeaderGood};
ghost use Rattle.model.specs.Header.{lists, Same};
ghost use Rattle.box_cores.specs.Boxes.{box_with, BoxValid};
ghost use Rattle.box_cores.specs.Given.{Judgement, given, operation_gives, operation_refused, OperationAsked, sequence_gives, refused_whole, StartOfWords, start_given, Whole, same};

use box_header::MACHINE_NUMBERS;
use model::Lent;
use numbers::{ANSWER_NUMBERS, Answer, ROW_NUMBERS, Refusal, SLOTS, refuse};

// Whether both caches have as many slots as they must.
fn whole(cpu_slots: usize, dma_slots: usize) -> bool
    ensures { Decides result (Whole cpu_slots dma_slots) }
{
    (cpu_slots == SLOTS as usize) & (dma_slots == SLOTS as usize)
}

// What every entry asks first, beside validity.
pub fn ready(header: &[u64], cpu_slots: usize, dma_slots: usize) -> bool
    ensures { Decides result (Whole cpu_slots dma_slots × HeaderGood header.now) }
{
    whole(cpu_slots, dma_slots) & box_header::is_header(header)
}

// The same, with a row and an answer of their lengths.
fn row_ready(
    header: &[u64],
    row: &[u64],
    answer: &[u64],
    cpu_slots: usize,
    dma_slots: usize,
) -> bool
    ensures { Decides result (((Whole cpu_slots dma_slots × HeaderGood header.now) × (length row.now ≡ ROW_NUMBERS)) × (length answer.now ≡ ANSWER_NUMBERS)) }
{
    ready(header, cpu_slots, dma_slots)
        & (row.len() == ROW_NUMBERS)
        & (answer.len() == ANSWER_NUMBERS)
}

// ---- One operation, as a row.
pub fn operation(
    header: &mut [u64],
    lent: &mut Lent<&mut [u64]>,
    row: &[u64],
    answer: &mut [u64],
    cpu_slots: usize,
    dma_slots: usize,
) -> u64
    ensures given { let before = box_with header.old (lists lent.old) in
        Judgement (Whole cpu_slots dma_slots × OperationAsked same before row.now answer.old)
        (operation_gives same same before row.now answer.old) (operation_refused before answer.old)
        (given result answer.new (box_with header.new (lists lent.new))) }
    ensures same { Same lent.old lent.new }
{
    if !row_ready(header, row, answer, cpu_slots, dma_slots) {
        let refused = refuse(Refusal::StateNotValid, 0);
        box_header::put_answer(answer, refused);
        return box_header::number_of(refused);
    }
    let mut m = box_header::machine_in(header);
    let gave = machine::entries::operation(&mut m, lent, box_header::eight(row));
    box_header::put_changed(header, &m);
    box_header::put_answer(answer, gave);
    box_header::number_of(gave)
}

// ---- All the rows, one after the other.
pub fn sequence(
    header: &mut [u64],
    lent: &mut Lent<&mut [u64]>,
    rows: &[u64],
    answers: &mut [u64],
    cpu_slots: usize,
    dma_slots: usize,
) -> u64
    ensures given { let before = box_with header.old (lists lent.old) in
        Judgement (Whole cpu_slots dma_slots × BoxValid same before)
        (sequence_gives same same before rows.now answers.old) (refused_whole before answers.old)
        (given result answers.new (box_with header.new (lists lent.new))) }
    ensures same { Same lent.old lent.new }
{
    if !ready(header, cpu_slots, dma_slots) {
        return Refusal::StateNotValid.into();
    }
    let mut m = box_header::machine_in(header);
    let gave = machine::entries::sequence(&mut m, lent, rows, answers);
    box_header::put_changed(header, &m);
    box_header::number_of(gave)
}

// ---- Start.
pub fn start(
    header: &mut [u64],
    lent: &mut Lent<&mut [u64]>,
    pages: u64,
    shared_base: u64,
    shared_count: u64,
    units: &[u64],
    cpu_slots: usize,
    dma_slots: usize,
) -> u64
    ensures given { StartOfWords cpu_slots dma_slots (box_with header.old (lists lent.old)) (told pages shared_base shared_count units.now)
        (start_given result (box_with header.new (lists lent.new))) }
    ensures same { Same lent.old lent.new }
{
    if header.len() != MACHINE_NUMBERS {
        return Refusal::StateNotValid.into();
    }
    if !whole(cpu_slots, dma_slots) {
        box_header::put_machine(header, &start::empty_machine());
        return Refusal::StateNotValid.into();
    }
    match start::begin(lent, pages, shared_base, shared_count, units) {
        Ok(m) => {
            box_header::put_machine(header, &m);
            0
        }
        Err(refused) => {
            box_header::put_machine(header, &start::empty_machine());
            refused.refusal.into()
        }
    }
}
