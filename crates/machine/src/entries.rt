// The entries: each judges the state that it is handed, and refuses one that is not valid with 1, leaving everything as it was.
// None asks for anything of its input.
ghost use Rattle.model.specs.Header.{lists, seen_lists, Same, state_of};
ghost use Rattle.model.specs.Entries.{JudgedRow, JudgedSequence, JudgedFree};
ghost use Rattle.operate.specs.Outcome.{outcome};
ghost use Rattle.sequence.specs.Run.{progress, ran};
ghost use Rattle.machine.specs.Query.{free_of};

use model::{Lent, Machine};
use numbers::{Answer, PhysPage, ROW_NUMBERS, Refusal, Refused, refuse};

// ---- One operation, as a row; an unknown one is refused.
pub fn operation(m: &mut Machine, lent: &mut Lent<&mut [u64]>, row: [u64; ROW_NUMBERS]) -> Answer
    ensures judged { JudgedRow (state_of m.old (lists lent.old)) row (outcome result m.new (lists lent.new)) }
    ensures same { Same lent.old lent.new }
{
    if !judge::valid(m, lent.seen()) {
        return refuse(Refusal::StateNotValid, 0);
    }
    match rows::operation_in(row) {
        Some(operation) => operate::operate(m, lent, operation),
        None => refuse(Refusal::OutOfRange, 0),
    }
}

// ---- All the rows, one after the other: the state is judged once, before the first.
pub fn sequence(
    m: &mut Machine,
    lent: &mut Lent<&mut [u64]>,
    rows: &[u64],
    room: &mut [u64],
) -> Answer
    ensures judged { JudgedSequence (state_of m.old (lists lent.old)) rows.now room.old
        (ran result (progress m.new (lists lent.new) room.new)) }
    ensures same { Same lent.old lent.new }
{
    if !judge::valid(m, lent.seen()) {
        return refuse(Refusal::StateNotValid, 0);
    }
    sequence::carry_out(m, lent, rows, room)
}

// ---- The free query.
#[derive(Clone, Copy)]
pub struct FreePages {
    pub count: u64,
    pub lowest: Option<PhysPage>,
}

pub fn free(m: &Machine, seen: Lent<&[u64]>) -> Result<FreePages, Refused>
    ensures { JudgedFree (state_of m.now (seen_lists seen.entry)) (free_of result) }
{
    if !judge::valid(m, seen) {
        return Err(Refused {
            refusal: Refusal::StateNotValid,
            index: 0,
        });
    }
    Ok(FreePages {
        count: pages::free_count(seen.sets, m.fixed.pages),
        lowest: pages::lowest_free(seen.sets, m.fixed.pages),
    })
}
