// The sequence: rows carried out one after the other, each answered, over a state that has been judged.
#![tactic(auto)]

ghost use Rattle.std.specs.Prelude.{◌≡◌, ◌+◌, ◌*◌, ◌≤◌, length};
ghost use Rattle.numbers.specs.Limits.{ROW_NUMBERS, ANSWER_NUMBERS};
ghost use Rattle.numbers.specs.Meaning.{answer_numbers};
ghost use Rattle.model.specs.Header.{header_of, lists, Same, state_of};
ghost use Rattle.model.specs.Sequence.{write_at, turn, after, sequence};
ghost use Rattle.operate.specs.Fit.{Fit};
ghost use Rattle.sequence.specs.Run.{progress, ran, shape_of};

use model::{Fixed, Lent, Machine, Registers};
use numbers::{ANSWER_NUMBERS, Answer, ROW_NUMBERS, Refusal, accept, refuse};

// Answer k's four numbers, in their place of the answer room.
fn write_answer(room: &mut [u64], k: usize, answer: Answer)
    requires { (k + 1) * ANSWER_NUMBERS ≤ length room.old }
    ensures { room.new ≡ write_at room.old (k * ANSWER_NUMBERS) (answer_numbers answer) }
{
    let numbers = numbers::answer_numbers(answer);
    let number = k * ANSWER_NUMBERS;
    room[number] = numbers[0];
    let index = number + 1;
    room[index] = numbers[1];
    let dropped = index + 1;
    room[dropped] = numbers[2];
    let word = dropped + 1;
    room[word] = numbers[3];
}

// Row k carried out and answered; an unknown operation is refused.
pub fn turn(
    fixed: &Fixed,
    registers: &mut Registers,
    lent: &mut Lent<&mut [u64]>,
    rows: &[u64],
    room: &mut [u64],
    k: usize,
)
    requires fit { Fit fixed.now lent.old.sets.now lent.old.memory.now }
    requires k_in_bounds { ((k + 1) * ROW_NUMBERS ≤ length rows.now) × ((k + 1) * ANSWER_NUMBERS ≤ length room.old) }
    ensures turned { progress (header_of fixed.now registers.new) (lists lent.new) room.new
        ≡ turn rows.now k (progress (header_of fixed.now registers.old) (lists lent.old) room.old) }
    ensures same { Same lent.old lent.new }
{
    match rows::operation_at(rows, k) {
        Some(operation) => {
            let answer = operate::step(fixed, registers, lent, operation);
            write_answer(room, k, answer);
        }
        None => write_answer(room, k, refuse(Refusal::OutOfRange, 0)),
    }
}

// The first `count` rows, one after the other, a refused row too.
fn run(
    fixed: &Fixed,
    registers: &mut Registers,
    lent: &mut Lent<&mut [u64]>,
    rows: &[u64],
    room: &mut [u64],
    count: usize,
)
    requires fit { Fit fixed.now lent.old.sets.now lent.old.memory.now }
    requires count_in_bounds { (count * ROW_NUMBERS ≤ length rows.now) × (count * ANSWER_NUMBERS ≤ length room.old) }
    ensures ran { progress (header_of fixed.now registers.new) (lists lent.new) room.new
        ≡ after rows.now count (progress (header_of fixed.now registers.old) (lists lent.old) room.old) }
    ensures same { Same lent.old lent.new }
{
    for k in 0..count {
        turn(fixed, registers, lent, rows, room, k);
    }
}

// What refuses a sequence as a whole, whatever the rows say: numbers that make no whole rows, or too little room.
fn shape(rows: usize, room: usize) -> Answer
    ensures { result ≡ shape_of rows room }
{
    if rows % ROW_NUMBERS != 0 {
        return refuse(Refusal::OutOfRange, 0);
    }
    if rows / ROW_NUMBERS * ANSWER_NUMBERS > room {
        return refuse(Refusal::OutOfRange, 0);
    }
    accept(0)
}

// All the rows; refused as a whole for its shape, it leaves everything.
pub fn carry_out(
    m: &mut Machine,
    lent: &mut Lent<&mut [u64]>,
    rows: &[u64],
    room: &mut [u64],
) -> Answer
    requires { Fit m.old.fixed lent.old.sets.now lent.old.memory.now }
    ensures carried { ran result (progress m.new (lists lent.new) room.new)
        ≡ sequence (state_of m.old (lists lent.old)) rows.now room.old }
    ensures same { Same lent.old lent.new }
{
    let answer = shape(rows.len(), room.len())?;
    let count = rows.len() / ROW_NUMBERS;
    run(&m.fixed, &mut m.registers, lent, rows, room, count);
    Ok(answer)
}
