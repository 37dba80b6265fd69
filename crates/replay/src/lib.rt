// Replay: the records of a log carried out one after the other, over a state that is judged once, before the first.
#![tactic(auto)]

ghost use Rattle.std.specs.Prelude.{Err, ◌≡◌};
ghost use Rattle.model.specs.Header.{header_of, lists, Same, state_of};
ghost use Rattle.operate.specs.Fit.{Fit};
ghost use Rattle.sequence.specs.Run.{progress};
ghost use Rattle.replay.specs.Replay.{stop_number, set_out, replay_from, JudgedReplay};
ghost use Rattle.replay.specs.Run.{carried, came};

use model::{Fixed, Lent, Machine, Registers};
use numbers::{ANSWER_NUMBERS, ROW_NUMBERS, Refusal};
use operation_log::{LogRefusal, Reader};

// ---- Why it stopped before as many records as were asked for were taken, or the log ended.
#[derive(Clone, Copy, Debug, PartialEq, Eq)]
pub enum Stop {
    Unreadable(LogRefusal),
    NotValid,
}

impl From<Stop> for u64 {
    ghost from_gives = { λ stop number. number ≡ stop_number (Err stop) };

    fn from(stop: Stop) -> u64 {
        match stop {
            Stop::Unreadable(why) => why.into(),
            Stop::NotValid => Refusal::StateNotValid.into(),
        }
    }
}

// How it ended, how many records it took, and the place of the next.
#[derive(Clone, Copy)]
pub struct Replayed {
    pub stop: Result<(), Stop>,
    pub taken: usize,
    pub place: usize,
}

// No answer of the machine carries a log's number.
pub fn stop_number(stop: Result<(), Stop>) -> u64
    ensures { result ≡ stop_number stop }
{
    match stop {
        Ok(()) => 0,
        Err(why) => why.into(),
    }
}

// A record's row carried out. Its answer goes to place k of the answer room, and where the room has not the whole of that, nowhere.
fn carry(
    fixed: &Fixed,
    registers: &mut Registers,
    lent: &mut Lent<&mut [u64]>,
    row: [u64; ROW_NUMBERS],
    room: &mut [u64],
    k: usize,
)
    requires { Fit fixed.now lent.old.sets.now lent.old.memory.now }
    ensures carried { progress (header_of fixed.now registers.new) (lists lent.new) room.new
        ≡ carried row k (progress (header_of fixed.now registers.old) (lists lent.old) room.old) }
    ensures same { Same lent.old lent.new }
{
    if k < room.len() / ANSWER_NUMBERS {
        let at = k * ANSWER_NUMBERS;
        sequence::turn(fixed, registers, lent, &row, &mut room[at..], 0);
    } else {
        let mut spare = [0; ANSWER_NUMBERS];
        sequence::turn(fixed, registers, lent, &row, &mut spare, 0);
    }
}

// The records from a place on, at most `most` of them.
fn run(
    fixed: &Fixed,
    registers: &mut Registers,
    lent: &mut Lent<&mut [u64]>,
    log: &[u8],
    place: usize,
    most: usize,
    room: &mut [u64],
) -> Replayed
    requires { Fit fixed.now lent.old.sets.now lent.old.memory.now }
    ensures ran { came result.stop (progress (header_of fixed.now registers.new) (lists lent.new) room.new) result.taken result.place
        ≡ replay_from most log.now (set_out (state_of (header_of fixed.now registers.old) (lists lent.old)) room.old place) }
    ensures same { Same lent.old lent.new }
{
    let mut reader = Reader::new(log, place);
    for taken in 0..most {
        match reader.next() {
            Ok(Some(record)) => carry(fixed, registers, lent, record.row, room, taken),
            Ok(None) => {
                return Replayed {
                    stop: Ok(()),
                    taken,
                    place: reader.at,
                };
            }
            Err(why) => {
                return Replayed {
                    stop: Err(Stop::Unreadable(why)),
                    taken,
                    place: reader.at,
                };
            }
        }
    }
    Replayed {
        stop: Ok(()),
        taken: most,
        place: reader.at,
    }
}

// ---- The entry: it asks for nothing. A state that is not valid is refused, none taken, and left with all else as it was.
pub fn replay(
    m: &mut Machine,
    lent: &mut Lent<&mut [u64]>,
    log: &[u8],
    place: usize,
    most: usize,
    room: &mut [u64],
) -> Replayed
    ensures judged { JudgedReplay (state_of m.old (lists lent.old)) log.now place most room.old
        (came result.stop (progress m.new (lists lent.new) room.new) result.taken result.place) }
    ensures same { Same lent.old lent.new }
{
    if !judge::valid(m, lent.seen()) {
        return Replayed {
            stop: Err(Stop::NotValid),
            taken: 0,
            place,
        };
    }
    run(&m.fixed, &mut m.registers, lent, log, place, most, room)
}
