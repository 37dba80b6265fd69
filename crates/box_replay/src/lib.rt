// Replay over numbers alone: a header as numbers, and what is lent with it, whose caches are the 64 words of each, beside how many
// slots were lent (docs/MACHINE.md, 14). It says what it gives for any box at all.
#![tactic(auto)]

ghost use Rattle.std.specs.Prelude.{true, false, ◌≡◌, length};
ghost use Rattle.numbers.specs.Decides.{Decides};
ghost use Rattle.model.specs.Header.{lists, Same};
ghost use Rattle.replay.specs.Replay.{stop_number};
ghost use Rattle.box_cores.specs.Boxes.{box_with};
ghost use Rattle.box_cores.specs.Given.{Judgement, Whole, same};
ghost use Rattle.box_replay.specs.Given.{replay_given, ReplayAsked, replay_gives, replay_not_valid, stored_by};

use model::Lent;
use replay::Stop;

// Whether place and taken have one number each.
fn one_each(place: &[u64], taken: &[u64]) -> bool
    ensures { Decides result ((length place.now ≡ 1) × (length taken.now ≡ 1)) }
{
    (place.len() == 1) & (taken.len() == 1)
}

// ---- At most so many records of a log, from a place on. Only caches of a box that was taken are to be stored.
pub fn replay(
    header: &mut [u64],
    lent: &mut Lent<&mut [u64]>,
    log: &[u8],
    place: &mut [u64],
    most: u64,
    answers: &mut [u64],
    taken: &mut [u64],
    cpu_slots: usize,
    dma_slots: usize,
) -> Result<(), Stop>
    ensures given { let before = box_with header.old (lists lent.old) in
        let Asked = Whole cpu_slots dma_slots × ReplayAsked same before place.old taken.old in
        (Judgement Asked (replay_gives same same before log.now place.old most answers.old)
        (replay_not_valid before place.old answers.old taken.old)
        (replay_given (stop_number result) place.new answers.new taken.new (box_with header.new (lists lent.new))))
        × (Judgement Asked true false (stored_by result)) }
    ensures same { Same lent.old lent.new }
{
    if !one_each(place, taken) {
        return Err(Stop::NotValid);
    }
    taken[0] = 0;
    if !box_cores::ready(header, cpu_slots, dma_slots) {
        return Err(Stop::NotValid);
    }
    let mut m = box_header::machine_in(header);
    let ran = replay::replay(&mut m, lent, log, place[0] as usize, most as usize, answers);
    box_header::put_changed(header, &m);
    place[0] = ran.place as u64;
    taken[0] = ran.taken as u64;
    ran.stop
}
