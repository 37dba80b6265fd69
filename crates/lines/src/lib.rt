// What one more line means to the box where it stands, and what it leaves waiting.
#![tactic(auto)]

ghost use Rattle.std.specs.Prelude.{◌<◌};
ghost use Rattle.arrayvec.specs.ArrayVec.{array_vec_len};
ghost use Rattle.batch.specs.Room.{BATCH};

use batch::{Batch, End, Phase, print};
use script::Line;
use std::io::Write;

// ---- What a line means where the box stands.

// A line out of its place is not understood: one before any box line, or a unit after a row or a query.
pub fn in_place(phase: Phase, rows_wait: bool, said: Line) -> Line {
    let placed = match phase {
        Phase::NoBox => matches!(said, Line::Blank | Line::Box { .. }),
        Phase::Told if !rows_wait => true,
        _ => !matches!(said, Line::Unit { .. }),
    };
    if placed { said } else { Line::Unreadable }
}

// Whether what waits must be answered before the line.
pub fn asks(placed: Line) -> bool {
    matches!(placed, Line::Box { .. } | Line::Free | Line::Unreadable)
}

// ---- What each kind of line does.

fn new_box(batch: &mut Batch, pages: u64, base: u64, count: u64) {
    batch.work.phase = Phase::Told;
    batch.work.machine = start::empty_machine();
    batch.work.pages = pages;
    batch.work.base = base;
    batch.work.count = count;
    batch.units.clear();
    batch.rows.clear();
}

fn not_understood<W: Write>(to: &mut W, line: u64) -> Result<(), End> {
    print::print_not_understood(to, line)?;
    Err(End::NotUnderstood)
}

pub fn take<W: Write>(to: &mut W, batch: &mut Batch, placed: Line) -> Result<(), End>
    requires { array_vec_len batch.old.rows < BATCH }
{
    match placed {
        Line::Blank | Line::Free => {}
        Line::Box { pages, base, count } => new_box(batch, pages, base, count),
        Line::Unit {
            vm,
            guest,
            page,
            count,
            access,
            mark,
        } => batch.keep_unit([vm, guest, page, count, access, mark]),
        Line::Row {
            operation,
            a,
            b,
            c,
            d,
            e,
            f,
            g,
        } => batch.rows.push([operation, a, b, c, d, e, f, g]),
        Line::Unreadable => return not_understood(to, batch.work.line),
    }
    Ok(())
}
