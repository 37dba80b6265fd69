// Rows: the operation that eight numbers name. No other code reads a row's number as idle; `script` and `numbers::target_number` write it.
#![tactic(auto)]

ghost use Rattle.std.specs.Prelude.{◌≡◌, ◌+◌, ◌*◌, ◌≤◌, length, eqb, if◌then◌else◌};
ghost use Rattle.numbers.specs.Limits.{ROW_NUMBERS};
ghost use Rattle.model.specs.Sequence.{target_of, region_of, operation_of, operation_in, row_at};

use numbers::{
    GuestPage, IDLE, Operation, PhysPage, ROW_NUMBERS, Region, Side, SideOperation, VmId,
};

pub fn target_of(number: u64) -> Option<VmId>
    ensures { result ≡ target_of number }
{
    if number == IDLE {
        return None;
    }
    Some(VmId(number))
}

// The region of five arguments in order.
pub fn region_of(vm: u64, guest: u64, page: u64, count: u64, access: u64) -> Region
    ensures { result ≡ region_of vm guest page count access }
{
    Region {
        vm: VmId(vm),
        guest: GuestPage(guest),
        page: PhysPage(page),
        count,
        access,
    }
}

// The side of an operation that has a number for each: `cpu` is the CPU's.
fn side_of(number: u64, cpu: u64) -> Side
    ensures { result ≡ (if eqb number cpu then Side.Cpu else Side.Dma) }
{
    if number == cpu { Side::Cpu } else { Side::Dma }
}

// The operation of a number and its arguments in order. The numbers are the paper's, in which C writes its rows.
pub fn operation_of(number: u64, a: u64, b: u64, c: u64, d: u64, e: u64) -> Option<Operation>
    ensures { result ≡ operation_of number a b c d e }
{
    Some(match number {
        1 => Operation::AddVm(VmId(a)),
        2 => Operation::RemoveVm(VmId(a)),
        3 => Operation::AssignPage(VmId(a), PhysPage(b)),
        4 => Operation::ReclaimPage(VmId(a), PhysPage(b)),
        5 => Operation::SharePage(VmId(a), VmId(b), PhysPage(c)),
        6 => Operation::UnsharePage(VmId(a), VmId(b), PhysPage(c)),
        7 | 8 => Operation::On(
            side_of(number, 7),
            SideOperation::MapPage {
                vm: VmId(a),
                guest: GuestPage(b),
                page: PhysPage(c),
                access: d,
                generation: e,
            },
        ),
        9 | 10 => Operation::On(
            side_of(number, 9),
            SideOperation::UnmapPage(VmId(a), GuestPage(b)),
        ),
        11 | 13 => Operation::On(
            side_of(number, 11),
            SideOperation::InsertRegion(region_of(a, b, c, d, e)),
        ),
        12 | 14 => Operation::On(
            side_of(number, 12),
            SideOperation::RemoveRegion(region_of(a, b, c, d, e)),
        ),
        15 | 16 => Operation::On(
            side_of(number, 15),
            SideOperation::GivePort(a, target_of(b)),
        ),
        17 | 18 => Operation::On(
            side_of(number, 17),
            SideOperation::FillSlot(a, GuestPage(b)),
        ),
        19 | 20 => Operation::On(side_of(number, 19), SideOperation::EmptySlot(a)),
        21 | 22 => Operation::On(
            side_of(number, 21),
            SideOperation::ReadWord {
                port: a,
                guest: GuestPage(b),
                word: c,
            },
        ),
        23 | 24 => Operation::On(
            side_of(number, 23),
            SideOperation::WriteWord {
                port: a,
                guest: GuestPage(b),
                word: c,
                value: d,
            },
        ),
        25 => Operation::DataBarrier,
        26 => Operation::InstructionBarrier,
        27 => Operation::RetireVm(VmId(a)),
        _ => return None,
    })
}

// The operation of row k.
#[tactic(auto, unfolding(model::specs::Sequence::operation_in))]
pub fn operation_at(rows: &[u64], k: usize) -> Option<Operation>
    requires { (k + 1) * ROW_NUMBERS ≤ length rows.now }
    ensures { result ≡ operation_in (row_at rows.now k) }
{
    let row = &rows[k * ROW_NUMBERS..][..ROW_NUMBERS];
    operation_of(row[0], row[1], row[2], row[3], row[4], row[5])
}

// The operation of a row by itself.
#[tactic(auto, unfolding(model::specs::Sequence::operation_in))]
pub fn operation_in(row: [u64; 8]) -> Option<Operation>
    ensures { result ≡ operation_in row }
{
    let [number, a, b, c, d, e, ..] = row;
    operation_of(number, a, b, c, d, e)
}
