// Units: the regions that start allows to be assigned, each marked for a side or for both.
#![tactic(auto)]

ghost use Rattle.std.specs.Prelude.{◌≡◌, ◌≤◌, ◌<◌};
ghost use Rattle.numbers.specs.Limits.{UNITS};
ghost use Rattle.units.specs.Units.{mark_number, is_mark, mark_of, Marks, suits, is_unit, assignable};
ghost use Rattle.units.specs.Spans.{span_within, region_span};

use numbers::{GUEST_PAGES, Region, Side, UNITS};

// ---- Marks and their numbers.

#[derive(Clone, Copy)]
pub enum Mark {
    Cpu = 1,
    Dma = 2,
    Both = 3,
}

// A number that is no mark's.
#[derive(Clone, Copy)]
pub struct NoMark(pub u64);

impl From<Mark> for u64 {
    ghost from_gives = { λ mark number. number ≡ mark_number mark };

    fn from(mark: Mark) -> u64 {
        mark as u64
    }
}

impl TryFrom<u64> for Mark {
    type Error = NoMark;

    ghost try_from_gives = { Marks };

    fn try_from(number: u64) -> Result<Mark, NoMark> {
        match number {
            1 => Ok(Mark::Cpu),
            2 => Ok(Mark::Dma),
            3 => Ok(Mark::Both),
            _ => Err(NoMark(number)),
        }
    }
}

pub fn is_mark(number: u64) -> bool
    ensures { result ≡ is_mark number }
{
    Mark::try_from(number).is_ok()
}

// The mark of a number; one that is no mark's reads as CPU, which `is_mark` tells apart.
pub fn mark_of(number: u64) -> Mark
    ensures { result ≡ mark_of number }
{
    Mark::try_from(number).unwrap_or(Mark::Cpu)
}

pub fn suits(mark: Mark, side: Side) -> bool
    ensures { result ≡ suits mark side }
{
    matches!(
        (mark, side),
        (Mark::Both, _) | (Mark::Cpu, Side::Cpu) | (Mark::Dma, Side::Dma)
    )
}

// ---- Units.

#[derive(Clone, Copy)]
pub struct Unit {
    pub region: Region,
    pub mark: Mark,
}

// ---- Spans, of numbers of any size, without wrapping.

// The `count` places from `base` on end at `limit` or before.
pub fn span_within(base: u64, count: u64, limit: u64) -> bool
    ensures { result ≡ span_within base count limit }
{
    count <= limit && base <= limit - count
}

// What refusal 3 asks of a region in a machine of `pages` pages.
pub fn region_span(region: Region, pages: u64) -> bool
    ensures { result ≡ region_span region pages }
{
    (0 < region.count)
        & span_within(region.guest.0, region.count, GUEST_PAGES)
        & span_within(region.page.0, region.count, pages)
}

// ---- What refusal 8 asks: some unit has the region's five fields and a mark that suits.

pub fn is_unit(unit: Unit, side: Side, region: Region) -> bool
    ensures { result ≡ is_unit side region unit }
{
    suits(unit.mark, side) & (unit.region == region)
}

pub fn assignable(units: [Unit; UNITS], count: u64, side: Side, region: Region) -> bool
    requires { count ≤ UNITS }
    ensures { result ≡ assignable units count side region }
{
    for k in 0..count {
        if is_unit(units[k as usize], side, region) {
            return true;
        }
    }
    false
}
