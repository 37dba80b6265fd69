// The operation log: records in a row, read and written one at a time (docs/MACHINE.md, 14).
#![tactic(auto)]

ghost use Rattle.std.specs.Prelude.{Some, IfSome, ◌≡◌, ◌+◌, ◌*◌, ◌≤◌, ◌<◌, length, slice_index, nat_lt};
ghost use Rattle.std.specs.List.{list_all, flat_map};
ghost use Rattle.model.specs.Sequence.{write_at};
ghost use Rattle.records.specs.Little.{bytes_of};
ghost use Rattle.operation_log.specs.Kinds.{argument_count, writes_value, body_of, FIELD_BYTES};
ghost use Rattle.operation_log.specs.Log.{log_refusal_number, log_refusal_text, HEAD_BYTES, FIELD, FIELDS, fields_at, row_of, record_at, place_after, fields_of, written_at, written};

use numbers::ROW_NUMBERS;
use std::{array, fmt};

// ---- Kinds.

// The last kind. Kinds are the operations' numbers, and numbers here too: a record holds them so.
pub const KINDS: u64 = 27;
// The bytes of each kind's body, from kind 1 on, beside its number.
const BODIES: [usize; KINDS as usize] = [
    4, // 1
    4, // 2
    8, // 3
    8, // 4
    12, // 5
    12, // 6
    20, // 7
    20, // 8
    8, // 9
    8, // 10
    20, // 11
    20, // 12
    20, // 13
    20, // 14
    8, // 15
    8, // 16
    8, // 17
    8, // 18
    4, // 19
    4, // 20
    12, // 21
    12, // 22
    20, // 23
    20, // 24
    0, // 25
    0, // 26
    4, // 27
];
// The kinds whose last argument is a value of 64 bits.
const CPU_WRITE: u64 = 23;

const DMA_WRITE: u64 = 24;

// ---- The parts of a record.

// Bytes of the length, of the kind, of both together, and of a field.
const LENGTH_BYTES: usize = 2;

const KIND_BYTES: usize = 2;

const HEAD_BYTES: usize = LENGTH_BYTES + KIND_BYTES;

const FIELD_BYTES: usize = 4;
// The most fields of a body.
const FIELDS: usize = 5;
// Numbers that a field can hold.
const FIELD: u64 = 4294967296;

// ---- Why a record is not read or not written. No answer of the machine carries the number of one of these.
#[derive(Clone, Copy, Debug, PartialEq, Eq)]
pub enum LogRefusal {
    CutShort,
    UnknownKind,
    WrongLength,
    DoesNotFit,
}

impl From<LogRefusal> for u64 {
    ghost from_gives = { λ refusal number. number ≡ log_refusal_number refusal };

    fn from(refusal: LogRefusal) -> u64 {
        match refusal {
            LogRefusal::CutShort => 20,
            LogRefusal::UnknownKind => 21,
            LogRefusal::WrongLength => 22,
            LogRefusal::DoesNotFit => 23,
        }
    }
}

impl fmt::Display for LogRefusal {
    ghost output = { λ refusal. Some (log_refusal_text refusal) };

    fn fmt<W: fmt::Write>(&self, f: &mut fmt::Formatter<W>) -> fmt::Result {
        f.write_str(match self {
            LogRefusal::CutShort => "cut short",
            LogRefusal::UnknownKind => "unknown kind",
            LogRefusal::WrongLength => "wrong length",
            LogRefusal::DoesNotFit => "does not fit",
        })
    }
}

// ---- A record as it was read: its row, and the place after it.
#[derive(Clone, Copy)]
pub struct Taken {
    pub row: [u64; ROW_NUMBERS],
    pub next: usize,
}

// ---- A log and a place in it.
#[derive(Clone, Copy)]
pub struct Reader<'a> {
    pub log: &'a [u8],
    pub at: usize,
}

// ---- Kinds, for reader and writer.

// How many bytes the body of a kind has; what is no kind has none.
fn body_length(kind: u64) -> Option<usize>
    ensures length { result ≡ body_of kind }
    ensures most { IfSome result (λ body. body ≤ FIELD_BYTES * FIELDS) }
{
    if (0 < kind) & (kind <= KINDS) {
        return Some(BODIES[(kind - 1) as usize]);
    }
    None
}

fn writes_value(kind: u64) -> bool
    ensures { result ≡ writes_value kind }
{
    (kind == CPU_WRITE) | (kind == DMA_WRITE)
}

// How many arguments the operation of a kind has: a field each, and a value two. What is no kind has none.
pub fn argument_count(kind: u64) -> usize
    ensures { (result ≡ argument_count kind) × (result ≤ FIELDS) }
{
    let Some(body) = body_length(kind) else {
        return 0;
    };
    let fields = body / FIELD_BYTES;
    if writes_value(kind) {
        return fields - 1;
    }
    fields
}

// ---- Reading.

// The fields of the record at a place, which has `count` of them, and 0 behind them.
fn fields_at(log: &[u8], at: usize, count: usize) -> [u64; FIELDS]
    requires { at + HEAD_BYTES + FIELD_BYTES * count ≤ length log.now }
    ensures { result ≡ fields_at log.now at count }
{
    array::from_fn(|i| {
        if i < count {
            records::read::<FIELD_BYTES>(log, at + HEAD_BYTES + FIELD_BYTES * i)
        } else {
            0
        }
    })
}

fn row_of(kind: u64, fields: [u64; FIELDS]) -> [u64; ROW_NUMBERS]
    requires { (slice_index fields 3 < FIELD) × (slice_index fields 4 < FIELD) }
    ensures { result ≡ row_of kind fields }
{
    let [a, b, c, d, e] = fields;
    if writes_value(kind) {
        return [kind, a, b, c, d + FIELD * e, 0, 0, 0];
    }
    [kind, a, b, c, d, e, 0, 0]
}

// What stands at a place of the log: a record, or nothing where the log has ended.
#[tactic(auto, unfolding(crate::specs::Log::record_at))]
pub fn record_at(log: &[u8], at: usize) -> Result<Option<Taken>, LogRefusal>
    ensures { result ≡ record_at log.now at }
{
    if log.len() <= at {
        return Ok(None);
    }
    let left = log.len() - at;
    if left < HEAD_BYTES {
        return Err(LogRefusal::CutShort);
    }
    let length = records::read::<LENGTH_BYTES>(log, at) as usize;
    if left - LENGTH_BYTES < length {
        return Err(LogRefusal::CutShort);
    }
    let kind = records::read::<KIND_BYTES>(log, at + LENGTH_BYTES);
    let body = body_length(kind).ok_or(LogRefusal::UnknownKind)?;
    if length != KIND_BYTES + body {
        return Err(LogRefusal::WrongLength);
    }
    let fields = fields_at(log, at, body / FIELD_BYTES);
    Ok(Some(Taken {
        row: row_of(kind, fields),
        next: at + HEAD_BYTES + body,
    }))
}

// ---- A reader, whose methods are thin over `record_at`.

impl<'a> Reader<'a> {
    pub fn new(log: &'a [u8], at: usize) -> Reader<'a>
        ensures { (result.log ≡ log.entry) × (result.at ≡ at) }
    {
        Reader { log, at }
    }

    // Looks at the record at the reader's place.
    pub fn read(&self) -> Result<Option<Taken>, LogRefusal>
        ensures { result ≡ record_at self.now.log.now self.now.at }
    {
        record_at(self.log, self.at)
    }

    // Reads the record at the reader's place and moves past it; where there is none it stays.
    pub fn next(&mut self) -> Result<Option<Taken>, LogRefusal>
        ensures { (result ≡ record_at self.old.log.now self.old.at) × (self.new.log ≡ self.old.log) × (self.new.at ≡ place_after result self.old.at) }
    {
        let found = record_at(self.log, self.at);
        if let Ok(Some(taken)) = found {
            self.at = taken.next;
        }
        found
    }
}

// ---- Writing.

// The fields that a row's body may have; a value's low half comes first.
fn fields_of(row: [u64; ROW_NUMBERS]) -> [u64; FIELDS]
    ensures { result ≡ fields_of row }
{
    if writes_value(row[0]) {
        return [row[1], row[2], row[3], row[4] % FIELD, row[4] / FIELD];
    }
    [row[1], row[2], row[3], row[4], row[5]]
}

// Whether four bytes can hold each of the fields.
fn fit(fields: &[u64]) -> bool
    ensures { result ≡ list_all (λ field. nat_lt field FIELD) fields.now }
{
    fields.iter().all(|field| *field < FIELD)
}

// The fields, one behind the other from a place on.
fn put_fields(log: &mut [u8], at: usize, fields: &[u64])
    requires { at + FIELD_BYTES * length fields.now ≤ length log.old }
    ensures { log.new ≡ write_at log.old at (flat_map (bytes_of FIELD_BYTES) fields.now) }
{
    for (i, field) in fields.iter().enumerate() {
        records::put::<FIELD_BYTES>(log, at + FIELD_BYTES * i, *field);
    }
}

// The row's record at a place of the buffer, and the place after it. Refused, it leaves the buffer.
#[tactic(auto, unfolding(crate::specs::Log::written_at, crate::specs::Log::written))]
pub fn write(row: [u64; ROW_NUMBERS], log: &mut [u8], at: usize) -> Result<usize, LogRefusal>
    ensures { (result ≡ written_at row (length log.old) at) × (log.new ≡ written row log.old at) }
{
    let kind = row[0];
    let body = body_length(kind).ok_or(LogRefusal::UnknownKind)?;
    let all = fields_of(row);
    let fields = &all[..body / FIELD_BYTES];
    if !fit(fields) {
        return Err(LogRefusal::DoesNotFit);
    }
    if log.len() < at {
        return Err(LogRefusal::DoesNotFit);
    }
    if log.len() - at < HEAD_BYTES + body {
        return Err(LogRefusal::DoesNotFit);
    }
    records::put::<LENGTH_BYTES>(log, at, (KIND_BYTES + body) as u64);
    records::put::<KIND_BYTES>(log, at + LENGTH_BYTES, kind);
    put_fields(log, at + HEAD_BYTES, fields);
    Ok(at + HEAD_BYTES + body)
}
