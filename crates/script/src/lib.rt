// Reads one line of a box script, byte by byte (docs/MACHINE.md, 11).
// The reader keeps no text: only the numbers so far, and what the word under way may still become.
#![tactic(auto)]

ghost use Rattle.std.specs.Prelude.{◌≡◌};
ghost use Rattle.script.specs.Lines.{is_blank, takes_idle, line_of};
ghost use Rattle.script.specs.Steps.{first_part, more_digits, more_letters, lengthened, said, spoilt, pushed, opened, with_number, may_idle, with_idle, added, ended, line_from, taken, arrived, fed_with, line_start, line_end, is_bad};

use numbers::{IDLE, ROW_NUMBERS};

// ---- The letters after the first of box, unit, free and idle, the next one in the low byte.

const OX: u64 = b'o' as u64 + b'x' as u64 * 256;

const NIT: u64 = b'n' as u64 + (b'i' as u64 + b't' as u64 * 256) * 256;

const REE: u64 = b'r' as u64 + (b'e' as u64 + b'e' as u64 * 256) * 256;

const DLE: u64 = b'd' as u64 + (b'l' as u64 + b'e' as u64 * 256) * 256;

// ---- What a whole line says.
#[derive(Clone, Copy)]
pub enum Line {
    Blank,
    Box {
        pages: u64,
        base: u64,
        count: u64,
    },
    Unit {
        vm: u64,
        guest: u64,
        page: u64,
        count: u64,
        access: u64,
        mark: u64,
    },
    Row {
        operation: u64,
        a: u64,
        b: u64,
        c: u64,
        d: u64,
        e: u64,
        f: u64,
        g: u64,
    },
    Free,
    Unreadable,
}

// ---- What a whole word says.
#[derive(Clone, Copy)]
pub enum Word {
    Number(u64),
    BoxWord,
    UnitWord,
    FreeWord,
    IdleWord,
    OtherWord,
}

// ---- What the bytes of a word so far can become. Letters are the beginning of a known word, whose other letters are rest:
// the next one in the low byte, 0 after the last. A number and no slice: `packed` and `letters_read` speak of it.
#[derive(Clone, Copy)]
pub enum Part {
    Nothing,
    Digits(u64),
    Letters { word: Word, rest: u64 },
    Strange,
}

// ---- What the words so far can become.
#[derive(Clone, Copy, PartialEq, Eq)]
pub enum Kind {
    NoWords,
    BoxLine,
    UnitLine,
    RowLine,
    FreeLine,
    BadLine,
}

// The words so far: count numbers, and 0 in the other places. No heap here, and `line_by` and `push_room` speak of both fields.
#[derive(Clone, Copy)]
pub struct Words {
    pub kind: Kind,
    pub count: usize,
    pub numbers: [u64; ROW_NUMBERS],
}

// The text so far: its whole words, and the word under way.
#[derive(Clone, Copy)]
pub struct Text {
    pub words: Words,
    pub part: Part,
    pub comment: bool,
}

// A CR waits for the byte after it: only at the end of a line is it no part of the text.
#[derive(Clone, Copy)]
pub struct Reader {
    pub text: Text,
    pub cr: bool,
}

// ---- Bytes.

fn is_blank(byte: u8) -> bool
    ensures { result ≡ is_blank byte }
{
    matches!(byte, b' ' | b'\t')
}

// ---- The word under way.

#[tactic(auto, unfolding(crate::specs::Steps::first_part))]
fn first_part(byte: u8) -> Part
    ensures { result ≡ first_part byte }
{
    let (word, rest) = match byte {
        b'0'..=b'9' => return Part::Digits(u64::from(byte - b'0')),
        b'b' => (Word::BoxWord, OX),
        b'u' => (Word::UnitWord, NIT),
        b'f' => (Word::FreeWord, REE),
        b'i' => (Word::IdleWord, DLE),
        _ => return Part::Strange,
    };
    Part::Letters { word, rest }
}

// A number stays one while 64 bits hold it.
#[tactic(auto, unfolding(crate::specs::Steps::more_digits))]
fn more_digits(value: u64, byte: u8) -> Part
    ensures { result ≡ more_digits value byte }
{
    if !byte.is_ascii_digit() {
        return Part::Strange;
    }
    let next = u64::from(byte - b'0');
    let longer = value.checked_mul(10).and_then(|n| n.checked_add(next));
    match longer {
        Some(value) => Part::Digits(value),
        None => Part::Strange,
    }
}

#[tactic(auto, unfolding(crate::specs::Steps::more_letters))]
fn more_letters(word: Word, rest: u64, byte: u8) -> Part
    ensures { result ≡ more_letters word rest byte }
{
    if rest != 0 && u64::from(byte) == rest % 256 {
        return Part::Letters {
            word,
            rest: rest / 256,
        };
    }
    Part::Strange
}

pub fn lengthened(part: Part, byte: u8) -> Part
    ensures { result ≡ lengthened part byte }
{
    match part {
        Part::Nothing => first_part(byte),
        Part::Digits(value) => more_digits(value, byte),
        Part::Letters { word, rest } => more_letters(word, rest, byte),
        Part::Strange => Part::Strange,
    }
}

// What the word says if it ends here.
fn said(part: Part) -> Word
    ensures { result ≡ said part }
{
    match part {
        Part::Digits(value) => Word::Number(value),
        Part::Letters { word, rest: 0 } => word,
        _ => Word::OtherWord,
    }
}

// ---- The words so far.

fn spoilt(words: Words) -> Words
    ensures { result ≡ spoilt words }
{
    Words {
        kind: Kind::BadLine,
        ..words
    }
}

// One number more, of at most eight.
#[tactic(auto, unfolding(crate::specs::Steps::pushed))]
fn pushed(words: Words, kind: Kind, number: u64) -> Words
    ensures { result ≡ pushed words kind number }
{
    let count = words.count;
    if count < ROW_NUMBERS {
        let mut numbers = words.numbers;
        numbers[count] = number;
        return Words {
            kind,
            count: count + 1,
            numbers,
        };
    }
    spoilt(words)
}

// A keyword stands first.
#[tactic(auto, unfolding(crate::specs::Steps::opened))]
fn opened(words: Words, kind: Kind) -> Words
    ensures { result ≡ opened words kind }
{
    if words.kind == Kind::NoWords {
        return Words { kind, ..words };
    }
    spoilt(words)
}

fn with_number(words: Words, number: u64) -> Words
    ensures { result ≡ with_number words number }
{
    match words.kind {
        Kind::NoWords => pushed(words, Kind::RowLine, number),
        Kind::FreeLine | Kind::BadLine => spoilt(words),
        kind => pushed(words, kind, number),
    }
}

fn takes_idle(operation: u64) -> bool
    ensures { result ≡ takes_idle operation }
{
    matches!(operation, 15 | 16)
}

// Only operations 15 and 16 take idle, and only as the second number after the operation.
#[tactic(auto, unfolding(crate::specs::Steps::may_idle))]
fn may_idle(words: Words) -> bool
    ensures { result ≡ may_idle words }
{
    words.kind == Kind::RowLine && words.count == 2 && takes_idle(words.numbers[0])
}

#[tactic(auto, unfolding(crate::specs::Steps::with_idle))]
fn with_idle(words: Words) -> Words
    ensures { result ≡ with_idle words }
{
    if may_idle(words) {
        return pushed(words, Kind::RowLine, IDLE);
    }
    spoilt(words)
}

fn added(words: Words, word: Word) -> Words
    ensures { result ≡ added words word }
{
    match word {
        Word::Number(number) => with_number(words, number),
        Word::BoxWord => opened(words, Kind::BoxLine),
        Word::UnitWord => opened(words, Kind::UnitLine),
        Word::FreeWord => opened(words, Kind::FreeLine),
        Word::IdleWord => with_idle(words),
        Word::OtherWord => spoilt(words),
    }
}

// The word under way, if there is one, ends.
#[tactic(auto, unfolding(crate::specs::Steps::ended))]
fn ended(text: Text) -> Words
    ensures { result ≡ ended text.words text.part }
{
    match text.part {
        Part::Nothing => text.words,
        part => added(text.words, said(part)),
    }
}

fn line_from(words: Words) -> Line
    ensures { result ≡ line_from words }
{
    match words.kind {
        Kind::NoWords => Line::Blank,
        Kind::BoxLine if words.count == 3 => {
            let [pages, base, count, ..] = words.numbers;
            Line::Box { pages, base, count }
        }
        Kind::UnitLine if words.count == 6 => {
            let [vm, guest, page, count, access, mark, ..] = words.numbers;
            Line::Unit {
                vm,
                guest,
                page,
                count,
                access,
                mark,
            }
        }
        Kind::RowLine => {
            let [operation, a, b, c, d, e, f, g] = words.numbers;
            Line::Row {
                operation,
                a,
                b,
                c,
                d,
                e,
                f,
                g,
            }
        }
        Kind::FreeLine => Line::Free,
        _ => Line::Unreadable,
    }
}

// ---- Bytes of the text, and of the line.

#[tactic(auto, unfolding(crate::specs::Steps::taken))]
fn taken(text: Text, byte: u8) -> Text
    ensures { result ≡ taken text byte }
{
    if text.comment {
        return text;
    }
    if byte == b'#' || is_blank(byte) {
        return Text {
            words: ended(text),
            part: Part::Nothing,
            comment: byte == b'#',
        };
    }
    Text {
        part: lengthened(text.part, byte),
        ..text
    }
}

#[tactic(auto, unfolding(crate::specs::Steps::arrived))]
fn arrived(text: Text, byte: u8) -> Reader
    ensures { result ≡ arrived text byte }
{
    if byte == b'\r' {
        return Reader { text, cr: true };
    }
    Reader {
        text: taken(text, byte),
        cr: false,
    }
}

// The reader at the start of a line.
pub fn line_start() -> Reader
    ensures { result ≡ line_start }
{
    Reader {
        text: Text {
            words: Words {
                kind: Kind::NoWords,
                count: 0,
                numbers: [0; ROW_NUMBERS],
            },
            part: Part::Nothing,
            comment: false,
        },
        cr: false,
    }
}

// One byte more, other than the LF that ends the line.
#[tactic(auto, unfolding(crate::specs::Steps::fed_with))]
pub fn feed(reader: Reader, byte: u8) -> Reader
    ensures { result ≡ fed_with reader byte }
{
    if reader.cr {
        return arrived(taken(reader.text, b'\r'), byte);
    }
    arrived(reader.text, byte)
}

// Whether a byte came with which the line cannot be understood, however it goes on.
pub fn is_bad(reader: Reader) -> bool
    ensures { result ≡ is_bad reader }
{
    let text = reader.text;
    text.words.kind == Kind::BadLine || matches!(text.part, Part::Strange)
}

// What the line says, now that it ends.
#[tactic(auto, unfolding(crate::specs::Steps::text_end))]
pub fn line_end(reader: Reader) -> Line
    ensures { result ≡ line_end reader }
{
    line_from(ended(reader.text))
}

// A whole line, without its LF.
#[tactic(auto, using(crate::specs::LineLaws::read_end))]
pub fn read_line(bytes: &[u8]) -> Line
    ensures { result ≡ line_of bytes.now }
{
    let mut reader = line_start();
    for &byte in bytes {
        reader = feed(reader, byte);
    }
    line_end(reader)
}
