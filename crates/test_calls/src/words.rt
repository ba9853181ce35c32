// The words of a script, and the numbers of a line. Lines may hold any bytes.
use area_rules::{Block, Region};

// A kind of file.
#[derive(Clone, Copy, Debug, PartialEq, Eq)]
pub enum Kind {
    Area,
    Grid,
    Md,
}

// A call that reads a file with a layout.
#[derive(Clone, Copy, Debug, PartialEq, Eq)]
pub enum ReadCall {
    // `sample LINE ELEMENT SLOT`
    Sample,
    // `band-sample LINE ELEMENT BAND`
    BandSample,
    // `line LINE SLOT PLACES`
    Line,
    // `band-line LINE BAND PLACES`
    BandLine,
    // `band-slot BAND`
    BandSlot,
    // `dir`, `nav`, `cal`, `aux`, `data`, `audit`
    Block(Block),
    // `validity-code LINE`, `documentation LINE`, `calibration LINE`, `band-list LINE`, `padding LINE`
    Region(Region),
    // `point ROW COLUMN`
    Point,
    // `header`
    Header,
    // `field ROW COLUMN POSITION`
    Field,
    // `key NUMBER BYTES`: the name is the first bytes of the four bytes of a number in big order with four zeros behind them.
    Key,
    // `by-columns PLACES`
    ByColumns,
    // `by-rows PLACES`
    ByRows,
    // `record PLACES ROW COLUMN`
    Record,
}

// A call that stores a number with a layout.
#[derive(Clone, Copy, Debug, PartialEq, Eq)]
pub enum StoreCall {
    // `store-sample LINE ELEMENT SLOT NUMBER`
    Sample,
    // `store-band LINE ELEMENT BAND NUMBER`
    Band,
    // `store-point ROW COLUMN NUMBER`
    Point,
    // `store-field ROW COLUMN POSITION NUMBER`
    Field,
}

// A call that needs no layout.
#[derive(Clone, Copy, Debug, PartialEq, Eq)]
pub enum PlainCall {
    // `delete NUMBER`
    Delete,
    // `add ROWS COLUMNS FIRST VALUES BYTES`
    Add,
    // `add-short ROWS COLUMNS FIRST VALUES BYTES`
    AddShort,
    // `delete-short NUMBER`
    DeleteShort,
    // `stretches`
    Stretches,
    // `word K` writes word K, counted from 0.
    Word,
    // `date WORD`
    Date,
    // `time WORD`
    Time,
    // `words K=N ..` sets words, each by its number and its value. AREA counts words from 1, the others from 0.
    Words,
    // `with K N NUMBER` opens the file with word K as N, where it is a GRID file the grid of a number.
    With,
}

// What a line of a script asks for.
#[derive(Clone, Copy, Debug, PartialEq, Eq)]
pub enum Call {
    Read(ReadCall),
    Store(StoreCall),
    Plain(PlainCall),
    // `area LENGTH` makes an AREA file of a length in bytes, at most 16,484. Its directory holds 0, and each byte i behind it i modulo 256: a value shows where it
    // was read. `grid LENGTH` and `md LENGTH` make a GRID file and an MD file likewise. Each word k holds k, and the bytes behind the last whole word what they held.
    Make(Kind),
    // `open NUMBER` opens the file, where it is a GRID file the grid of a number.
    Open,
    // `keep` keeps a copy of the file, in place of the one before.
    Keep,
    // `restore` puts the bytes of the copy back, as many as both have.
    Restore,
    // `differences` writes each byte of the file that differs from the copy.
    Differences,
}

// The calls, each at the number of its word.
const CALLS: [Call; 44] = [
    Call::Read(ReadCall::Sample),
    Call::Read(ReadCall::BandSample),
    Call::Read(ReadCall::Line),
    Call::Read(ReadCall::BandLine),
    Call::Read(ReadCall::BandSlot),
    Call::Read(ReadCall::Block(Block::Dir)),
    Call::Read(ReadCall::Block(Block::Nav)),
    Call::Read(ReadCall::Block(Block::Cal)),
    Call::Read(ReadCall::Block(Block::Aux)),
    Call::Read(ReadCall::Block(Block::Data)),
    Call::Read(ReadCall::Block(Block::Audit)),
    Call::Read(ReadCall::Region(Region::Validity)),
    Call::Read(ReadCall::Region(Region::Documentation)),
    Call::Read(ReadCall::Region(Region::Calibration)),
    Call::Read(ReadCall::Region(Region::BandList)),
    Call::Read(ReadCall::Region(Region::Padding)),
    Call::Read(ReadCall::Point),
    Call::Read(ReadCall::Header),
    Call::Read(ReadCall::Field),
    Call::Read(ReadCall::Key),
    Call::Read(ReadCall::ByColumns),
    Call::Read(ReadCall::ByRows),
    Call::Read(ReadCall::Record),
    Call::Store(StoreCall::Sample),
    Call::Store(StoreCall::Band),
    Call::Store(StoreCall::Point),
    Call::Store(StoreCall::Field),
    Call::Plain(PlainCall::Delete),
    Call::Plain(PlainCall::Add),
    Call::Plain(PlainCall::AddShort),
    Call::Plain(PlainCall::DeleteShort),
    Call::Plain(PlainCall::Stretches),
    Call::Plain(PlainCall::Word),
    Call::Plain(PlainCall::Date),
    Call::Plain(PlainCall::Time),
    Call::Plain(PlainCall::Words),
    Call::Plain(PlainCall::With),
    Call::Make(Kind::Area),
    Call::Make(Kind::Grid),
    Call::Make(Kind::Md),
    Call::Open,
    Call::Keep,
    Call::Restore,
    Call::Differences,
];

// Whether a line begins with a word, with a space or nothing behind it.
fn begins(line: &[u8], word: &[u8]) -> bool {
    match line.strip_prefix(word) {
        Some(rest) => rest.is_empty() || rest.starts_with(b" "),
        None => false,
    }
}

// The call of the word that a line begins with, in a list of words with a space behind each but the last: a word's number is its place in the list. A line that begins
// with none of them has the number behind the last.
pub fn call_of(line: &[u8], list: &[u8]) -> Option<Call> {
    let mut calls = CALLS.iter();
    for part in list.split_inclusive(|byte| *byte == b' ') {
        let call = calls.next();
        if begins(line, part.strip_suffix(b" ").unwrap_or(part)) {
            return call.copied();
        }
    }
    calls.next().copied()
}

// What is left of a line, whose numbers are taken one after another.
#[derive(Clone, Copy, Debug)]
pub struct Rest<'a> {
    pub text: &'a [u8],
}

impl<'a> Rest<'a> {
    // Takes the next number, as a word in two's complement, cut to 32 bits. Numbers are runs of decimal digits, negative where a minus sign stands straight before them.
    // Any other byte parts them.
    pub fn number(&mut self) -> Option<u32> {
        let start = self.text.iter().position(|byte| byte.is_ascii_digit())?;
        let (before, from) = self.text.split_at_checked(start)?;
        let end = from
            .iter()
            .position(|byte| !byte.is_ascii_digit())
            .unwrap_or(from.len());
        let (digits, rest) = from.split_at_checked(end)?;
        self.text = rest;
        let n = digits.iter().fold(0u32, |n, digit| {
            n.wrapping_mul(10)
                .wrapping_add(digit.wrapping_sub(b'0') as u32)
        });
        match before.last() {
            Some(b'-') => Some(n.wrapping_neg()),
            _ => Some(n),
        }
    }
}

// The first five numbers of a line, 0 for each that it has not.
#[derive(Clone, Copy, Debug, PartialEq, Eq)]
pub struct Numbers {
    pub a: u32,
    pub b: u32,
    pub c: u32,
    pub d: u32,
    pub e: u32,
}

// The first five numbers of a line.
pub fn numbers_in(line: &[u8]) -> Numbers {
    let mut rest = Rest { text: line };
    let a = rest.number().unwrap_or(0);
    let b = rest.number().unwrap_or(0);
    let c = rest.number().unwrap_or(0);
    let d = rest.number().unwrap_or(0);
    let e = rest.number().unwrap_or(0);
    Numbers { a, b, c, d, e }
}
