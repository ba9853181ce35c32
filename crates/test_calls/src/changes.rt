// The bytes of a file: made, set by words, stored into, compared with a copy; grids deleted from it and added to it, and its free stretches.
use crate::answers::{Told, say, say_places, say_stretches};
use crate::words::{Kind, Numbers, PlainCall, Rest, StoreCall};
use area_rules::SlotOrBand;
use calendar::{date_of, time_of};
use endian::signed;
use endian_rules::Order;
use endian_steps::{read_word, write_number};
use extent_rules::Extent;
use grid_updates_by_value::{
    PLACES, SHORT_PLACES, WithTable, add_with_given_table, add_with_table, delete_with_given_table,
    delete_with_table, free_stretches_with_table,
};
use layout::{open_area, open_grid, open_md};
use layout_rules::Layout;
use refusal_rules::Refusal;
use std::io;
use stores::{store_field, store_point, store_sample};

// Stores a number, with a layout, and writes what came back.
pub fn store_value(
    rt: &impl Print,
    file: &mut [u8],
    layout: Layout,
    call: StoreCall,
    n: Numbers,
) -> io::Result<()> {
    let answer = match call {
        StoreCall::Sample => store_sample(file, layout, n.a, n.b, SlotOrBand::Slot(n.c), n.d),
        StoreCall::Band => store_sample(file, layout, n.a, n.b, SlotOrBand::Band(n.c), n.d),
        StoreCall::Point => store_point(file, layout, n.a, n.b, signed(n.c)),
        StoreCall::Field => store_field(file, layout, n.a, n.b, n.c, signed(n.d)),
    };
    say(rt, answer)
}

// Opens a file of a kind.
pub fn open_kind(file: &[u8], kind: Kind, order: Order, number: u32) -> Result<Layout, Refusal> {
    match kind {
        Kind::Area => open_area(file),
        Kind::Grid => open_grid(file, order, number),
        Kind::Md => open_md(file, order),
    }
}

// Makes a call with a table of its own, and writes what it answers and each free stretch in the table. Not part of its caller's body: there the table would be
// cleared for each call that needs no layout, whether it has a table or not.
#[inline(never)]
fn say_with_stretches<T: Told, F: FnOnce() -> WithTable<T, PLACES>>(
    rt: &impl Print,
    call: F,
) -> io::Result<()>
    requires { F.IsAlwaysCallable call }
{
    let outcome = call();
    say(rt, outcome.answer)?;
    say_stretches(rt, &outcome.table)
}

// Writes what a call with a table that it was given answers, and each place of the table.
fn say_with_places<T: Told, const N: usize>(
    rt: &impl Print,
    outcome: WithTable<T, N>,
) -> io::Result<()> {
    say(rt, outcome.answer)?;
    say_places(rt, &outcome.table)
}

// A short table before a call: no place is zero, and each differs from the others.
const SHORT_TABLE: [Extent; SHORT_PLACES] = [
    Extent {
        start: 9001,
        length: 901,
    },
    Extent {
        start: 9002,
        length: 902,
    },
    Extent {
        start: 9003,
        length: 903,
    },
    Extent {
        start: 9004,
        length: 904,
    },
];

// The bytes that headers are made of: byte i is i + 1 modulo 256.
fn made_header() -> [u8; 300] {
    let mut header = [0u8; 300];
    for (i, byte) in header.iter_mut().enumerate() {
        *byte = ((i + 1) % 256) as u8;
    }
    header
}

// Values from a first one on, each one more than the one before, modulo 2^32.
fn values_from(first: u32) -> [i32; 100] {
    let mut values = [0i32; 100];
    for (i, value) in values.iter_mut().enumerate() {
        *value = signed(first.wrapping_add(i as u32));
    }
    values
}

// Adds a grid with the first bytes of a header and the first of some values: so many values, at most 100, which are the third number, one more and so on, and so
// many bytes, at most 300, of which byte i is i + 1 modulo 256. Adds none where there are fewer values or bytes.
fn add_made<F: FnOnce(&[u8], &[i32]) -> io::Result<()>>(n: Numbers, add: F) -> io::Result<()>
    requires { F.IsAlwaysCallable add }
{
    if let (Some(header), Some(values)) = (
        made_header().get(..n.e as usize),
        values_from(n.c).get(..n.d as usize),
    ) {
        add(header, values)?;
    }
    Ok(())
}

// A word of the file, counted from 0, or 0 where the file has it not.
fn word_at(file: &[u8], order: Order, k: u32) -> u32 {
    let i = k as usize;
    if i < file.len() / 4 {
        return read_word(order, file, i);
    }
    0
}

// Sets word k, counted from 0, where the file has it.
fn set_word(file: &mut [u8], order: Order, k: u32, n: u32) {
    let i = k as usize;
    if i < file.len() / 4 {
        write_number(order, 4, file, 4 * i, n);
    }
}

// The number of the first word of a file of a kind.
fn first_word(kind: Kind) -> u32 {
    match kind {
        Kind::Area => 1,
        Kind::Grid | Kind::Md => 0,
    }
}

// Sets the words of a line, each by its number and its value, 0 where the line has none: `words K=N ..`. Words are counted from a first number on.
fn set_words(file: &mut [u8], order: Order, first: u32, line: &[u8]) {
    let mut rest = Rest { text: line };
    // A count of turns and not as long as there are numbers: a line of one byte sets no word.
    for _ in 0..line.len() / 2 {
        if let Some(k) = rest.number() {
            set_word(
                file,
                order,
                k.wrapping_sub(first),
                rest.number().unwrap_or(0),
            );
        }
    }
}

// Opens the file with a word as another number, and sets the word back.
fn try_word(
    rt: &impl Print,
    file: &mut [u8],
    order: Order,
    kind: Kind,
    n: Numbers,
) -> io::Result<()> {
    let k = n.a.wrapping_sub(first_word(kind));
    let old = word_at(file, order, k);
    set_word(file, order, k, n.b);
    say(rt, open_kind(file, kind, order, n.c))?;
    set_word(file, order, k, old);
    Ok(())
}

// Does what a call says that needs no layout and no copy.
pub fn change(
    rt: &impl Print,
    file: &mut [u8],
    order: Order,
    kind: Kind,
    call: PlainCall,
    line: &[u8],
    n: Numbers,
) -> io::Result<()> {
    match call {
        PlainCall::Delete => say_with_stretches(rt, || delete_with_table(file, order, n.a)),
        PlainCall::Add => add_made(n, |header, values| {
            say_with_stretches(rt, || {
                add_with_table(file, order, header, n.a, n.b, values)
            })
        }),
        PlainCall::AddShort => add_made(n, |header, values| {
            say_with_places(
                rt,
                add_with_given_table(file, order, header, n.a, n.b, values, SHORT_TABLE),
            )
        }),
        PlainCall::DeleteShort => say_with_places(
            rt,
            delete_with_given_table(file, order, n.a, SHORT_TABLE),
        ),
        PlainCall::Stretches => say_with_stretches(rt, || free_stretches_with_table(file, order)),
        PlainCall::Word => print!(rt; ": {}", signed(word_at(file, order, n.a))),
        PlainCall::Date => say(rt, date_of(signed(n.a))),
        PlainCall::Time => say(rt, time_of(signed(n.a))),
        PlainCall::Words => Ok(set_words(file, order, first_word(kind), line)),
        PlainCall::With => try_word(rt, file, order, kind, n),
    }
}

// Byte i of an AREA file that is made.
fn area_byte(i: usize) -> u8 {
    if i < 256 { 0 } else { (i % 256) as u8 }
}

// Makes an AREA file: its directory holds 0, and each byte i behind it i modulo 256.
fn make_bytes(file: &mut [u8]) {
    for (i, byte) in file.iter_mut().enumerate() {
        *byte = area_byte(i);
    }
}

// Makes a file of another kind: each word k holds k.
fn make_words(file: &mut [u8], order: Order) {
    for k in 0..4121 {
        set_word(file, order, k, k);
    }
}

// Makes a file of a kind.
pub fn make(file: &mut [u8], kind: Kind, order: Order) {
    match kind {
        Kind::Area => make_bytes(file),
        Kind::Grid | Kind::Md => make_words(file, order),
    }
}

// Copies the first n bytes, or as many of them as both have.
pub fn copy_bytes(n: usize, from: &[u8], to: &mut [u8]) {
    for (byte, copied) in to.iter_mut().zip(from).take(n) {
        *byte = *copied;
    }
}

// Writes each of the first n bytes of a file that differs from that of the copy, its index and its value, or that none does.
pub fn compare(rt: &impl Print, n: usize, file: &[u8], copy: &[u8]) -> io::Result<()> {
    let mut same = true;
    for (i, (byte, copied)) in file.iter().zip(copy).take(n).enumerate() {
        if byte != copied {
            print!(rt; ", {i}= {byte}")?;
            same = false;
        }
    }
    if same {
        print!(rt; ": none")?;
    }
    Ok(())
}
