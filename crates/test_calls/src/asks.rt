// The calls that read a file with a layout. An output that a copy is lent is the first places, as many as the line says, of 8 places that each hold 9999; all 8 are
// written.
use crate::answers::{say, say_each, say_ends};
use crate::words::{Numbers, ReadCall};
use area_blocks::{block_bytes, block_span};
use area_lines::{band_slot, copy_line};
use area_prefixes::{region_bytes, region_span};
use area_rules::{Block, Region, SlotOrBand};
use endian_rules::Order;
use endian_steps::write_number;
use grid_copies::{copy_by_columns, copy_by_rows, header_bytes, header_span};
use layout_rules::Layout;
use md_keys::find_key;
use md_records::copy_record;
use reads::{read_field, read_point, read_sample};
use refusal_rules::Refusal;
use std::fmt::Display;
use std::io;

// Copies into the first n places of an output, and writes what came back and the whole output. Does nothing where the output has fewer places.
fn ask_copy<T: Display, F: FnOnce(&mut [T]) -> Result<usize, Refusal>>(
    rt: &impl Print,
    out: &mut [T],
    n: u32,
    copy: F,
) -> io::Result<()>
    requires { F.IsAlwaysCallable copy }
{
    if let Some(places) = out.get_mut(..n as usize) {
        say(rt, copy(places))?;
        say_each(rt, out)?;
    }
    Ok(())
}

// Copies a slot or band of a line into the first n places of an output.
fn ask_line(
    rt: &impl Print,
    file: &[u8],
    layout: Layout,
    line: u32,
    which: SlotOrBand,
    n: u32,
) -> io::Result<()> {
    ask_copy(rt, &mut [9999u32; 8], n, |out| {
        copy_line(file, layout, line, which, out)
    })
}

// Asks where a block lies, and for its bytes.
fn ask_block(rt: &impl Print, file: &[u8], layout: Layout, block: Block) -> io::Result<()> {
    say(rt, block_span(file, layout, block))?;
    say_ends(rt, block_bytes(file, layout, block))
}

// Asks where a region of a line's prefix lies, and for its bytes.
fn ask_region(
    rt: &impl Print,
    file: &[u8],
    layout: Layout,
    line: u32,
    region: Region,
) -> io::Result<()> {
    say(rt, region_span(file, layout, line, region))?;
    say_ends(rt, region_bytes(file, layout, line, region))
}

// Asks where the header of a grid lies, and for its bytes.
fn ask_header(rt: &impl Print, file: &[u8], layout: Layout) -> io::Result<()> {
    say(rt, header_span(file, layout))?;
    say_ends(rt, header_bytes(file, layout))
}

// Finds a key by the first n bytes of a name that is the four bytes of a number in big order with four zeros behind them. Does nothing where the name has fewer.
fn ask_key(rt: &impl Print, file: &[u8], layout: Layout, number: u32, n: u32) -> io::Result<()> {
    let mut name = [0u8; 8];
    write_number(Order::Big, 4, &mut name, 0, number);
    if let Some(key) = name.get(..n as usize) {
        say(rt, find_key(file, layout, key))?;
    }
    Ok(())
}

// Asks a call that reads, and writes what came back.
pub fn ask(
    rt: &impl Print,
    file: &[u8],
    layout: Layout,
    call: ReadCall,
    n: Numbers,
) -> io::Result<()> {
    match call {
        ReadCall::Sample => say(
            rt,
            read_sample(file, layout, n.a, n.b, SlotOrBand::Slot(n.c)),
        ),
        ReadCall::BandSample => say(
            rt,
            read_sample(file, layout, n.a, n.b, SlotOrBand::Band(n.c)),
        ),
        ReadCall::Line => ask_line(rt, file, layout, n.a, SlotOrBand::Slot(n.b), n.c),
        ReadCall::BandLine => ask_line(rt, file, layout, n.a, SlotOrBand::Band(n.b), n.c),
        ReadCall::BandSlot => say(rt, band_slot(file, layout, n.a)),
        ReadCall::Block(block) => ask_block(rt, file, layout, block),
        ReadCall::Region(region) => ask_region(rt, file, layout, n.a, region),
        ReadCall::Point => say(rt, read_point(file, layout, n.a, n.b)),
        ReadCall::Header => ask_header(rt, file, layout),
        ReadCall::Field => say(rt, read_field(file, layout, n.a, n.b, n.c)),
        ReadCall::Key => ask_key(rt, file, layout, n.a, n.b),
        ReadCall::ByColumns => ask_copy(rt, &mut [9999i32; 8], n.a, |out| {
            copy_by_columns(file, layout, out)
        }),
        ReadCall::ByRows => ask_copy(rt, &mut [9999i32; 8], n.a, |out| {
            copy_by_rows(file, layout, out)
        }),
        ReadCall::Record => ask_copy(rt, &mut [9999i32; 8], n.a, |out| {
            copy_record(file, layout, n.b, n.c, out)
        }),
    }
}
