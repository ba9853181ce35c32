// A script of calls: each line is written to standard output with what came back, first with files in big order and then with files in little order. The script, in the
// file `stdin`, has the worked files of document 01 and files like them: opened, cut, changed, read, stored into, with grids deleted and added, and with their free stretches told. What the program must
// write, in the file `stdout`, was worked out from documents 01 and 02.
//
// The first line of a script lists the words, in the order of their numbers, which the calls of `words` have. Each line behind it is a word and numbers, which may be
// negative and may have anything but digits between them. Any other line is written as it is.
#![tactic(auto)]

mod answers;
mod asks;
mod changes;
mod words;

use answers::say;
use asks::ask;
use changes::{change, compare, copy_bytes, make, open_kind, store_value};
use endian_rules::Order;
use layout_rules::Layout;
use std::io;
use std::io::Read;
use words::{Call, Kind, call_of, numbers_in};

// The most bytes of a file. A file that is longer is not made, and calls on it are skipped.
const LARGEST: usize = 16484;

// What a script is at: the order and the kind of the file, its length and the space that it begins, the layout that opening a file last gave, and how many bytes are
// kept in the copy. Arrays with a length and not Vec: a file that is made finds the bytes that the one before left in the space, and a copy those of the copy before.
#[derive(Drop)]
struct Subject {
    order: Order,
    kind: Kind,
    length: usize,
    space: [u8; LARGEST],
    layout: Option<Layout>,
    copied: usize,
    copy: [u8; LARGEST],
}

impl Subject {
    // Before the first line there is an AREA file of no bytes, and no layout.
    fn new(order: Order) -> Subject {
        Subject {
            order,
            kind: Kind::Area,
            length: 0,
            space: [0; LARGEST],
            layout: None,
            copied: 0,
            copy: [0; LARGEST],
        }
    }

    // Begins what a call says: a call that makes a file gives its kind and its length, and one that keeps a copy the length of the copy, even where the file is too long.
    fn begin(&mut self, call: Call, length: usize) {
        match call {
            Call::Make(kind) => {
                self.kind = kind;
                self.length = length;
            }
            Call::Keep => self.copied = self.length,
            _ => (),
        }
    }

    // Does what a line says, and writes what came back. A call that takes a layout does nothing before there is one, and none does anything where the file is too long.
    fn act(&mut self, rt: &impl Print, call: Call, line: &[u8]) -> io::Result<()> {
        let n = numbers_in(line);
        self.begin(call, n.a as usize);
        let Some(file) = self.space.get_mut(..self.length) else {
            return Ok(());
        };
        match call {
            Call::Read(read) => match self.layout {
                Some(layout) => ask(rt, file, layout, read, n),
                None => Ok(()),
            },
            Call::Store(store) => match self.layout {
                Some(layout) => store_value(rt, file, layout, store, n),
                None => Ok(()),
            },
            Call::Plain(plain) => change(rt, file, self.order, self.kind, plain, line, n),
            Call::Make(kind) => Ok(make(file, kind, self.order)),
            Call::Open => {
                let opening = open_kind(file, self.kind, self.order, n.a);
                self.layout = opening.ok().or(self.layout);
                say(rt, opening)
            }
            Call::Keep => Ok(copy_bytes(self.copied, file, &mut self.copy)),
            Call::Restore => Ok(copy_bytes(self.copied, &self.copy, file)),
            Call::Differences => compare(rt, self.copied, file, &self.copy),
        }
    }
}

// Runs the lines of a script with files in a byte order.
fn run(rt: &impl Print, list: &[u8], script: &[u8], order: Order) -> io::Result<()> {
    let mut subject = Subject::new(order);
    for part in script.split_inclusive(|byte| *byte == b'\n') {
        let line = part.strip_suffix(b"\n").unwrap_or(part);
        rt.write_all(line)?;
        if let Some(call) = call_of(line, list) {
            subject.act(rt, call, line)?;
        }
        println!(rt)?;
    }
    Ok(())
}

// Reads a script of at most 32,768 bytes and runs it in both byte orders. The line feed behind the list of words ends the line that names the order.
fn main(rt: HostRuntime) -> io::Result<()> {
    let mut text = Vec::new(rt.alloc());
    rt.reader().take(32768).read_to_end(&mut text)?;
    let list = text.split(|byte| *byte == b'\n').next().unwrap_or(&[]);
    let script = text.strip_prefix(list).unwrap_or(&[]);
    print!(rt; "BIG ORDER")?;
    run(&rt, list, script, Order::Big)?;
    print!(rt; "LITTLE ORDER")?;
    run(&rt, list, script, Order::Little)
}
