// What the program writes behind a line: numbers, each with a mark before it, or the number and place of a refusal.
use calendar_rules::{Date, TimeOfDay};
use extent_rules::Extent;
use grid_update_rules::Added;
use layout_rules::Layout;
use refusal_rules::Refusal;
use span_rules::Span;
use std::fmt::Display;
use std::io;

// A value that a call answers, as the program writes it behind a line.
pub trait Told {
    fn tell(self, rt: &impl Print) -> io::Result<()>;
}

// An unsigned number.
impl Told for u32 {
    fn tell(self, rt: &impl Print) -> io::Result<()> {
        print!(rt; ": {self}")
    }
}

// A signed word.
impl Told for i32 {
    fn tell(self, rt: &impl Print) -> io::Result<()> {
        print!(rt; ": {self}")
    }
}

// A size, as how many places a copy wrote.
impl Told for usize {
    fn tell(self, rt: &impl Print) -> io::Result<()> {
        print!(rt; ": {self}")
    }
}

// The start and the length of a part of the file.
impl Told for Span {
    fn tell(self, rt: &impl Print) -> io::Result<()> {
        print!(rt; ": {}, {}", self.start, self.length)
    }
}

// That a store was made.
impl Told for () {
    fn tell(self, rt: &impl Print) -> io::Result<()> {
        print!(rt; ": stored")
    }
}

// The number and the address of a grid that was added, and how many free stretches there are.
impl Told for Added {
    fn tell(self, rt: &impl Print) -> io::Result<()> {
        print!(rt; ": {}, {}, {}", self.number, self.address, self.stretches)
    }
}

// Year, month and day.
impl Told for Date {
    fn tell(self, rt: &impl Print) -> io::Result<()> {
        print!(rt; ": {}, {}, {}", self.year, self.month, self.day)
    }
}

// Hours, minutes and seconds.
impl Told for TimeOfDay {
    fn tell(self, rt: &impl Print) -> io::Result<()> {
        print!(rt; ": {}, {}, {}", self.hours, self.minutes, self.seconds)
    }
}

// Offset, rows and columns of a grid that was opened, and of another file that it was opened.
impl Told for Layout {
    fn tell(self, rt: &impl Print) -> io::Result<()> {
        match self {
            Layout::Grid(grid) => print!(rt; ": {}, {}, {}", grid.offset, grid.rows, grid.columns),
            _ => print!(rt; ": opened"),
        }
    }
}

// Writes what a call answers: its value, or the number and the place of its refusal.
pub fn say<T: Told>(rt: &impl Print, answer: Result<T, Refusal>) -> io::Result<()> {
    match answer {
        Ok(value) => value.tell(rt),
        Err(refusal) => print!(rt; ": refused {} at {}", refusal.number(), refusal.place()),
    }
}

// Writes of bytes that are handed back how many they are, the first and the last.
pub fn say_ends(rt: &impl Print, bytes: &[u8]) -> io::Result<()> {
    print!(rt; ", {}", bytes.len())?;
    if let (Some(first), Some(last)) = (bytes.first(), bytes.last()) {
        print!(rt; ", {first}, {last}")?;
    }
    Ok(())
}

// Writes each place of an output of numbers.
pub fn say_each<T: Display>(rt: &impl Print, out: &[T]) -> io::Result<()> {
    for n in out {
        print!(rt; ", {n}")?;
    }
    Ok(())
}

// Writes each place of a table of stretches: its start and its length.
pub fn say_places(rt: &impl Print, table: &[Extent]) -> io::Result<()> {
    for place in table {
        print!(rt; ", {}+ {}", place.start, place.length)?;
    }
    Ok(())
}

// Writes each stretch of a table that is not empty: its start and its length.
pub fn say_stretches(rt: &impl Print, table: &[Extent]) -> io::Result<()> {
    for stretch in table {
        if 0 < stretch.length {
            print!(rt; ", {}+ {}", stretch.start, stretch.length)?;
        }
    }
    Ok(())
}
