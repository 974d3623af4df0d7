// Lines two pictures of one mark up: each camera began at a dot of its own.
// The script comes from standard input, a command or a line of numbers at a time.
#![tactic(auto)]

use algebra::Group;
use anyhow::anyhow;
use std::alloc::{AllocError, Global};
use std::fmt;
use tables::TableGroup;
use words::{DotRecord, alike, turn};

fn main(rt: HostRuntime) -> anyhow::Result<()> {
    let mut bench = Bench::new(rt.alloc());
    for line in rt.lines(rt.alloc()) {
        let line = line?;
        bench.follow(&rt, line.as_str())?;
    }
    Ok(())
}

// The table of a group, as far as it has been read. Its rows are counted, since those of a wrong table may have any
// length.
#[derive(Drop)]
struct Table {
    rows: usize,
    entries: Vec<u8>,
}

impl Table {
    fn new(heap: Global) -> Table {
        Table {
            rows: 0,
            entries: Vec::new(heap),
        }
    }

    fn clear(&mut self) {
        self.rows = 0;
        self.entries.clear();
    }

    fn push(&mut self, row: &[u16]) -> anyhow::Result<()> {
        for entry in row {
            self.entries.push(u8::try_from(*entry)?)?;
        }
        self.rows = self.rows.saturating_add(1);
        Ok(())
    }
}

// What a line of a picture says of one dot.
#[derive(Clone, Copy)]
struct Dot {
    symbol: u8,
    record: DotRecord,
}

impl TryFrom<&[u16]> for Dot {
    type Error = anyhow::Error;

    fn try_from(numbers: &[u16]) -> anyhow::Result<Dot> {
        let [symbol, across, down, grey] = numbers else {
            return Err(anyhow!("a dot has a symbol, an across, a down and a grey"));
        };
        Ok(Dot {
            symbol: u8::try_from(*symbol)?,
            record: DotRecord {
                across: *across,
                down: *down,
                grey: u8::try_from(*grey)?,
            },
        })
    }
}

// What one camera saw: a symbol and a record for each dot, in the order in which the camera met them. They are two
// lists, since a turn takes things of one kind: first the symbols, then the records.
#[derive(Drop)]
struct Picture {
    symbols: Vec<u8>,
    records: Vec<DotRecord>,
}

impl Picture {
    fn new(heap: Global) -> Picture {
        Picture {
            symbols: Vec::new(heap),
            records: Vec::new(heap),
        }
    }

    fn clear(&mut self) {
        self.symbols.clear();
        self.records.clear();
    }

    fn push(&mut self, dot: Dot) -> Result<(), AllocError> {
        self.symbols.push(dot.symbol)?;
        self.records.push(dot.record)?;
        Ok(())
    }

    // The picture, turned by dot g.
    fn turned(&self, group: &TableGroup, g: usize) -> anyhow::Result<Picture> {
        let mut symbols = self.symbols.clone()?;
        let mut records = self.records.clone()?;
        turn(group, g, self.symbols.as_slice(), symbols.as_mut_slice())?;
        turn(group, g, self.records.as_slice(), records.as_mut_slice())?;
        Ok(Picture { symbols, records })
    }
}

// Symbols as they are printed, each after a space.
#[derive(Drop)]
struct Symbols<'a>(&'a [u8]);

impl fmt::Display for Symbols<'_> {
    fn fmt<W: fmt::Write>(&self, f: &mut fmt::Formatter<W>) -> fmt::Result {
        for symbol in self.0 {
            write!(f, " {symbol}")?;
        }
        Ok(())
    }
}

// Which part of the bench takes the next line of numbers. A closure in its place would have to borrow that part beside
// the bench.
#[derive(Clone, Copy)]
enum Section {
    Table,
    First,
    Second,
}

// The bench: a group of dots, the table that is being read, and two pictures.
#[derive(Drop)]
struct Bench {
    group: TableGroup,
    table: Table,
    first: Picture,
    second: Picture,
    section: Section,
    heap: Global,
}

impl Bench {
    fn new(heap: Global) -> Bench {
        Bench {
            group: TableGroup::new(),
            table: Table::new(heap),
            first: Picture::new(heap),
            second: Picture::new(heap),
            section: Section::Table,
            heap,
        }
    }

    fn follow(&mut self, rt: &HostRuntime, line: &str) -> anyhow::Result<()> {
        match line {
            "" => Ok(()),
            "table" => self.begin(Section::Table),
            "first" => self.begin(Section::First),
            "second" => self.begin(Section::Second),
            "adopt" => self.adopt(rt),
            "line up" => self.line_up(rt),
            _ if line.starts_with('#') => Ok(()),
            _ => self.take(line),
        }
    }

    fn begin(&mut self, section: Section) -> anyhow::Result<()> {
        self.section = section;
        match section {
            Section::Table => self.table.clear(),
            Section::First => self.first.clear(),
            Section::Second => self.second.clear(),
        }
        Ok(())
    }

    fn take(&mut self, line: &str) -> anyhow::Result<()> {
        let mut numbers = Vec::new(self.heap);
        for word in line.split_whitespace() {
            numbers.push(word.parse::<u16>()?)?;
        }
        let numbers = numbers.as_slice();
        match self.section {
            Section::Table => self.table.push(numbers)?,
            Section::First => self.first.push(Dot::try_from(numbers)?)?,
            Section::Second => self.second.push(Dot::try_from(numbers)?)?,
        }
        Ok(())
    }

    fn adopt(&mut self, rt: &HostRuntime) -> anyhow::Result<()> {
        let rows = self.table.rows;
        match self.group.adopt(rows, self.table.entries.as_slice()) {
            Ok(()) => println!(rt; "The table of {rows} dots is a group, and it is taken.")?,
            Err(fault) => {
                println!(rt; "The table is refused by {fault}.")?;
                let kept = self.group.order();
                println!(rt; "The group of {kept} dots stays.")?;
            }
        }
        Ok(())
    }

    fn line_up(&self, rt: &HostRuntime) -> anyhow::Result<()> {
        let second = self.second.symbols.as_slice();
        match alike(&self.group, second, self.first.symbols.as_slice()) {
            Ok(Some(g)) => {
                println!(rt;
                    "The second picture lies over the first when it is turned by dot {g}."
                )?;
                self.print_turned(rt, g)?;
            }
            Ok(None) => println!(rt;
                "No turn lays the second picture over the first: it shows another mark."
            )?,
            Err(fault) => println!(rt; "The pair of pictures is refused by {fault}.")?,
        }
        Ok(())
    }

    fn print_turned(&self, rt: &HostRuntime, g: usize) -> anyhow::Result<()> {
        let seen = &self.second;
        let turned = seen.turned(&self.group, g)?;
        println!(rt;
            "Its symbols{} become{}.",
            Symbols(seen.symbols.as_slice()),
            Symbols(turned.symbols.as_slice())
        )?;
        let records = seen.records.iter().zip(turned.records.iter());
        for (dot, (before, after)) in records.enumerate() {
            println!(rt; "Dot {dot} had {before} and has {after}.")?;
        }
        Ok(())
    }
}
