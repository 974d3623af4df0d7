// What the camera notes of a dot: where it lies, and how grey it is.
ghost use Rattle.std.specs.Prelude.{Some};

use std::fmt;

#[derive(Clone, Copy, PartialEq, Eq, Debug)]
pub struct DotRecord {
    pub across: u16,
    pub down: u16,
    pub grey: u8,
}

impl fmt::Display for DotRecord {
    ghost use Rattle.words.specs.Records.{record_text};

    ghost output = { λ r. Some (record_text r) };

    fn fmt<W: fmt::Write>(&self, f: &mut fmt::Formatter<W>) -> fmt::Result {
        let DotRecord { across, down, grey } = *self;
        write!(f, "across {across}, down {down}, grey {grey}")
    }
}
