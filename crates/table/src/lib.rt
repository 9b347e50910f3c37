// A table's bytes: reading them (refusals 1 to 3), and the places of its functions, spawn calls and blocks.
#![tactic(auto)]

ghost use Rattle.std.specs.Prelude.{◌≡◌};
ghost use Rattle.model.specs.Read as Read;
ghost use Rattle.code.specs.Bytes.{byte_at, past, word_at};
ghost use Rattle.table.specs.Versions.{version_of};
ghost use Rattle.table.specs.Reading.{ReadAs, BriefAs, ReadBy, ReadFrom, WalkedFrom};

use answers::{No, Refusal};
use code::Table;
use places::Places;

mod grammar;
mod walk;

// The versions of document 01's table.
#[derive(Clone, Copy, PartialEq, Eq, Debug)]
pub enum Version {
    One,
    Two,
}

impl Version {
    fn number(self) -> u8
        ensures { result ≡ (version_of self).number }
    {
        match self {
            Version::One => Table::VERSION,
            Version::Two => Table::BRIEF,
        }
    }

    // How long its tables may be.
    fn most(self) -> usize
        ensures { result ≡ (version_of self).most }
    {
        match self {
            Version::One => Table::MOST,
            Version::Two => Table::BRIEF_MOST,
        }
    }
}

// The reader of a table: its bytes and an offset in them.
#[derive(Clone, Copy, PartialEq, Eq, Debug)]
pub struct Reader<'a> {
    pub src: &'a [u8],
    pub at: usize,
}

impl<'a> Reader<'a> {
    pub fn new(src: &'a [u8]) -> Reader<'a>
        ensures { (result.src ≡ src.entry) × (result.at ≡ 0) }
    {
        Reader { src, at: 0 }
    }

    // The number of four bytes where the reader stands.
    pub fn number(self) -> u32
        ensures { result ≡ word_at self.entry.src.now self.entry.at }
    {
        code::word(self.src, self.at)
    }

    // The byte where the reader stands.
    pub fn byte(self) -> u8
        ensures { result ≡ byte_at self.entry.src.now self.entry.at }
    {
        code::byte(self.src, self.at)
    }

    // The reader n bytes on.
    pub fn moved(self, n: usize) -> Reader<'a>
        ensures { (result.src ≡ self.entry.src) × (result.at ≡ past self.entry.at n) }
    {
        let at = code::after(self.at, n);
        Reader { src: self.src, at }
    }

    // The functions from where the reader stands, by the length field and the version's number: 1 to 3, or given.
    pub fn functions(
        self,
        field: u32,
        number: u8,
        version: Version,
        places: &mut Places,
    ) -> Result<(), Refusal>
        ensures { ReadFrom version self.entry.src.now self.entry.at field number
            places.old places.new result }
    {
        tested(self.src, self.at, field, number, version, places)
    }
}

// How many bytes a table takes, by its first four.
pub fn length_field(s: &[u8]) -> u32
    ensures { result ≡ word_at s.now 0 }
{
    Reader::new(s).number()
}

// Reads a table: 1 to 3, or given. The places of its program are put into what was there; where it does not read they are none.
pub fn read(s: &[u8], places: &mut Places) -> Result<(), Refusal>
    ensures { ReadAs s.now places.old places.new result }
{
    read_by(s, Version::One, places)
}

// The same of a table of version 2.
pub fn read_brief(s: &[u8], places: &mut Places) -> Result<(), Refusal>
    ensures { BriefAs s.now places.old places.new result }
{
    read_by(s, Version::Two, places)
}

// By the version.
fn read_by(s: &[u8], version: Version, places: &mut Places) -> Result<(), Refusal>
    ensures { ReadBy version s.now places.old places.new result }
{
    let start = Reader::new(s);
    let field = start.number();
    let behind = start.moved(4);
    let number = behind.byte();
    behind.moved(1).functions(field, number, version, places)
}

// 1, then 2, then 3: by the length field, the version's number, and the functions from an offset on. Where it refuses, the places
// are none.
fn tested(
    s: &[u8],
    at: usize,
    field: u32,
    number: u8,
    version: Version,
    places: &mut Places,
) -> Result<(), Refusal>
    ensures { ReadFrom version s.now at field number places.old places.new result }
{
    let answer = walked(s, at, field, number, version, places);
    if answer.is_err() {
        places::clear(places);
    }
    answer
}

// The same, but where it refuses, the places are those that the walk kept.
fn walked(
    s: &[u8],
    at: usize,
    field: u32,
    number: u8,
    version: Version,
    places: &mut Places,
) -> Result<(), Refusal>
    ensures { WalkedFrom version s.now at field number places.old places.new result }
{
    if !sized(s, field, version) {
        return Err(Refusal::Plain(No::SIZE));
    }
    if number != version.number() {
        return Err(Refusal::Plain(No::VERSION));
    }
    let end = walk::program(s, at, version, places).map_err(Refusal::Byte)?;
    if end == s.len() {
        Ok(())
    } else {
        Err(Refusal::Byte(end))
    }
}

// Whether the size is within the limits, and the length field says it.
fn sized(s: &[u8], field: u32, version: Version) -> bool
    ensures { result ≡ Read.sized_as (version_of version) s.now field }
{
    if s.len() < 6 || version.most() < s.len() {
        return false;
    }
    field as usize == s.len()
}
