// What stands at an offset of a table, and where it ends: bytes and numbers, argument lists, atoms, expressions, statements, heads,
// spawn calls and transfers. Every function takes any bytes and any offset, and has an equation for its contract: past the end
// bytes are 0, and an offset moves on by a wrapping sum, which within a table is the sum.
#![tactic(auto)]

ghost use Rattle.std.specs.Prelude.{◌≡◌, ◌+◌, ◌-◌, min, length};
ghost use Rattle.model.specs.Values.{signed};
ghost use Rattle.code.specs.Bytes.{byte_at, past, half_at, word_at, operands};
ghost use Rattle.code.specs.Code.{most, count_at, list_end, atom_end, expression_end, statement_end, statements_end, opening_at};
ghost use Rattle.code.specs.Code.{head_end, spawn_end, transfer_end_of, transfer_end};
ghost use Rattle.code.specs.Kinds.{number_of};

// Where a table has its number of functions, behind its length and its version; the version, and how long a table may be; and both of
// a brief table, which has the heads of its blocks without scope and nesting.
#[derive(Clone, Copy)]
pub struct Table {}

impl Table {
    pub const FUNCTIONS_AT: usize = 5;

    pub const VERSION: u8 = 1;

    pub const MOST: usize = 16384;

    pub const BRIEF: u8 = 2;

    pub const BRIEF_MOST: usize = 12800;
}

// The byte at an offset.
pub fn byte(s: &[u8], at: usize) -> u8
    ensures { result ≡ byte_at s.now at }
{
    s.get(at).copied().unwrap_or(0)
}

// The byte i behind an offset.
pub fn item(s: &[u8], at: usize, i: u8) -> u8
    ensures { result ≡ byte_at s.now (at + i) }
{
    byte(s, at.saturating_add(usize::from(i)))
}

// How many bytes there are from an offset on.
pub fn left(s: &[u8], at: usize) -> usize
    ensures { result ≡ length s.now - at }
{
    s.len().saturating_sub(at)
}

// The offset n bytes on: no test, since every offset has one. Within a table it is the sum.
pub fn after(at: usize, n: usize) -> usize
    ensures { result ≡ past at n }
{
    at.wrapping_add(n)
}

// The numbers of two and of four bytes.
pub fn half(s: &[u8], at: usize) -> u16
    ensures { result ≡ half_at s.now at }
{
    words::half(byte(s, at), item(s, at, 1))
}

pub fn word(s: &[u8], at: usize) -> u32
    ensures { result ≡ word_at s.now at }
{
    let high = half(s, at);
    let low = words::half(item(s, at, 2), item(s, at, 3));
    words::word(high, low)
}

// How many operands an expression of each kind has.
const OPERANDS: [usize; 4] = [1, 1, 2, 2];

pub fn operands(kind: usize) -> usize
    ensures { result ≡ operands kind }
{
    OPERANDS[kind.min(OPERANDS.len() - 1)]
}

// An argument list has no more temporaries than this.
#[derive(Clone, Copy)]
pub struct Arguments {}

impl Arguments {
    pub const MOST: usize = 8;
}

// No more than an argument list has: 8.
pub fn few(n: u8) -> u8
    ensures { result ≡ min n most }
{
    n.min(Arguments::MOST as u8)
}

// How many temporaries an argument list has.
pub fn count(s: &[u8], at: usize) -> u8
    ensures { result ≡ count_at s.now at }
{
    few(byte(s, at))
}

// Where a counted list of bytes ends.
pub fn list_end(s: &[u8], at: usize) -> usize
    ensures { result ≡ list_end s.now at }
{
    let n = byte(s, at);
    after(after(at, 1), n as usize)
}

// The value of four bytes.
pub fn value(s: &[u8], at: usize) -> i32
    ensures { result ≡ signed (word_at s.now at) }
{
    words::signed(word(s, at))
}

// Where an atom ends.
pub fn atom_end(s: &[u8], at: usize) -> usize
    ensures { result ≡ atom_end s.now at }
{
    let first = after(at, 1);
    if byte(s, at) == 0 {
        after(first, 4)
    } else {
        after(first, 1)
    }
}

// Where an expression ends.
pub fn expression_end(s: &[u8], at: usize) -> usize
    ensures { result ≡ expression_end s.now at }
{
    let second = atom_end(s, after(at, 1));
    if operands(byte(s, at) as usize) == 2 {
        atom_end(s, second)
    } else {
        second
    }
}

// Where a statement ends, and where n of them end.
fn statement_end(s: &[u8], at: usize) -> usize
    ensures { result ≡ statement_end s.now at }
{
    expression_end(s, after(at, 1))
}

pub fn statements_end(s: &[u8], at: usize, n: u8) -> usize
    ensures { result ≡ statements_end s.now at n }
{
    let mut end = at;
    'statements: for _ in 0..n {
        end = statement_end(s, end);
    }
    end
}

// A block's head as code has it: the number of its parameters and their offset, its scope, the number of its nesting's names and
// their offset, and the offset behind.
#[derive(Clone, Copy, PartialEq, Eq, Debug)]
pub struct Opening {
    pub count: u8,
    pub parameters: usize,
    pub scope: u16,
    pub depth: u8,
    pub nesting: usize,
    pub behind: usize,
}

pub fn head(s: &[u8], at: usize) -> Opening
    ensures { result ≡ opening_at s.now at }
{
    let n = byte(s, at);
    let parameters = after(at, 1);
    let behind = after(parameters, n as usize);
    let scope = half(s, behind);
    let next = after(behind, 2);
    let d = byte(s, next);
    let nesting = after(next, 1);
    Opening {
        count: few(n),
        parameters,
        scope,
        depth: few(d),
        nesting,
        behind: after(nesting, d as usize),
    }
}

// Where a block's head ends.
pub fn head_end(s: &[u8], at: usize) -> usize
    ensures { result ≡ head_end s.now at }
{
    list_end(s, after(list_end(s, at), 2))
}

// Where a spawn call ends.
pub fn spawn_end(s: &[u8], at: usize) -> usize
    ensures { result ≡ spawn_end s.now at }
{
    list_end(s, after(at, 1))
}

// The kinds of transfers, in the order of their numbers.
#[derive(Clone, Copy, PartialEq, Eq, Debug)]
pub enum Kind {
    Goto,
    If,
    Call,
    Return,
    Spork,
    Spoin,
}

// The kind of the transfer at an offset. In a table it is 5 at most.
pub fn kind_at(s: &[u8], at: usize) -> Kind
    ensures { number_of result ≡ min (byte_at s.now at) 5 }
{
    match byte(s, at) {
        0 => Kind::Goto,
        1 => Kind::If,
        2 => Kind::Call,
        3 => Kind::Return,
        4 => Kind::Spork,
        _ => Kind::Spoin,
    }
}

// Where what follows a transfer's kind ends, and where a transfer ends.
fn kind_end(s: &[u8], at: usize, kind: Kind) -> usize
    ensures { result ≡ transfer_end_of (number_of kind) s.now at }
{
    match kind {
        Kind::Goto => spawn_end(s, at),
        Kind::If => after(after(expression_end(s, at), 1), 1),
        Kind::Call => after(spawn_end(s, at), 1),
        Kind::Return => list_end(s, at),
        Kind::Spork | Kind::Spoin => after(after(at, 1), 1),
    }
}

pub fn transfer_end(s: &[u8], at: usize) -> usize
    ensures { result ≡ transfer_end s.now at }
{
    kind_end(s, after(at, 1), kind_at(s, at))
}
