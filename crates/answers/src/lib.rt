// What every call answers: document 01's numbers and rules by name, one refusal, and a refusal as one number for hosts.
#![tactic(auto)]

ghost use Rattle.std.specs.Prelude.{◌≡◌};
ghost use Rattle.model.specs.Answers as Model;
ghost use Rattle.answers.specs.Answers.{refusal_of};
ghost use Rattle.answers.specs.Coded.{code_of, given};
ghost use Rattle.answers.specs.declared.Refusal.TheVariants.{Plain};

// The number of what a call can refuse. It is no enum: `code` here and `lines::refusal` say what they say of every number of a byte.
#[derive(Clone, Copy, PartialEq, Eq, Debug)]
pub struct No(pub u8);

impl No {
    // the table
    pub const SIZE: No = No(1);

    pub const VERSION: No = No(2);

    pub const FORM: No = No(3);

    // the check
    pub const MAIN: No = No(4);

    pub const ENTRY: No = No(5);

    pub const MISSING: No = No(6);

    pub const TWICE: No = No(7);

    pub const UNBOUND: No = No(8);

    pub const COUNT: No = No(9);

    pub const SCOPE: No = No(10);

    pub const NESTING: No = No(11);

    // the pool
    pub const WORDS: No = No(12);

    pub const POOL: No = No(13);

    // a choice
    pub const KIND: No = No(14);

    pub const THREAD: No = No(15);

    pub const ENDED: No = No(16);

    pub const WAITS: No = No(17);

    pub const FRAMES: No = No(18);

    pub const STUCK: No = No(19);

    pub const PROMOTED: No = No(20);

    pub const THREADS: No = No(21);

    // the calls of an accepted table
    pub const CYCLE: No = No(22);

    // the tidy table
    pub const ROOM: No = No(23);

    // a completion
    pub const LENT: No = No(24);

    pub const UNREACHED: No = No(25);

    pub const IMPOSSIBLE: No = No(26);

    // a beat, and a run of beats
    pub const PACE: No = No(27);

    // a listing
    pub const LISTING: No = No(28);

    // a step whose expression overflows
    pub const OVERFLOW: No = No(29);
}

// A rule of figure 3, by its number. It is no enum: `lines::choice` says what it says of every number of a byte.
#[derive(Clone, Copy, PartialEq, Eq, Debug)]
pub struct Rule(pub u8);

impl Rule {
    pub const STMT: Rule = Rule(1);

    pub const GOTO: Rule = Rule(2);

    pub const THEN: Rule = Rule(3);

    pub const ELSE: Rule = Rule(4);

    pub const CALL: Rule = Rule(5);

    pub const RETURN: Rule = Rule(6);

    pub const SPORK: Rule = Rule(7);

    pub const UNPR: Rule = Rule(8);

    pub const PROM: Rule = Rule(9);

    pub const PROMOTE: Rule = Rule(10);
}

// A refusal: the number alone; 3 with the offset of the first bad byte; 4 to 11, 25 and 26 with the function and the block.
#[derive(Clone, Copy, PartialEq, Eq, Debug)]
pub enum Refusal {
    Plain(No),
    Byte(usize),
    Fault(No, usize, usize),
}

impl From<No> for Refusal {
    ghost from_gives = { λ number r. r ≡ Plain number };

    fn from(number: No) -> Self {
        Self::Plain(number)
    }
}

// 3, with the offset of the first bad byte.
fn bad_byte(at: usize) -> u64
    ensures { result ≡ code_of (Model.Refusal.byte at) }
{
    (No::FORM.0 as u64) + 256 * ((at % 16777216) as u64)
}

// 4 to 11, 25 and 26, with the function and the block.
fn fault(number: No, function: usize, block: usize) -> u64
    ensures { result ≡ code_of (Model.Refusal.fault number.0 function block) }
{
    (number.0 as u64) + 256 * ((block % 256) as u64) + 65536 * ((function % 256) as u64)
}

// A refusal as one number.
pub fn code(r: Refusal) -> u64
    ensures { result ≡ code_of (refusal_of r) }
{
    match r {
        Refusal::Plain(number) => number.0 as u64,
        Refusal::Byte(at) => bad_byte(at),
        Refusal::Fault(number, function, block) => fault(number, function, block),
    }
}

// A value that is given, as one number.
pub fn value(v: u32) -> u64
    ensures { result ≡ given v }
{
    4294967296 + (v as u64)
}
