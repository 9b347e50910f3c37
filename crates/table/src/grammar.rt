// The rules of document 01's table, each passed over at an offset: where it ends. An error is the place of the first bad byte. The
// bytes and the offset are no struct: every contract would have to say besides that the bytes stay what they are.
ghost use Rattle.std.specs.Prelude.{◌≡◌, ℕ};
ghost use Rattle.model.specs.Syntax as Syntax;
ghost use Rattle.model.specs.Read as Read;
ghost use Rattle.code.specs.Kinds.{number_of};
ghost use Rattle.table.specs.Skips.{skip_of, byte_of, body};
ghost use Rattle.table.specs.Versions.{head_of};

use crate::Version;
use code::Kind;

// A byte from lo to hi, and the offset behind it.
pub fn byte(s: &[u8], at: usize, lo: usize, hi: usize) -> Result<(usize, usize), usize>
    ensures { byte_of result ≡ Read.byte lo hi s.now at }
{
    let Some(b) = s.get(at) else {
        return Err(s.len());
    };
    let b = *b as usize;
    if b < lo || hi < b {
        return Err(at);
    }
    Ok((b, at + 1))
}

// What a list is of: its rule, and how one is passed over.
trait Item {
    ghost Value: { Type 0 };

    ghost rule: { Read.Parser Value };

    fn skip(s: &[u8], at: usize) -> Result<usize, usize>
        ensures { result ≡ skip_of (rule s.now at) };
}

// A temporary: 0 to 15.
struct Temporary;

impl Item for Temporary {
    ghost Value = { ℕ };

    ghost rule = { Read.temporary };

    fn skip(s: &[u8], at: usize) -> Result<usize, usize> {
        let (_, next) = byte(s, at, 0, 15)?;
        Ok(next)
    }
}

// A target, and an expression.
struct Statement;

impl Item for Statement {
    ghost Value = { Syntax.Statement };

    ghost rule = { Read.statement };

    fn skip(s: &[u8], at: usize) -> Result<usize, usize> {
        let k = Temporary::skip(s, at)?;
        expression(s, k)
    }
}

// A number of a function, block or spawn call: any byte.
struct Name;

impl Item for Name {
    ghost Value = { ℕ };

    ghost rule = { Read.name };

    fn skip(s: &[u8], at: usize) -> Result<usize, usize> {
        pass(s, at, 1)
    }
}

// n items.
fn many<I: Item>(s: &[u8], at: usize, n: usize) -> Result<usize, usize>
    ensures { result ≡ skip_of (Read.many I.rule n s.now at) }
{
    let mut k = at;
    'items: for _ in 0..n {
        k = I::skip(s, k)?;
    }
    Ok(k)
}

// A count from 0 to most, and that many items.
fn counted<I: Item>(s: &[u8], at: usize, most: usize) -> Result<usize, usize>
    ensures { result ≡ skip_of (Read.counted most I.rule s.now at) }
{
    let (n, k) = byte(s, at, 0, most)?;
    many::<I>(s, k, n)
}

// n bytes of any value: only whether they are there is tested.
pub fn pass(s: &[u8], at: usize, n: usize) -> Result<usize, usize>
    ensures { result ≡ skip_of (Read.many (Read.byte 0 255) n s.now at) }
{
    if n == 0 {
        return Ok(at);
    }
    if n <= code::left(s, at) {
        Ok(at + n)
    } else {
        Err(s.len())
    }
}

// 0 and a value, or 1 and a temporary.
pub fn atom(s: &[u8], at: usize) -> Result<usize, usize>
    ensures { result ≡ skip_of (Read.atom s.now at) }
{
    let (kind, k) = byte(s, at, 0, 1)?;
    if kind == 0 {
        pass(s, k, 4)
    } else {
        Temporary::skip(s, k)
    }
}

pub fn expression(s: &[u8], at: usize) -> Result<usize, usize>
    ensures { result ≡ skip_of (Read.expression s.now at) }
{
    let (kind, k) = byte(s, at, 0, 3)?;
    let next = atom(s, k)?;
    if code::operands(kind) == 2 {
        atom(s, next)
    } else {
        Ok(next)
    }
}

// A spawn call: a function, and its arguments.
pub fn spawn_call(s: &[u8], at: usize) -> Result<usize, usize>
    ensures { result ≡ skip_of (Read.spawn_call s.now at) }
{
    let k = Name::skip(s, at)?;
    counted::<Temporary>(s, k, 8)
}

// if: an expression and two blocks.
pub fn branch(s: &[u8], at: usize) -> Result<usize, usize>
    ensures { result ≡ skip_of (Read.if s.now at) }
{
    let k = expression(s, at)?;
    pass(s, k, 2)
}

// call: a function, its arguments, and the block to return to.
pub fn call(s: &[u8], at: usize) -> Result<usize, usize>
    ensures { result ≡ skip_of (Read.call s.now at) }
{
    let k = spawn_call(s, at)?;
    Name::skip(s, k)
}

// What follows a transfer's kind.
pub fn transfer_of(s: &[u8], at: usize, kind: Kind) -> Result<usize, usize>
    ensures { result ≡ skip_of (Read.pick Read.transfers (number_of kind) s.now at) }
{
    match kind {
        Kind::Goto => spawn_call(s, at),
        Kind::If => branch(s, at),
        Kind::Call => call(s, at),
        Kind::Return => counted::<Temporary>(s, at, 4),
        Kind::Spork | Kind::Spoin => pass(s, at, 2),
    }
}

pub fn transfer(s: &[u8], at: usize) -> Result<usize, usize>
    ensures { result ≡ skip_of (Read.transfer s.now at) }
{
    let (_, k) = byte(s, at, 0, 5)?;
    transfer_of(s, k, code::kind_at(s, at))
}

pub fn head(s: &[u8], at: usize) -> Result<usize, usize>
    ensures { result ≡ skip_of (Read.head s.now at) }
{
    let scope = counted::<Temporary>(s, at, 8)?;
    let k = pass(s, scope, 2)?;
    counted::<Name>(s, k, 4)
}

// A head as the version has it: in version 2 its parameters alone.
pub fn head_of(s: &[u8], at: usize, version: Version) -> Result<usize, usize>
    ensures { result ≡ skip_of (head_of version s.now at) }
{
    match version {
        Version::One => head(s, at),
        Version::Two => counted::<Temporary>(s, at, 8),
    }
}

// What follows a block's head: its statements, and its transfer.
pub fn body(s: &[u8], at: usize) -> Result<usize, usize>
    ensures { result ≡ skip_of (body s.now at) }
{
    let m = counted::<Statement>(s, at, 32)?;
    transfer(s, m)
}
