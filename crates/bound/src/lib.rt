// Sets of temporaries, and the walks over a table's bytes that ask or extend one: an equation over what stands at an offset,
// for all bytes and every offset.
#![tactic(auto)]

ghost use Rattle.std.specs.Prelude.{◌≡◌};
ghost use Rattle.model.specs.Lists.{all, equal};
ghost use Rattle.model.specs.Sets.{within};
ghost use Rattle.model.specs.Syntax.{uses, uses_atom};
ghost use Rattle.code.specs.Bytes.{past};
ghost use Rattle.code.specs.Code.{run, arguments_at, atom_at, atom_end, expression_at, expression_end, statements_at, statements_end};
ghost use Rattle.bound.specs.Walks.{holds, binding, seen_as, fresh_as, statements_as};

use answers::No;

// How many temporaries there are. A set is asked for a number's last four bits, so there is nothing to test: all that a table names
// are below it.
pub const TEMPORARIES: u8 = 16;

// Is x in the set?
pub fn holds(set: u16, x: u8) -> bool
    ensures { result ≡ holds set x }
{
    (set >> (x % TEMPORARIES)) % 2 == 1
}

// The set with x.
pub fn bind(set: u16, x: u8) -> u16
    ensures { result ≡ binding set x }
{
    set | (1 << (x % TEMPORARIES))
}

// Is the set a part of the other?
pub fn part(set: u16, other: u16) -> bool
    ensures { result ≡ within set other }
{
    set & other == set
}

// An atom: a value, or 1 and a temporary. Where it ends, if what it uses is in the set.
fn atom(s: &[u8], at: usize, set: u16) -> Option<usize>
    ensures { result ≡ seen_as (all (holds set) (uses_atom (atom_at s.now at))) (atom_end s.now at) }
{
    let first = code::after(at, 1);
    if code::byte(s, at) == 0 {
        return Some(code::after(first, 4));
    }
    holds(set, code::byte(s, first)).then_some(code::after(first, 1))
}

// An expression: of one atom, or of two.
pub fn expression(s: &[u8], at: usize, set: u16) -> Option<usize>
    ensures { result ≡ seen_as (all (holds set) (uses (expression_at s.now at))) (expression_end s.now at) }
{
    let second = atom(s, code::after(at, 1), set)?;
    if code::operands(code::byte(s, at) as usize) == 2 {
        atom(s, second, set)
    } else {
        Some(second)
    }
}

// n temporaries.
fn temporaries(s: &[u8], at: usize, n: u8, set: u16) -> bool
    ensures { result ≡ all (holds set) (run s.now at n) }
{
    let mut k = at;
    'names: for _ in 0..n {
        if !holds(set, code::byte(s, k)) {
            return false;
        }
        k = code::after(k, 1);
    }
    true
}

// An argument list, with its count.
pub fn arguments(s: &[u8], at: usize, set: u16) -> bool
    ensures { result ≡ all (holds set) (arguments_at s.now at) }
{
    temporaries(s, code::after(at, 1), code::count(s, at), set)
}

// n parameters, each new: the set with them, and the offset behind; or the number of a fault.
pub fn fresh(s: &[u8], at: usize, n: u8, set: u16) -> Result<(u16, usize), No>
    ensures { result ≡ fresh_as set (run s.now at n) (past at n) }
{
    let mut k = at;
    let mut bound = set;
    'names: for _ in 0..n {
        let x = code::byte(s, k);
        if holds(bound, x) {
            return Err(No::TWICE);
        }
        bound = bind(bound, x);
        k = code::after(k, 1);
    }
    Ok((bound, k))
}

// A statement: its operands, and then its target.
fn statement(s: &[u8], at: usize, set: u16) -> Result<(u16, usize), No>
    ensures { result ≡ statements_as set (statements_at s.now at 1) (statements_end s.now at 1) }
{
    let x = code::byte(s, at);
    let k = expression(s, code::after(at, 1), set).ok_or(No::UNBOUND)?;
    if holds(set, x) {
        Err(No::TWICE)
    } else {
        Ok((bind(set, x), k))
    }
}

// n statements.
pub fn statements(s: &[u8], at: usize, n: u8, set: u16) -> Result<(u16, usize), No>
    ensures { result ≡ statements_as set (statements_at s.now at n) (statements_end s.now at n) }
{
    let mut k = at;
    let mut bound = set;
    'lines: for _ in 0..n {
        (bound, k) = statement(s, k, bound)?;
    }
    Ok((bound, k))
}

// Are the n names at a those at b?
pub fn same(s: &[u8], a: usize, b: usize, n: u8) -> bool
    ensures { result ≡ equal (run s.now a n) (run s.now b n) }
{
    let mut i = a;
    let mut j = b;
    'names: for _ in 0..n {
        if code::byte(s, i) != code::byte(s, j) {
            return false;
        }
        i = code::after(i, 1);
        j = code::after(j, 1);
    }
    true
}
