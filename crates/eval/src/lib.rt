// What atoms, expressions and argument lists of a table come to in the frame at a place of the pool's words, and binding there.
#![tactic(auto)]

ghost use Rattle.std.specs.Prelude.{◌≡◌, ◌+◌, ◌≤◌, length};
ghost use Rattle.std.proofs.Math.Option.{some};
ghost use Rattle.model.specs.Frames as Frames;
ghost use Rattle.model.specs.Pool.{frame_words};
ghost use Rattle.pool.specs.InPlace.{frame_at};
ghost use Rattle.code.specs.Code.{atom_at, expression_at};
ghost use Rattle.eval.specs.Given.{operand_as, evaluated_as, worked_as, Looks, applied, Binds, BindsAll, Begins};

use code::Arguments;
use pool::Pool;

// What working out an expression comes to: a value, an overflow, or a temporary of it is not bound.
#[derive(Clone, Copy, PartialEq, Eq, Debug)]
pub enum Evaluated {
    Value(i32),
    Overflow,
    Unbound,
}

// Values: the first of eight, as many as are ever passed on, and 0 behind them. An array and its count, since nothing is on the heap.
#[derive(Clone, Copy, PartialEq, Eq, Debug)]
pub struct Values {
    pub count: u8,
    pub at: [i32; Values::MOST],
}

impl Values {
    pub const MOST: usize = Arguments::MOST;
}

// The value of a temporary of the frame at k, if it is bound.
fn look(ws: &[i32], k: usize, x: u8) -> Option<i32>
    requires { k + frame_words ≤ length ws.now }
    ensures { result ≡ operand_as (Frames.look (frame_at ws.now k) x) }
{
    if (x as usize) < Pool::TEMPORARIES {
        if (pool::bound(ws, k) >> x) % 2 == 1 {
            return Some(pool::value(ws, k, x));
        }
    }
    None
}

// An atom's value, if it has one.
fn atom(s: &[u8], at: usize, ws: &[i32], k: usize) -> Option<i32>
    requires { k + frame_words ≤ length ws.now }
    ensures { result ≡ operand_as (Frames.eval_atom (frame_at ws.now k) (atom_at s.now at)) }
{
    let first = code::after(at, 1);
    if code::byte(s, at) == 0 {
        return Some(code::value(s, first));
    }
    look(ws, k, code::byte(s, first))
}

// A value, or an overflow where there is none.
fn worked(z: Option<i32>) -> Evaluated
    ensures { result ≡ worked_as z }
{
    match z {
        Some(v) => Evaluated::Value(v),
        None => Evaluated::Overflow,
    }
}

// What an expression of a kind comes to, from the values of its atoms: all arithmetic on values is here. The kind is the number by which
// `OPERANDS` of `code`, a table of constants as document 01 wants it, is read.
fn apply(kind: u8, m: i32, n: i32) -> Evaluated
    ensures { result ≡ evaluated_as (some (applied kind m n)) }
{
    match kind {
        0 => Evaluated::Value(m),
        1 => worked(m.checked_neg()),
        2 => worked(m.checked_add(n)),
        _ => Evaluated::Value(i32::from(m < n)),
    }
}

// What an expression comes to.
pub fn eval(s: &[u8], at: usize, ws: &[i32], k: usize) -> Evaluated
    requires { k + frame_words ≤ length ws.now }
    ensures { result ≡ evaluated_as (Frames.eval (frame_at ws.now k) (expression_at s.now at)) }
{
    let kind = code::byte(s, at);
    let first = code::after(at, 1);
    let Some(m) = atom(s, first, ws, k) else {
        return Evaluated::Unbound;
    };
    if code::operands(kind as usize) != 2 {
        return apply(kind, m, 0);
    }
    let Some(n) = atom(s, code::atom_end(s, first), ws, k) else {
        return Evaluated::Unbound;
    };
    apply(kind, m, n)
}

// The values of the temporaries of an argument list, put into a buffer, if all are bound; those before the first that is not.
pub fn look_all(s: &[u8], at: usize, ws: &[i32], k: usize, out: &mut [i32; Values::MOST]) -> bool
    requires { k + frame_words ≤ length ws.now }
    ensures { Looks (frame_at ws.now k) s.now at out.old result out.new }
{
    let n = code::count(s, at);
    let mut p = code::after(at, 1);
    for i in 0..n {
        let Some(v) = look(ws, k, code::byte(s, p)) else {
            return false;
        };
        out[i as usize] = v;
        p = code::after(p, 1);
    }
    true
}

// A temporary of the frame at k is bound to a value.
pub fn bind(ws: &mut [i32], k: usize, x: u8, v: i32)
    requires { k + frame_words ≤ length ws.old }
    ensures { Binds ws.old k x v ws.new }
{
    if (x as usize) < Pool::TEMPORARIES {
        pool::bind(ws, k, x, v);
    }
}

// The temporaries of an argument list are bound in the frame at k, each to its value of a buffer.
pub fn bind_all(s: &[u8], at: usize, ws: &mut [i32], k: usize, values: &[i32; Values::MOST])
    requires { k + frame_words ≤ length ws.old }
    ensures { BindsAll s.now at ws.old k values.now ws.new }
{
    let n = code::count(s, at);
    let mut p = code::after(at, 1);
    for i in 0..n {
        let j = i as usize;
        bind(ws, k, code::byte(s, p), values[j]);
        p = code::after(p, 1);
    }
}

// The empty frame at k becomes the first frame of function g, with the first n values of a buffer.
pub fn begin(ws: &mut [i32], k: usize, g: u8, n: u8, values: &[i32; Values::MOST])
    requires { k + frame_words ≤ length ws.old }
    ensures { Begins ws.old k g n values.now ws.new }
{
    pool::name(ws, k, g);
    let count = code::few(n);
    for i in 0..count {
        let j = i as usize;
        pool::bind(ws, k, i, values[j]);
    }
}
