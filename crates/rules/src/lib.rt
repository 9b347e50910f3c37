// The ten rules: what the frame at a place of the pool's words does next. The words and the table are read in place; no word is
// touched. Values that are passed on go into a buffer of the caller's.
#![tactic(auto)]

ghost use Rattle.std.specs.Prelude.{◌≡◌, ◌+◌, ◌≤◌, min, length};
ghost use Rattle.model.specs.Pool.{frame_words};
ghost use Rattle.pool.specs.InPlace.{frame_at};
ghost use Rattle.code.specs.Code.{statements_end, goto_at, call_at, spork_at, spoin_at};
ghost use Rattle.places.specs.Places.{FindsCode};
ghost use Rattle.rules.specs.Acts.{Enters, Takes, Spawns, Transfers, Returns, Moves, Branches, Valued, NoIf, Comes, Ending, Giving};
ghost use Rattle.rules.specs.Acts as Acts;

use answers::{No, Rule};
use code::Kind;
use eval::{Evaluated, Values};
use places::Places;
use pool::Pool;

// A block that is entered, and with how many values: its parameters stand at an offset.
#[derive(Clone, Copy, PartialEq, Eq, Debug)]
pub struct Entry {
    pub block: u8,
    pub count: u8,
    pub parameters: usize,
}

// What a frame does next. Values that are passed on, for parameters, to a function, to the caller, are the first of the buffer, so
// many as the act says.
#[derive(Clone, Copy, PartialEq, Eq, Debug)]
pub enum Action {
    // It binds a temporary to a value.
    Bind(u8, i32),
    // It enters a block by a rule.
    Enter(Rule, Entry),
    // It opens a spawn call and enters a block.
    Open(u8, u8),
    // It closes its last call and enters a block.
    Close(u8),
    // It calls a function with so many values, and waits at a block.
    Push(u8, u8, u8),
    // It returns so many values.
    Pop(u8),
    // It waits at a promoted spoin, to go on at a block.
    Join(u8),
}

// Block b of function f is entered with n values, if it is there and takes as many.
pub fn enter(s: &[u8], places: &Places, f: u8, b: u8, n: u8) -> Result<Entry, No>
    ensures { Enters s.now places.now f b n result }
{
    let Some(parameters) = places::block(places, f as usize, b as usize) else {
        return Err(No::STUCK);
    };
    if code::count(s, parameters) != n {
        return Err(No::STUCK);
    }
    Ok(Entry {
        block: b,
        count: n,
        parameters,
    })
}

// Is function g there, and does it take n values?
fn takes(s: &[u8], places: &Places, g: u8, n: u8) -> bool
    ensures { Takes s.now places.now g n result }
{
    match places::function(places, g as usize) {
        Some(at) => code::byte(s, at) == n,
        None => false,
    }
}

// A spawn call of the frame at k: its function, which is called with so many arguments, read from the frame.
pub fn child(
    s: &[u8],
    places: &Places,
    ws: &[i32],
    k: usize,
    call: u8,
    out: &mut [i32; Values::MOST],
) -> Result<(u8, u8), No>
    requires { k + frame_words ≤ length ws.now }
    ensures { Spawns s.now places.now (frame_at ws.now k) call out.old result
        out.new }
{
    let f = pool::function(ws, k);
    let Some(at) = places::spawn(places, f as usize, call as usize) else {
        return Err(No::STUCK);
    };
    let list = code::after(at, 1);
    if !eval::look_all(s, list, ws, k, out) {
        return Err(No::STUCK);
    }
    let g = code::byte(s, at);
    let n = code::count(s, list);
    if !takes(s, places, g, n) {
        return Err(No::STUCK);
    }
    Ok((g, n))
}

// goto: the block and its arguments at an offset.
fn goto(
    s: &[u8],
    places: &Places,
    ws: &[i32],
    k: usize,
    at: usize,
    out: &mut [i32; Values::MOST],
) -> Result<Action, No>
    requires { k + frame_words ≤ length ws.now }
    ensures { Transfers s.now places.now (frame_at ws.now k) (goto_at s.now at)
        out.old result out.new }
{
    let list = code::after(at, 1);
    if !eval::look_all(s, list, ws, k, out) {
        return Err(No::STUCK);
    }
    let f = pool::function(ws, k);
    let entry = enter(s, places, f, code::byte(s, at), code::count(s, list))?;
    Ok(Action::Enter(Rule::GOTO, entry))
}

// then and else: the value is not 0, or is.
fn branch(
    s: &[u8],
    places: &Places,
    ws: &[i32],
    k: usize,
    b: u8,
    c: u8,
    v: i32,
) -> Result<Action, No>
    requires { k + frame_words ≤ length ws.now }
    ensures { Branches s.now places.now (frame_at ws.now k) b c v result }
{
    let f = pool::function(ws, k);
    if v == 0 {
        return Ok(Action::Enter(Rule::ELSE, enter(s, places, f, c, 0)?));
    }
    Ok(Action::Enter(Rule::THEN, enter(s, places, f, b, 0)?))
}

// stmt and if: a statement of a target, or an if where there is none, whose expression at an offset came to v.
fn valued(
    s: &[u8],
    places: &Places,
    ws: &[i32],
    k: usize,
    target: Option<u8>,
    at: usize,
    v: Evaluated,
) -> Result<Action, No>
    requires { k + frame_words ≤ length ws.now }
    ensures { Valued target s.now places.now (frame_at ws.now k) at v result }
{
    match v {
        Evaluated::Value(v) => {
            if let Some(x) = target {
                return Ok(Action::Bind(x, v));
            }
            let end = code::expression_end(s, at);
            branch(
                s,
                places,
                ws,
                k,
                code::byte(s, end),
                code::byte(s, code::after(end, 1)),
                v,
            )
        }
        Evaluated::Overflow => Err(No::OVERFLOW),
        Evaluated::Unbound => Err(No::STUCK),
    }
}

// call: the function and its arguments at an offset, and the block to return to.
fn call(
    s: &[u8],
    places: &Places,
    ws: &[i32],
    k: usize,
    at: usize,
    out: &mut [i32; Values::MOST],
) -> Result<Action, No>
    requires { k + frame_words ≤ length ws.now }
    ensures { Transfers s.now places.now (frame_at ws.now k) (call_at s.now at)
        out.old result out.new }
{
    let list = code::after(at, 1);
    if !eval::look_all(s, list, ws, k, out) {
        return Err(No::STUCK);
    }
    let g = code::byte(s, at);
    let n = code::count(s, list);
    if !takes(s, places, g, n) {
        return Err(No::STUCK);
    }
    let b = code::byte(s, code::list_end(s, list));
    let Some(_) = places::block(places, pool::function(ws, k) as usize, b as usize) else {
        return Err(No::STUCK);
    };
    Ok(Action::Push(g, n, b))
}

// return: with nothing open.
fn give_back(
    s: &[u8],
    ws: &[i32],
    k: usize,
    at: usize,
    out: &mut [i32; Values::MOST],
) -> Result<Action, No>
    requires { k + frame_words ≤ length ws.now }
    ensures { Returns s.now (frame_at ws.now k) at out.old result out.new }
{
    if !eval::look_all(s, at, ws, k, out) {
        return Err(No::STUCK);
    }
    if pool::opened(ws, k) != 0 {
        return Err(No::STUCK);
    }
    Ok(Action::Pop(code::count(s, at)))
}

// spork: the spawn call is there, and under four are open. No argument is read.
fn spork(s: &[u8], places: &Places, ws: &[i32], k: usize, at: usize) -> Result<Action, No>
    requires { k + frame_words ≤ length ws.now }
    ensures { Moves s.now places.now (frame_at ws.now k) (spork_at s.now at) result }
{
    let f = pool::function(ws, k);
    let call = code::byte(s, code::after(at, 1));
    let Some(_) = places::spawn(places, f as usize, call as usize) else {
        return Err(No::STUCK);
    };
    if Pool::CALLS <= pool::opened(ws, k) as usize {
        return Err(No::STUCK);
    }
    let entry = enter(s, places, f, code::byte(s, at), 0)?;
    Ok(Action::Open(call, entry.block))
}

// unpr and prom: the last open call is unpromoted, or promoted, as all of the frame's then are.
fn spoin(s: &[u8], places: &Places, ws: &[i32], k: usize, at: usize) -> Result<Action, No>
    requires { k + frame_words ≤ length ws.now }
    ensures { Moves s.now places.now (frame_at ws.now k) (spoin_at s.now at) result }
{
    let n = pool::opened(ws, k);
    if n == 0 {
        return Err(No::STUCK);
    }
    if pool::promoted(ws, k) < n {
        let entry = enter(s, places, pool::function(ws, k), code::byte(s, at), 0)?;
        return Ok(Action::Close(entry.block));
    }
    Ok(Action::Join(code::byte(s, code::after(at, 1))))
}

// The transfer at an offset, by its kind. An if is carried out before, and never comes here.
fn transfer(
    s: &[u8],
    places: &Places,
    ws: &[i32],
    k: usize,
    at: usize,
    out: &mut [i32; Values::MOST],
) -> Result<Action, No>
    requires { k + frame_words ≤ length ws.now }
    ensures { NoIf s.now places.now (frame_at ws.now k) at out.old result out.new }
{
    let first = code::after(at, 1);
    match code::kind_at(s, at) {
        Kind::Goto => goto(s, places, ws, k, first, out),
        Kind::If => spoin(s, places, ws, k, first),
        Kind::Call => call(s, places, ws, k, first, out),
        Kind::Return => give_back(s, ws, k, first, out),
        Kind::Spork => spork(s, places, ws, k, first),
        Kind::Spoin => spoin(s, places, ws, k, first),
    }
}

// Where what comes next stands, behind so many of n statements: a statement, or the transfer.
fn next_at(s: &[u8], at: usize, done: u8, n: u8) -> usize
    ensures { result ≡ statements_end s.now at (min done n) }
{
    code::statements_end(s, at, done.min(n))
}

// The statement that comes next, or the transfer, by the code at an offset. A statement and an if have their expression at the same
// place, behind one byte.
fn coming(
    s: &[u8],
    places: &Places,
    ws: &[i32],
    k: usize,
    at: usize,
    out: &mut [i32; Values::MOST],
) -> Result<Action, No>
    requires { k + frame_words ≤ length ws.now }
    ensures { Comes s.now places.now (frame_at ws.now k) at out.old result
        out.new }
{
    let n = code::byte(s, at);
    let done = pool::done(ws, k);
    let next = next_at(s, code::after(at, 1), done, n);
    let x = code::byte(s, next);
    let statement = done < n;
    // The byte of a kind as a number, since the same byte is a statement's temporary.
    if statement || x == 1 {
        let first = code::after(next, 1);
        let v = eval::eval(s, first, ws, k);
        return valued(s, places, ws, k, statement.then_some(x), first, v);
    }
    transfer(s, places, ws, k, next, out)
}

// Where the code of the frame's block begins.
fn code_at(places: &Places, ws: &[i32], k: usize) -> Option<usize>
    requires { k + frame_words ≤ length ws.now }
    ensures { FindsCode places.now (frame_at ws.now k).function (frame_at ws.now k).block result }
{
    places::code(
        places,
        pool::function(ws, k) as usize,
        pool::block(ws, k) as usize,
    )
}

// What the frame at k does next.
pub fn act(
    s: &[u8],
    places: &Places,
    ws: &[i32],
    k: usize,
    out: &mut [i32; Values::MOST],
) -> Result<Action, No>
    requires { k + frame_words ≤ length ws.now }
    ensures { Acts.Acts s.now places.now (frame_at ws.now k) out.old result
        out.new }
{
    let Some(at) = code_at(places, ws, k) else {
        return Err(No::STUCK);
    };
    coming(s, places, ws, k, at, out)
}

// What a frame returns by the code at an offset: so many values, in the buffer.
fn ending(s: &[u8], ws: &[i32], k: usize, at: usize, out: &mut [i32; Values::MOST]) -> Option<u8>
    requires { k + frame_words ≤ length ws.now }
    ensures { Ending s.now (frame_at ws.now k) at out.old result out.new }
{
    let n = code::byte(s, at);
    if pool::done(ws, k) < n {
        return None;
    }
    let end = code::statements_end(s, code::after(at, 1), n);
    let Kind::Return = code::kind_at(s, end) else {
        return None;
    };
    if pool::opened(ws, k) != 0 {
        return None;
    }
    let list = code::after(end, 1);
    if !eval::look_all(s, list, ws, k, out) {
        return None;
    }
    Some(code::count(s, list))
}

// How many values the frame at k returns, in the buffer, if that is what it does next.
pub fn giving(
    s: &[u8],
    places: &Places,
    ws: &[i32],
    k: usize,
    out: &mut [i32; Values::MOST],
) -> Option<u8>
    requires { k + frame_words ≤ length ws.now }
    ensures { Giving s.now places.now (frame_at ws.now k) out.old result out.new }
{
    let at = code_at(places, ws, k)?;
    ending(s, ws, k, at, out)
}
