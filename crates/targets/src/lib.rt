// Transfers over the places: a target is looked up by number, read once into a small struct, and tested by plain values.
#![tactic(auto)]

ghost use Rattle.code.specs.Code.{goto_at, if_at, call_at, return_at, spork_at, spoin_at, transfer_at};
ghost use Rattle.targets.specs.Targets.{Targets, Callees, Spawns, Keeps, Adds, One, Both, Grown, Judges};

use answers::No;
use code::{Kind, Opening};
use places::Places;

// Where a transfer stands: its function, what is bound, and its block's nesting.
#[derive(Clone, Copy, PartialEq, Eq, Debug)]
pub struct Here {
    pub f: usize,
    pub bound: u16,
    pub nesting: usize,
    pub depth: u8,
}

// Block b of function f: its head.
fn block_of(s: &[u8], places: &Places, f: usize, b: u8) -> Option<Opening>
    ensures { Targets s.now places.now f b result }
{
    let at = places::block(places, f, b as usize)?;
    Some(code::head(s, at))
}

// Function g: its numbers of parameters and of returned values.
pub fn function_of(s: &[u8], places: &Places, g: usize) -> Option<(u8, u8)>
    ensures { Callees s.now places.now g result }
{
    let at = places::function(places, g)?;
    Some((code::byte(s, at), code::byte(s, code::after(at, 1))))
}

// The function that spawn call k of function f spawns.
fn spawned_by(s: &[u8], places: &Places, f: usize, k: u8) -> Option<(u8, u8)>
    ensures { Spawns s.now places.now f k result }
{
    let at = places::spawn(places, f, k as usize)?;
    function_of(s, places, code::byte(s, at) as usize)
}

// Has the block the nesting of n names at an offset?
fn keeps(s: &[u8], h: Opening, at: usize, n: u8) -> bool
    ensures { Keeps s.now h at n result }
{
    h.depth == n && bound::same(s, h.nesting, at, n)
}

// Has it that nesting and x behind it?
fn adds(s: &[u8], h: Opening, at: usize, n: u8, x: u8) -> bool
    ensures { Adds s.now h at n x result }
{
    h.depth as usize == n as usize + 1
        && bound::same(s, h.nesting, at, n)
        && code::byte(s, code::after(h.nesting, n as usize)) == x
}

// A target that takes n values: its count, its nesting, its scope.
fn one(s: &[u8], here: Here, h: Opening, n: u8) -> Result<(), No>
    ensures { One s.now here h n result }
{
    if h.count != n {
        return Err(No::COUNT);
    }
    if !keeps(s, h, here.nesting, here.depth) {
        return Err(No::NESTING);
    }
    if !bound::part(h.scope, here.bound) {
        return Err(No::SCOPE);
    }
    Ok(())
}

// Two targets, the counts before the nestings before the scopes.
fn both(s: &[u8], here: Here, h: Opening, n: u8, k: Opening, m: u8) -> Result<(), No>
    ensures { Both s.now here h n k m result }
{
    if h.count != n || k.count != m {
        return Err(No::COUNT);
    }
    if !keeps(s, h, here.nesting, here.depth) || !keeps(s, k, here.nesting, here.depth) {
        return Err(No::NESTING);
    }
    if !bound::part(h.scope, here.bound) || !bound::part(k.scope, here.bound) {
        return Err(No::SCOPE);
    }
    Ok(())
}

// A spork's body, under one spawn call more.
fn grown(s: &[u8], here: Here, h: Opening, x: u8) -> Result<(), No>
    ensures { Grown s.now here h x result }
{
    if h.count != 0 {
        return Err(No::COUNT);
    }
    if !adds(s, h, here.nesting, here.depth, x) {
        return Err(No::NESTING);
    }
    if !bound::part(h.scope, here.bound) {
        return Err(No::SCOPE);
    }
    Ok(())
}

// goto, behind its kind.
fn go(s: &[u8], places: &Places, here: Here, at: usize) -> Result<(), No>
    ensures { Judges s.now places.now here (goto_at s.now at) result }
{
    let list = code::after(at, 1);
    if !bound::arguments(s, list, here.bound) {
        return Err(No::UNBOUND);
    }
    let h = block_of(s, places, here.f, code::byte(s, at)).ok_or(No::MISSING)?;
    one(s, here, h, code::count(s, list))
}

// if.
fn branch(s: &[u8], places: &Places, here: Here, at: usize) -> Result<(), No>
    ensures { Judges s.now places.now here (if_at s.now at) result }
{
    let k = bound::expression(s, at, here.bound).ok_or(No::UNBOUND)?;
    let h = block_of(s, places, here.f, code::byte(s, k)).ok_or(No::MISSING)?;
    let j = block_of(s, places, here.f, code::byte(s, code::after(k, 1))).ok_or(No::MISSING)?;
    both(s, here, h, 0, j, 0)
}

// call.
fn invoke(s: &[u8], places: &Places, here: Here, at: usize) -> Result<(), No>
    ensures { Judges s.now places.now here (call_at s.now at) result }
{
    let list = code::after(at, 1);
    if !bound::arguments(s, list, here.bound) {
        return Err(No::UNBOUND);
    }
    let (n, m) = function_of(s, places, code::byte(s, at) as usize).ok_or(No::MISSING)?;
    let h = block_of(s, places, here.f, code::byte(s, code::list_end(s, list))).ok_or(No::MISSING)?;
    if code::count(s, list) != n {
        return Err(No::COUNT);
    }
    one(s, here, h, m)
}

// return.
fn leave(s: &[u8], places: &Places, here: Here, at: usize) -> Result<(), No>
    ensures { Judges s.now places.now here (return_at s.now at) result }
{
    if !bound::arguments(s, at, here.bound) {
        return Err(No::UNBOUND);
    }
    let (_, m) = function_of(s, places, here.f).ok_or(No::MISSING)?;
    if code::count(s, at) != m {
        return Err(No::COUNT);
    }
    if here.depth != 0 {
        return Err(No::NESTING);
    }
    Ok(())
}

// spork.
fn fork(s: &[u8], places: &Places, here: Here, at: usize) -> Result<(), No>
    ensures { Judges s.now places.now here (spork_at s.now at) result }
{
    let h = block_of(s, places, here.f, code::byte(s, at)).ok_or(No::MISSING)?;
    let x = code::byte(s, code::after(at, 1));
    places::spawn(places, here.f, x as usize).ok_or(No::MISSING)?;
    grown(s, here, h, x)
}

// spoin.
fn join(s: &[u8], places: &Places, here: Here, at: usize) -> Result<(), No>
    ensures { Judges s.now places.now here (spoin_at s.now at) result }
{
    let h = block_of(s, places, here.f, code::byte(s, at)).ok_or(No::MISSING)?;
    let k = block_of(s, places, here.f, code::byte(s, code::after(at, 1))).ok_or(No::MISSING)?;
    if here.depth == 0 {
        return Err(No::NESTING);
    }
    let front = here.depth - 1;
    let innermost = code::byte(s, code::after(here.nesting, front as usize));
    let (_, m) = spawned_by(s, places, here.f, innermost).ok_or(No::MISSING)?;
    both(
        s,
        Here {
            depth: front,
            ..here
        },
        h,
        0,
        k,
        m,
    )
}

// A transfer.
pub fn transfer(s: &[u8], places: &Places, here: Here, at: usize) -> Result<(), No>
    ensures { Judges s.now places.now here (transfer_at s.now at) result }
{
    let next = code::after(at, 1);
    match code::kind_at(s, at) {
        Kind::Goto => go(s, places, here, next),
        Kind::If => branch(s, places, here, next),
        Kind::Call => invoke(s, places, here, next),
        Kind::Return => leave(s, places, here, next),
        Kind::Spork => fork(s, places, here, next),
        Kind::Spoin => join(s, places, here, next),
    }
}
