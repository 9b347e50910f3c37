// The check of a table over its places: phase by phase in the order of the definition. Blocks and functions are taken by
// number, so those that nothing names are judged too.
#![tactic(auto)]

ghost use Rattle.std.specs.Prelude.{◌≡◌};
ghost use Rattle.model.specs.Calls as Calls;
ghost use Rattle.answers.specs.Answers.{answer_of};
ghost use Rattle.verifier.specs.Means.{CheckedAs};
ghost use Rattle.verifier.specs.Verdicts.{Nests, NestsAll, Entered, Enters, Spawns, SpawnsAll, Codes, Blocks, BlocksAll};
ghost use Rattle.verifier.specs.Verdicts.{FunctionsAll, Judges};

use answers::{No, Refusal};
use bound::TEMPORARIES;
use code::Opening;
use places::{Layout, Places};
use targets::Here;

// The block of a fault that stands in none, which is main's and a spawn call's.
pub const NOWHERE: usize = 255;

// A nesting's entry: the spawn call is there, and its arguments lie in the scope.
fn nests(s: &[u8], places: &Places, f: usize, x: u8, scope: u16) -> Result<(), No>
    ensures { Nests s.now places.now f x scope result }
{
    let at = places::spawn(places, f, x as usize).ok_or(No::MISSING)?;
    if bound::arguments(s, code::after(at, 1), scope) {
        Ok(())
    } else {
        Err(No::SCOPE)
    }
}

// A nesting of n names, entry by entry.
fn nests_all(s: &[u8], places: &Places, f: usize, at: usize, n: u8, scope: u16) -> Result<(), No>
    ensures { NestsAll s.now places.now f at n scope result }
{
    let mut k = at;
    'names: for _ in 0..n {
        nests(s, places, f, code::byte(s, k), scope)?;
        k = code::after(k, 1);
    }
    Ok(())
}

// Is this an entry: no parameters, no nesting, a scope of exactly the function's parameters?
fn entered(s: &[u8], places: &Places, f: usize, h: Opening) -> bool
    ensures { Entered s.now places.now f h result }
{
    let Some((n, _)) = targets::function_of(s, places, f) else {
        return false;
    };
    h.count == 0 && h.depth == 0 && n < TEMPORARIES && h.scope == (1 << n) - 1
}

// Block 0 has to be an entry.
fn enters(s: &[u8], places: &Places, f: usize, b: usize, h: Opening) -> bool
    ensures { Enters s.now places.now f b h result }
{
    b != 0 || entered(s, places, f, h)
}

// The spawn call at an offset: the name before the count.
fn spawns(s: &[u8], places: &Places, at: usize) -> Result<(), No>
    ensures { Spawns s.now places.now at result }
{
    let (n, _) = targets::function_of(s, places, code::byte(s, at) as usize).ok_or(No::MISSING)?;
    if code::count(s, code::after(at, 1)) == n {
        Ok(())
    } else {
        Err(No::COUNT)
    }
}

// A function's spawn calls, one by one.
fn spawns_all(s: &[u8], places: &Places, f: usize) -> Result<(), No>
    ensures { SpawnsAll s.now places.now f result }
{
    for k in 0..Layout::SPAWNS {
        let Some(at) = places::spawn(places, f, k) else {
            return Ok(());
        };
        spawns(s, places, at)?;
    }
    Ok(())
}

// A block's statements and its transfer, behind its head, with what is bound there.
fn codes(s: &[u8], places: &Places, f: usize, h: Opening, set: u16) -> Result<(), No>
    ensures { Codes s.now places.now f h set result }
{
    let at = h.behind;
    let (bound, k) = bound::statements(s, code::after(at, 1), code::byte(s, at), set)?;
    let here = Here {
        f,
        bound,
        nesting: h.nesting,
        depth: h.depth,
    };
    targets::transfer(s, places, here, k)
}

// Block b at an offset: entry, parameters, nesting, statements, transfer.
fn blocks(s: &[u8], places: &Places, f: usize, b: usize, at: usize) -> Result<(), No>
    ensures { Blocks s.now places.now f b at result }
{
    let h = code::head(s, at);
    if !enters(s, places, f, b, h) {
        return Err(No::ENTRY);
    }
    let (set, _) = bound::fresh(s, h.parameters, h.count, h.scope)?;
    nests_all(s, places, f, h.nesting, h.depth, h.scope)?;
    codes(s, places, f, h, set)
}

// A function's blocks, one by one: the first fault's number, with the block.
fn blocks_all(s: &[u8], places: &Places, f: usize) -> Result<(), (No, usize)>
    ensures { BlocksAll s.now places.now f result }
{
    for b in 0..Layout::BLOCKS {
        let Some(at) = places::block(places, f, b) else {
            return Ok(());
        };
        blocks(s, places, f, b, at).map_err(|no| (no, b))?;
    }
    Ok(())
}

// The functions, one by one: spawn calls, then blocks.
fn functions(s: &[u8], places: &Places) -> Result<(), Refusal>
    ensures { FunctionsAll s.now places.now result }
{
    for f in 0..Layout::FUNCTIONS {
        let Some(_) = places::function(places, f) else {
            return Ok(());
        };
        spawns_all(s, places, f).map_err(|no| Refusal::Fault(no, f, NOWHERE))?;
        blocks_all(s, places, f).map_err(|(no, b)| Refusal::Fault(no, f, b))?;
    }
    Ok(())
}

// A table that reads, by its places: main, and then each function.
fn judge(s: &[u8], places: &Places) -> Result<(), Refusal>
    ensures { Judges s.now places.now result }
{
    let Some((n, _)) = targets::function_of(s, places, 0) else {
        return Ok(());
    };
    if n != 0 {
        return Err(Refusal::Fault(No::MAIN, 0, NOWHERE));
    }
    functions(s, places)
}

// The check of a table, which leaves its places, handed in with none, where it reads.
pub fn check_placed(s: &[u8], places: &mut Places) -> Result<(), Refusal>
    ensures { CheckedAs s.now places.old places.new result }
{
    table::read(s, places)?;
    judge(s, places)
}

// The check of a table. What its answer means is the law `means` of proofs/Meaning: accepted exactly where the table reads to
// a well-formed program, and otherwise the first fault in order. It reads and judges by itself: by way of `check_placed`, which the
// depth calls too, small tables take 8 percent longer.
pub fn check(s: &[u8]) -> Result<(), Refusal>
    ensures { answer_of result ≡ Calls.check s.now }
{
    let mut places = places::none();
    table::read(s, &mut places)?;
    judge(s, &places)
}
