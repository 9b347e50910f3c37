// The one walk over a table, which also keeps where each function, spawn call and block begins. The version is a parameter.
ghost use Rattle.std.specs.Prelude.{◌≡◌, ◌≤◌, ◌<◌};
ghost use Rattle.model.specs.Read as Read;
ghost use Rattle.places.specs.Layout as Layout;
ghost use Rattle.places.specs.Marks.{mark_spawn};
ghost use Rattle.table.specs.Skips.{skip_of};
ghost use Rattle.table.specs.Versions.{head_of};
ghost use Rattle.table.specs.Marks.{marked, along, block_marks_by, function_marks_by, program_marks_by, sizes, sizes_of, Kept};

use crate::grammar::byte;
use crate::{Version, grammar};
use places::Places;

// A function's numbers of blocks and of spawn calls, and the offset behind them.
#[derive(Clone, Copy, PartialEq, Eq, Debug)]
pub struct Sizes {
    pub blocks: usize,
    pub spawns: usize,
    pub next: usize,
}

// The spawn calls of function f.
pub fn spawns(s: &[u8], at: usize, n: usize, f: usize, places: &mut Places) -> Result<usize, usize>
    requires { (f < Layout.functions) × (n ≤ Layout.spawns) }
    ensures { (result ≡ skip_of (Read.many Read.spawn_call n s.now at))
        × Kept result places.new (marked Read.spawn_call (mark_spawn f) n s.now at 0 places.old) }
{
    let mut k = at;
    for j in 0..n {
        places::mark_spawn(places, f, j, k);
        k = grammar::spawn_call(s, k)?;
    }
    Ok(k)
}

// The blocks of function f; how long the head before was is kept, since two lengths stand in an entry.
pub fn blocks(
    s: &[u8],
    at: usize,
    n: usize,
    f: usize,
    version: Version,
    places: &mut Places,
) -> Result<usize, usize>
    requires { (f < Layout.functions) × (n ≤ Layout.blocks) }
    ensures { (result ≡ skip_of (Read.many (Read.block_by (head_of version)) n s.now at))
        × Kept result places.new
        (marked (Read.block_by (head_of version)) (block_marks_by (head_of version) s.now f) n s.now at 0
        (along places.old 0)).places }
{
    let mut k = at;
    let mut before = 0;
    for j in 0..n {
        places::mark_block(places, f, j, k);
        let code = grammar::head_of(s, k, version)?;
        let length = code - k;
        places::mark_head(places, f, j, before, length);
        k = grammar::body(s, code)?;
        before = length;
    }
    Ok(k)
}

// A function's numbers of blocks and of spawn calls, behind those of parameters and returned values.
pub fn numbers(s: &[u8], at: usize) -> Result<Sizes, usize>
    ensures { sizes_of result ≡ sizes s.now at }
{
    let (_, returned) = byte(s, at, 0, 8)?;
    let (_, block) = byte(s, returned, 0, 4)?;
    let (blocks, spawn) = byte(s, block, 1, 32)?;
    let (spawns, next) = byte(s, spawn, 0, 8)?;
    Ok(Sizes {
        blocks,
        spawns,
        next,
    })
}

// Function f: its place, and those of its spawn calls and blocks.
pub fn function(
    s: &[u8],
    at: usize,
    f: usize,
    version: Version,
    places: &mut Places,
) -> Result<usize, usize>
    requires { f < Layout.functions }
    ensures { (result ≡ skip_of (Read.function_by (head_of version) s.now at))
        × Kept result places.new (function_marks_by (head_of version) s.now f at places.old) }
{
    places::mark_function(places, f, at);
    let sizes = numbers(s, at)?;
    let block = spawns(s, sizes.next, sizes.spawns, f, places)?;
    blocks(s, block, sizes.blocks, f, version, places)
}

pub fn functions(
    s: &[u8],
    at: usize,
    n: usize,
    version: Version,
    places: &mut Places,
) -> Result<usize, usize>
    requires { n ≤ Layout.functions }
    ensures { (result ≡ skip_of (Read.many (Read.function_by (head_of version)) n s.now at))
        × Kept result places.new
        (marked (Read.function_by (head_of version)) (function_marks_by (head_of version) s.now) n s.now at 0
        places.old) }
{
    let mut k = at;
    for f in 0..n {
        k = function(s, k, f, version, places)?;
    }
    Ok(k)
}

pub fn program(s: &[u8], at: usize, version: Version, places: &mut Places) -> Result<usize, usize>
    ensures { (result ≡ skip_of (Read.program_by (head_of version) s.now at))
        × Kept result places.new (program_marks_by (head_of version) s.now at places.old) }
{
    let (n, k) = byte(s, at, 1, 16)?;
    functions(s, k, n, version, places)
}
