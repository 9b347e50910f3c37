// The places of a table: where each function, block and spawn call begins, in one array of offsets; marking them, and looking them
// up by number; and how long each block's head is, so that its code is found without a walk over the head.
#![tactic(auto)]

ghost use Rattle.std.specs.Prelude.{◌≡◌, ◌<◌};
ghost use Rattle.places.specs.Layout.{functions, spawns, blocks};
ghost use Rattle.places.specs.Marks.{nowhere, short, mark_function, mark_spawn, mark_block, mark_head, paired, length_of};
ghost use Rattle.places.specs.Places.{place_of, code_of, FindsFunction, FindsBlock, FindsCode, FindsSpawn};

// The array's record: how many functions there are places for, and how many spawn calls, blocks and pairs of lengths of each; where
// the spawn calls, the blocks and the lengths begin; the array's length, and the entry of a thing that is not there.
#[derive(Clone, Copy)]
pub struct Layout {}

impl Layout {
    pub const FUNCTIONS: usize = 16;

    pub const SPAWNS: usize = 8;

    pub const BLOCKS: usize = 32;

    pub const SPAWNS_FROM: usize = Layout::FUNCTIONS;

    pub const BLOCKS_FROM: usize = Layout::SPAWNS_FROM + Layout::FUNCTIONS * Layout::SPAWNS;

    pub const PAIRS: usize = 16;

    pub const LENGTHS_FROM: usize = Layout::BLOCKS_FROM + Layout::FUNCTIONS * Layout::BLOCKS;

    pub const LEN: usize = Layout::LENGTHS_FROM + Layout::FUNCTIONS * Layout::PAIRS;

    pub const ABSENT: u16 = 65535;
}

// The places: an offset for each function, spawn call and block, and the lengths of the heads, in the order of the layout.
// A table's bytes stand beside them as a parameter of their own: a struct of both is put in memory at each call, and behind a reference
// each contract would say `t.now.bytes.now` for `s.now`, which is no plainer.
pub type Places = [u16; Layout::LEN];

// An array with no places.
pub fn none() -> Places
    ensures { result ≡ nowhere }
{
    [Layout::ABSENT; Layout::LEN]
}

// All places are forgotten.
pub fn clear(places: &mut Places)
    ensures { places.new ≡ nowhere }
{
    *places = [Layout::ABSENT; Layout::LEN];
}

// An offset, as it is kept.
fn short(at: usize) -> u16
    ensures { result ≡ short at }
{
    at.min(Layout::ABSENT as usize) as u16
}

// Function f begins at the offset.
pub fn mark_function(places: &mut Places, f: usize, at: usize)
    requires { f < functions }
    ensures { places.new ≡ mark_function f at places.old }
{
    places[f] = short(at);
}

// Spawn call k of function f.
pub fn mark_spawn(places: &mut Places, f: usize, k: usize, at: usize)
    requires { (f < functions) × (k < spawns) }
    ensures { places.new ≡ mark_spawn f k at places.old }
{
    places[Layout::SPAWNS_FROM + Layout::SPAWNS * f + k] = short(at);
}

// Block b of function f.
pub fn mark_block(places: &mut Places, f: usize, b: usize, at: usize)
    requires { (f < functions) × (b < blocks) }
    ensures { places.new ≡ mark_block f b at places.old }
{
    places[Layout::BLOCKS_FROM + Layout::BLOCKS * f + b] = short(at);
}

// Two lengths in an entry.
fn paired(b: usize, before: usize, n: usize) -> u16
    requires { (before < 256) × (n < 256) }
    ensures { result ≡ paired b before n }
{
    if b % 2 == 0 {
        n as u16
    } else {
        (before + 256 * n) as u16
    }
}

// The head of block b of function f takes n bytes, and that of the block before it `before`.
pub fn mark_head(places: &mut Places, f: usize, b: usize, before: usize, n: usize)
    requires { (f < functions) × (b < blocks) × (before < 256) × (n < 256) }
    ensures { places.new ≡ mark_head f b before n places.old }
{
    places[Layout::LENGTHS_FROM + Layout::PAIRS * f + b / 2] = paired(b, before, n);
}

// The place that an entry stands for.
pub fn entry(at: u16) -> Option<usize>
    ensures { result ≡ place_of at }
{
    if at == Layout::ABSENT {
        None
    } else {
        Some(at as usize)
    }
}

// Function f.
pub fn function(places: &Places, f: usize) -> Option<usize>
    ensures { FindsFunction places.now f result }
{
    if f < Layout::FUNCTIONS {
        entry(places[f])
    } else {
        None
    }
}

// Block b of function f.
pub fn block(places: &Places, f: usize, b: usize) -> Option<usize>
    ensures { FindsBlock places.now f b result }
{
    if f < Layout::FUNCTIONS {
        if b < Layout::BLOCKS {
            return entry(places[Layout::BLOCKS_FROM + Layout::BLOCKS * f + b]);
        }
    }
    None
}

// The length of block b's head, in an entry of two: no test, since what a block's number is cannot be foreseen.
fn length(b: usize, both: u16) -> u16
    ensures { result ≡ length_of b both }
{
    (both >> (8 * (b % 2))) % 256
}

// The place behind the head of block b, by the block's entry and that of the length.
fn behind(block: u16, b: usize, both: u16) -> Option<usize>
    ensures { result ≡ code_of block b both }
{
    if block == Layout::ABSENT {
        None
    } else {
        Some(block as usize + length(b, both) as usize)
    }
}

// Where the code of block b of function f begins, behind its head: there stands its number of statements.
pub fn code(places: &Places, f: usize, b: usize) -> Option<usize>
    ensures { FindsCode places.now f b result }
{
    if f < Layout::FUNCTIONS {
        if b < Layout::BLOCKS {
            return behind(
                places[Layout::BLOCKS_FROM + Layout::BLOCKS * f + b],
                b,
                places[Layout::LENGTHS_FROM + Layout::PAIRS * f + b / 2],
            );
        }
    }
    None
}

// Spawn call k of function f. The lookups differ in the limit and in where their part begins: as parameters these are no plainer.
pub fn spawn(places: &Places, f: usize, k: usize) -> Option<usize>
    ensures { FindsSpawn places.now f k result }
{
    if f < Layout::FUNCTIONS {
        if k < Layout::SPAWNS {
            return entry(places[Layout::SPAWNS_FROM + Layout::SPAWNS * f + k]);
        }
    }
    None
}
