// The completion of a table of version 2: what it leaves out is inferred in lent words, function by function, and the table is written
// as version 1 into a buffer, which the check is put to. Each writer puts its bytes at a place and gives the place behind them.
#![tactic(auto)]

ghost use Rattle.std.specs.Prelude.{◌≡◌, ◌≤◌, length, take};
ghost use Rattle.model.specs.Calls.{check};
ghost use Rattle.answers.specs.Answers.{answer_of, refusal_of};
ghost use Rattle.puts.specs.Puts.{Puts};
ghost use Rattle.scopings.specs.Words.{digits};
ghost use Rattle.inference.specs.Complete as Model;
ghost use Rattle.inference.specs.Complete.{scratch_words, output_bytes};
ghost use Rattle.complete.specs.Writes.{scoping_bytes, scoping_in, PutsBlock, PutsIn, PutsEach, spawn_of, spawns_of, block_of, blocks_of};
ghost use Rattle.complete.specs.Writes.{PutsFunction, PutsFunctions, PutsTable, ReachesOne, ReachesAll, InfersAll, HandsOver};
ghost use Rattle.complete.specs.Writes.{blank, Finishes, Writes};

use answers::{No, Refusal};
use code::Table;
use places::{Layout, Places};
use transfers::Transfers;

// What is lent: so many words at least, of which the inference takes the first; and so many bytes.
#[derive(Clone, Copy)]
pub struct Lent {}

impl Lent {
    pub const WORDS: usize = 1024;

    pub const INFERRED: usize = 64;

    pub const BYTES: usize = 16384;
}

// So many names, the outermost first: any number of them, so it is no `to_le_bytes`, which has four.
fn put_names(names: u32, count: u8, out: &mut [u8], k: usize) -> usize
    ensures { Puts out.old k (digits count names) result out.new }
{
    let mut m = k;
    let mut rest = names;
    'names: for _ in 0..count {
        m = puts::byte(out, m, (rest % 256) as u8);
        rest /= 256;
    }
    m
}

// The scope and the nesting of block b.
fn put_scoping(words: &[u32], b: u8, out: &mut [u8], k: usize) -> usize
    ensures { Puts out.old k (scoping_bytes (scoping_in words.now b)) result out.new }
{
    let m = puts::half(out, k, scopings::scope(words, b));
    let n = scopings::depth(words, b).saturating_sub(1);
    let l = puts::byte(out, m, n);
    put_names(scopings::names(words, b), n, out, l)
}

// The block at an offset, as block b: its parameters, its scope and nesting, and all that is behind its parameters.
fn put_block(s: &[u8], at: usize, words: &[u32], b: u8, out: &mut [u8], k: usize) -> usize
    ensures { PutsBlock s.now at (scoping_in words.now b) out.old k result out.new }
{
    let code = code::list_end(s, at);
    let end = code::transfer_end(s, transfers::behind(s, code));
    let m = puts::stretch(out, k, s, at, code);
    let n = put_scoping(words, b, out, m);
    puts::stretch(out, n, s, code, end)
}

// Block b of function f, if there is one.
fn put_block_of(
    s: &[u8],
    places: &Places,
    f: usize,
    words: &[u32],
    b: u8,
    out: &mut [u8],
    k: usize,
) -> usize
    ensures { PutsIn s.now places.now f (block_of words.now b) out.old k result
        out.new }
{
    match places::block(places, f, b as usize) {
        None => k,
        Some(at) => put_block(s, at, words, b, out, k),
    }
}

// What `put` puts for each number below n.
fn put_each<F: Fn(u8, &mut [u8], usize) -> usize>(n: u8, out: &mut [u8], k: usize, put: F) -> usize
    requires { F.IsAlwaysCallable put }
    ensures { PutsEach (F.post put) n out.old k result out.new }
{
    let mut m = k;
    for i in 0..n {
        m = put(i, out, m);
    }
    m
}

// The blocks of function f.
fn put_blocks(s: &[u8], places: &Places, f: usize, words: &[u32], out: &mut [u8], k: usize) -> usize
    ensures { PutsIn s.now places.now f (blocks_of words.now) out.old k result
        out.new }
{
    put_each(
        Layout::BLOCKS as u8,
        out,
        k,
        |b: u8, out: &mut [u8], m: usize| put_block_of(s, places, f, words, b, out, m),
    )
}

// Spawn call `call` of function f, if there is one.
fn put_spawn(s: &[u8], places: &Places, f: usize, call: usize, out: &mut [u8], k: usize) -> usize
    ensures { PutsIn s.now places.now f (spawn_of call) out.old k result out.new }
{
    match places::spawn(places, f, call) {
        None => k,
        Some(at) => puts::stretch(out, k, s, at, code::spawn_end(s, at)),
    }
}

// The spawn calls of function f.
fn put_spawns(s: &[u8], places: &Places, f: usize, out: &mut [u8], k: usize) -> usize
    ensures { PutsIn s.now places.now f spawns_of out.old k result out.new }
{
    put_each(
        Layout::SPAWNS as u8,
        out,
        k,
        |call: u8, out: &mut [u8], m: usize| put_spawn(s, places, f, call as usize, out, m),
    )
}

// Function f, if there is one, with what is inferred of it: its four counts, its spawn calls, its blocks.
fn put_function(
    s: &[u8],
    places: &Places,
    transfers: &Transfers,
    f: usize,
    words: &mut [u32],
    out: &mut [u8],
    k: usize,
) -> usize
    ensures { PutsFunction s.now places.now transfers.now f words.old
        out.old k result out.new }
{
    let Some(at) = places::function(places, f) else {
        return k;
    };
    infer::infer(s, places, transfers, f, words);
    let m = puts::stretch(out, k, s, at, code::after(at, 4));
    let n = put_spawns(s, places, f, out, m);
    put_blocks(s, places, f, words, out, n)
}

// The functions. A loop of its own, since the words change: of an `FnMut` the proof that all else stays did not close.
fn put_functions(
    s: &[u8],
    places: &Places,
    transfers: &Transfers,
    words: &mut [u32],
    out: &mut [u8],
    k: usize,
) -> usize
    ensures { PutsFunctions s.now places.now transfers.now words.old
        out.old k result out.new }
{
    let mut m = k;
    for f in 0..Layout::FUNCTIONS {
        m = put_function(s, places, transfers, f, words, out, m);
    }
    m
}

// The table: the functions behind their number, and before them the length, which they tell, and the version. The length.
fn put_table(
    s: &[u8],
    places: &Places,
    transfers: &Transfers,
    words: &mut [u32],
    out: &mut [u8],
) -> u32
    ensures { PutsTable s.now places.now transfers.now words.old out.old result
        out.new }
{
    let first = puts::byte(out, Table::FUNCTIONS_AT, code::byte(s, Table::FUNCTIONS_AT));
    let end = put_functions(s, places, transfers, words, out, first);
    let length = (end % 4294967296) as u32;
    let k = puts::word(out, 0, length);
    puts::byte(out, k, Table::VERSION);
    length
}

// 25 of function f, if there is one.
fn reach(
    s: &[u8],
    places: &Places,
    transfers: &Transfers,
    f: usize,
    words: &mut [u32],
) -> Result<(), Refusal>
    ensures { ReachesOne s.now places.now transfers.now f words.old result }
{
    let Some(_) = places::function(places, f) else {
        return Ok(());
    };
    match infer::unreached(s, places, transfers, f, words) {
        None => Ok(()),
        Some(b) => Err(Refusal::Fault(No::UNREACHED, f, b as usize)),
    }
}

// 25: the lowest block that is not reached, of the lowest function with one.
fn reached(
    s: &[u8],
    places: &Places,
    transfers: &Transfers,
    words: &mut [u32],
) -> Result<(), Refusal>
    ensures { ReachesAll s.now places.now transfers.now words.old result }
{
    for f in 0..Layout::FUNCTIONS {
        reach(s, places, transfers, f, words)?;
    }
    Ok(())
}

// The check of the first n bytes.
fn judged(table: &[u8], n: usize) -> Result<(), Refusal>
    ensures { answer_of result ≡ check (take n table.now) }
{
    let mut places = places::none();
    verifier::check_placed(&table[..n.min(table.len())], &mut places)
}

// 26: the function of a fault, whichever the fault is; it has no block.
const NO_BLOCK: usize = 255;

fn impossible(why: Refusal) -> Refusal
    ensures { refusal_of result ≡ Model.impossible (refusal_of why) }
{
    match why {
        Refusal::Fault(_, f, _) => Refusal::Fault(No::IMPOSSIBLE, f, NO_BLOCK),
        Refusal::Plain(_) | Refusal::Byte(_) => why,
    }
}

// 25, then 26, or the length of the completed table, which is written into a buffer of zeros.
fn inferred(
    s: &[u8],
    places: &Places,
    transfers: &Transfers,
    words: &mut [u32],
    buffer: &mut [u8],
) -> Result<u32, Refusal>
    ensures { InfersAll s.now places.now transfers.now words.old buffer.old result
        buffer.new }
{
    reached(s, places, transfers, words)?;
    let length = put_table(s, places, transfers, words, buffer);
    match judged(buffer, length as usize) {
        Ok(()) => Ok(length),
        Err(why) => Err(impossible(why)),
    }
}

// A table that is given goes from the buffer to the output; a refusal leaves the output.
fn hand_over(r: Result<u32, Refusal>, buffer: &[u8], out: &mut [u8]) -> Result<u32, Refusal>
    ensures { HandsOver r buffer.now out.old result out.new }
{
    let length = r?;
    puts::bytes(out, 0, buffer);
    Ok(length)
}

// As many zeros as bytes are lent.
fn zeros() -> [u8; Lent::BYTES]
    ensures { result ≡ blank }
{
    [0; Lent::BYTES]
}

// What is inferred of a table that reads, and the output and the scratch as they are left.
fn finish(s: &[u8], places: &Places, out: &mut [u8], words: &mut [u32]) -> Result<u32, Refusal>
    requires { (length out.old ≡ output_bytes) × (scratch_words ≤ length words.old) }
    ensures { Finishes s.now places.now out.old words.old result out.new
        words.new }
{
    let mut transfers = transfers::none();
    transfers::find(s, places, &mut transfers);
    let mut buffer = zeros();
    let r = inferred(
        s,
        places,
        &transfers,
        &mut words[0..Lent::INFERRED],
        &mut buffer,
    );
    scopings::clear(&mut words[0..Lent::WORDS]);
    hand_over(r, &buffer, out)
}

// Completes a table of version 2: 1 to 3, 24, 25, 26, or its length.
pub fn complete(s: &[u8], out: &mut [u8], words: &mut [u32]) -> Result<u32, Refusal>
    ensures { Writes (Model.complete s.now out.old words.old) result out.new
        words.new }
{
    let mut places = places::none();
    table::read_brief(s, &mut places)?;
    if words.len() < Lent::WORDS {
        return Err(Refusal::Plain(No::LENT));
    }
    if out.len() != Lent::BYTES {
        return Err(Refusal::Plain(No::LENT));
    }
    finish(s, &places, out, words)
}
