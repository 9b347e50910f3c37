// The tidy table: an accepted table written afresh under the numbers that `kept` gives. Each function puts its bytes at a place of the
// output and gives the place behind them; what does not fit is counted and not written, so that the same functions tell the length.
#![tactic(auto)]

ghost use Rattle.std.specs.Prelude.{map};
ghost use Rattle.answers.specs.Answers.{Writes};
ghost use Rattle.code.specs.Code.{run};
ghost use Rattle.puts.specs.Puts.{Puts};
ghost use Rattle.numbering.specs.Tidy as Model;
ghost use Rattle.kept.specs.Kept.{number_in};
ghost use Rattle.tidy.specs.Writes.{renamed_name, renamed_two, renamed_applied, renamed_if, renamed_call};
ghost use Rattle.tidy.specs.Writes.{names_by, PutsTransfer, PutsBlock};
ghost use Rattle.tidy.specs.Tables.{PutsIn, PutsEach, PutsList, counts_of, spawn_of, each_spawn, block_of, each_block};
ghost use Rattle.tidy.specs.Tables.{PutsFunction, PutsProgram, Fits, PutsTable};

use answers::{No, Refusal};
use code::{Kind, Table};
use kept::Kept;
use places::Places;
use transfers::Transfers;

// The new numbers: of the functions, and of the blocks and the spawn calls of one of them.
#[derive(Clone, Copy, PartialEq, Eq, Debug)]
struct Numbering {
    functions: Kept,
    blocks: Kept,
    spawns: Kept,
}

// The new number of the name at an offset.
fn put_name(s: &[u8], at: usize, list: &Kept, out: &mut [u8], k: usize) -> usize
    ensures { Puts out.old k (renamed_name (number_in list.now) s.now at) result out.new }
{
    puts::byte(out, k, list.number(code::byte(s, at)))
}

// Those of two names, each of which has its own list.
fn put_two(s: &[u8], at: usize, first: &Kept, second: &Kept, out: &mut [u8], k: usize) -> usize
    ensures { Puts out.old k
        (renamed_two (number_in first.now) (number_in second.now) s.now at) result out.new }
{
    let m = put_name(s, at, first, out, k);
    put_name(s, code::after(at, 1), second, out, m)
}

// Those of so many names.
fn put_names(s: &[u8], at: usize, count: u8, list: &Kept, out: &mut [u8], k: usize) -> usize
    ensures { Puts out.old k
        (map (number_in list.now) (run s.now at count)) result out.new }
{
    let mut m = k;
    let mut next = at;
    'names: for _ in 0..count {
        m = put_name(s, next, list, out, m);
        next = code::after(next, 1);
    }
    m
}

// A name, and the argument list behind it: a spawn call, and what a goto and a call begin with.
fn put_applied(s: &[u8], at: usize, list: &Kept, out: &mut [u8], k: usize) -> usize
    ensures { Puts out.old k
        (renamed_applied (number_in list.now) s.now at) result out.new }
{
    let m = put_name(s, at, list, out, k);
    puts::stretch(out, m, s, code::after(at, 1), code::spawn_end(s, at))
}

// What follows the kind of an if: the expression, and two blocks.
fn put_if(s: &[u8], at: usize, blocks: &Kept, out: &mut [u8], k: usize) -> usize
    ensures { Puts out.old k (renamed_if (number_in blocks.now) s.now at) result out.new }
{
    let end = code::expression_end(s, at);
    let m = puts::stretch(out, k, s, at, end);
    put_two(s, end, blocks, blocks, out, m)
}

// What follows the kind of a call: the function, the arguments, and the block to return to.
fn put_call(s: &[u8], at: usize, functions: &Kept, blocks: &Kept, out: &mut [u8], k: usize) -> usize
    ensures { Puts out.old k
        (renamed_call (number_in functions.now) (number_in blocks.now) s.now at) result out.new }
{
    let m = put_applied(s, at, functions, out, k);
    put_name(s, code::spawn_end(s, at), blocks, out, m)
}

// The transfer at an offset.
fn put_transfer(s: &[u8], at: usize, numbers: &Numbering, out: &mut [u8], k: usize) -> usize
    ensures { PutsTransfer s.now at (names_by numbers.now)
        out.old k result out.new }
{
    let first = code::after(at, 1);
    let m = puts::byte(out, k, code::byte(s, at));
    match code::kind_at(s, at) {
        Kind::Goto => put_applied(s, first, &numbers.blocks, out, m),
        Kind::If => put_if(s, first, &numbers.blocks, out, m),
        Kind::Call => put_call(s, first, &numbers.functions, &numbers.blocks, out, m),
        Kind::Return => puts::stretch(out, m, s, first, code::list_end(s, first)),
        Kind::Spork => put_two(s, first, &numbers.blocks, &numbers.spawns, out, m),
        Kind::Spoin => put_two(s, first, &numbers.blocks, &numbers.blocks, out, m),
    }
}

// The block at an offset: parameters, scope and the number of names in the nesting; the nesting; the statements; the transfer.
fn put_block(s: &[u8], at: usize, numbers: &Numbering, out: &mut [u8], k: usize) -> usize
    ensures { PutsBlock s.now at (names_by numbers.now)
        out.old k result out.new }
{
    let h = code::head(s, at);
    let transfer = transfers::behind(s, h.behind);
    let m = puts::stretch(out, k, s, at, h.nesting);
    let n = put_names(s, h.nesting, h.depth, &numbers.spawns, out, m);
    let l = puts::stretch(out, n, s, h.behind, transfer);
    put_transfer(s, transfer, numbers, out, l)
}

// The numbers of parameters and of returned values of function f, and its numbers of kept blocks and spawn calls.
fn put_counts(
    s: &[u8],
    places: &Places,
    f: usize,
    blocks: u8,
    spawns: u8,
    out: &mut [u8],
    k: usize,
) -> usize
    ensures { PutsIn s.now places.now f (counts_of blocks spawns) out.old k result out.new }
{
    let Some(at) = places::function(places, f) else {
        return k;
    };
    let m = puts::stretch(out, k, s, at, code::after(at, 2));
    let n = puts::byte(out, m, blocks);
    puts::byte(out, n, spawns)
}

// Spawn call `call` of function f.
fn put_spawn(
    s: &[u8],
    places: &Places,
    f: usize,
    numbers: &Numbering,
    call: u8,
    out: &mut [u8],
    k: usize,
) -> usize
    ensures { PutsIn s.now places.now f (spawn_of numbers.now call) out.old k result
        out.new }
{
    match places::spawn(places, f, call as usize) {
        None => k,
        Some(at) => put_applied(s, at, &numbers.functions, out, k),
    }
}

// What `put` puts for each number of a list.
fn put_each<F: Fn(u8, &mut [u8], usize) -> usize>(
    list: &Kept,
    out: &mut [u8],
    k: usize,
    put: F,
) -> usize
    requires { F.IsAlwaysCallable put }
    ensures { PutsList (F.post put) list.now out.old k result out.new }
{
    let mut m = k;
    for i in 0..list.count {
        m = put(code::byte(&list.order, i as usize), out, m);
    }
    m
}

// The kept spawn calls of function f.
fn put_spawns(
    s: &[u8],
    places: &Places,
    f: usize,
    numbers: &Numbering,
    out: &mut [u8],
    k: usize,
) -> usize
    ensures { PutsEach s.now places.now f numbers.now.spawns (each_spawn numbers.now) out.old k result out.new }
{
    put_each(
        &numbers.spawns,
        out,
        k,
        |call: u8, out: &mut [u8], m: usize| put_spawn(s, places, f, numbers, call, out, m),
    )
}

// Block b of function f.
fn put_block_of(
    s: &[u8],
    places: &Places,
    f: usize,
    numbers: &Numbering,
    b: u8,
    out: &mut [u8],
    k: usize,
) -> usize
    ensures { PutsIn s.now places.now f
        (block_of numbers.now b)
        out.old k result out.new }
{
    match places::block(places, f, b as usize) {
        None => k,
        Some(at) => put_block(s, at, numbers, out, k),
    }
}

// The kept blocks of function f.
fn put_blocks(
    s: &[u8],
    places: &Places,
    f: usize,
    numbers: &Numbering,
    out: &mut [u8],
    k: usize,
) -> usize
    ensures { PutsEach s.now places.now f numbers.now.blocks (each_block numbers.now) out.old k result out.new }
{
    put_each(
        &numbers.blocks,
        out,
        k,
        |b: u8, out: &mut [u8], m: usize| put_block_of(s, places, f, numbers, b, out, m),
    )
}

// Function f: its counts, its kept spawn calls, its kept blocks.
fn put_function(
    s: &[u8],
    places: &Places,
    transfers: &Transfers,
    functions: &Kept,
    f: usize,
    out: &mut [u8],
    k: usize,
) -> usize
    ensures { PutsFunction s.now places.now transfers.now functions.now f out.old k result
        out.new }
{
    let blocks = kept::blocks(s, transfers, f);
    let spawns = kept::spawns(s, places, transfers, f, &blocks);
    let numbers = Numbering {
        functions: *functions,
        blocks,
        spawns,
    };
    let m = put_counts(s, places, f, blocks.count, spawns.count, out, k);
    let n = put_spawns(s, places, f, &numbers, out, m);
    put_blocks(s, places, f, &numbers, out, n)
}

// The kept functions, behind their number.
fn put_functions(
    s: &[u8],
    places: &Places,
    transfers: &Transfers,
    functions: &Kept,
    out: &mut [u8],
    k: usize,
) -> usize
    ensures { PutsProgram s.now places.now transfers.now functions.now out.old k result out.new }
{
    let m = puts::byte(out, k, functions.count);
    put_each(
        functions,
        out,
        m,
        |f: u8, out: &mut [u8], m: usize| put_function(
            s, places, transfers, functions, f as usize, out, m,
        ),
    )
}

// Whether the tidy table has room in so many bytes: it is never longer than the table, and else its functions are put where there is
// room for one byte, which tells where they end.
fn fits(s: &[u8], places: &Places, transfers: &Transfers, functions: &Kept, room: usize) -> bool
    ensures { Fits s.now places.now transfers.now functions.now room result }
{
    if s.len() <= room {
        return true;
    }
    let mut nothing = [0u8; 1];
    let end = put_functions(
        s,
        places,
        transfers,
        functions,
        &mut nothing,
        Table::FUNCTIONS_AT,
    );
    end <= room
}

// The table, at the start of an output that has room for it: the functions, and before them the length, which they tell, and the
// version. The length.
fn put_table(
    s: &[u8],
    places: &Places,
    transfers: &Transfers,
    functions: &Kept,
    out: &mut [u8],
) -> u32
    ensures { PutsTable s.now places.now transfers.now functions.now out.old result out.new }
{
    let end = put_functions(s, places, transfers, functions, out, Table::FUNCTIONS_AT);
    let length = (end % 4294967296) as u32;
    let k = puts::word(out, 0, length);
    puts::byte(out, k, Table::VERSION);
    length
}

// Writes the tidy table of a table: 1 to 11, 23, or its length.
pub fn tidy(s: &[u8], out: &mut [u8]) -> Result<u32, Refusal>
    ensures { Writes (Model.tidy s.now out.old) result out.new }
{
    let mut places = places::none();
    verifier::check_placed(s, &mut places)?;
    let mut transfers = transfers::none();
    transfers::find(s, &places, &mut transfers);
    let functions = kept::functions(s, &places, &transfers);
    if !fits(s, &places, &transfers, &functions, out.len()) {
        return Err(Refusal::Plain(No::ROOM));
    }
    Ok(put_table(s, &places, &transfers, &functions, out))
}
