// The two listings of a pool, into lent bytes: a thread's lines are its own line and then those of its children, one level deeper. Each
// function is given the place where its text begins, and gives the place behind it; what does not fit is counted and not written, so that
// the same functions tell the length.
#![tactic(auto)]

ghost use Rattle.std.specs.Prelude.{◌+◌, ◌≤◌, ◌<◌, ◌≡◌, cond, [], ◌++◌, length};
ghost use Rattle.model.specs.Sets.{has};
ghost use Rattle.model.specs.Text.{part, signed_part};
ghost use Rattle.model.specs.Pool.{most_threads, temporaries, frame_words};
ghost use Rattle.answers.specs.Answers.{Writes};
ghost use Rattle.pool.specs.InPlace.{frame_at};
ghost use Rattle.puts.specs.Puts.{Puts};
ghost use Rattle.views.specs.Lines.{indent, position, bindings, values};
ghost use Rattle.views.specs.Listing as Model;
ghost use Rattle.listing.specs.Shown.{viewer_of, CountsChildren, PutsStanding, PutsLine, ListsThread, ListsChildren};
ghost use Rattle.listing.specs.Shown.{PutsListing, Fits};

use answers::{No, Refusal};
use pool::{Pool, Words};

// Who is shown a listing: the operator, who sees no values, or the customer.
#[derive(Clone, Copy, PartialEq, Eq, Debug)]
pub enum Viewer {
    Operator,
    Customer,
}

// The place behind lines that were put, and the number of the first thread that is not listed yet.
#[derive(Clone, Copy, PartialEq, Eq, Debug)]
pub struct Listed {
    pub at: usize,
    pub next: usize,
}

// A listing's length: never above this.
#[derive(Clone, Copy)]
pub struct Listing {}

impl Listing {
    pub const MOST: usize = 4096;
}

// One space for each level.
fn indent(out: &mut [u8], at: usize, depth: usize) -> usize
    ensures { Puts out.old at (indent depth) result out.new }
{
    let mut k = at;
    'levels: for _ in 0..depth {
        k = puts::byte(out, k, b' ');
    }
    k
}

// The numbers of the frame at a place: function, block, statements done, open and promoted calls.
fn position(out: &mut [u8], at: usize, ws: &[i32], frame: usize) -> usize
    requires { frame + frame_words ≤ length ws.now }
    ensures { Puts out.old at (position (frame_at ws.now frame)) result out.new }
{
    let k = text::part(out, at, pool::function(ws, frame) as u64);
    let k = text::part(out, k, pool::block(ws, frame) as u64);
    let k = text::part(out, k, pool::done(ws, frame) as u64);
    let k = text::part(out, k, pool::opened(ws, frame) as u64);
    text::part(out, k, pool::promoted(ws, frame) as u64)
}

// The seven numbers of a thread: its own, how many frames it has, and those of its newest frame.
fn standing(out: &mut [u8], at: usize, ws: &Words, thread: usize) -> usize
    requires { thread < most_threads }
    ensures { PutsStanding ws.now thread out.old at result out.new }
{
    let k = text::decimal(out, at, thread as u64);
    let k = text::part(out, k, pool::frame_count(ws, thread) as u64);
    position(out, k, ws, pool::newest_start(ws, thread))
}

// Temporary x with its value, where it is bound.
fn binding(out: &mut [u8], at: usize, bound: u16, x: u8, value: i32) -> usize
    requires { x < temporaries }
    ensures { Puts out.old at (cond (has bound x) (part x ++ signed_part value) []) result out.new }
{
    if (bound >> x) % 2 == 1 {
        let k = text::part(out, at, x as u64);
        return text::signed_part(out, k, value);
    }
    at
}

// The bound temporaries of the frame at a place, ascending.
fn bindings(out: &mut [u8], at: usize, ws: &[i32], frame: usize) -> usize
    requires { frame + frame_words ≤ length ws.now }
    ensures { Puts out.old at
        (bindings (frame_at ws.now frame).bound 0 (frame_at ws.now frame).values) result out.new }
{
    let bound = pool::bound(ws, frame);
    let mut k = at;
    for x in 0..Pool::TEMPORARIES as u8 {
        k = binding(out, k, bound, x, pool::value(ws, frame, x));
    }
    k
}

// The values that a viewer is shown of the frame at a place.
fn values(who: Viewer, out: &mut [u8], at: usize, ws: &[i32], frame: usize) -> usize
    requires { frame + frame_words ≤ length ws.now }
    ensures { Puts out.old at (values (viewer_of who) (frame_at ws.now frame)) result out.new }
{
    match who {
        Viewer::Operator => at,
        Viewer::Customer => bindings(out, at, ws, frame),
    }
}

// A thread's line.
fn line(who: Viewer, out: &mut [u8], at: usize, ws: &Words, thread: usize, depth: usize) -> usize
    requires { thread < most_threads }
    ensures { PutsLine who ws.now thread depth out.old at result out.new }
{
    let k = indent(out, at, depth);
    let k = standing(out, k, ws, thread);
    let k = values(who, out, k, ws, pool::newest_start(ws, thread));
    text::line(out, k)
}

// How many children a thread has: its promoted calls, over all frames.
fn children(ws: &Words, thread: usize) -> usize
    requires { thread < most_threads }
    ensures { CountsChildren ws.now thread result }
{
    let mut sum = 0;
    for frame in 0..pool::frame_count(ws, thread) {
        sum += pool::promoted(ws, Pool::frame_start(thread, frame)) as usize;
    }
    sum
}

// A thread's lines: its own, and then those of its children, one level deeper.
#[cycle(child_lines_thread_lines)]
fn thread_lines(
    who: Viewer,
    out: &mut [u8],
    at: usize,
    ws: &Words,
    thread: usize,
    depth: usize,
) -> Listed
    requires { (thread < most_threads) × (depth ≤ thread) }
    ensures next { thread < result.next }
    ensures is { ListsThread who ws.now thread depth out.old at result out.new }
{
    let k = line(who, out, at, ws, thread, depth);
    child_lines(who, out, k, ws, thread + 1, children(ws, thread), depth + 1)
}

// Those of so many children, newest first: the first is the thread that comes next.
#[cycle(child_lines_thread_lines)]
fn child_lines(
    who: Viewer,
    out: &mut [u8],
    at: usize,
    ws: &Words,
    next: usize,
    count: usize,
    depth: usize,
) -> Listed
    requires { depth ≤ next }
    ensures next { next ≤ result.next }
    ensures is { ListsChildren who ws.now next count depth out.old at result out.new }
{
    if count == 0 {
        return Listed { at, next };
    }
    if pool::thread_count(ws) <= next {
        return Listed { at, next };
    }
    let l = thread_lines(who, out, at, ws, next, depth);
    child_lines(who, out, l.at, ws, l.next, count - 1, depth)
}

// The listing, from the start on: thread 0's lines.
fn lines(who: Viewer, out: &mut [u8], ws: &Words) -> usize
    ensures { PutsListing who ws.now out.old result out.new }
{
    let l = thread_lines(who, out, 0, ws, 0, 0);
    l.at
}

// Whether the listing has room in so many bytes: in as many as listings have at most it has, and else it is put where there is room for
// one byte, which tells where it ends.
fn fits(who: Viewer, ws: &Words, room: usize) -> bool
    ensures { Fits who ws.now room result }
{
    if Listing::MOST <= room {
        return true;
    }
    let mut nothing = [0u8; 1];
    lines(who, &mut nothing, ws) <= room
}

// Writes a viewer's listing: 1 to 3, 12, 13, 28, or its length. Table and pool are only read.
fn list(who: Viewer, table: &[u8], pool: &[i32], out: &mut [u8]) -> Result<u32, Refusal>
    ensures { Writes (Model.list (viewer_of who) table.now pool.now out.old) result out.new }
{
    let mut places = places::none();
    lend::pool(table, &mut places, pool)?;
    let ws: &Words = pool.as_array().unwrap();
    if !fits(who, ws, out.len()) {
        return Err(Refusal::Plain(No::LISTING));
    }
    Ok(lines(who, out, ws) as u32)
}

// The operator's listing, and the customer's.
pub fn operator(table: &[u8], pool: &[i32], out: &mut [u8]) -> Result<u32, Refusal>
    ensures { Writes (Model.operator table.now pool.now out.old) result out.new }
{
    list(Viewer::Operator, table, pool, out)
}

pub fn customer(table: &[u8], pool: &[i32], out: &mut [u8]) -> Result<u32, Refusal>
    ensures { Writes (Model.customer table.now pool.now out.old) result out.new }
{
    list(Viewer::Customer, table, pool, out)
}
