// One choice, in place, of a pool that is known to be valid: whether a step can be made is known before anything is written. Values
// that are passed on stand in one buffer.
#![tactic(auto)]

ghost use Rattle.std.specs.Prelude.{◌≡◌, ◌+◌, ◌<◌, ◌≤◌, length, IfSome};
ghost use Rattle.model.specs.Pool.{frame_words, most_threads, pool_words};
ghost use Rattle.pool.specs.Edits.{threads_in};
ghost use Rattle.pool.specs.InPlace.{newest_at};
ghost use Rattle.steps.specs.Choice.{Ends, Brings, Calls, Returns, Joins, Steps, Tries, FindsStepper, FindsFirst, FindsOldest, Promotes};
ghost use Rattle.steps.specs.Choice.{Chooses};
ghost use Rattle.steps.specs.Writes.{Sets, Arrives, Opens, Closes, Shuts, Pushes, Pops, Unites, Spawned};

use answers::{No, Rule};
use eval::Values;
use places::Places;
use pool::{Pool, Words};
use rules::{Action, Entry};

// A frame with an unpromoted call, by its place, and the call.
#[derive(Clone, Copy, PartialEq, Eq, Debug)]
struct Unpromoted {
    at: usize,
    call: u8,
}

// How many values thread i gives, in a buffer, if it is ended: its one frame returns.
fn returned(
    s: &[u8],
    places: &Places,
    ws: &Words,
    i: usize,
    out: &mut [i32; Values::MOST],
) -> Option<u8>
    requires { i < most_threads }
    ensures { Brings s.now places.now ws.now i out.old result out.new }
{
    if pool::frame_count(ws, i) != 1 {
        return None;
    }
    rules::giving(s, places, ws, Pool::frame_start(i, 0), out)
}

// The values of thread i, if it is ended.
pub fn ended(s: &[u8], places: &Places, ws: &Words, i: usize) -> Option<Values>
    requires { i < most_threads }
    ensures { Ends s.now places.now ws.now i result }
{
    let mut at = [0i32; Values::MOST];
    let count = returned(s, places, ws, i, &mut at)?;
    Some(Values { count, at })
}

// A call: 18 where all frames are in use.
fn calling(ws: &Words, i: usize) -> Result<(), No>
    requires { i < most_threads }
    ensures { Calls ws.now i result }
{
    if pool::frame_count(ws, i) < Pool::FRAMES {
        Ok(())
    } else {
        Err(No::FRAMES)
    }
}

// A return of n values, by the newest frame, at k: to the frame below, at the block where it waits. With no frame below the thread
// is ended: 16.
fn returning(s: &[u8], places: &Places, ws: &Words, i: usize, k: usize, n: u8) -> Result<Entry, No>
    requires { (i < most_threads) × (k ≡ newest_at ws.now i) }
    ensures { Returns s.now places.now ws.now i n result }
{
    if pool::frame_count(ws, i) < 2 {
        return Err(No::ENDED);
    }
    let l = k - Pool::FRAME_WORDS;
    rules::enter(s, places, pool::function(ws, l), pool::block(ws, l), n)
}

// A promoted spoin, with block c behind it: the newest child stands directly behind its parent. 17 where it is not ended.
fn joining(
    s: &[u8],
    places: &Places,
    ws: &Words,
    i: usize,
    f: u8,
    c: u8,
    out: &mut [i32; Values::MOST],
) -> Result<Entry, No>
    requires { i < most_threads }
    ensures { Joins s.now places.now ws.now i f c out.old result out.new }
{
    let m = pool::thread_count(ws);
    if m <= i + 1 {
        return Err(No::WAITS);
    }
    let n = returned(s, places, ws, i + 1, out).ok_or(No::WAITS)?;
    rules::enter(s, places, f, c, n)
}

// The frame at k has a temporary bound, and is at its next statement.
fn set(ws: &mut [i32], k: usize, x: u8, v: i32)
    requires { k + frame_words ≤ length ws.old }
    ensures { Sets ws.old k x v ws.new }
{
    pool::advance(ws, k);
    eval::bind(ws, k, x, v);
}

// The frame at k is at the head of a block that is entered, with values of the buffer for the parameters.
fn arrive(s: &[u8], ws: &mut [i32], k: usize, entry: Entry, out: &[i32; Values::MOST])
    requires { k + frame_words ≤ length ws.old }
    ensures { Arrives s.now ws.old k entry out.now ws.new }
{
    pool::jump(ws, k, entry.block, 0);
    eval::bind_all(s, entry.parameters, ws, k, out);
}

// The frame at k has one more call open, and is at the head of block b.
fn open_one(ws: &mut [i32], k: usize, call: u8, b: u8)
    requires { k + frame_words ≤ length ws.old }
    ensures { Opens ws.old k call b ws.new }
{
    let n = pool::opened(ws, k);
    if (n as usize) < Pool::CALLS {
        pool::open_call(ws, k, n, call);
        pool::jump(ws, k, b, 0);
    }
}

// The frame at k has its last call closed, and so many of its promoted ones joined.
fn close_last(ws: &mut [i32], k: usize, joined: u8)
    requires { k + frame_words ≤ length ws.old }
    ensures { Closes ws.old k joined ws.new }
{
    let n = pool::opened(ws, k);
    let p = pool::promoted(ws, k);
    if 0 < n {
        if joined <= p {
            pool::close_call(ws, k, n - 1, p - joined);
        }
    }
}

// The frame at k has its last call closed, which is not promoted, and is at the head of block b.
fn shut(ws: &mut [i32], k: usize, b: u8)
    requires { k + frame_words ≤ length ws.old }
    ensures { Shuts ws.old k b ws.new }
{
    close_last(ws, k, 0);
    pool::jump(ws, k, b, 0);
}

// The newest frame of thread i, at k, waits at block b for function g, with n values of the buffer.
fn push(ws: &mut Words, i: usize, k: usize, g: u8, n: u8, b: u8, out: &[i32; Values::MOST])
    requires { (i < most_threads) × (k ≡ newest_at ws.old i) }
    ensures { Pushes ws.old i g n b out.now ws.new }
{
    if pool::frame_count(ws, i) < Pool::FRAMES {
        pool::push_frame(ws, i);
        eval::begin(ws, k + Pool::FRAME_WORDS, g, n, out);
        pool::jump(ws, k, b, 0);
    }
}

// The newest frame of thread i, at k, goes, and the one below arrives at a block.
fn pop(s: &[u8], ws: &mut Words, i: usize, k: usize, entry: Entry, out: &[i32; Values::MOST])
    requires { (i < most_threads) × (k ≡ newest_at ws.old i) }
    ensures { Pops s.now ws.old i entry out.now ws.new }
{
    if 1 < pool::frame_count(ws, i) {
        pool::pop_frame(ws, i, k);
        arrive(s, ws, k - Pool::FRAME_WORDS, entry, out);
    }
}

// The thread directly behind thread i goes, and the newest frame, at k, arrives at a block with its last call closed.
fn unite(s: &[u8], ws: &mut Words, i: usize, k: usize, entry: Entry, out: &[i32; Values::MOST])
    requires { (i < most_threads) × (k ≡ newest_at ws.old i) }
    ensures { Unites s.now ws.old i entry out.now ws.new }
{
    if i + 1 < pool::thread_count(ws) {
        pool::remove_thread(ws, i);
        close_last(ws, k, 1);
        arrive(s, ws, k, entry, out);
    }
}

// A step of thread i, by what its newest frame does next.
fn step(s: &[u8], places: &Places, ws: &mut Words, i: usize) -> Result<Rule, No>
    requires { i < most_threads }
    ensures { Steps s.now places.now ws.old i result ws.new }
{
    let mut out = [0i32; Values::MOST];
    let k = pool::newest_start(ws, i);
    match rules::act(s, places, ws, k, &mut out)? {
        Action::Bind(x, v) => {
            set(ws, k, x, v);
            Ok(Rule::STMT)
        }
        Action::Enter(rule, entry) => {
            arrive(s, ws, k, entry, &out);
            Ok(rule)
        }
        Action::Open(call, b) => {
            open_one(ws, k, call, b);
            Ok(Rule::SPORK)
        }
        Action::Close(b) => {
            shut(ws, k, b);
            Ok(Rule::UNPR)
        }
        Action::Push(g, n, b) => {
            calling(ws, i)?;
            push(ws, i, k, g, n, b, &out);
            Ok(Rule::CALL)
        }
        Action::Pop(n) => {
            let entry = returning(s, places, ws, i, k, n)?;
            pop(s, ws, i, k, entry, &out);
            Ok(Rule::RETURN)
        }
        Action::Join(c) => {
            let f = pool::function(ws, k);
            let entry = joining(s, places, ws, i, f, c, &mut out)?;
            unite(s, ws, i, k, entry, &out);
            Ok(Rule::PROM)
        }
    }
}

// The oldest unpromoted call of thread i over all its frames.
fn oldest(ws: &Words, i: usize) -> Option<Unpromoted>
    requires { i < most_threads }
    ensures within { IfSome result (λ o. o.at + frame_words ≤ pool_words) }
    ensures finds { FindsOldest ws.now i result }
{
    let n = pool::frame_count(ws, i);
    for j in 0..n {
        let k = Pool::frame_start(i, j);
        let p = pool::promoted(ws, k);
        if p < pool::opened(ws, k) {
            return Some(Unpromoted {
                at: k,
                call: pool::call(ws, k, p),
            });
        }
    }
    None
}

// A thread of function g, with n values of the buffer, stands directly behind thread i, and a call of its frame at k is promoted.
fn spawn(ws: &mut Words, i: usize, k: usize, g: u8, n: u8, out: &[i32; Values::MOST])
    requires { (i < threads_in ws.old) × (threads_in ws.old < most_threads) × (k + frame_words ≤ pool_words) }
    ensures { Spawned ws.old i k g n out.now ws.new }
{
    pool::add_thread(ws, i);
    eval::begin(ws, Pool::frame_start(i + 1, 0), g, n, out);
    pool::promote_call(ws, k);
}

// The child stands directly behind its parent. 20 where nothing is unpromoted, 21 where all threads are in use, then 19.
fn promote(s: &[u8], places: &Places, ws: &mut Words, i: usize) -> Result<Rule, No>
    requires { i < threads_in ws.old }
    ensures { Promotes s.now places.now ws.old i result ws.new }
{
    let o = oldest(ws, i).ok_or(No::PROMOTED)?;
    if Pool::THREADS <= pool::thread_count(ws) {
        return Err(No::THREADS);
    }
    let mut out = [0i32; Values::MOST];
    let Ok((g, n)) = rules::child(s, places, ws, o.at, o.call, &mut out) else {
        return Err(No::STUCK);
    };
    spawn(ws, i, o.at, g, n, &out);
    Ok(Rule::PROMOTE)
}

// One choice: 14 for a kind above 1, 15 for a thread that is not there. The kind is a number, since hosts put any.
pub fn choice(s: &[u8], places: &Places, ws: &mut Words, kind: u32, thread: u32) -> Result<Rule, No>
    ensures { Chooses s.now places.now ws.old kind thread result ws.new }
{
    if 1 < kind {
        return Err(No::KIND);
    }
    let i = thread as usize;
    if pool::thread_count(ws) <= i {
        return Err(No::THREAD);
    }
    if kind == 0 {
        step(s, places, ws, i)
    } else {
        promote(s, places, ws, i)
    }
}

// Can thread i step? If it can it has stepped; if not the words are left as they are.
fn goes(s: &[u8], places: &Places, ws: &mut Words, i: u32) -> bool
    ensures { Tries s.now places.now ws.old i result ws.new }
{
    choice(s, places, ws, 0, i).is_ok()
}

// The first thread that can step, which then has stepped.
fn first(s: &[u8], places: &Places, ws: &mut Words) -> Option<usize>
    ensures { FindsFirst s.now places.now ws.old result ws.new }
{
    let n = pool::thread_count(ws);
    for i in 0..n {
        if goes(s, places, ws, i as u32) {
            return Some(i);
        }
    }
    None
}

// The first thread that can step. It is tried on a copy, so that a choice is the one place where a step is worked.
pub fn can_step(s: &[u8], places: &Places, ws: &Words) -> Option<usize>
    ensures { FindsStepper s.now places.now ws.now result }
{
    let mut copy = *ws;
    first(s, places, &mut copy)
}
