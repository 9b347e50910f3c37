// The pool's words, worked in place: their layout, the empty frame by value, frames where they stand, and the operations on threads
// and frames.
#![tactic(auto)]

ghost use Rattle.std.specs.Prelude.{[], ◌≡◌, ◌+◌, ◌*◌, ◌<◌, ◌≤◌, ◌%◌, min, pos, length, get_or, set};
ghost use Rattle.std.proofs.Math.Option.{some};
ghost use Rattle.std.proofs.Math.ListN.{get_elem?};
ghost use Rattle.model.specs.Pool.{begin, most_calls, most_frames, most_threads, temporaries, frame_words, pool_words, thread_start, start_of};
ghost use Rattle.model.specs.Pool.{most_work, most_tokens, words_of, started};
ghost use Rattle.pool.specs.Held.{bits_at};
ghost use Rattle.pool.specs.Edits.{threads_in, frames_in, work_in, tokens_in, Pushed, Popped, Added, Removed, Endowed};
ghost use Rattle.pool.specs.InPlace.{frame_at, newest_at, Named, Jumped, Advanced, Bound, Opened, Closed, Promoted};
ghost use Rattle.pool.specs.Frame.{model_of};

// The pool's own record: its limits, where each word stands, and the empty frame.
#[derive(Clone, Copy, PartialEq, Eq, Debug)]
pub struct Pool;

impl Pool {
    pub const THREADS: usize = 8;

    pub const FRAMES: usize = 8;

    pub const CALLS: usize = 4;

    pub const TEMPORARIES: usize = 16;

    pub const WORK: usize = 65534;

    pub const TOKENS: usize = 2000000000;

    // A frame's words.
    pub const FUNCTION_AT: usize = 0;

    pub const BLOCK_AT: usize = 1;

    pub const DONE_AT: usize = 2;

    pub const BOUND_AT: usize = 3;

    pub const OPENED_AT: usize = 4;

    pub const PROMOTED_AT: usize = 5;

    pub const CALLS_AT: usize = 6;

    pub const VALUES_AT: usize = Pool::CALLS_AT + Pool::CALLS;

    pub const FRAME_WORDS: usize = Pool::VALUES_AT + Pool::TEMPORARIES;

    // A thread's words.
    pub const FRAME_COUNT_AT: usize = 0;

    pub const WORK_AT: usize = 1;

    pub const TOKENS_AT: usize = 2;

    pub const FRAMES_AT: usize = 3;

    pub const THREAD_WORDS: usize = Pool::FRAMES_AT + Pool::FRAMES * Pool::FRAME_WORDS;

    // A pool's words.
    pub const THREAD_COUNT_AT: usize = 0;

    pub const THREADS_AT: usize = 1;

    pub const WORDS: usize = Pool::THREADS_AT + Pool::THREADS * Pool::THREAD_WORDS;

    // Where a thread begins, and a frame of it, oldest first.
    fn thread_start(thread: usize) -> usize
        requires { thread < most_threads }
        ensures { result ≡ thread_start thread }
    {
        Pool::THREADS_AT + Pool::THREAD_WORDS * thread
    }

    pub fn frame_start(thread: usize, frame: usize) -> usize
        requires { (thread < most_threads) × (frame < most_frames) }
        ensures { result ≡ start_of thread frame }
    {
        Pool::thread_start(thread) + Pool::FRAMES_AT + Pool::FRAME_WORDS * frame
    }

    pub fn empty_frame() -> Frame
        ensures { model_of result ≡ begin 0 [] }
    {
        Frame {
            function: 0,
            block: 0,
            done: 0,
            bound: 0,
            opened: 0,
            promoted: 0,
            calls: [0; Pool::CALLS],
            values: [0; Pool::TEMPORARIES],
        }
    }
}

// A pool's words.
pub type Words = [i32; Pool::WORDS];

// A frame by value, as the empty one is. The first `opened` of `calls` are the open spawn calls, oldest first: an array and its count,
// since nothing is on the heap.
#[derive(Clone, Copy, PartialEq, Eq, Debug)]
pub struct Frame {
    pub function: u8,
    pub block: u8,
    pub done: u8,
    pub bound: u16,
    pub opened: u8,
    pub promoted: u8,
    pub calls: [u8; Pool::CALLS],
    pub values: [i32; Pool::TEMPORARIES],
}

// The bits of the word at a place, and the low 8 and 16 of them.
fn bits_at(ws: &[i32], at: usize) -> u32
    requires { at < length ws.now }
    ensures { result ≡ bits_at ws.now at }
{
    words::bits(ws[at])
}

fn byte_at(ws: &[i32], at: usize) -> u8
    requires { at < length ws.now }
    ensures { result ≡ bits_at ws.now at % 256 }
{
    (bits_at(ws, at) % 256) as u8
}

fn half_at(ws: &[i32], at: usize) -> u16
    requires { at < length ws.now }
    ensures { result ≡ bits_at ws.now at % 65536 }
{
    (bits_at(ws, at) % 65536) as u16
}

// The frame at a place, read in place: its numbers, its spawn calls, its values.
pub fn function(ws: &[i32], at: usize) -> u8
    requires { at + frame_words ≤ length ws.now }
    ensures { result ≡ (frame_at ws.now at).function }
{
    byte_at(ws, at + Pool::FUNCTION_AT)
}

pub fn block(ws: &[i32], at: usize) -> u8
    requires { at + frame_words ≤ length ws.now }
    ensures { result ≡ (frame_at ws.now at).block }
{
    byte_at(ws, at + Pool::BLOCK_AT)
}

pub fn done(ws: &[i32], at: usize) -> u8
    requires { at + frame_words ≤ length ws.now }
    ensures { result ≡ (frame_at ws.now at).done }
{
    byte_at(ws, at + Pool::DONE_AT)
}

pub fn bound(ws: &[i32], at: usize) -> u16
    requires { at + frame_words ≤ length ws.now }
    ensures { result ≡ (frame_at ws.now at).bound }
{
    half_at(ws, at + Pool::BOUND_AT)
}

// How many calls are open: 4 at most.
pub fn opened(ws: &[i32], at: usize) -> u8
    requires { at + frame_words ≤ length ws.now }
    ensures { result ≡ length (frame_at ws.now at).calls }
{
    byte_at(ws, at + Pool::OPENED_AT).min(Pool::CALLS as u8)
}

pub fn promoted(ws: &[i32], at: usize) -> u8
    requires { at + frame_words ≤ length ws.now }
    ensures { result ≡ (frame_at ws.now at).promoted }
{
    byte_at(ws, at + Pool::PROMOTED_AT)
}

// Spawn call n, which is open.
pub fn call(ws: &[i32], at: usize, n: u8) -> u8
    requires { (at + frame_words ≤ length ws.now) × (n < length (frame_at ws.now at).calls) }
    ensures { get_elem? (frame_at ws.now at).calls n ≡ some result }
{
    byte_at(ws, at + Pool::CALLS_AT + (n as usize))
}

pub fn value(ws: &[i32], at: usize, x: u8) -> i32
    requires { (at + frame_words ≤ length ws.now) × (x < temporaries) }
    ensures { result ≡ get_or (frame_at ws.now at).values x (pos 0) }
{
    ws[at + Pool::VALUES_AT + (x as usize)]
}

// The frame at a place, changed in place: it is one of function g.
pub fn name(ws: &mut [i32], at: usize, g: u8)
    requires { at + frame_words ≤ length ws.old }
    ensures { Named ws.old at g ws.new }
{
    ws[at + Pool::FUNCTION_AT] = g as i32;
}

// It is at statement n of block b.
pub fn jump(ws: &mut [i32], at: usize, b: u8, n: u8)
    requires { at + frame_words ≤ length ws.old }
    ensures { Jumped ws.old at b n ws.new }
{
    ws[at + Pool::BLOCK_AT] = b as i32;
    ws[at + Pool::DONE_AT] = n as i32;
}

// It is at its next statement.
pub fn advance(ws: &mut [i32], at: usize)
    requires { at + frame_words ≤ length ws.old }
    ensures { Advanced ws.old at ws.new }
{
    let n = byte_at(ws, at + Pool::DONE_AT) as usize;
    ws[at + Pool::DONE_AT] = (n + 1) as i32;
}

// A temporary is bound.
pub fn bind(ws: &mut [i32], at: usize, x: u8, v: i32)
    requires { (at + frame_words ≤ length ws.old) × (x < temporaries) }
    ensures { Bound ws.old at x v ws.new }
{
    let bound = half_at(ws, at + Pool::BOUND_AT);
    ws[at + Pool::BOUND_AT] = (bound | (1 << x)) as i32;
    ws[at + Pool::VALUES_AT + (x as usize)] = v;
}

// One more call is open, behind n.
pub fn open_call(ws: &mut [i32], at: usize, n: u8, call: u8)
    requires { (at + frame_words ≤ length ws.old) × (n < most_calls) }
    ensures { Opened ws.old at n call ws.new }
{
    ws[at + Pool::OPENED_AT] = (n + 1) as i32;
    ws[at + Pool::CALLS_AT + (n as usize)] = call as i32;
}

// The last call is closed, and n are left, of which so many are promoted.
pub fn close_call(ws: &mut [i32], at: usize, n: u8, promoted: u8)
    requires { (at + frame_words ≤ length ws.old) × (n < most_calls) }
    ensures { Closed ws.old at n promoted ws.new }
{
    ws[at + Pool::OPENED_AT] = n as i32;
    ws[at + Pool::PROMOTED_AT] = promoted as i32;
    ws[at + Pool::CALLS_AT + (n as usize)] = 0;
}

// One more call is promoted.
pub fn promote_call(ws: &mut [i32], at: usize)
    requires { at + frame_words ≤ length ws.old }
    ensures { Promoted ws.old at ws.new }
{
    let n = byte_at(ws, at + Pool::PROMOTED_AT) as usize;
    ws[at + Pool::PROMOTED_AT] = (n + 1) as i32;
}

// How many threads there are, and how many frames a thread has. Words that hold no pool count as some number of 1 to 8.
pub fn thread_count(ws: &Words) -> usize
    ensures { result ≡ threads_in ws.now }
{
    (bits_at(ws, Pool::THREAD_COUNT_AT) as usize + (Pool::THREADS - 1)) % Pool::THREADS + 1
}

pub fn frame_count(ws: &Words, thread: usize) -> usize
    requires { thread < most_threads }
    ensures { result ≡ frames_in ws.now thread }
{
    let at = Pool::thread_start(thread) + Pool::FRAME_COUNT_AT;
    (bits_at(ws, at) as usize + (Pool::FRAMES - 1)) % Pool::FRAMES + 1
}

// Where a thread's newest frame begins.
pub fn newest_start(ws: &Words, thread: usize) -> usize
    requires { thread < most_threads }
    ensures is { result ≡ newest_at ws.now thread }
    ensures within { result + frame_words ≤ pool_words }
{
    Pool::frame_start(thread, frame_count(ws, thread) - 1)
}

// A count, put into a word.
fn set_count(ws: &mut [i32], at: usize, n: usize)
    requires { (at < length ws.old) × (n ≤ most_tokens) }
    ensures { ws.new ≡ set ws.old at (pos n) }
{
    ws[at] = n as i32;
}

// The empty frame stands above the newest: its words are 0, as those above the newest are.
pub fn push_frame(ws: &mut Words, thread: usize)
    requires { (thread < most_threads) × (frames_in ws.old thread < most_frames) }
    ensures { Pushed ws.old thread (begin 0 []) ws.new }
{
    let n = frame_count(ws, thread);
    let at = Pool::thread_start(thread) + Pool::FRAME_COUNT_AT;
    set_count(ws, at, n + 1);
}

// The newest frame, which begins at k, goes.
pub fn pop_frame(ws: &mut Words, thread: usize, k: usize)
    requires { (thread < most_threads) × (1 < frames_in ws.old thread) × (k ≡ newest_at ws.old thread) }
    ensures { Popped ws.old thread ws.new }
{
    let n = frame_count(ws, thread);
    let at = Pool::thread_start(thread) + Pool::FRAME_COUNT_AT;
    set_count(ws, at, n - 1);
    words::clear(ws, k, Pool::FRAME_WORDS);
}

// A new thread with one frame, the empty one, comes directly behind a thread: those behind it move up. Its words are 0 but for its
// count.
pub fn add_thread(ws: &mut Words, thread: usize)
    requires { (thread < threads_in ws.old) × (threads_in ws.old < most_threads) }
    ensures { Added ws.old thread (begin 0 []) ws.new }
{
    let n = thread_count(ws);
    let at = Pool::thread_start(thread + 1);
    let end = Pool::thread_start(n);
    set_count(ws, Pool::THREAD_COUNT_AT, n + 1);
    words::move_run(ws, at, at + Pool::THREAD_WORDS, end - at);
    words::clear(ws, at, Pool::THREAD_WORDS);
    set_count(ws, at + Pool::FRAME_COUNT_AT, 1);
}

// The thread directly behind a thread goes: those behind it move down, and the last one's words are cleared.
pub fn remove_thread(ws: &mut Words, thread: usize)
    requires { thread + 1 < threads_in ws.old }
    ensures { Removed ws.old thread ws.new }
{
    let n = thread_count(ws);
    let at = Pool::thread_start(thread + 1);
    let end = Pool::thread_start(n - 1);
    set_count(ws, Pool::THREAD_COUNT_AT, n - 1);
    words::move_run(ws, at + Pool::THREAD_WORDS, at, end - at);
    words::clear(ws, end, Pool::THREAD_WORDS);
}

// A thread's purse: its work and its tokens. What is above the most that a thread can have counts as the most.
// The two differ in two constants: with the place and the limit as parameters they are no plainer.
pub fn work(ws: &Words, thread: usize) -> u32
    requires { thread < most_threads }
    ensures { result ≡ work_in ws.now thread }
{
    bits_at(ws, Pool::thread_start(thread) + Pool::WORK_AT).min(Pool::WORK as u32)
}

pub fn tokens(ws: &Words, thread: usize) -> u32
    requires { thread < most_threads }
    ensures { result ≡ tokens_in ws.now thread }
{
    bits_at(ws, Pool::thread_start(thread) + Pool::TOKENS_AT).min(Pool::TOKENS as u32)
}

pub fn set_purse(ws: &mut Words, thread: usize, work: u32, tokens: u32)
    requires { (thread < most_threads) × (work ≤ most_work) × (tokens ≤ most_tokens) }
    ensures { Endowed ws.old thread (record { work = work; tokens = tokens }) ws.new }
{
    let at = Pool::thread_start(thread);
    set_count(ws, at + Pool::WORK_AT, work as usize);
    set_count(ws, at + Pool::TOKENS_AT, tokens as usize);
}

// The pool at the start: one thread, with one frame at main's entry.
pub fn start_pool(ws: &mut Words)
    ensures { ws.new ≡ words_of started }
{
    words::clear(ws, 0, Pool::WORDS);
    let at = Pool::thread_start(0) + Pool::FRAME_COUNT_AT;
    set_count(ws, Pool::THREAD_COUNT_AT, 1);
    set_count(ws, at, 1);
}
