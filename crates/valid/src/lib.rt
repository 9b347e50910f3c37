// Which words are a pool of a table (13): one look at each word, no copy, and the first fault ends it.
#![tactic(auto)]

ghost use Rattle.std.specs.Prelude.{◌≡◌, ◌*◌, ◌<◌, ◌≤◌, pos, length, get_or};
ghost use Rattle.model.specs.Lists.{all};
ghost use Rattle.model.specs.Pool.{blank, temporaries, most_frames, most_threads, frame_words, thread_words};
ghost use Rattle.valid.specs.Judged.{is_zero, IsNumber, JudgesPlace, JudgesCalls, follows, JudgesFrame, JudgesFrames, good_purse};
ghost use Rattle.valid.specs.Judged.{JudgesThread, JudgesTrees, JudgesPool};

use places::Places;
use pool::Pool;

// Word i as a number. A negative word is above every limit.
fn number(ws: &[i32], i: usize) -> usize
    requires { i < length ws.now }
    ensures { IsNumber (get_or ws.now i (pos 0)) result }
{
    usize::try_from(ws[i]).unwrap_or(2147483648)
}

// Are they all 0? Their bits are put together, with no early end, so that many are looked at at once: `all` takes five times as long.
fn zeros(ws: &[i32]) -> bool
    ensures { result ≡ all is_zero ws.now }
{
    let mut bits: u32 = 0;
    for w in ws {
        bits |= words::bits(*w);
    }
    bits == 0
}

// Are the values of the unbound temporaries 0? Here too there is no early end.
fn values(bound: usize, ws: &[i32]) -> bool
    requires { length ws.now ≡ temporaries }
    ensures { result ≡ blank bound 0 ws.now }
{
    let mut fine = true;
    for i in 0..Pool::TEMPORARIES {
        fine &= ((bound >> i) % 2 == 1) | (ws[i] == 0);
    }
    fine
}

// Is the block there, with at least so many statements?
fn place(s: &[u8], places: &Places, f: usize, b: usize, done: usize) -> bool
    ensures { JudgesPlace s.now places.now f b done result }
{
    match places::code(places, f, b) {
        Some(at) => done <= code::byte(s, at) as usize,
        None => false,
    }
}

// Is each word the number of a spawn call of function f?
fn calls(places: &Places, f: usize, ws: &[i32]) -> bool
    ensures { JudgesCalls places.now f ws.now result }
{
    for i in 0..ws.len() {
        let Some(_) = places::spawn(places, f, number(ws, i)) else {
            return false;
        };
    }
    true
}

// Are the words a frame of the table?
fn frame(s: &[u8], places: &Places, w: &[i32]) -> bool
    requires { length w.now ≡ frame_words }
    ensures { JudgesFrame s.now places.now w.now result }
{
    let f = number(w, Pool::FUNCTION_AT);
    let opened = number(w, Pool::OPENED_AT);
    if Pool::CALLS < opened {
        return false;
    }
    if opened < number(w, Pool::PROMOTED_AT) {
        return false;
    }
    let bound = number(w, Pool::BOUND_AT);
    if 65535 < bound {
        return false;
    }
    if !place(
        s,
        places,
        f,
        number(w, Pool::BLOCK_AT),
        number(w, Pool::DONE_AT),
    ) {
        return false;
    }
    let k = Pool::CALLS_AT + opened;
    if !calls(places, f, &w[Pool::CALLS_AT..k]) {
        return false;
    }
    if !zeros(&w[k..Pool::VALUES_AT]) {
        return false;
    }
    values(bound, &w[Pool::VALUES_AT..Pool::FRAME_WORDS])
}

// Has an older frame no statements done, and a frame behind a promoted call promoted ones only?
fn follow(w: &[i32], newest: bool, free: bool) -> bool
    requires { length w.now ≡ frame_words }
    ensures { result ≡ follows newest free w.now }
{
    (newest | (number(w, Pool::DONE_AT) == 0))
        & (free | (number(w, Pool::PROMOTED_AT) == number(w, Pool::OPENED_AT)))
}

// How many children the first n frames of a thread have, if they are frames: the newest, which is the last, first. `free`: no newer
// frame has a promoted call.
fn frames(s: &[u8], places: &Places, ws: &[i32], n: usize) -> Option<usize>
    requires { (length ws.now ≡ most_frames * frame_words) × (n ≤ most_frames) }
    ensures { JudgesFrames s.now places.now ws.now n result }
{
    let mut newest = true;
    let mut free = true;
    let mut sum: usize = 0;
    for left in (0..n).rev() {
        let at = Pool::FRAME_WORDS * left;
        let end = at + Pool::FRAME_WORDS;
        let w = &ws[at..end];
        if !frame(s, places, w) {
            return None;
        }
        if !follow(w, newest, free) {
            return None;
        }
        let promoted = number(w, Pool::PROMOTED_AT);
        newest = false;
        free &= promoted == 0;
        sum += promoted;
    }
    Some(sum)
}

// Are a thread's work and tokens within their limits?
fn purse(t: &[i32]) -> bool
    requires { length t.now ≡ thread_words }
    ensures { result ≡ good_purse t.now }
{
    (number(t, Pool::WORK_AT) <= Pool::WORK) & (number(t, Pool::TOKENS_AT) <= Pool::TOKENS)
}

// How many children a thread has, if its words are one of the table.
fn thread(s: &[u8], places: &Places, t: &[i32]) -> Option<usize>
    requires { length t.now ≡ thread_words }
    ensures { JudgesThread s.now places.now t.now result }
{
    let n = number(t, Pool::FRAME_COUNT_AT);
    if n == 0 {
        return None;
    }
    if Pool::FRAMES < n {
        return None;
    }
    if !purse(t) {
        return None;
    }
    let k = Pool::FRAMES_AT + Pool::FRAME_WORDS * n;
    if !zeros(&t[k..Pool::THREAD_WORDS]) {
        return None;
    }
    frames(s, places, &t[Pool::FRAMES_AT..Pool::THREAD_WORDS], n)
}

// The first n threads of a pool: are they one tree?
fn trees(s: &[u8], places: &Places, ws: &[i32], n: usize) -> bool
    requires { (length ws.now ≡ most_threads * thread_words) × (n ≤ most_threads) }
    ensures { JudgesTrees s.now places.now ws.now n result }
{
    let mut demands: usize = 1;
    for i in 0..n {
        if demands < 1 {
            return false;
        }
        let at = Pool::THREAD_WORDS * i;
        let end = at + Pool::THREAD_WORDS;
        let Some(m) = thread(s, places, &ws[at..end]) else {
            return false;
        };
        demands = m + (demands - 1);
    }
    demands == 0
}

// Are the words a pool of the table?
pub fn is_pool(s: &[u8], places: &Places, ws: &[i32]) -> bool
    ensures { JudgesPool s.now places.now ws.now result }
{
    if ws.len() != Pool::WORDS {
        return false;
    }
    let n = number(ws, Pool::THREAD_COUNT_AT);
    if Pool::THREADS < n {
        return false;
    }
    let k = Pool::THREADS_AT + Pool::THREAD_WORDS * n;
    if !zeros(&ws[k..Pool::WORDS]) {
        return false;
    }
    trees(s, places, &ws[Pool::THREADS_AT..Pool::WORDS], n)
}
