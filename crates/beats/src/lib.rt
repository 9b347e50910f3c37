// A beat: a step of a thread, what it earns, and the promotions that the thread's tokens pay; and a run of beats. Steps and promotions
// are the machine's own choices (`steps`).
#![tactic(auto)]

ghost use Rattle.std.specs.Prelude.{◌≡◌, ◌≤◌, IfOk};
ghost use Rattle.model.specs.Pool.{most_tokens, most_threads};
ghost use Rattle.tokens.specs.Beats as Beats;
ghost use Rattle.beats.specs.Purses.{Finds, Endows, Earns, Shares, brought_by};
ghost use Rattle.beats.specs.Beating.{Pays, Spends, Beating, Lends, Runs, called_of, told_of};

mod pace;
mod purse;

use answers::{No, Refusal, Rule};
use pace::Pace;
use places::Places;
use pool::{Pool, Words};
use purse::Purse;

// A beat that was made: the rule of its step, and how many promotions.
#[derive(Clone, Copy, PartialEq, Eq, Debug)]
pub struct Beaten {
    pub rule: Rule,
    pub promotions: u32,
}

// How many steps and promotions a run made, and its answer: given, or the first refusal. The counts come with a refusal too, so it is
// no Result.
#[derive(Clone, Copy, PartialEq, Eq, Debug)]
pub struct Ran {
    pub steps: u64,
    pub promotions: u64,
    pub answer: Result<(), Refusal>,
}

// The purse of thread i; where there is no such thread, the empty one.
fn purse_at(ws: &Words, i: usize) -> Purse
    ensures { Finds ws.now i result }
{
    if i < pool::thread_count(ws) {
        return Purse {
            work: pool::work(ws, i),
            tokens: pool::tokens(ws, i),
        };
    }
    Purse { work: 0, tokens: 0 }
}

// Thread i has this purse; where there is no such thread nothing changes.
fn endow(ws: &mut Words, i: usize, e: Purse)
    ensures { Endows ws.old i e ws.new }
{
    if i < pool::thread_count(ws) {
        pool::set_purse(ws, i, e.work, e.tokens);
    }
}

// What a step of thread i earns: the tokens of a child that it joined, and its work.
fn earn(ws: &mut Words, i: usize, pace: Pace, more: u32)
    requires { more ≤ most_tokens }
    ensures { Earns ws.old i pace.n pace.c more ws.new }
{
    let e = purse_at(ws, i);
    endow(ws, i, e.arrived(more).work_more(pace));
}

// A promotion of the thread is paid, and the rest shared with the child directly behind.
fn share(ws: &mut Words, thread: u32)
    ensures { Shares ws.old thread ws.new }
{
    let i = thread as usize;
    let e = purse_at(ws, i);
    endow(ws, i, e.keep());
    endow(ws, i + 1, e.hand());
}

// One promotion of the thread, if it has a token and the promotion is made.
fn pay(s: &[u8], places: &Places, ws: &mut Words, thread: u32) -> bool
    ensures { Pays s.now places.now ws.old thread result ws.new }
{
    if purse_at(ws, thread as usize).tokens == 0 {
        return false;
    }
    if steps::choice(s, places, ws, 1, thread).is_err() {
        return false;
    }
    share(ws, thread);
    true
}

// Promotions of the thread as long as it can pay: how many were made.
fn spend(s: &[u8], places: &Places, ws: &mut Words, thread: u32) -> u32
    ensures is { Spends s.now places.now ws.old thread result ws.new }
    ensures few { result ≤ most_threads }
{
    let most = Pool::THREADS as u32;
    for made in 0..most {
        if !pay(s, places, ws, thread) {
            return made;
        }
    }
    most
}

// The tokens that a step by a rule brings, of those that the thread directly behind had.
fn brought(rule: Rule, tokens: u32) -> u32
    ensures is { result ≡ brought_by rule.0 tokens }
    ensures few { result ≤ tokens }
{
    if rule == Rule::PROM { tokens } else { 0 }
}

// One beat, on a valid pool of a table that was read.
fn one(
    s: &[u8],
    places: &Places,
    ws: &mut Words,
    thread: u32,
    pace: Pace,
) -> Result<Beaten, Refusal>
    ensures is { Beating s.now places.now ws.old thread pace.n pace.c result ws.new }
    ensures few { IfOk result (λ made. made.promotions ≤ most_threads) }
{
    let behind = purse_at(ws, thread as usize + 1);
    let rule = steps::choice(s, places, ws, 0, thread)?;
    earn(ws, thread as usize, pace, brought(rule, behind.tokens));
    let promotions = spend(s, places, ws, thread);
    Ok(Beaten { rule, promotions })
}

// The beats of a list of threads, on a valid pool of a table that was read, up to the first refused.
fn beats(s: &[u8], places: &Places, ws: &mut Words, pace: Pace, threads: &[u32]) -> Ran
    ensures { Runs s.now places.now ws.old pace.n pace.c threads.now result ws.new }
{
    let mut promotions: u64 = 0;
    for (steps, thread) in threads.iter().enumerate() {
        match one(s, places, ws, *thread, pace) {
            Ok(beaten) => promotions += beaten.promotions as u64,
            Err(why) => {
                return Ran {
                    steps: steps as u64,
                    promotions,
                    answer: Err(why),
                };
            }
        }
    }
    Ran {
        steps: threads.len() as u64,
        promotions,
        answer: Ok(()),
    }
}

// The table, a pool of it, and N and C: 27 after all others.
fn admit(table: &[u8], places: &mut Places, pool: &[i32], n: u32, c: u32) -> Result<Pace, Refusal>
    ensures { Lends table.now pool.now n c places.old places.new result }
{
    lend::pool(table, places, pool)?;
    Pace::of(n, c).ok_or(Refusal::Plain(No::PACE))
}

// One beat.
pub fn beat(table: &[u8], pool: &mut [i32], thread: u32, n: u32, c: u32) -> Result<Beaten, Refusal>
    ensures { called_of result pool.new ≡ Beats.beat table.now pool.old thread n c }
{
    let mut places = places::none();
    let pace = admit(table, &mut places, pool, n, c)?;
    let ws: &mut Words = pool.as_mut_array().unwrap();
    one(table, &places, ws, thread, pace)
}

// The table is read once and the pool judged once; then the beats.
pub fn run(table: &[u8], pool: &mut [i32], n: u32, c: u32, threads: &[u32]) -> Ran
    ensures { told_of result pool.new ≡ Beats.run table.now pool.old n c threads.now }
{
    let mut places = places::none();
    match admit(table, &mut places, pool, n, c) {
        Ok(pace) => {
            let ws: &mut Words = pool.as_mut_array().unwrap();
            beats(table, &places, ws, pace, threads)
        }
        Err(why) => Ran {
            steps: 0,
            promotions: 0,
            answer: Err(why),
        },
    }
}
