// The library for hosts: what each call answers, as one number. The exports of crate `mezdaulk_c` hand a host's call over as it is, and
// include/mezdaulk.h says what each answer is.
#![tactic(auto)]

ghost use Rattle.std.specs.Prelude.{◌≡◌, take};
ghost use Rattle.std.proofs.Math.Option.{some};
ghost use Rattle.model.specs.Answers as Model;
ghost use Rattle.answers.specs.Answers.{answer_of, written_of};
ghost use Rattle.schedule.specs.Choices.{choices_of};
ghost use Rattle.host.specs.Exports as Exports;
ghost use Rattle.host.specs.Exports.{Values};
ghost use Rattle.host.specs.CallContracts as Contracts;
ghost use Rattle.mezdaulk.specs.Reports.{Reports, RunReports};

use answers::Refusal;
use beats::Ran;
use calls::Main;
use schedule::{Choice, Scheduled};

// The value of `mezdaulk_which` where no thread can step, and of `mezdaulk_values` while main's values are open: numbers, since an
// exported function answers one number.
const NO_THREAD: u32 = 8;

const OPEN: u32 = 255;

// An answer that gives nothing more, as one number.
#[tactic(auto, unfolding(host::specs::Exports::done))]
fn done(a: Result<(), Refusal>) -> u64
    ensures { result ≡ Exports.done (answer_of a) }
{
    match a {
        Ok(()) => answers::value(0),
        Err(why) => answers::code(why),
    }
}

// How many bytes were written, as one number.
#[tactic(auto, unfolding(host::specs::Exports::as_number))]
fn wrote(a: Result<u32, Refusal>) -> u64
    ensures { result ≡ Exports.as_number (written_of a) }
{
    match a {
        Ok(n) => answers::value(n),
        Err(why) => answers::code(why),
    }
}

pub fn mezdaulk_read(table: &[u8]) -> u64
    ensures { Contracts.Read table.now result }
{
    let mut places = places::none();
    done(table::read(table, &mut places))
}

pub fn mezdaulk_check(table: &[u8]) -> u64
    ensures { Contracts.Check table.now result }
{
    done(verifier::check(table))
}

#[tactic(auto, unfolding(host::specs::Exports::as_number))]
pub fn mezdaulk_depth(table: &[u8]) -> u64
    ensures { Contracts.Depth table.now result }
{
    match depth::depth(table) {
        Ok(frames) => answers::value(frames as u32),
        Err(why) => answers::code(why),
    }
}

pub fn mezdaulk_tidy(table: &[u8], out: &mut [u8]) -> u64
    ensures { Contracts.Tidy table.now out.old result out.new }
{
    wrote(tidy::tidy(table, out))
}

pub fn mezdaulk_complete(table: &[u8], out: &mut [u8], scratch: &mut [u32]) -> u64
    ensures { Contracts.Complete table.now out.old scratch.old result out.new
        scratch.new }
{
    wrote(complete::complete(table, out, scratch))
}

pub fn mezdaulk_start(table: &[u8], pool: &mut [i32]) -> u64
    ensures { Contracts.Start table.now pool.old result pool.new }
{
    done(calls::start(table, pool))
}

#[tactic(auto, unfolding(host::specs::Exports::as_number))]
pub fn mezdaulk_choose(table: &[u8], pool: &mut [i32], kind: u32, thread: u32) -> u64
    ensures { Contracts.Choose table.now pool.old kind thread result pool.new }
{
    match calls::choose(table, pool, kind, thread) {
        Ok(rule) => answers::value(rule.0 as u32),
        Err(why) => answers::code(why),
    }
}

#[tactic(auto, unfolding(host::specs::Exports::stepper_of))]
pub fn mezdaulk_which(table: &[u8], pool: &[i32]) -> u64
    ensures { Contracts.Which table.now pool.now result }
{
    match calls::which(table, pool) {
        Ok(Some(i)) => answers::value(i as u32),
        Ok(None) => answers::value(NO_THREAD),
        Err(why) => answers::code(why),
    }
}

// Main's values, the first `count` of four, written in the place of the first words.
fn put_values(m: Main, values: &mut [i32; 4]) -> u64
    ensures { Values (Model.Answer.given (some (take m.count m.values))) values.old result values.new }
{
    let n = (m.count as usize).min(4);
    values[..n].copy_from_slice(&m.values[..n]);
    answers::value(n as u32)
}

#[tactic(auto, unfolding(host::specs::Exports::counted, host::specs::Exports::written))]
pub fn mezdaulk_values(table: &[u8], pool: &[i32], values: &mut [i32; 4]) -> u64
    ensures { Contracts.Values table.now pool.now values.old result values.new }
{
    match calls::values(table, pool) {
        Ok(Some(m)) => put_values(m, values),
        Ok(None) => answers::value(OPEN),
        Err(why) => answers::code(why),
    }
}

// The report of a list of choices, with the number made written.
#[tactic(auto, unfolding(schedule::specs::Runs::scheduled_of))]
fn report(answer: Scheduled, made: &mut u64) -> u64
    ensures { Reports answer result made.new }
{
    *made = answer.made as u64;
    done(answer.answer)
}

pub fn mezdaulk_schedule(table: &[u8], pool: &mut [i32], choices: &[Choice], made: &mut u64) -> u64
    ensures { Contracts.Schedule table.now pool.old (choices_of choices.now) result made.new
        pool.new }
{
    report(schedule::schedule(table, pool, choices), made)
}

#[tactic(auto, unfolding(host::specs::Exports::beat_number))]
pub fn mezdaulk_beat(table: &[u8], pool: &mut [i32], thread: u32, n: u32, c: u32) -> u64
    ensures { Contracts.Beat table.now pool.old thread n c result pool.new }
{
    match beats::beat(table, pool, thread, n, c) {
        Ok(beaten) => answers::value(beaten.rule.0 as u32 + 256 * beaten.promotions),
        Err(why) => answers::code(why),
    }
}

// The report of a run, with the steps and the promotions made written.
#[tactic(auto, unfolding(beats::specs::Beating::told_of))]
fn report_run(answer: Ran, made: &mut [u64; 2]) -> u64
    ensures { RunReports answer result made.new }
{
    *made = [answer.steps, answer.promotions];
    done(answer.answer)
}

pub fn mezdaulk_run(
    table: &[u8],
    pool: &mut [i32],
    n: u32,
    c: u32,
    threads: &[u32],
    made: &mut [u64; 2],
) -> u64
    ensures { Contracts.Run table.now pool.old n c threads.now result made.new
        pool.new }
{
    report_run(beats::run(table, pool, n, c, threads), made)
}

pub fn mezdaulk_operator(table: &[u8], pool: &[i32], out: &mut [u8]) -> u64
    ensures { Contracts.Operator table.now pool.now out.old result out.new }
{
    wrote(listing::operator(table, pool, out))
}

pub fn mezdaulk_customer(table: &[u8], pool: &[i32], out: &mut [u8]) -> u64
    ensures { Contracts.Customer table.now pool.now out.old result out.new }
{
    wrote(listing::customer(table, pool, out))
}
