// The exports of the library: each hands a host's call over to the function of `mezdaulk` that has its name. include/mezdaulk.h says what
// each answer is.
#![tactic(auto)]

ghost use Rattle.schedule.specs.Choices.{choices_of};
ghost use Rattle.host.specs.CallContracts as Contracts;

use schedule::Choice;

#[unsafe(no_mangle)]
pub extern "C" fn mezdaulk_read(table: &[u8]) -> u64
    ensures { Contracts.Read table.now result }
{
    mezdaulk::mezdaulk_read(table)
}

#[unsafe(no_mangle)]
pub extern "C" fn mezdaulk_check(table: &[u8]) -> u64
    ensures { Contracts.Check table.now result }
{
    mezdaulk::mezdaulk_check(table)
}

#[unsafe(no_mangle)]
pub extern "C" fn mezdaulk_depth(table: &[u8]) -> u64
    ensures { Contracts.Depth table.now result }
{
    mezdaulk::mezdaulk_depth(table)
}

#[unsafe(no_mangle)]
pub extern "C" fn mezdaulk_tidy(table: &[u8], out: &mut [u8]) -> u64
    ensures { Contracts.Tidy table.now out.old result out.new }
{
    mezdaulk::mezdaulk_tidy(table, out)
}

#[unsafe(no_mangle)]
pub extern "C" fn mezdaulk_complete(table: &[u8], out: &mut [u8], scratch: &mut [u32]) -> u64
    ensures { Contracts.Complete table.now out.old scratch.old result out.new
        scratch.new }
{
    mezdaulk::mezdaulk_complete(table, out, scratch)
}

#[unsafe(no_mangle)]
pub extern "C" fn mezdaulk_start(table: &[u8], pool: &mut [i32]) -> u64
    ensures { Contracts.Start table.now pool.old result pool.new }
{
    mezdaulk::mezdaulk_start(table, pool)
}

#[unsafe(no_mangle)]
pub extern "C" fn mezdaulk_choose(table: &[u8], pool: &mut [i32], kind: u32, thread: u32) -> u64
    ensures { Contracts.Choose table.now pool.old kind thread result pool.new }
{
    mezdaulk::mezdaulk_choose(table, pool, kind, thread)
}

#[unsafe(no_mangle)]
pub extern "C" fn mezdaulk_which(table: &[u8], pool: &[i32]) -> u64
    ensures { Contracts.Which table.now pool.now result }
{
    mezdaulk::mezdaulk_which(table, pool)
}

#[unsafe(no_mangle)]
pub extern "C" fn mezdaulk_values(table: &[u8], pool: &[i32], values: &mut [i32; 4]) -> u64
    ensures { Contracts.Values table.now pool.now values.old result values.new }
{
    mezdaulk::mezdaulk_values(table, pool, values)
}

#[unsafe(no_mangle)]
pub extern "C" fn mezdaulk_schedule(
    table: &[u8],
    pool: &mut [i32],
    choices: &[Choice],
    made: &mut u64,
) -> u64
    ensures { Contracts.Schedule table.now pool.old (choices_of choices.now) result made.new
        pool.new }
{
    mezdaulk::mezdaulk_schedule(table, pool, choices, made)
}

#[unsafe(no_mangle)]
pub extern "C" fn mezdaulk_beat(table: &[u8], pool: &mut [i32], thread: u32, n: u32, c: u32) -> u64
    ensures { Contracts.Beat table.now pool.old thread n c result pool.new }
{
    mezdaulk::mezdaulk_beat(table, pool, thread, n, c)
}

#[unsafe(no_mangle)]
pub extern "C" fn mezdaulk_run(
    table: &[u8],
    pool: &mut [i32],
    n: u32,
    c: u32,
    threads: &[u32],
    made: &mut [u64; 2],
) -> u64
    ensures { Contracts.Run table.now pool.old n c threads.now result made.new
        pool.new }
{
    mezdaulk::mezdaulk_run(table, pool, n, c, threads, made)
}

#[unsafe(no_mangle)]
pub extern "C" fn mezdaulk_operator(table: &[u8], pool: &[i32], out: &mut [u8]) -> u64
    ensures { Contracts.Operator table.now pool.now out.old result out.new }
{
    mezdaulk::mezdaulk_operator(table, pool, out)
}

#[unsafe(no_mangle)]
pub extern "C" fn mezdaulk_customer(table: &[u8], pool: &[i32], out: &mut [u8]) -> u64
    ensures { Contracts.Customer table.now pool.now out.old result out.new }
{
    mezdaulk::mezdaulk_customer(table, pool, out)
}
