// The public calls on a table and a pool: each is lent what it needs (`lend`) and asks the inner machine. Every call takes any
// bytes, words and numbers; a refusal changes no word.
#![tactic(auto)]

ghost use Rattle.std.specs.Prelude.{◌≡◌};
ghost use Rattle.model.specs.Calls as Calls;
ghost use Rattle.answers.specs.Answers.{answer_of};
ghost use Rattle.calls.specs.Calls.{called, chosen_of, stepping_of, IsMain};

use answers::{Refusal, Rule};
use pool::Words;

// Main's values: the first `count` of four, and 0 behind them. An array and its count, since nothing is on the heap.
#[derive(Clone, Copy, PartialEq, Eq, Debug)]
pub struct Main {
    pub count: u8,
    pub values: [i32; 4],
}

// A pool at the start: any table that reads, and words that hold anything. The search may unfold the definition, so that it
// judges answers that the proof does not name, as that of the edit `refused_start_given`.
#[tactic(auto, unfolding(model::specs::Calls::start, model::specs::Calls::starting))]
pub fn start(table: &[u8], pool: &mut [i32]) -> Result<(), Refusal>
    ensures { called (answer_of result) pool.new ≡ Calls.start table.now pool.old }
{
    let mut places = places::none();
    lend::words(table, &mut places, pool)?;
    let ws: &mut Words = pool.as_mut_array().unwrap();
    pool::start_pool(ws);
    Ok(())
}

// One choice: a kind (0 step, 1 promote) and a thread.
pub fn choose(table: &[u8], pool: &mut [i32], kind: u32, thread: u32) -> Result<Rule, Refusal>
    ensures { called (chosen_of result) pool.new ≡ Calls.choose table.now pool.old kind thread }
{
    let mut places = places::none();
    lend::pool(table, &mut places, pool)?;
    let ws: &mut Words = pool.as_mut_array().unwrap();
    Ok(steps::choice(table, &places, ws, kind, thread)?)
}

// Which thread can step: the first, if any can. Nothing is written.
pub fn which(table: &[u8], pool: &[i32]) -> Result<Option<usize>, Refusal>
    ensures { stepping_of result ≡ Calls.which table.now pool.now }
{
    let mut places = places::none();
    lend::pool(table, &mut places, pool)?;
    let ws: &Words = pool.as_array().unwrap();
    Ok(steps::can_step(table, &places, ws))
}

// Main's values, or none while they are open: given exactly when thread 0 is ended. Nothing is written.
pub fn values(table: &[u8], pool: &[i32]) -> Result<Option<Main>, Refusal>
    ensures { IsMain result (Calls.values table.now pool.now) }
{
    let mut places = places::none();
    lend::pool(table, &mut places, pool)?;
    let ws: &Words = pool.as_array().unwrap();
    let Some(v) = steps::ended(table, &places, ws, 0) else {
        return Ok(None);
    };
    let mut values = [0; 4];
    values.copy_from_slice(&v.at[..4]);
    Ok(Some(Main {
        count: v.count,
        values,
    }))
}
