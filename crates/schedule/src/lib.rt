// A schedule: a list of choices, each a kind and a thread, up to the first refusal.
#![tactic(auto)]

ghost use Rattle.std.specs.Prelude.{◌≡◌};
ghost use Rattle.model.specs.Calls as Calls;
ghost use Rattle.schedule.specs.Choices.{choices_of};
ghost use Rattle.schedule.specs.Runs.{ended_of, scheduled_of, Runs};

use answers::{No, Refusal};
use places::Places;
use pool::Words;

#[repr(C)]
#[derive(Clone, Copy, PartialEq, Eq, Debug)]
pub struct Choice {
    pub kind: u32,
    pub thread: u32,
}

// How many choices were made, and the answer: given, or the first refusal. The count comes with a refusal too, so it is no Result.
#[derive(Clone, Copy, PartialEq, Eq, Debug)]
pub struct Scheduled {
    pub made: usize,
    pub answer: Result<(), Refusal>,
}

// The choices, on a valid pool of a table that was read: how many were made, all of them, or those before the one that is refused.
fn run(s: &[u8], places: &Places, ws: &mut Words, choices: &[Choice]) -> Result<usize, (usize, No)>
    ensures { Runs s.now places.now ws.old (choices_of choices.now) result ws.new }
{
    for (made, c) in choices.iter().enumerate() {
        if let Err(number) = steps::choice(s, places, ws, c.kind, c.thread) {
            return Err((made, number));
        }
    }
    Ok(choices.len())
}

// What a run answers.
fn ended(r: Result<usize, (usize, No)>) -> Scheduled
    ensures { result ≡ ended_of r }
{
    match r {
        Ok(made) => Scheduled {
            made,
            answer: Ok(()),
        },
        Err((before, number)) => Scheduled {
            made: before,
            answer: Err(Refusal::Plain(number)),
        },
    }
}

// The table is read once and the pool judged once; then the choices.
pub fn schedule(table: &[u8], pool: &mut [i32], choices: &[Choice]) -> Scheduled
    ensures { scheduled_of result pool.new
        ≡ Calls.schedule table.now pool.old (choices_of choices.now) }
{
    let mut places = places::none();
    if let Err(why) = lend::pool(table, &mut places, pool) {
        return Scheduled {
            made: 0,
            answer: Err(why),
        };
    }
    let ws: &mut Words = pool.as_mut_array().unwrap();
    ended(run(table, &places, ws, choices))
}
