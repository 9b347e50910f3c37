// A purse: the work of a thread since its last tokens, and its tokens.
ghost use Rattle.std.specs.Prelude.{◌≡◌, ◌≤◌};
ghost use Rattle.model.specs.Pool.{most_work, most_tokens};

use crate::pace::Pace;
use pool::Pool;

#[derive(Clone, Copy, PartialEq, Eq, Debug)]
pub struct Purse {
    pub work: u32,
    pub tokens: u32,
    ghost good: { (work ≤ most_work) × (tokens ≤ most_tokens) },
}

impl Purse {
    ghost use Rattle.tokens.specs.Purses.{arrive, worked, handed, kept};
    ghost use Rattle.beats.specs.Purses.{purse_of};

    // The purse that tokens come to: those above the most are dropped.
    #[tactic(auto, unfolding(tokens::specs::Purses::arrive))]
    pub fn arrived(self, more: u32) -> Purse
        requires { more ≤ most_tokens }
        ensures { purse_of result ≡ arrive more (purse_of self) }
    {
        Purse {
            work: self.work,
            tokens: (self.tokens + more).min(Pool::TOKENS as u32),
        }
    }

    // One step's work: where it is N or more, it is 0 again and C tokens come.
    pub fn work_more(self, pace: Pace) -> Purse
        ensures { purse_of result ≡ worked pace.n pace.c (purse_of self) }
    {
        let work = self.work + 1;
        if work < pace.n {
            return Purse {
                work,
                tokens: self.tokens,
            };
        }
        let rested = Purse {
            work: 0,
            tokens: self.tokens,
        };
        rested.arrived(pace.c)
    }

    // What a promotion hands to the child, and what the parent keeps.
    #[tactic(auto, unfolding(tokens::specs::Purses::handed))]
    pub fn hand(self) -> Purse
        ensures { purse_of result ≡ handed (purse_of self) }
    {
        let rest = self.tokens.saturating_sub(1);
        Purse {
            work: 0,
            tokens: rest / 2,
        }
    }

    #[tactic(auto, unfolding(tokens::specs::Purses::kept))]
    pub fn keep(self) -> Purse
        ensures { purse_of result ≡ kept (purse_of self) }
    {
        let rest = self.tokens.saturating_sub(1);
        Purse {
            work: self.work,
            tokens: rest - rest / 2,
        }
    }
}
