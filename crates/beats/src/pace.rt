// The pace of beats: after N steps of work C tokens come.
ghost use Rattle.std.specs.Prelude.{◌≤◌};
ghost use Rattle.tokens.specs.Beats.{most_n, most_c};

#[derive(Clone, Copy, PartialEq, Eq, Debug)]
pub struct Pace {
    pub n: u32,
    pub c: u32,
    ghost few: { (n ≤ most_n) × (c ≤ most_c) },
}

impl Pace {
    ghost use Rattle.beats.specs.Beating.{Paces};

    // The most that N and C can be.
    const MOST_N: u32 = 65535;

    const MOST_C: u32 = 255;

    // The pace of N and C, if a beat can have them.
    #[tactic(auto, unfolding(tokens::specs::Beats::is_pace))]
    pub fn of(n: u32, c: u32) -> Option<Pace>
        ensures { Paces n c result }
    {
        if 0 < n && n <= Pace::MOST_N && 0 < c && c <= Pace::MOST_C {
            Some(Pace { n, c })
        } else {
            None
        }
    }
}
