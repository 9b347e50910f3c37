// What is reached, nestings and least scopes of a function's blocks, inferred in lent words: nestings go from the entry along the
// transfers, in rounds over the blocks until a round changes nothing; each scope gets what its block needs itself, and what a scope
// needs goes back along the transfers, in rounds again.
#![tactic(auto)]

ghost use Rattle.std.specs.Prelude.{◌≡◌, ◌%◌, [], ◌∷◌, get_or};
ghost use Rattle.code.specs.Code.{run, arguments_at, atom_at, expression_at, statements_at, statements_end, transfer_at};
ghost use Rattle.model.specs.Sets.{below};
ghost use Rattle.model.specs.Syntax.{uses, uses_atom, targets};
ghost use Rattle.inference.specs.Infer.{closed, used_by};
ghost use Rattle.scopings.specs.Words.{scope_in};
ghost use Rattle.infer.specs.Infers.{Reaches, Infers};
ghost use Rattle.infer.specs.Rounds.{RoundsBy};
ghost use Rattle.infer.specs.Nestings.{Turns, opened_by, under_at, Follows, Leads, LeadsAll, Reached, Begun, Counts, Lows};
ghost use Rattle.infer.specs.Needs.{binding_all, lacks, walked_at, code_needs_at, block_needs_at, joining, joins};
ghost use Rattle.infer.specs.Needs.{Binds, NestingNeeds, Owns, NeedsOwn, NeedsAll, Grown, Grows, GrowsAll, Settles, Enters};

use code::Kind;
use places::{Layout, Places};
use transfers::Transfers;

// A nesting: one more than the number of its names, and the names, the outermost in the lowest digit to base 256.
#[derive(Clone, Copy, PartialEq, Eq, Debug)]
struct Nesting {
    level: u16,
    names: u32,
}

// The nesting with one spawn call more, of which there are at most four.
fn opened(n: Nesting, x: u8) -> Nesting
    ensures { Turns n (opened_by x) result }
{
    let x = x as u32;
    // By how many names there are, and not by a kind: a power of 256 worked out is no plainer.
    match n.level {
        1 => Nesting { level: 2, names: x },
        2 => Nesting {
            level: 3,
            names: n.names % 256 + 256 * x,
        },
        3 => Nesting {
            level: 4,
            names: n.names % 65536 + 65536 * x,
        },
        4 => Nesting {
            level: 5,
            names: n.names % 16777216 + 16777216 * x,
        },
        _ => n,
    }
}

// The nesting with one spawn call less.
fn closed(n: Nesting) -> Nesting
    ensures { Turns n closed result }
{
    if n.level < 2 {
        n
    } else {
        Nesting {
            level: n.level - 1,
            ..n
        }
    }
}

// The nesting of the targets of the transfer at an offset, in a block under a nesting.
fn under(s: &[u8], at: usize, n: Nesting) -> Nesting
    ensures { Turns n (under_at s.now at) result }
{
    match code::kind_at(s, at) {
        Kind::Goto | Kind::If | Kind::Call | Kind::Return => n,
        Kind::Spork => opened(n, code::byte(s, code::after(at, 2))),
        Kind::Spoin => closed(n),
    }
}

// Block b is marked with the nesting, where it has no mark yet. Did that change anything?
fn follow_one(words: &mut [u32], b: u8, n: Nesting) -> bool
    ensures { Follows n (b ∷ []) words.old result words.new }
{
    if scopings::level(words, b) != 0 {
        return false;
    }
    scopings::mark(words, b, n.level, n.names);
    true
}

// Where the targets of the transfer at an offset are named, and how many there are.
fn targets(s: &[u8], at: usize) -> (usize, u8)
    ensures { run s.now result.0 result.1 ≡ targets (transfer_at s.now at) }
{
    let first = code::after(at, 1);
    match code::kind_at(s, at) {
        Kind::Goto | Kind::Spork => (first, 1),
        Kind::If => (code::expression_end(s, first), 2),
        Kind::Call => (code::spawn_end(s, first), 1),
        Kind::Return => (first, 0),
        Kind::Spoin => (first, 2),
    }
}

// The targets of the transfer at an offset.
fn follow(s: &[u8], at: usize, words: &mut [u32], n: Nesting) -> bool
    ensures { Follows n (targets (transfer_at s.now at)) words.old result words.new }
{
    let (first, count) = targets(s, at);
    let mut changed = false;
    let mut next = first;
    'named: for _ in 0..count {
        changed |= follow_one(words, code::byte(s, next), n);
        next = code::after(next, 1);
    }
    changed
}

// Block b of function f marks its targets, where it is reached.
fn lead(s: &[u8], transfers: &Transfers, f: usize, b: u8, words: &mut [u32]) -> bool
    ensures { Leads s.now transfers.now f b words.old result words.new }
{
    let level = scopings::level(words, b);
    if level == 0 {
        return false;
    }
    let n = Nesting {
        level,
        names: scopings::names(words, b),
    };
    match transfers::transfer(transfers, f, b as usize) {
        None => false,
        Some(at) => follow(s, at, words, under(s, at, n)),
    }
}

// A round: every block of function f, which has n, upward.
fn lead_all(s: &[u8], transfers: &Transfers, f: usize, n: u8, words: &mut [u32]) -> bool
    ensures { LeadsAll s.now transfers.now f n words.old result words.new }
{
    let mut changed = false;
    for b in 0..n {
        changed |= lead(s, transfers, f, b, words);
    }
    changed
}

// So many rounds, or up to one that changes nothing.
fn rounds<F: Fn(&mut [u32]) -> bool>(n: u16, words: &mut [u32], round: F)
    requires { F.IsAlwaysCallable round }
    ensures { RoundsBy (F.post round) n words.old words.new }
{
    'rounds: for _ in 0..n {
        if !round(words) {
            return;
        }
    }
}

// As many rounds as there are blocks.
fn reach(s: &[u8], transfers: &Transfers, f: usize, n: u8, words: &mut [u32])
    ensures { Reached s.now transfers.now f n words.old words.new }
{
    rounds(
        n as u16,
        words,
        |words: &mut [u32]| lead_all(s, transfers, f, n, words),
    );
}

// At first the entry alone is reached, under no nesting.
fn begin(words: &mut [u32])
    ensures { Begun words.old words.new }
{
    scopings::clear(words);
    scopings::mark(words, 0, 1, 0);
}

// How many blocks function f has.
fn count(s: &[u8], places: &Places, f: usize) -> u8
    ensures { Counts s.now places.now f result }
{
    match places::function(places, f) {
        None => 0,
        Some(at) => code::byte(s, code::after(at, 2)),
    }
}

// The lowest of n blocks that is not reached.
fn low(words: &[u32], n: u8) -> Option<u8>
    ensures { Lows words.now n result }
{
    (0..n).find(|b| scopings::level(words, *b) == 0)
}

// All marks of function f, and the lowest block without one, if there is one.
pub fn unreached(
    s: &[u8],
    places: &Places,
    transfers: &Transfers,
    f: usize,
    words: &mut [u32],
) -> Option<u8>
    ensures { Reaches s.now places.now transfers.now f words.old result
        words.new }
{
    let n = count(s, places, f);
    begin(words);
    reach(s, transfers, f, n, words);
    low(words, n)
}

// The set with n temporaries from an offset on.
fn bind_run(s: &[u8], at: usize, n: u8, set: u16) -> u16
    ensures { result ≡ binding_all set (run s.now at n) }
{
    let mut bound = set;
    let mut next = at;
    'run: for _ in 0..n {
        bound = bound::bind(bound, code::byte(s, next));
        next = code::after(next, 1);
    }
    bound
}

// The set with those of an argument list.
fn bind_list(s: &[u8], at: usize, set: u16) -> u16
    ensures { result ≡ binding_all set (arguments_at s.now at) }
{
    bind_run(s, code::after(at, 1), code::count(s, at), set)
}

// What is bound, and what is needed besides.
#[derive(Clone, Copy, PartialEq, Eq, Debug)]
struct Needed {
    bound: u16,
    needs: u16,
}

// With x, where it is not bound.
fn lacking(n: Needed, x: u8) -> Needed
    ensures { result ≡ lacks n (x ∷ []) }
{
    if bound::holds(n.bound, x) {
        n
    } else {
        Needed {
            needs: bound::bind(n.needs, x),
            ..n
        }
    }
}

// With what an atom uses.
fn atom(s: &[u8], at: usize, n: Needed) -> Needed
    ensures { result ≡ lacks n (uses_atom (atom_at s.now at)) }
{
    if code::byte(s, at) == 0 {
        n
    } else {
        lacking(n, code::byte(s, code::after(at, 1)))
    }
}

// With what an expression uses.
fn expression(s: &[u8], at: usize, n: Needed) -> Needed
    ensures { result ≡ lacks n (uses (expression_at s.now at)) }
{
    let first = code::after(at, 1);
    let more = atom(s, first, n);
    if code::operands(code::byte(s, at) as usize) == 2 {
        atom(s, code::atom_end(s, first), more)
    } else {
        more
    }
}

// With so many temporaries that are used.
fn temporaries(s: &[u8], at: usize, count: u8, n: Needed) -> Needed
    ensures { result ≡ lacks n (run s.now at count) }
{
    let mut more = n;
    let mut next = at;
    'run: for _ in 0..count {
        more = lacking(more, code::byte(s, next));
        next = code::after(next, 1);
    }
    more
}

// With those of an argument list.
fn arguments(s: &[u8], at: usize, n: Needed) -> Needed
    ensures { result ≡ lacks n (arguments_at s.now at) }
{
    temporaries(s, code::after(at, 1), code::count(s, at), n)
}

// Behind so many statements: what they bind is bound, and what they need is needed. And the offset there.
fn statements(s: &[u8], at: usize, count: u8, n: Needed) -> (Needed, usize)
    ensures { result ≡ walked_at n (statements_at s.now at count) (statements_end s.now at count) }
{
    let mut more = n;
    let mut next = at;
    'statements: for _ in 0..count {
        let source = code::after(next, 1);
        more = expression(s, source, more);
        more.bound = bound::bind(more.bound, code::byte(s, next));
        next = code::expression_end(s, source);
    }
    (more, next)
}

// With what the transfer at an offset uses itself.
fn used(s: &[u8], at: usize, n: Needed) -> Needed
    ensures { result ≡ lacks n (used_by (transfer_at s.now at)) }
{
    let first = code::after(at, 1);
    match code::kind_at(s, at) {
        Kind::Goto | Kind::Call => arguments(s, code::after(first, 1), n),
        Kind::If => expression(s, first, n),
        Kind::Return => arguments(s, first, n),
        Kind::Spork | Kind::Spoin => n,
    }
}

// Behind the code at an offset: statements, and their transfer.
fn code_needs(s: &[u8], at: usize, n: Needed) -> Needed
    ensures { result ≡ code_needs_at s.now at n }
{
    let (walked, end) = statements(s, code::after(at, 1), code::byte(s, at), n);
    used(s, end, walked)
}

// What the block at an offset binds, and what is needed with what it needs itself: its parameters are bound, and behind them is its
// code.
fn block_needs(s: &[u8], at: usize, needs: u16) -> Needed
    ensures { result ≡ block_needs_at s.now at needs }
{
    let bound = bind_list(s, at, 0);
    code_needs(s, code::list_end(s, at), Needed { bound, needs })
}

// The arguments of spawn call k of function f are needed.
fn spawn_needs(s: &[u8], places: &Places, f: usize, k: u8, needs: u16) -> u16
    ensures { Binds s.now places.now f k needs result }
{
    match places::spawn(places, f, k as usize) {
        None => needs,
        Some(at) => bind_list(s, code::after(at, 1), needs),
    }
}

// What a nesting needs, outermost first.
fn nesting_needs(s: &[u8], places: &Places, f: usize, n: Nesting, needs: u16) -> u16
    ensures { NestingNeeds s.now places.now f n needs result }
{
    let mut more = needs;
    let mut names = n.names;
    'names: for _ in 1..n.level {
        more = spawn_needs(s, places, f, (names % 256) as u8, more);
        names /= 256;
    }
    more
}

// What block b of function f binds, and its scope with what it needs itself.
fn own(s: &[u8], places: &Places, f: usize, b: u8, words: &[u32]) -> Needed
    ensures { Owns s.now places.now f b words.now result }
{
    match places::block(places, f, b as usize) {
        None => Needed { bound: 0, needs: 0 },
        Some(at) => {
            let n = Nesting {
                level: scopings::level(words, b),
                names: scopings::names(words, b),
            };
            let needs = nesting_needs(s, places, f, n, scopings::scope(words, b));
            block_needs(s, at, needs)
        }
    }
}

// What block b binds, where it is kept.
fn bound_by(bounds: &[u16], b: u8) -> u16
    ensures { result ≡ get_or bounds.now b 0 }
{
    bounds.get(b as usize).copied().unwrap_or(0)
}

// Block b of function f has in its scope what it needs itself, and what it binds is kept.
fn need(s: &[u8], places: &Places, f: usize, b: u8, words: &mut [u32], bounds: &mut [u16])
    ensures { NeedsOwn s.now places.now f b words.old bounds.old
        words.new bounds.new }
{
    let o = own(s, places, f, b, words);
    words::put(bounds, b as usize, o.bound);
    scopings::set_scope(words, b, o.needs);
}

// Every block of function f, which has n, downward.
fn need_all(s: &[u8], places: &Places, f: usize, n: u8, words: &mut [u32], bounds: &mut [u16])
    ensures { NeedsAll s.now places.now f n words.old bounds.old
        words.new bounds.new }
{
    for b in (0..n).rev() {
        need(s, places, f, b, words, bounds);
    }
}

// With what of a scope is not bound.
fn joined(n: Needed, scope: u16) -> Needed
    ensures { result ≡ joining n scope }
{
    Needed {
        needs: n.needs | (scope & !n.bound),
        ..n
    }
}

// With what of block b's scope is not bound.
fn joined_one(words: &[u32], b: u8, n: Needed) -> Needed
    ensures { result ≡ joins n (scope_in words.now) (b ∷ []) }
{
    joined(n, scopings::scope(words, b))
}

// With what of the scopes of the targets of the transfer at an offset is not bound.
fn joined_all(s: &[u8], at: usize, words: &[u32], n: Needed) -> Needed
    ensures { result ≡ joins n (scope_in words.now) (targets (transfer_at s.now at)) }
{
    let (first, count) = targets(s, at);
    let mut more = n;
    let mut next = first;
    'named: for _ in 0..count {
        more = joined_one(words, code::byte(s, next), more);
        next = code::after(next, 1);
    }
    more
}

// The scope of block b of function f, and what the scopes of its targets need and it does not bind.
fn grown(s: &[u8], transfers: &Transfers, f: usize, b: u8, bounds: &[u16], words: &[u32]) -> u16
    ensures { Grown s.now transfers.now f b bounds.now words.now result }
{
    match transfers::transfer(transfers, f, b as usize) {
        None => 0,
        Some(at) => {
            let n = Needed {
                bound: bound_by(bounds, b),
                needs: scopings::scope(words, b),
            };
            joined_all(s, at, words, n).needs
        }
    }
}

// Block b of function f has that scope from now on. Did that change anything?
fn grow(s: &[u8], transfers: &Transfers, f: usize, b: u8, bounds: &[u16], words: &mut [u32]) -> bool
    ensures { Grows s.now transfers.now f b bounds.now words.old result
        words.new }
{
    let scope = grown(s, transfers, f, b, bounds, words);
    if scope == scopings::scope(words, b) {
        return false;
    }
    scopings::set_scope(words, b, scope);
    true
}

// A round: every block of function f, which has n, downward.
fn grow_all(
    s: &[u8],
    transfers: &Transfers,
    f: usize,
    n: u8,
    bounds: &[u16],
    words: &mut [u32],
) -> bool
    ensures { GrowsAll s.now transfers.now f n bounds.now words.old result
        words.new }
{
    let mut changed = false;
    for b in (0..n).rev() {
        changed |= grow(s, transfers, f, b, bounds, words);
    }
    changed
}

// Sixteen times as many rounds as there are blocks.
fn settle(s: &[u8], transfers: &Transfers, f: usize, n: u8, bounds: &[u16], words: &mut [u32])
    ensures { Settles s.now transfers.now f n bounds.now words.old
        words.new }
{
    rounds(
        16 * (n as u16),
        words,
        |words: &mut [u32]| grow_all(s, transfers, f, n, bounds, words),
    );
}

// The temporaries 0 to n - 1, for n below 16.
fn below(n: u8) -> u16
    ensures { result ≡ below (n % 16) }
{
    (1 << (n % 16)) - 1
}

// The entry's scope: the parameters of function f.
fn given(s: &[u8], places: &Places, f: usize) -> u16
    ensures { Enters s.now places.now f result }
{
    match places::function(places, f) {
        None => 0,
        Some(at) => below(code::byte(s, at)),
    }
}

// All marks and scopes of function f.
pub fn infer(s: &[u8], places: &Places, transfers: &Transfers, f: usize, words: &mut [u32])
    ensures { Infers s.now places.now transfers.now f words.old words.new }
{
    let n = count(s, places, f);
    begin(words);
    reach(s, transfers, f, n, words);
    scopings::set_scope(words, 0, given(s, places, f));
    let mut bounds: [u16; Layout::BLOCKS] = [0; Layout::BLOCKS];
    need_all(s, places, f, n, words, &mut bounds);
    settle(s, transfers, f, n, &bounds, words);
}
