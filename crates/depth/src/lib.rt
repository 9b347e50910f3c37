// The depth of a table: the greatest number of frames that a chain of calls can need. The longest chain from a function is worked out
// from those of its callees, with the number of functions left as the falling measure; each function is worked out once.
#![tactic(auto)]

ghost use Rattle.std.specs.Prelude.{◌≡◌, cond, leb, get_or};
ghost use Rattle.std.proofs.Math.Option.{none, some};
ghost use Rattle.chains.specs.Depth as Model;
ghost use Rattle.depth.specs.Works.{FindsCall, chain_of, AtMost, Works, WorksAll, needed_of};

use answers::{No, Refusal};
use code::{Kind, Table};
use places::{Layout, Places};

// What the transfer of block b of function f calls: a function by its number, or nothing; or that there is no such block.
fn call_of(s: &[u8], places: &Places, f: usize, b: usize) -> Option<Option<u8>>
    ensures { FindsCall s.now places.now f b result }
{
    let at = places::code(places, f, b)?;
    let end = code::statements_end(s, code::after(at, 1), code::byte(s, at));
    if let Kind::Call = code::kind_at(s, end) {
        Some(Some(code::byte(s, code::after(end, 1))))
    } else {
        Some(None)
    }
}

// The depth that is known of function f; 0 where none is.
fn recalled(known: &[u8], f: usize) -> u8
    ensures { result ≡ get_or known.now f 0 }
{
    known.get(f).copied().unwrap_or(0)
}

// A depth that is known, for so many functions left.
fn within(d: u8, left: u8) -> Option<u8>
    ensures { AtMost left result × (chain_of result ≡ cond (leb d left) (some d) none) }
{
    (d <= left).then_some(d)
}

// The frames of the longest chain from function f, with so many functions left: its own, and those of its deepest callee. None where
// the functions left do not suffice for it.
fn frames(s: &[u8], places: &Places, known: &mut [u8], left: u8, f: usize) -> Option<u8>
    ensures within { AtMost left result }
    ensures is { Works s.now places.now known.old left f result known.new }
{
    if left == 0 {
        return None;
    }
    let d = recalled(known, f);
    if d != 0 {
        return within(d, left);
    }
    let mut most = 1;
    for b in 0..Layout::BLOCKS {
        let Some(called) = call_of(s, places, f, b) else {
            break;
        };
        if let Some(g) = called {
            let n = frames(s, places, known, left - 1, g as usize)?;
            most = most.max(n + 1);
        }
    }
    words::put(known, f, most);
    Some(most)
}

// The greatest over n functions as the first, from the last on.
fn deepest(s: &[u8], places: &Places, n: u8) -> Option<u8>
    ensures { WorksAll s.now places.now n result }
{
    let mut known = [0u8; Layout::FUNCTIONS];
    let mut most = 0;
    for f in (0..n as usize).rev() {
        let d = frames(s, places, &mut known, n, f)?;
        most = most.max(d);
    }
    Some(most)
}

// The depth of a table: the frames, or 1 to 11 or 22.
pub fn depth(s: &[u8]) -> Result<u8, Refusal>
    ensures { needed_of result ≡ Model.depth s.now }
{
    let mut places = places::none();
    verifier::check_placed(s, &mut places)?;
    deepest(s, &places, code::byte(s, Table::FUNCTIONS_AT)).ok_or(Refusal::Plain(No::CYCLE))
}
