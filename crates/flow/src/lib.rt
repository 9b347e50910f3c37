// The program over lent memory: the input's bytes in, in pieces of any length, and the text that they make it print out. What it keeps
// between two pieces is the table, its places, the pool, and a `Run`.
#![tactic(auto)]

ghost use Rattle.std.specs.Prelude.{◌≡◌, take as List·take};
ghost use Rattle.flow.specs.declared.Phase.TheVariants.{Taking};
ghost use Rattle.flow.specs.Stages as Stages;
ghost use Rattle.flow.specs.Stands.{memory, run_at, Looks, Opens, Chosen, TakesByte, TakesAny, Feeds, Ends, Tells};

use answers::{No, Refusal};
use places::Places;
use pool::Words;

// What the bytes that come are taken for: the table's, choices', or nothing, since a choice or the table was refused.
#[derive(Clone, Copy, PartialEq, Eq, Debug)]
pub enum Phase {
    Taking,
    Choosing,
    Stopped,
    Over,
}

// How many bytes of the table have come; the next choice's index, and its kind once that has come; and where the text of the piece
// ends.
#[derive(Clone, Copy, PartialEq, Eq, Debug)]
pub struct Run {
    pub phase: Phase,
    pub taken: usize,
    pub index: u64,
    pub kind: Option<u8>,
    pub said: usize,
}

// How many bytes a table has at least and at most, a piece of the input at most, and its text at most.
#[derive(Clone, Copy)]
pub struct Bytes;

impl Bytes {
    pub const LEAST: usize = 6;

    pub const TABLE: usize = 16384;

    pub const PIECE: usize = 4096;

    pub const TEXT: usize = 96 * Bytes::PIECE;
}

// The first n bytes; all where there are fewer.
pub fn front(s: &[u8], n: usize) -> &[u8]
    ensures { result.now ≡ List·take n s.now }
{
    &s[..n.min(s.len())]
}

// A run at a byte of the table, or before a choice's kind.
fn run_at(phase: Phase, taken: usize, index: u64, said: usize) -> Run
    ensures { result ≡ run_at phase taken index said }
{
    Run {
        phase,
        taken,
        index,
        kind: None,
        said,
    }
}

// Nothing has come.
pub fn begin() -> Run
    ensures { result ≡ run_at Taking 0 0 0 }
{
    run_at(Phase::Taking, 0, 0, 0)
}

// Whether the first n bytes are a whole table: as many as their length field says, or that is no table's length.
fn whole(table: &[u8], n: usize) -> bool
    ensures { Looks table.now n result }
{
    if n < 4 {
        return false;
    }
    let size = table::length_field(table) as usize;
    if size < Bytes::LEAST || Bytes::TABLE < size {
        return true;
    }
    size <= n
}

// A whole table is checked, and a pool started where it is accepted.
fn open(t: &[u8], places: &mut Places, ws: &mut Words, out: &mut [u8], said: usize) -> Run
    ensures { Opens t.now places.old places.new ws.new out.old said result
        out.new }
{
    match verifier::check_placed(t, places) {
        Ok(()) => {
            pool::start_pool(ws);
            let k = puts::bytes(out, said, b"accepted\n");
            run_at(Phase::Choosing, t.len(), 0, k)
        }
        Err(why) => {
            let k = lines::refusal(out, said, why);
            let k = text::line(out, k);
            run_at(Phase::Over, t.len(), 0, k)
        }
    }
}

// A byte of the table. The table, its places and the pool stay three parameters here: `feed` and `end`, which docs/PROMISES.md names, are
// lent them so.
fn take(
    table: &mut [u8; Bytes::TABLE],
    places: &mut Places,
    ws: &mut Words,
    out: &mut [u8],
    run: Run,
    b: u8,
) -> Run
    ensures { TakesByte (memory table.old places.old ws.old) out.old run b result
        (memory table.new places.new ws.new) out.new }
{
    let n = run.taken;
    if Bytes::TABLE <= n {
        return run;
    }
    table[n] = b;
    if whole(table, n + 1) {
        return open(front(table, n + 1), places, ws, out, run.said);
    }
    run_at(Phase::Taking, n + 1, 0, run.said)
}

// A choice, whose kind has come.
fn choose(
    t: &[u8],
    places: &Places,
    ws: &mut Words,
    out: &mut [u8],
    run: Run,
    kind: u8,
    thread: u8,
) -> Run
    ensures { Chosen t.now places.now ws.old out.old run kind thread result
        ws.new out.new }
{
    let made = steps::choice(t, places, ws, kind as u32, thread as u32);
    let k = lines::choice(out, run.said, run.index, kind, thread, made);
    match made {
        Ok(_) => run_at(Phase::Choosing, run.taken, run.index.wrapping_add(1), k),
        Err(_) => run_at(Phase::Stopped, run.taken, run.index, k),
    }
}

// The next byte.
fn put(
    table: &mut [u8; Bytes::TABLE],
    places: &mut Places,
    ws: &mut Words,
    out: &mut [u8],
    run: Run,
    b: u8,
) -> Run
    ensures { TakesAny (memory table.old places.old ws.old) out.old run b result
        (memory table.new places.new ws.new) out.new }
{
    match run.phase {
        Phase::Taking => take(table, places, ws, out, run, b),
        Phase::Choosing => match run.kind {
            Some(kind) => choose(front(table, run.taken), places, ws, out, run, kind, b),
            None => Run {
                kind: Some(b),
                ..run
            },
        },
        Phase::Stopped | Phase::Over => run,
    }
}

// A piece of the input: its text is put at the start of out.
pub fn feed(
    table: &mut [u8; Bytes::TABLE],
    places: &mut Places,
    ws: &mut Words,
    out: &mut [u8; Bytes::TEXT],
    run: Run,
    piece: &[u8],
) -> Run
    ensures { Feeds (memory table.old places.old ws.old) out.old run piece.now
        result (memory table.new places.new ws.new) out.new }
{
    let mut r = Run { said: 0, ..run };
    for b in piece {
        r = put(table, places, ws, out, r, *b);
    }
    r
}

// The end of the input: how long its text is, which is put at the start of out.
pub fn end(
    table: &[u8; Bytes::TABLE],
    places: &Places,
    ws: &Words,
    out: &mut [u8; Bytes::TEXT],
    run: Run,
) -> usize
    ensures { Ends (memory table.now places.now ws.now) out.old run result
        out.new }
{
    match run.phase {
        Phase::Taking => {
            let k = lines::refusal(out, 0, Refusal::Plain(No::SIZE));
            text::line(out, k)
        }
        Phase::Choosing | Phase::Stopped => lines::result(
            out,
            0,
            steps::ended(front(table, run.taken), places, ws, 0),
        ),
        Phase::Over => 0,
    }
}

// Whether the run is closed to further bytes: nothing more is printed of them.
pub fn closed(run: Run) -> bool
    ensures { Tells Stages.closed run result }
{
    matches!(run.phase, Phase::Stopped | Phase::Over)
}

// Whether the table was accepted and every choice made.
pub fn fine(run: Run) -> bool
    ensures { Tells Stages.fine run result }
{
    matches!(run.phase, Phase::Choosing)
}
