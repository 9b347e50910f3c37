// The program: standard input is read, and what `flow` makes of it is written to standard output. Nothing else happens here.
#![tactic(auto)]

use flow::{Bytes, Run};
use places::Places;
use pool::{Pool, Words};
use std::env::{Env, FillError};
use std::io::{Read, Stdin};

// Where text and messages go.
const STDOUT_FILENO: i32 = 1;

const STDERR_FILENO: i32 = 2;

// Where the verdict goes, if it is asked for.
const VERDICT_FILENO: i32 = 3;

// Why a run has no verdict: a read or a write failed.
#[derive(Clone, Copy, PartialEq, Eq, Debug)]
pub enum Failure {
    Input,
    Output,
}

impl Failure {
    // What is said of it.
    fn message(self) -> &'static [u8] {
        match self {
            Failure::Input => b"mezdaulk: standard input cannot be read\n",
            Failure::Output => b"mezdaulk: standard output cannot be written\n",
        }
    }
}

// Text is written.
fn print(out: &[u8], n: usize) -> Result<(), Failure> {
    if io::write_all(STDOUT_FILENO, flow::front(out, n)) {
        Ok(())
    } else {
        Err(Failure::Output)
    }
}

// The end of the input: the last text, and the verdict.
fn finish(
    table: &[u8; Bytes::TABLE],
    places: &Places,
    ws: &Words,
    out: &mut [u8; Bytes::TEXT],
    run: Run,
) -> Result<bool, Failure> {
    let n = flow::end(table, places, ws, out, run);
    print(out, n)?;
    Ok(flow::fine(run))
}

// The input, piece by piece, until the run is closed to it: each piece is fed as soon as it has come, and its text written. A loop has
// to end, and nothing says that the input does: the pieces are counted up to a number that no run uses up.
fn serve(
    input: &mut Stdin,
    table: &mut [u8; Bytes::TABLE],
    places: &mut Places,
    ws: &mut Words,
    out: &mut [u8; Bytes::TEXT],
    piece: &mut [u8; Bytes::PIECE],
) -> Result<bool, Failure> {
    let mut run = flow::begin();
    for _ in 0..u64::MAX {
        if flow::closed(run) {
            break;
        }
        let n = input.read(piece).map_err(|_| Failure::Input)?;
        if n == 0 {
            break;
        }
        run = flow::feed(table, places, ws, out, run, flow::front(piece, n));
        print(out, run.said)?;
    }
    finish(table, places, ws, out, run)
}

// Whether the program was started with an argument.
fn is_asked(rt: &HostRuntime) -> bool {
    let mut word = [0u8; 1];
    match rt.arg(1, &mut word) {
        Ok(_) | Err(FillError::TooLong) => true,
        Err(FillError::NotPresent) => false,
    }
}

// The verdict in a line, if the program was started with an argument: 0 where the table was accepted and every choice made, 1 where one
// was refused. A failure is said, and there is no verdict then.
fn conclude(rt: &HostRuntime, how: Result<bool, Failure>) {
    match how {
        Ok(fine) => {
            if is_asked(rt) {
                io::write_all(VERDICT_FILENO, if fine { b"0\n" } else { b"1\n" });
            }
        }
        Err(why) => {
            io::write_all(STDERR_FILENO, why.message());
        }
    }
}

fn main(rt: HostRuntime) {
    let mut table = [0u8; Bytes::TABLE];
    let mut places = places::none();
    let mut ws = [0i32; Pool::WORDS];
    let mut out = [0u8; Bytes::TEXT];
    let mut piece = [0u8; Bytes::PIECE];
    let how = serve(
        &mut rt.stdin(),
        &mut table,
        &mut places,
        &mut ws,
        &mut out,
        &mut piece,
    );
    conclude(&rt, how);
}
