// The program `starts`: where each frame of a pool begins, by the pool's formula, one number a line. It reads nothing.
#![tactic(auto)]

ghost use Rattle.std.specs.Prelude.{◌≡◌, ◌<◌};
ghost use Rattle.model.specs.Pool.{most_threads, most_frames, start_of};
ghost use Rattle.puts.specs.Puts.{Puts};
ghost use Rattle.starts.specs.Starts.{in_turn, line, printed};

use pool::Pool;

// Where the text goes, and a message.
const STDOUT_FILENO: i32 = 1;

const STDERR_FILENO: i32 = 2;

// How long a line can get, four digits and its end, and the text.
const LINE: usize = 5;

const BYTES: usize = Pool::THREADS * Pool::FRAMES * LINE;

// A thread's lines, oldest frame first, from a place on; the place behind them.
fn thread_lines(out: &mut [u8], at: usize, thread: usize) -> usize
    requires { thread < most_threads }
    ensures { Puts out.old at (in_turn most_frames (λ j. line (start_of thread j))) result out.new }
{
    let mut k = at;
    for frame in 0..Pool::FRAMES {
        k = text::decimal(out, k, Pool::frame_start(thread, frame) as u64);
        k = text::line(out, k);
    }
    k
}

// All lines, thread by thread, from the start on; the place behind them.
fn lines(out: &mut [u8]) -> usize
    ensures { Puts out.old 0 printed result out.new }
{
    let mut k = 0;
    for thread in 0..Pool::THREADS {
        k = thread_lines(out, k, thread);
    }
    k
}

// What is printed is handed over to be written.
fn print(text: &[u8]) -> bool
    requires { text.now ≡ printed }
{
    io::write_all(STDOUT_FILENO, text)
}

fn main(_rt: HostRuntime) {
    let mut out = [0u8; BYTES];
    let n = lines(&mut out);
    if !print(&out[..n]) {
        io::write_all(
            STDERR_FILENO,
            b"starts: standard output cannot be written\n",
        );
    }
}
