// What code over numbers needs: the 32 bits of a signed word, big-endian numbers, runs of words, and an item at a place of any list.
#![tactic(auto)]

ghost use Rattle.std.specs.Prelude.{◌≡◌, ◌+◌, ◌*◌, ◌≤◌, length, set};
ghost use Rattle.std.specs.Int.{w32};
ghost use Rattle.std.proofs.Common.{of_z, to_z};
ghost use Rattle.words.specs.Runs.{pasted, moved, cleared};

// The 32 bits of a signed word, as an unsigned number.
pub fn bits(x: i32) -> u32
    ensures { result ≡ of_z w32 x }
{
    x.cast_unsigned()
}

// The signed word of 32 bits.
pub fn signed(n: u32) -> i32
    ensures { result ≡ to_z w32 n }
{
    n.cast_signed()
}

// Big-endian numbers: of two bytes, and of two halves.
pub fn half(a: u8, b: u8) -> u16
    ensures { result ≡ a * 256 + b }
{
    u16::from_be_bytes([a, b])
}

pub fn word(a: u16, b: u16) -> u32
    ensures { result ≡ a * 65536 + b }
{
    // No plainer: `from_be_bytes` would first take both halves apart.
    (a as u32) * 65536 + (b as u32)
}

// The words of s, put into d from at on.
pub fn copy(d: &mut [i32], at: usize, s: &[i32])
    requires { at + length s.now ≤ length d.old }
    ensures { d.new ≡ pasted d.old at s.now }
{
    d[at..at + s.len()].copy_from_slice(s);
}

// n words, moved from one place to another that may overlap it. By loops, and not by `copy_within`: that is a call of memmove, which a
// host of the static library need not have.
pub fn move_run(d: &mut [i32], from: usize, to: usize, n: usize)
    requires { (from + n ≤ length d.old) × (to + n ≤ length d.old) }
    ensures { d.new ≡ moved d.old from to n }
{
    if to <= from {
        move_down(d, from, to, n)
    } else {
        move_up(d, from, to, n)
    }
}

fn move_down(d: &mut [i32], from: usize, to: usize, n: usize)
    requires { (from + n ≤ length d.old) × (to ≤ from) }
    ensures { d.new ≡ moved d.old from to n }
{
    for i in 0..n {
        d[to + i] = d[from + i];
    }
}

fn move_up(d: &mut [i32], from: usize, to: usize, n: usize)
    requires { (to + n ≤ length d.old) × (from ≤ to) }
    ensures { d.new ≡ moved d.old from to n }
{
    for left in (0..n).rev() {
        d[to + left] = d[from + left];
    }
}

// x at place i, where there is one. By index: behind `get_mut` no other item of the list is known.
pub fn put<T: Copy>(list: &mut [T], i: usize, x: T)
    ensures { list.new ≡ set list.old i x }
{
    if i < list.len() {
        list[i] = x;
    }
}

// n words, set to 0.
pub fn clear(d: &mut [i32], at: usize, n: usize)
    requires { at + n ≤ length d.old }
    ensures { d.new ≡ cleared d.old at n }
{
    d[at..at + n].fill(0);
}
