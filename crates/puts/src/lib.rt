// Bytes into lent bytes. Each function is given the place where its bytes begin, and gives the place behind them. What does not fit is
// counted and not written. The bytes and the place are no struct: the place would be written to memory for each byte, and each contract
// would have to say besides that the bytes stay as many as they are.
#![tactic(auto)]

ghost use Rattle.std.specs.Prelude.{◌+◌, ◌≤◌, ◌≡◌, [], ◌∷◌, length};
ghost use Rattle.std.proofs.lemmas.List.Edits.{sets};
ghost use Rattle.model.specs.Write as Write;
ghost use Rattle.puts.specs.Puts.{Puts, stretch};

// One byte.
pub fn byte(out: &mut [u8], at: usize, b: u8) -> usize
    ensures { Puts out.old at (b ∷ []) result out.new }
{
    if at < out.len() {
        out[at] = b;
    }
    at.saturating_add(1)
}

// All bytes of s, for which there is room. By a loop, and not by `copy_from_slice`: that may call memmove, which a host of the static
// library need not have.
fn copy(out: &mut [u8], at: usize, s: &[u8])
    requires { at + length s.now ≤ length out.old }
    ensures { out.new ≡ sets out.old at s.now }
{
    for i in 0..s.len() {
        out[at + i] = s[i];
    }
}

// The bytes of s.
pub fn bytes(out: &mut [u8], at: usize, s: &[u8]) -> usize
    ensures { Puts out.old at s.now result out.new }
{
    if at < out.len() {
        let n = s.len().min(out.len() - at);
        copy(out, at, &s[..n]);
    }
    at.saturating_add(s.len())
}

// The bytes of s between two offsets; none where these are not two offsets of s in their order.
pub fn stretch(out: &mut [u8], at: usize, s: &[u8], from: usize, to: usize) -> usize
    ensures { Puts out.old at (stretch s.now from to) result out.new }
{
    match s.get(from..to) {
        Some(part) => bytes(out, at, part),
        None => at,
    }
}

// A number of two bytes, and of four, big-endian.
pub fn half(out: &mut [u8], at: usize, n: u16) -> usize
    ensures { Puts out.old at (Write.half n) result out.new }
{
    bytes(out, at, &n.to_be_bytes())
}

pub fn word(out: &mut [u8], at: usize, n: u32) -> usize
    ensures { Puts out.old at (Write.word n) result out.new }
{
    bytes(out, at, &n.to_be_bytes())
}
