// Text into lent bytes: words, decimals and lines. Each function is given the place where its text begins, and gives the place
// behind it. What does not fit is counted and not written.
#![tactic(auto)]

ghost use Rattle.model.specs.Text.{newline, decimal, part, signed_part};
ghost use Rattle.puts.specs.Puts.{Puts};

// A number in decimal.
pub fn decimal(out: &mut [u8], at: usize, n: u64) -> usize
    ensures { Puts out.old at (decimal n) result out.new }
{
    // One digit needs no buffer.
    if n < 10 {
        return puts::byte(out, at, b'0' + (n as u8));
    }
    let mut digits = [0u8; 20];
    let k = io::decimal(n, &mut digits);
    puts::bytes(out, at, &digits[..k])
}

// A space, and a number.
pub fn part(out: &mut [u8], at: usize, n: u64) -> usize
    ensures { Puts out.old at (part n) result out.new }
{
    let k = puts::byte(out, at, b' ');
    decimal(out, k, n)
}

// A space, and a signed number.
pub fn signed_part(out: &mut [u8], at: usize, x: i32) -> usize
    ensures { Puts out.old at (signed_part x) result out.new }
{
    let n = u64::from(x.unsigned_abs());
    if x < 0 {
        let k = puts::bytes(out, at, b" -");
        decimal(out, k, n)
    } else {
        part(out, at, n)
    }
}

// The end of a line.
pub fn line(out: &mut [u8], at: usize) -> usize
    ensures { Puts out.old at newline result out.new }
{
    puts::byte(out, at, b'\n')
}
