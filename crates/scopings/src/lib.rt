// The scoping of each block of a function in lent words, two for each block. Every function takes any words and any block: a word that
// is not there reads as 0 and is not written.
#![tactic(auto)]

ghost use Rattle.std.specs.Prelude.{◌≡◌, ◌+◌, ◌*◌, ◌%◌, get_or};
ghost use Rattle.scopings.specs.Words.{scope_in};
ghost use Rattle.scopings.specs.Changes.{Cleared, level_in, names_in, marked, scoped};

// How many scopes there are: a scope is the low half of a word.
const SCOPES: u32 = 65536;

// Word i.
fn word(words: &[u32], i: usize) -> u32
    ensures { result ≡ get_or words.now i 0 }
{
    words.get(i).copied().unwrap_or(0)
}

// The first word of block b.
fn first(b: u8) -> usize
    ensures { result ≡ 2 * b }
{
    2 * (b as usize)
}

// The scope of block b.
pub fn scope(words: &[u32], b: u8) -> u16
    ensures { result ≡ scope_in words.now b }
{
    (word(words, first(b)) % SCOPES) as u16
}

// 0 where block b is not reached, and otherwise one more than the number of its nesting's names.
pub fn level(words: &[u32], b: u8) -> u16
    ensures { result ≡ level_in words.now b }
{
    (word(words, first(b)) / SCOPES) as u16
}

// The same as a byte.
pub fn depth(words: &[u32], b: u8) -> u8
    ensures { result ≡ level_in words.now b % 256 }
{
    (level(words, b) % 256) as u8
}

// The names of block b's nesting.
pub fn names(words: &[u32], b: u8) -> u32
    ensures { result ≡ names_in words.now b }
{
    word(words, first(b) + 1)
}

// Block b has this level and these names from now on.
pub fn mark(words: &mut [u32], b: u8, level: u16, names: u32)
    ensures { words.new ≡ marked words.old b level names }
{
    let at = first(b);
    let kept = word(words, at) % SCOPES;
    words::put(words, at, kept + SCOPES * (level as u32));
    words::put(words, at + 1, names);
}

// Block b has this scope from now on.
pub fn set_scope(words: &mut [u32], b: u8, scope: u16)
    ensures { words.new ≡ scoped words.old b scope }
{
    let at = first(b);
    let kept = word(words, at) / SCOPES;
    words::put(words, at, scope as u32 + SCOPES * kept);
}

// Every word becomes 0: no block is reached, and every scope is empty.
pub fn clear(words: &mut [u32])
    ensures { Cleared words.old words.new }
{
    words.fill(0);
}
