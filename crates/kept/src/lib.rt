// What a tidy table keeps: the blocks, spawn calls and functions, as lists of old numbers in their new order.
#![tactic(auto)]

ghost use Rattle.std.specs.Prelude.{◌≡◌, [], ◌∷◌, ◌+◌};
ghost use Rattle.code.specs.Bytes.{byte_at};
ghost use Rattle.code.specs.Code.{run, transfer_at};
ghost use Rattle.model.specs.Syntax.{targets, sporked_by};
ghost use Rattle.numbering.specs.Tidy.{mentioned_in};
ghost use Rattle.kept.specs.Kept.{most, nothing, number_in, Adds, Placed, Ended, Known, AddsIn, spawns_by, functions_by, spawned_of};
ghost use Rattle.kept.specs.Kept.{spawned_from, called_from, by_transfer, called_in, KeepsBlocks, KeepsSpawns, KeepsFunctions};

use code::Kind;
use places::{Layout, Places};
use transfers::Transfers;

// A list of kept numbers: its first `count` places have the old numbers in their new order, and for each old number there is its new
// number, or ABSENT. Arrays and a count, since nothing is on the heap.
#[derive(Clone, Copy, PartialEq, Eq, Debug)]
pub struct Kept {
    pub order: [u8; Kept::MOST],
    pub numbers: [u8; Kept::MOST],
    pub count: u8,
}

impl Kept {
    pub const MOST: usize = 32;

    // Where the new numbers begin, where a list is lent as bytes: its order, and behind it the new numbers.
    pub const NUMBERS_FROM: usize = Kept::MOST;

    pub const ABSENT: u8 = 255;

    // Nothing is kept.
    pub fn none() -> Kept
        ensures { result ≡ nothing }
    {
        Kept {
            order: [Kept::ABSENT; Kept::MOST],
            numbers: [Kept::ABSENT; Kept::MOST],
            count: 0,
        }
    }

    // The new number of x.
    pub fn number(&self, x: u8) -> u8
        ensures { result ≡ number_in self.now x }
    {
        code::byte(&self.numbers, x as usize)
    }

    // A mention of x: it comes to the end, where it is not among them yet.
    fn mention(&mut self, x: u8)
        ensures { Adds self.old (x ∷ []) self.new }
    {
        if self.number(x) != Kept::ABSENT {
            return;
        }
        words::put(&mut self.order, self.count as usize, x);
        words::put(&mut self.numbers, x as usize, self.count);
        self.count = self.count.saturating_add(1);
    }
}

// The new number of x in a list that is lent as bytes, of any length.
pub fn number(list: &[u8], x: u8) -> u8
    ensures { result ≡ byte_at list.now (most + x) }
{
    code::byte(list, Kept::NUMBERS_FROM + x as usize)
}

// The two names at an offset.
fn mention_two(s: &[u8], at: usize, list: &mut Kept)
    ensures { Adds list.old (run s.now at 2) list.new }
{
    list.mention(code::byte(s, at));
    list.mention(code::byte(s, code::after(at, 1)));
}

// The blocks that the transfer at an offset names.
fn targets(s: &[u8], at: usize, list: &mut Kept)
    ensures { Adds list.old (targets (transfer_at s.now at)) list.new }
{
    let first = code::after(at, 1);
    match code::kind_at(s, at) {
        Kind::Goto => list.mention(code::byte(s, first)),
        Kind::If => mention_two(s, code::expression_end(s, first), list),
        Kind::Call => list.mention(code::byte(s, code::spawn_end(s, first))),
        Kind::Return => {}
        Kind::Spork => list.mention(code::byte(s, first)),
        Kind::Spoin => mention_two(s, first, list),
    }
}

// The blocks that block b of function f names.
fn targets_in(s: &[u8], transfers: &Transfers, f: usize, b: u8, list: &mut Kept)
    ensures { AddsIn (Ended s.now transfers.now) f (by_transfer targets b) list.old list.new }
{
    if let Some(at) = transfers::transfer(transfers, f, b as usize) {
        targets(s, at, list);
    }
}

// The kept blocks of function f, the entry first: a list that grows while it is gone through.
pub fn blocks(s: &[u8], transfers: &Transfers, f: usize) -> Kept
    ensures { KeepsBlocks s.now transfers.now f result }
{
    let mut list = Kept::none();
    list.mention(0);
    for i in 0..Layout::BLOCKS {
        if list.count as usize <= i {
            return list;
        }
        targets_in(s, transfers, f, code::byte(&list.order, i), &mut list);
    }
    list
}

// So many names from an offset on.
fn mention_names(s: &[u8], at: usize, count: u8, list: &mut Kept)
    ensures { Adds list.old (run s.now at count) list.new }
{
    let mut next = at;
    'names: for _ in 0..count {
        list.mention(code::byte(s, next));
        next = code::after(next, 1);
    }
}

// The spawn call that the transfer at an offset names, if it is a spork.
fn sporked(s: &[u8], at: usize, list: &mut Kept)
    ensures { Adds list.old (sporked_by (transfer_at s.now at)) list.new }
{
    if let Kind::Spork = code::kind_at(s, at) {
        list.mention(code::byte(s, code::after(at, 2)));
    }
}

// The spawn call that the transfer of block b of function f names. It is `targets_in` but for one call; a closure for it is no plainer.
fn sporked_in(s: &[u8], transfers: &Transfers, f: usize, b: u8, list: &mut Kept)
    ensures { AddsIn (Ended s.now transfers.now) f (by_transfer sporked_by b) list.old list.new }
{
    if let Some(at) = transfers::transfer(transfers, f, b as usize) {
        sporked(s, at, list);
    }
}

// The spawn calls that block b of function f names: its nesting, then its transfer.
fn spawns_in(s: &[u8], places: &Places, transfers: &Transfers, f: usize, b: u8, list: &mut Kept)
    ensures { AddsIn (Known s.now places.now transfers.now) f (spawns_by b) list.old list.new }
{
    if let Some(at) = places::block(places, f, b as usize) {
        let h = code::head(s, at);
        mention_names(s, h.nesting, h.depth, list);
        sporked_in(s, transfers, f, b, list);
    }
}

// The kept spawn calls of function f, by its kept blocks.
pub fn spawns(s: &[u8], places: &Places, transfers: &Transfers, f: usize, blocks: &Kept) -> Kept
    ensures { KeepsSpawns s.now places.now transfers.now f blocks.now result }
{
    let mut list = Kept::none();
    for i in 0..blocks.count {
        spawns_in(
            s,
            places,
            transfers,
            f,
            code::byte(&blocks.order, i as usize),
            &mut list,
        );
    }
    list
}

// The function of spawn call k of function f.
fn spawned(s: &[u8], places: &Places, f: usize, k: u8, list: &mut Kept)
    ensures { AddsIn (Placed s.now places.now) f (spawned_of k) list.old list.new }
{
    if let Some(call) = places::spawn(places, f, k as usize) {
        list.mention(code::byte(s, call));
    }
}

// The functions of so many spawn calls, which are named from an offset on.
fn spawned_names(s: &[u8], places: &Places, f: usize, at: usize, count: u8, list: &mut Kept)
    ensures { AddsIn (Placed s.now places.now) f (spawned_from s.now at count) list.old list.new }
{
    let mut next = at;
    'names: for _ in 0..count {
        spawned(s, places, f, code::byte(s, next), list);
        next = code::after(next, 1);
    }
}

// The function that the transfer at an offset names: a call's, or that of a spork's spawn call.
fn called(s: &[u8], places: &Places, f: usize, at: usize, list: &mut Kept)
    ensures { AddsIn (Placed s.now places.now) f (called_from s.now at) list.old list.new }
{
    match code::kind_at(s, at) {
        Kind::Call => list.mention(code::byte(s, code::after(at, 1))),
        Kind::Spork => spawned(s, places, f, code::byte(s, code::after(at, 2)), list),
        Kind::Goto | Kind::If | Kind::Return | Kind::Spoin => {}
    }
}

// The function that the transfer of block b of function f names.
fn called_in(s: &[u8], places: &Places, transfers: &Transfers, f: usize, b: u8, list: &mut Kept)
    ensures { AddsIn (Known s.now places.now transfers.now) f (called_in b) list.old list.new }
{
    if let Some(at) = transfers::transfer(transfers, f, b as usize) {
        called(s, places, f, at, list);
    }
}

// The functions that block b of function f names: by its nesting, then by its transfer.
fn functions_in(s: &[u8], places: &Places, transfers: &Transfers, f: usize, b: u8, list: &mut Kept)
    ensures { AddsIn (Known s.now places.now transfers.now) f (functions_by b) list.old list.new }
{
    if let Some(at) = places::block(places, f, b as usize) {
        let h = code::head(s, at);
        spawned_names(s, places, f, h.nesting, h.depth, list);
        called_in(s, places, transfers, f, b, list);
    }
}

// The functions that function f names in its kept blocks.
fn mentioned_in(s: &[u8], places: &Places, transfers: &Transfers, f: usize, list: &mut Kept)
    ensures { AddsIn (Known s.now places.now transfers.now) f mentioned_in list.old list.new }
{
    let kept = blocks(s, transfers, f);
    for i in 0..kept.count {
        functions_in(
            s,
            places,
            transfers,
            f,
            code::byte(&kept.order, i as usize),
            list,
        );
    }
}

// The kept functions, main first.
pub fn functions(s: &[u8], places: &Places, transfers: &Transfers) -> Kept
    ensures { KeepsFunctions s.now places.now transfers.now result }
{
    let mut list = Kept::none();
    list.mention(0);
    for i in 0..Layout::FUNCTIONS {
        if list.count as usize <= i {
            return list;
        }
        let f = code::byte(&list.order, i);
        mentioned_in(s, places, transfers, f as usize, &mut list);
    }
    list
}
