// Where the transfer of each block of a table stands: an array of offsets, found once, in which transfers are looked up by number
// without a walk over the statements before them.
#![tactic(auto)]

ghost use Rattle.std.specs.Prelude.{◌≡◌};
ghost use Rattle.code.specs.Bytes.{byte_at, past};
ghost use Rattle.code.specs.Code.{statements_end};
ghost use Rattle.transfers.specs.Transfers.{nowhere, Finds, FindsTransfer};

use places::{Layout, Places};

// The array's record: its length, how many offsets an entry holds, and the entry of a block that is not there.
#[derive(Clone, Copy)]
pub struct Ends {}

impl Ends {
    pub const LEN: usize = Layout::FUNCTIONS * Layout::BLOCKS;

    pub const OFFSETS: usize = 65536;

    pub const ABSENT: u16 = Layout::ABSENT;
}

// The offset of each block's transfer, function by function.
pub type Transfers = [u16; Ends::LEN];

// An array with no transfers. It is one array and no array of arrays, which is no plainer: `index` of the specs has the places in it
// one behind the other.
pub fn none() -> Transfers
    ensures { result ≡ nowhere }
{
    [Ends::ABSENT; Ends::LEN]
}

// Where the transfer stands behind the statements whose number is at an offset.
pub fn behind(s: &[u8], at: usize) -> usize
    ensures { result ≡ statements_end s.now (past at 1) (byte_at s.now at) }
{
    code::statements_end(s, code::after(at, 1), code::byte(s, at))
}

// All transfers of a table, by its places, into an array that has none: behind a function's last block comes the next function.
pub fn find(s: &[u8], places: &Places, transfers: &mut Transfers)
    ensures { Finds s.now places.now transfers.old transfers.new }
{
    for f in 0..Layout::FUNCTIONS {
        for b in 0..Layout::BLOCKS {
            let Some(at) = places::code(places, f, b) else {
                break;
            };
            transfers[Layout::BLOCKS * f + b] = (behind(s, at) % Ends::OFFSETS) as u16;
        }
    }
}

// The transfer of block b of function f.
pub fn transfer(transfers: &Transfers, f: usize, b: usize) -> Option<usize>
    ensures { FindsTransfer transfers.now f b result }
{
    if f < Layout::FUNCTIONS && b < Layout::BLOCKS {
        places::entry(transfers[Layout::BLOCKS * f + b])
    } else {
        None
    }
}
