// What every call on a pool is lent: the table and as many words as a pool has (1 to 3, 12), and the table and a pool of it (1 to
// 3, 12, 13). The table alone (1 to 3) is lent by `table::read`. The places, handed in with none, are left as the table's reading
// leaves them; the words are only read.
#![tactic(auto)]

ghost use Rattle.lend.specs.Lent.{LendsWords, LendsPool};

use answers::{No, Refusal};
use places::Places;
use pool::Pool;

// The table, and as many words as a pool has.
pub fn words(table: &[u8], places: &mut Places, pool: &[i32]) -> Result<(), Refusal>
    ensures { LendsWords table.now pool.now places.old places.new result }
{
    table::read(table, places)?;
    if pool.len() != Pool::WORDS {
        return Err(Refusal::Plain(No::WORDS));
    }
    Ok(())
}

// The table, and a pool of it.
pub fn pool(table: &[u8], places: &mut Places, pool: &[i32]) -> Result<(), Refusal>
    ensures { LendsPool table.now pool.now places.old places.new result }
{
    words(table, places, pool)?;
    if !valid::is_pool(table, places, pool) {
        return Err(Refusal::Plain(No::POOL));
    }
    Ok(())
}
