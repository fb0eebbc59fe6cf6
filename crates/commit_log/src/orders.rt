//! The search for an order in a column of orders.
ghost use Rattle.std.specs.Prelude.{◌≡◌, ◌≢◌, ◌↔◌, ℕ, ◌-◌, ◌≤◌, ◌<◌, length, slice_index, IsTrue};
ghost use Rattle.commit_log.specs.Column.{EndsWith, HasNoOrder};

// So many orders are compared in one go, without a branch.
const BLOCK: usize = 64;

const _: () = prove!(BLOCK == 64);

/// Where the last of these orders from one place to another ends: behind it the orders are others. The first place
/// where there is none.
pub(crate) fn last_end(orders: &[u32], order: u32, from: usize, to: usize) -> usize
    requires before { from ≤ to }
    requires within { to ≤ length orders.now }
    ensures { EndsWith orders.now order from to result }
{
    let mut end = blocks_end(orders, order, from, to);
    while from < end && orders[end - 1] != order {
        end -= 1;
    }
    end
}

// Where the last block that has the order ends, or the rest before all blocks.
fn blocks_end(orders: &[u32], order: u32, from: usize, to: usize) -> usize
    requires before { from ≤ to }
    requires within { to ≤ length orders.now }
    ensures first { from ≤ result }
    ensures within { result ≤ to }
    ensures behind { HasNoOrder orders.now order result to }
{
    let mut end = to;
    while BLOCK <= end - from && are_others(&orders[end - BLOCK..end], order) {
        end -= BLOCK;
    }
    end
}

fn are_others(block: &[u32], order: u32) -> bool
    ensures { IsTrue result ↔ HasNoOrder block.now order 0 (length block.now) }
{
    let mut others = true;
    for other in block {
        others &= *other != order;
    }
    others
}
