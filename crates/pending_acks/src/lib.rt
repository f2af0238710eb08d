// The packet numbers received and to be acknowledged (01, Ack recording; spaces.rs, PendingAcks): a range set of at most 64 ranges on a lent list.
// The set's rules are `range_set`'s. What is added here is the limit, at which the lowest range is dropped, and what that means for a history.
#![tactic(auto)]

ghost use Rattle.std.specs.Prelude.{◌≡◌};
ghost use Rattle.range_edit.specs.Edits.{done};
ghost use Rattle.pending_acks.specs.Acks.{left, insert_one, subtract_below};

use answers::Refusal;
use range_edit::Changed;
use range_list::LIMIT;
use range_set::Span;

// How many ranges are kept.
pub const MAX_ACK_BLOCKS: usize = 64;

// What is said of a packet that was recorded.
#[derive(Clone, Copy, Debug, PartialEq, Eq)]
pub struct Recorded {
    // How many ranges the set has now.
    pub count: usize,
    // Whether the number was not in the set.
    pub new: bool,
    // The lowest range, where it was dropped.
    pub dropped: Option<Span>,
}

// Records a packet that needs to be acknowledged; where that makes a 65th range the lowest is dropped, the new one too if it is that.
pub fn insert_one(list: &mut [u64], count: usize, packet: u64) -> Result<Recorded, Refusal>
    ensures { left result list.new ≡ insert_one list.old count packet }
{
    let kept = range_set::insert_one_capped(list, count, packet, MAX_ACK_BLOCKS)?;
    Ok(Recorded {
        count: kept.count,
        new: kept.changed,
        dropped: kept.dropped,
    })
}

// Removes the packets numbered at or below `upto`, and says whether any was there. Packet numbers are below 2^62 (RFC 9000, section 17.1).
pub fn subtract_below(list: &mut [u64], count: usize, upto: u64) -> Result<Changed, Refusal>
    ensures { done result list.new ≡ subtract_below list.old count upto }
{
    if upto >= LIMIT {
        return Err(Refusal::Range);
    }
    if count > MAX_ACK_BLOCKS {
        return Err(Refusal::Range);
    }
    range_set::remove(list, count, 0, upto + 1)
}
