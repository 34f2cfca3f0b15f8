// Writing the pairs.
ghost use Rattle.std.specs.Prelude.{◌≡◌, ◌+◌, ◌<◌, ◌≤◌, length};
ghost use Rattle.steps.specs.Times.{max_entries};
ghost use Rattle.digits.specs.Digits.{put_at};
ghost use Rattle.words.specs.Pairs.{pair_size};
ghost use Rattle.sheet_rules.specs.Rules.{header_size, labels_at};
ghost use Rattle.sheet_format.specs.Write.{pair_of, pairs_of};

use crate::description::Item;
use crate::header::labels_at;
use crate::put::put;
use sheet_rules::HEADER_SIZE;
use words::{PAIR_SIZE, Pair};

// Writes the pairs of these entries, whose labels start behind the records. What is asked of the room is asked here and in
// `put_records` alone, so no type keeps it.
pub(crate) fn put_pairs(room: &mut [u8], items: &[Item])
    requires { (length items.now ≤ max_entries) × (labels_at (length items.now) ≤ length room.old) }
    ensures { room.new ≡ put_at (pairs_of (labels_at (length items.now)) items.now) header_size room.old }
{
    let mut at = HEADER_SIZE;
    let mut offset = labels_at(items.len());
    // `at` by hand: tried with `chunks_exact_mut`, whose loop's invariant cannot name `room`, so that what was written stays open
    for item in items {
        let len = item.label.text().len();
        put_pair(room, at, Pair { offset, len });
        at += PAIR_SIZE;
        offset += len;
    }
}

// Writes the pair of a label: where it starts, and how long it is.
fn put_pair(room: &mut [u8], at: usize, pair: Pair)
    requires { (at + pair_size ≤ length room.old) × (pair.offset < 65536) × (pair.len < 65536) }
    ensures { room.new ≡ put_at (pair_of pair.offset pair.len) at room.old }
{
    put(room, at, &(pair.offset as u16).to_le_bytes());
    put(room, at + 2, &(pair.len as u16).to_le_bytes());
}
