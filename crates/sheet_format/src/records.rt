// Writing the records.
ghost use Rattle.std.specs.Prelude.{◌≡◌, true, ◌+◌, ◌<◌, ◌≤◌, length};
ghost use Rattle.steps.specs.Times.{max_entries};
ghost use Rattle.digits.specs.Digits.{put_at};
ghost use Rattle.sheet_rules.specs.Rules.{record_size, labels_at};
ghost use Rattle.sheet_rules.specs.Placements.{target_of};
ghost use Rattle.sheet_format.specs.Check.{records_at};
ghost use Rattle.sheet_format.specs.Write.{record_of, records_of, targets_good};

use crate::description::Item;
use crate::header::records_at;
use crate::put::put;
use sheet_rules::RECORD_SIZE;

// Writes an entry's record.
fn put_record(room: &mut [u8], at: usize, item: &Item)
    requires { (at + record_size ≤ length room.old) × (target_of item.now.at < 256) }
    ensures { room.new ≡ put_at (record_of item.now) at room.old }
{
    let (kind, target, seconds) = item.at.parts();
    put(room, at, &[kind, target as u8, 0, 0]);
    put(room, at + 4, &seconds.to_le_bytes());
    put(room, at + 8, &item.duration.to_le_bytes());
}

// Writes the records of these entries.
pub(crate) fn put_records(room: &mut [u8], items: &[Item])
    requires { (length items.now ≤ max_entries) × (labels_at (length items.now) ≤ length room.old) × (targets_good (length items.now) items.now ≡ true) }
    ensures { room.new ≡ put_at (records_of items.now) (records_at (length items.now)) room.old }
{
    let mut at = records_at(items.len());
    // `at` by hand, as in `put_pairs`
    for item in items {
        put_record(room, at, item);
        at += RECORD_SIZE;
    }
}
