// Writing a description as a sheet.
ghost use Rattle.std.specs.Prelude.{◌≡◌, ◌+◌, ◌≤◌, IfOk, length};
ghost use Rattle.steps.specs.Times.{max_entries};
ghost use Rattle.digits.specs.Digits.{put_at};
ghost use Rattle.refusal.specs.Refusal.{number_in};
ghost use Rattle.sheet_format.specs.Write.{texts_of, sheet_of, labels_good, targets_good, describe_number, written_as, written_answer, written_room, Fits, ReadsBack};

use crate::description::{Description, Item};
use crate::header::{labels_at, put_header};
use crate::pairs::put_pairs;
use crate::put::put;
use crate::records::put_records;
use label::MAX_LABEL;
use refusal::Refusal;
use steps::MAX_ENTRIES;

// Whether no label of these entries is too long.
fn labels_good(items: &[Item]) -> bool
    ensures { result ≡ labels_good items.now }
{
    items
        .iter()
        .all(|item| usize::from(item.label.len) <= MAX_LABEL)
}

// Whether each target of these entries is one of n entries.
fn targets_good(items: &[Item], n: usize) -> bool
    ensures { result ≡ targets_good n items.now }
{
    items.iter().all(|item| item.at.is_good(n))
}

// How long the labels of these entries are, one after the other.
fn texts_len(items: &[Item]) -> usize
    requires { length items.now ≤ max_entries }
    ensures { result ≡ length (texts_of items.now) }
{
    items.iter().map(|item| item.label.text().len()).sum()
}

// Writes the labels of these entries, one after the other.
fn put_texts(room: &mut [u8], items: &[Item], start: usize)
    requires { start + length (texts_of items.now) ≤ length room.old }
    ensures { room.new ≡ put_at (texts_of items.now) start room.old }
{
    let mut at = start;
    // `at` by hand, as in `put_pairs`
    for item in items {
        let text = item.label.text();
        put(room, at, text);
        at += text.len();
    }
}

impl Description {
    // How long its sheet is, or why it cannot be written, whatever the room.
    #[tactic(auto, unfolding(crate::specs::Write::describe_number))]
    fn sheet_len(&self) -> Result<usize, Refusal>
        ensures number { number_in result ≡ describe_number self.now }
        ensures len { IfOk result (λ len. len ≡ length (sheet_of self.now)) }
    {
        if self.count > MAX_ENTRIES {
            return Err(Refusal::SheetCount);
        }
        let items = self.items();
        if !labels_good(items) {
            return Err(Refusal::SheetPair);
        }
        if !targets_good(items, self.count) {
            return Err(Refusal::SheetPlacement);
        }
        Ok(labels_at(items.len()) + texts_len(items))
    }

    // Writes the sheet of an accepted description.
    fn put(&self, room: &mut [u8])
        requires { Fits self.now (length room.old) }
        ensures { room.new ≡ put_at (sheet_of self.now) 0 room.old }
    {
        let items = self.items();
        put_header(room, self.count as u16, self.looping, self.time_scale);
        put_pairs(room, items);
        put_records(room, items);
        put_texts(room, items, labels_at(items.len()));
    }
}

// Writes a description as a sheet, which reads back as that description, and answers how long the sheet is. Room beyond the sheet is
// untouched; nothing is written on refusal.
pub fn write(described: Description, room: &mut [u8]) -> Result<usize, Refusal>
    ensures value { written_as result ≡ written_answer described (length room.old) }
    ensures room_after { room.new ≡ written_room described room.old }
    ensures reads_back { ReadsBack described (written_as result) room.new }
{
    let len = described.sheet_len()?;
    if len > room.len() {
        return Err(Refusal::RoomTooShort);
    }
    described.put(room);
    Ok(len)
}
