// A sheet whose header is accepted: its pairs, where each label starts and how long it is; its records, where each entry is placed and
// how long it is; and its entries, as they are read.
ghost use Rattle.std.specs.Prelude.{◌≡◌, ◌++◌, ◌+◌, ◌-◌, ◌*◌, ◌<◌, ◌≤◌, IfOk, length, take, drop, replicate};
ghost use Rattle.refusal.specs.Refusal.{number_in};
ghost use Rattle.steps.specs.Times.{max_entries};
ghost use Rattle.tween.specs.LoopMode.{loop_of};
ghost use Rattle.words.specs.Words.{byte_at, word};
ghost use Rattle.words.specs.Pairs.{pair_size};
ghost use Rattle.sheet_rules.specs.Rules.{header_size, record_size, labels_at};
ghost use Rattle.sheet_format.specs.Descriptions.{blank_item, item_of, items_from};
ghost use Rattle.sheet_format.specs.Check.{records_at, count_in, header_number, pairs_number, record_in, record_number, records_number};

use crate::description::Item;
use crate::header::{count, labels_at, records_at};
use label::Label;
use refusal::Refusal;
use sheet_rules::{HEADER_SIZE, Header, RECORD_SIZE, Record, pair_fits};
use steps::MAX_ENTRIES;
use tween::Loop;
use words::{PAIR_SIZE, pair_at, part_at, u32_at};

// The bytes, how many entries there are, and how they loop.
#[derive(Clone, Copy, Debug, PartialEq)]
pub(crate) struct Sheet<'a> {
    pub(crate) bytes: &'a [u8],
    pub(crate) count: usize,
    pub(crate) looping: Loop,
    ghost counted: { count ≡ count_in bytes.now },
    ghost few: { count ≤ max_entries },
    ghost room: { labels_at count ≤ length bytes.now },
}

impl<'a> Sheet<'a> {
    // Checks the header.
    #[tactic(auto, unfolding(crate::specs::Check::header_number))]
    pub(crate) fn of(bytes: &'a [u8]) -> Result<Sheet<'a>, Refusal>
        ensures number { number_in result ≡ header_number bytes.now }
        ensures same { IfOk result (λ sheet. sheet.bytes.now ≡ bytes.now) }
        ensures looping { IfOk result (λ sheet. sheet.looping ≡ loop_of (byte_at bytes.now 2) (word 4 (drop 4 bytes.now))) }
    {
        if bytes.len() < HEADER_SIZE {
            return Err(Refusal::SheetLength);
        }
        let header = Header {
            version: bytes[0],
            count: count(bytes),
            mode: bytes[2],
            number: u32_at(bytes, 4),
        };
        let looping = header.looping(bytes.len())?;
        Ok(Sheet {
            bytes,
            count: header.count,
            looping,
        })
    }

    // All pairs.
    fn pairs(self) -> &'a [u8]
        ensures { result.now ≡ take (pair_size * self.entry.count) (drop header_size self.entry.bytes.now) }
    {
        &self.bytes[HEADER_SIZE..records_at(self.count)]
    }

    // All records.
    fn records(self) -> &'a [u8]
        ensures { result.now ≡ take (record_size * self.entry.count) (drop (records_at self.entry.count) self.entry.bytes.now) }
    {
        &self.bytes[records_at(self.count)..labels_at(self.count)]
    }

    // Each pair starts where the one before ends, and the last ends the sheet.
    pub(crate) fn check_pairs(self) -> Result<(), Refusal>
        ensures { number_in result ≡ pairs_number (length self.entry.bytes.now) (labels_at self.entry.count) self.entry.count (drop header_size self.entry.bytes.now) }
    {
        let mut offset = labels_at(self.count);
        for pair in self.pairs().chunks_exact(PAIR_SIZE) {
            let pair = pair_at(pair, 0);
            if !pair_fits(offset, pair) {
                return Err(Refusal::SheetPair);
            }
            offset += pair.len;
        }
        if offset != self.bytes.len() {
            return Err(Refusal::SheetLength);
        }
        Ok(())
    }

    // The records, in turn.
    pub(crate) fn check_records(self) -> Result<(), Refusal>
        ensures { number_in result ≡ records_number self.entry.count self.entry.count (drop (records_at self.entry.count) self.entry.bytes.now) }
    {
        for record in self.records().chunks_exact(RECORD_SIZE) {
            record_in(record).placement(self.count)?;
        }
        Ok(())
    }

    // The entry whose pair and record are the i-th, or why the record is refused.
    fn item(self, i: usize) -> Result<Item, Refusal>
        requires { i < self.count }
        ensures number { number_in result ≡ record_number self.entry.count (drop (records_at self.entry.count + record_size * i) self.entry.bytes.now) }
        ensures value { IfOk result (λ item. item ≡ item_of self.entry.bytes.now (drop (header_size + pair_size * i) self.entry.bytes.now) (drop (records_at self.entry.count + record_size * i) self.entry.bytes.now)) }
    {
        let record = &self.bytes[records_at(self.count) + RECORD_SIZE * i..];
        let at = record_in(record).placement(self.count)?;
        Ok(Item {
            duration: u32_at(record, 8),
            at,
            label: Label::new(part_at(self.bytes, HEADER_SIZE + PAIR_SIZE * i)),
        })
    }

    // The entries, and blank ones after them, or why a record is refused.
    pub(crate) fn items(self) -> Result<[Item; MAX_ENTRIES], Refusal>
        ensures number { number_in result ≡ records_number self.entry.count self.entry.count (drop (records_at self.entry.count) self.entry.bytes.now) }
        ensures value { IfOk result (λ items. items ≡ items_from self.entry.bytes.now self.entry.count (drop header_size self.entry.bytes.now) (drop (records_at self.entry.count) self.entry.bytes.now) ++ replicate (max_entries - self.entry.count) blank_item) }
    {
        let mut items = [Item::blank(); MAX_ENTRIES];
        // by index: tried with `iter_mut`, whose loop's invariant cannot name `items`, so that what was written stays open
        for i in 0..self.count {
            items[i] = self.item(i)?;
        }
        Ok(items)
    }
}

// The record at the front.
fn record_in(bytes: &[u8]) -> Record
    requires { record_size ≤ length bytes.now }
    ensures { result ≡ record_in bytes.now }
{
    Record {
        kind: bytes[0],
        target: bytes[1],
        first_zero: bytes[2],
        second_zero: bytes[3],
        seconds: u32_at(bytes, 4),
    }
}
