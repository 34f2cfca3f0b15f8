// What is written, and what is seen of it. What nobody looks at would not be written: the compiler would leave that out. One look,
// after the last call, keeps the writing of every call.
use completions::MOST_ENTRIES;
use steps::MAX_ENTRIES;
use track::rows::Rows;

// Places of the list. An update by a base can complete an entry twice, since the ends of cycles are rounded.
pub(crate) const LIST: usize = 2 * MOST_ENTRIES;

// Room for what is lent to the calls of a job.
#[derive(Drop)]
pub(crate) struct Room {
    replies: [u8; MAX_ENTRIES],
    list: [u8; LIST],
    kinds: [u8; MAX_ENTRIES],
    amounts: [f32; MAX_ENTRIES],
    places: [f32; MAX_ENTRIES],
}

// What is lent: the replies of leaves that all run, a list, and rows.
#[derive(Drop)]
pub(crate) struct Lent<'a> {
    pub(crate) replies: &'a [u8],
    pub(crate) list: &'a mut [u8],
    pub(crate) rows: Rows<'a>,
}

impl Room {
    pub(crate) fn new() -> Room {
        Room {
            replies: [1; MAX_ENTRIES],
            list: [0; LIST],
            kinds: [0; MAX_ENTRIES],
            amounts: [0.0; MAX_ENTRIES],
            places: [0.0; MAX_ENTRIES],
        }
    }

    // Lends so many places of the list, or all, and the rest whole.
    pub(crate) fn lend(&mut self, listed: usize) -> Lent<'_> {
        let Room {
            replies,
            list,
            kinds,
            amounts,
            places,
        } = self;
        Lent {
            replies,
            list: &mut list[..listed.min(LIST)],
            rows: Rows {
                kinds,
                amounts,
                places,
            },
        }
    }
}

impl Lent<'_> {
    // Whether a call on this many entries can have written it.
    pub(crate) fn is_written(&self, entries: usize) -> bool {
        is_listed(self.list, entries) && is_sent(&self.rows)
    }
}

// Whether a list of this many entries can start so; one that was not written starts with 0.
fn is_listed(list: &[u8], entries: usize) -> bool {
    list.first()
        .is_some_and(|entry| usize::from(*entry) <= entries)
}

// Whether the first row is one that a call can send.
fn is_sent(rows: &Rows<'_>) -> bool {
    rows.kinds.first().is_some_and(|kind| *kind <= 13)
        && rows.amounts.first().is_some_and(|amount| *amount >= 0.0)
        && rows.places.first().is_some_and(|place| *place <= 1.0)
}

// A row, as it goes into the sum.
fn bits_of(kind: u8, amount: f32, place: f32) -> u32 {
    u32::from(kind) ^ float32::to_bits(amount) ^ (float32::to_bits(place) << 1)
}

// What was seen before, shifted as a checksum does, so that what is seen twice does not cancel out.
fn shifted(seen: u32) -> u32 {
    if seen % 2 == 0 {
        seen / 2
    } else {
        (seen / 2) ^ 0xedb8_8320
    }
}

// A sum of the rows of n entries with what was seen before.
pub(crate) fn sum(n: usize, rows: &Rows<'_>, before: u32) -> u32 {
    let rows = rows.kinds.iter().zip(&*rows.amounts).zip(&*rows.places);
    rows.take(n)
        .fold(shifted(before), |seen, ((kind, amount), place)| {
            seen ^ bits_of(*kind, *amount, *place)
        })
}
