// The writer's refusals: the description of an accepted sheet, spoiled, in a room of `size` bytes.
//
// a: the count is 257. b: the last label is 25 long. c: the last entry is placed at the label of entry n, which is none.
// d: a and b. e: a and c. f: b and c. g: b and c, with no room. h: b, and the first entry is placed as in c.
// Without entries b and c spoil nothing.
use crate::lines::{OLD, SHEET};
use case_io::text::{FNV_OFFSET, Sink, fold};
use sheet_format::description::{Description, Placement};
use steps::MAX_ENTRIES;

// What the writes of spoiled descriptions have left so far: the lengths added up, and the rooms' digest.
#[derive(Drop)]
struct Rooms {
    len: usize,
    digest: u32,
}

// Both lines.
pub(crate) fn lines(sink: &mut Sink, d: Description, size: usize) {
    let mut rooms = Rooms {
        len: 0,
        digest: FNV_OFFSET,
    };
    let last = d.count.saturating_sub(1);
    let label = long_label(d, last);
    sink.bytes(b"  spoiled");
    rooms.refused(sink, many(d), size);
    rooms.refused(sink, label, size);
    rooms.refused(sink, no_target(d, last), size);
    rooms.refused(sink, many(label), size);
    rooms.refused(sink, many(no_target(d, last)), size);
    rooms.refused(sink, no_target(label, last), size);
    rooms.refused(sink, no_target(label, last), 0);
    rooms.refused(sink, no_target(label, 0), size);
    sink.bytes(b"\n  rooms");
    sink.number(b' ', rooms.len);
    sink.bits(b' ', rooms.digest);
    sink.byte(b'\n');
}

impl Rooms {
    // ` refusal`, of one write.
    fn refused(&mut self, sink: &mut Sink, d: Description, size: usize) {
        let mut room = [OLD; SHEET];
        let n = size.min(SHEET);
        let answer = sheet_format::write(d, &mut room[..n]);
        sink.number(b' ', usize::from(refusal::number_in(&answer)));
        self.len = self.len.saturating_add(answer.unwrap_or(0));
        self.digest = fold(self.digest, &room[..n]);
    }
}

// One entry more than a panel can have.
fn many(d: Description) -> Description {
    Description {
        count: MAX_ENTRIES + 1,
        ..d
    }
}

// The label of entry i is one byte longer than it may be.
fn long_label(mut d: Description, i: usize) -> Description {
    if i < d.count.min(MAX_ENTRIES) {
        d.items[i].label.len = 25;
    }
    d
}

// Entry i is placed at the label of an entry that is none.
fn no_target(mut d: Description, i: usize) -> Description {
    if i < d.count.min(MAX_ENTRIES) {
        d.items[i].at = Placement::Label(d.count);
    }
    d
}
