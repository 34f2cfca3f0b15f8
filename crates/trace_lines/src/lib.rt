// The lines that a call prints, and what it is lent, which some of them show.
#![tactic(auto)]

pub mod lent;

use case_io::fields;
use case_io::fields::digit;
use case_io::text::Sink;
use label::Label;
use lent::LentRows;
use player::engine::Updated;
use refusal::{Refusal, number_if};
use steps::Entry;
use timeline::timeline::Timeline;

// `i call refusal state elapsed scale fired count base run progress marks`
pub fn call(sink: &mut Sink, number: usize, byte: u8, refusal: Option<Refusal>, t: &Timeline) {
    sink.decimal(number);
    sink.number(b' ', usize::from(byte));
    sink.number(b' ', usize::from(number_if(refusal)));
    fields::clock(sink, t.track.clock);
    sink.number(b' ', t.entry_count());
    sink.float(b' ', t.duration());
    sink.float(b' ', t.playback_duration());
    sink.float(b' ', t.progress());
    sink.byte(b' ');
    marks(sink, t);
    sink.byte(b'\n');
}

// 0 or 1 for each entry, or `-`.
fn marks(sink: &mut Sink, t: &Timeline) {
    let entries = t.track.entries();
    if entries.is_empty() {
        sink.byte(b'-');
    }
    for e in entries {
        sink.byte(digit(e.done));
    }
}

// `  rows` and each row below the longest of the three slices: ` kind:amount:place`, with `.` past a slice.
pub fn rows(sink: &mut Sink, lent: &LentRows) {
    let kinds = lent.kinds.slice();
    let amounts = lent.amounts.slice();
    let places = lent.places.slice();
    sink.bytes(b"  rows");
    // By the row's number: a `zip` ends with the shortest.
    for i in 0..kinds.len().max(amounts.len()).max(places.len()) {
        match kinds.get(i) {
            Some(kind) => sink.number(b' ', usize::from(*kind)),
            None => sink.letter(b' ', b'.'),
        }
        part(sink, amounts.get(i));
        part(sink, places.get(i));
    }
    sink.byte(b'\n');
}

// `:amount` or `:place`
fn part(sink: &mut Sink, x: Option<&f32>) {
    match x {
        Some(x) => sink.float(b':', *x),
        None => sink.letter(b':', b'.'),
    }
}

// `  update running completed listed` and each byte of the list. A refused update neither runs nor completes, and lists nothing.
pub fn update(sink: &mut Sink, answer: Result<Updated, Refusal>, list: &[u8]) {
    let shown = answer.unwrap_or(Updated {
        running: false,
        completed: false,
        listed: 0,
    });
    sink.bytes(b"  update");
    sink.letter(b' ', digit(shown.running));
    sink.letter(b' ', digit(shown.completed));
    sink.number(b' ', shown.listed);
    for number in list {
        sink.number(b' ', usize::from(*number));
    }
    sink.byte(b'\n');
}

// `  entries` and each entry.
pub fn entries(sink: &mut Sink, t: &Timeline) {
    sink.bytes(b"  entries");
    for (e, label) in t.track.entries().iter().zip(&t.labels) {
        entry(sink, e, label);
    }
    sink.byte(b'\n');
}

// ` start:duration:label`
fn entry(sink: &mut Sink, e: &Entry, label: &Label) {
    sink.float(b' ', e.start);
    sink.float(b':', e.duration);
    sink.byte(b':');
    fields::label(sink, label);
}

// `  delay bits`
pub fn delay(sink: &mut Sink, secs: f32) {
    sink.bytes(b"  delay");
    sink.float(b' ', secs);
    sink.byte(b'\n');
}

// `  items` and the refusal and cursor of each.
pub fn items(sink: &mut Sink, items: &[(Option<Refusal>, f32)]) {
    sink.bytes(b"  items");
    for (refusal, cursor) in items {
        sink.number(b' ', usize::from(number_if(*refusal)));
        sink.float(b':', *cursor);
    }
    sink.byte(b'\n');
}
