// The lines of a sheet:
//
// `refusal count mode number scale`, and for each entry of the description `  item kind target seconds duration label`;
// `  timeline state elapsed scale fired mode number count base run`, and for each entry `  entry start duration done label`;
// of an accepted sheet three times `  write refusal len same rest`, with room for 8 bytes more than the sheet, for the sheet, and
// for 1 byte less: whether the bytes written are the sheet's, and whether the rest of the room is as it was; then
// `  spoiled a b c d e f g h`, the numbers by which the writer refuses the description, spoiled in eight ways (spoil.rt), and
// `  rooms len digest`, the lengths that it answered added up, and the digest of what it left in the eight rooms.
//
// A description's floats are given by their bits. Those of a timeline have 7fc00000 for NaN and 00000000 for either zero.
ghost use Rattle.std.specs.Prelude.{◌≤◌};

use crate::spoil;
use case_io::fields;
use case_io::fields::digit;
use case_io::text::Sink;
use label::Label;
use refusal::{number_if, number_in};
use sheet_format::description::{Description, Item, Placement};
use steps::Entry;
use timeline::timeline::Timeline;
use tween::Loop;

// The longest sheet.
pub const SHEET: usize = 12_000;

// What the room holds before a sheet is written.
pub const OLD: u8 = 238;

// The lines of a sheet.
pub(crate) fn sheet(sink: &mut Sink, bytes: &[u8]) {
    let reading = sheet::read(bytes);
    sink.decimal(usize::from(number_if(reading.refusal)));
    description(sink, &reading.described);
    timeline(sink, &reading.timeline);
    if reading.refusal.is_some() {
        return;
    }
    let len = bytes.len().min(SHEET);
    for size in [len + 8, len, len.saturating_sub(1)] {
        written(sink, bytes, reading.described, size.min(SHEET));
    }
    spoil::lines(sink, reading.described, (len + 8).min(SHEET));
}

// ` count mode number scale`, and the entries.
fn description(sink: &mut Sink, d: &Description) {
    sink.number(b' ', d.count);
    looping(sink, d.looping);
    sink.bits(b' ', d.time_scale);
    sink.byte(b'\n');
    for i in d.items() {
        item(sink, i);
    }
}

// ` mode number`
fn looping(sink: &mut Sink, mode: Loop) {
    sink.number(b' ', usize::from(mode.mode()));
    sink.number(b' ', mode.number() as usize);
}

fn item(sink: &mut Sink, item: &Item) {
    sink.bytes(b"  item");
    placed(sink, item.at);
    sink.bits(b' ', item.duration);
    label_end(sink, &item.label);
}

// ` kind target seconds`
fn placed(sink: &mut Sink, placement: Placement) {
    let (kind, target, seconds) = placement.parts();
    sink.number(b' ', usize::from(kind));
    sink.number(b' ', target);
    sink.bits(b' ', seconds);
}

// ` label`, and the end of the line.
fn label_end(sink: &mut Sink, label: &Label) {
    sink.byte(b' ');
    fields::label(sink, label);
    sink.byte(b'\n');
}

fn timeline(sink: &mut Sink, t: &Timeline) {
    sink.bytes(b"  timeline");
    fields::clock(sink, t.track.clock);
    looping(sink, t.track.looping);
    sink.number(b' ', t.entry_count());
    sink.float(b' ', t.duration());
    sink.float(b' ', t.playback_duration());
    sink.byte(b'\n');
    for (e, label) in t.track.entries.iter().zip(&t.labels).take(t.entry_count()) {
        entry(sink, e, label);
    }
}

fn entry(sink: &mut Sink, e: &Entry, label: &Label) {
    sink.bytes(b"  entry");
    sink.float(b' ', e.start);
    sink.float(b' ', e.duration);
    sink.letter(b' ', digit(e.done));
    label_end(sink, label);
}

// Writes the description where there is room for `size` bytes.
fn written(sink: &mut Sink, sheet: &[u8], d: Description, size: usize)
    requires { size ≤ SHEET }
{
    let mut room = [OLD; SHEET];
    let answer = sheet_format::write(d, &mut room[..size]);
    let len = answer.unwrap_or(0);
    let (bytes, rest) = room[..size].split_at(len.min(size));
    sink.bytes(b"  write");
    sink.number(b' ', usize::from(number_in(&answer)));
    sink.number(b' ', len);
    sink.letter(b' ', digit(sheet.starts_with(bytes)));
    sink.letter(b' ', digit(rest.iter().all(|b| *b == OLD)));
    sink.byte(b'\n');
}
