// Fields that lines of more than one program have.
use crate::text::Sink;
use clock::Clock;
use label::Label;

// 0 or 1.
pub fn digit(b: bool) -> u8 {
    if b { b'1' } else { b'0' }
}

// ` state elapsed scale fired`
pub fn clock(sink: &mut Sink, clock: Clock) {
    sink.letter(b' ', clock.state.letter());
    sink.float(b' ', clock.elapsed);
    sink.float(b' ', clock.time_scale);
    sink.letter(b' ', digit(clock.complete_fired));
}

// A label as hex pairs, or `-`.
pub fn label(sink: &mut Sink, label: &Label) {
    hex(sink, label.text());
}

// Bytes as hex pairs, or `-`.
pub fn hex(sink: &mut Sink, bytes: &[u8]) {
    if bytes.is_empty() {
        sink.byte(b'-');
    }
    for b in bytes {
        sink.hex(*b);
    }
}
