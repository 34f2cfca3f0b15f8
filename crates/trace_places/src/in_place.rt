// The calls on a playhead and three columns, in place, and whether they leave what the calls by value left. The columns have more
// places than the timeline has entries.
use case_io::text::Sink;
use completions::SpanArrays;
use player::engine::{Player, Updated, preview};
use refusal::Refusal;
use timeline::timeline::Timeline;
use trace_lines::lent::same_float;
use trace_read::{Move, ROWS};
use track::rows::Rows;
use track::track::{Playhead, Secs, Share};

// What stands in the columns behind the entries: no call may look at it. Such an entry would be done, begin before 0 and end late,
// so that it would show in the base.
const SPARE_START: f32 = -12345.0;

const SPARE_DURATION: f32 = 1.0e30;

// What plays in the columns.
#[derive(Clone, Copy)]
pub struct InPlace {
    pub head: Playhead,
    held: SpanArrays<ROWS>,
    marks: [bool; ROWS],
}

// `differs`, unless they are the same.
pub fn differs(sink: &mut Sink, same: bool) {
    if !same {
        sink.bytes(b"differs\n");
    }
}

// A call that moves what plays, on a timeline by value.
pub fn moved(t: Timeline, call: Move, rows: &mut Rows<'_>) -> Result<Timeline, Refusal> {
    match call {
        Move::Play => t.play(rows),
        Move::Reset => t.reset(rows),
        Move::Seek(to) => t.seek(Share(to), rows),
        Move::SeekAbs(to) => t.seek_abs(Secs(to), rows),
        Move::Preview(dt) => {
            t.preview(dt, rows)?;
            Ok(t)
        }
    }
}

impl InPlace {
    // A timeline, laid out in columns, with spare values behind its entries.
    pub fn of(t: &Timeline) -> InPlace {
        let mut held = SpanArrays {
            starts: [SPARE_START; ROWS],
            durations: [SPARE_DURATION; ROWS],
        };
        let mut marks = [true; ROWS];
        let head = t
            .track
            .lay_out(&mut held.starts, &mut held.durations, &mut marks);
        InPlace { head, held, marks }
    }

    // A call that moves what plays. It makes its own player, as `update` does. Tried: a method that lends one out proves, and here the
    // check refuses its call ("a call at a lifetime while a reference at that lifetime is lent again").
    pub fn make(&mut self, call: Move, rows: &mut Rows<'_>) -> Result<(), Refusal> {
        let mut player = Player {
            head: self.head,
            spans: self.held.spans(),
            marks: &mut self.marks,
        };
        let answer = match call {
            Move::Play => player.play(rows),
            Move::Reset => player.reset(rows),
            Move::Seek(to) => player.seek(Share(to), rows),
            Move::SeekAbs(to) => player.seek_abs(Secs(to), rows),
            Move::Preview(dt) => preview(player.head, dt, player.spans, player.marks, rows),
        };
        self.head = player.head;
        answer
    }

    // Call 4.
    pub fn update(
        &mut self,
        dt: f32,
        replies: &[u8],
        list: &mut [u8],
        rows: &mut Rows<'_>,
    ) -> Result<Updated, Refusal> {
        let mut player = Player {
            head: self.head,
            spans: self.held.spans(),
            marks: &mut self.marks,
        };
        let answer = player.update(dt, replies, list, rows);
        self.head = player.head;
        answer
    }

    // Whether the clock is the timeline's: by hand, since `==` would not tell floats by their bits.
    pub fn has_clock(&self, t: &Timeline) -> bool {
        let a = self.head.clock;
        let b = t.track.clock;
        a.state == b.state
            && a.complete_fired == b.complete_fired
            && same_float(a.time_scale, b.time_scale)
            && same_float(a.elapsed, b.elapsed)
    }

    // Whether clock, marks and what can be asked are the timeline's.
    pub fn has_left(&self, t: &Timeline) -> bool {
        self.has_clock(t) && self.has_marks(t) && self.has_times(t)
    }

    // The marks are those of the entries, and the spare ones are as they were.
    fn has_marks(&self, t: &Timeline) -> bool {
        let mut marks = self.marks.iter();
        let mut live = t.track.entries().iter().zip(&mut marks);
        live.all(|(e, mark)| e.done == *mark) && marks.all(|mark| *mark)
    }

    // Base, run and progress.
    fn has_times(&self, t: &Timeline) -> bool {
        let spans = self.held.spans();
        same_float(self.head.duration(spans, &self.marks), t.duration())
            && same_float(
                self.head.playback_duration(spans, &self.marks),
                t.playback_duration(),
            )
            && same_float(self.head.progress(spans, &self.marks), t.progress())
    }
}
