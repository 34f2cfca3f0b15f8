// A script on its way.
use crate::in_place::{InPlace, differs};
use case_io::text::Sink;
use refusal::Refusal;
use timeline::timeline::Timeline;

// A script at a call: the call's number and its byte, a number as the script's format has it, and what the calls before it left, by value
// and in place.
#[derive(Clone, Copy)]
pub struct Run {
    pub number: usize,
    pub byte: u8,
    pub timeline: Timeline,
    pub place: InPlace,
}

impl Run {
    // The empty timeline, by value and in place.
    pub fn new() -> Run {
        let timeline = Timeline::new();
        Run {
            number: 0,
            byte: 0,
            timeline,
            place: InPlace::of(&timeline),
        }
    }

    // The call by value gave this answer: a refused one leaves the timeline. Prints the line of the call.
    pub fn answered(&mut self, sink: &mut Sink, answer: Result<Timeline, Refusal>) {
        if let Ok(timeline) = answer {
            self.timeline = timeline;
        }
        self.line(sink, answer.err());
    }

    // Another timeline plays from now on, and is laid out in place anew. Prints the line of the call.
    pub fn replace(&mut self, sink: &mut Sink, timeline: Timeline, refusal: Option<Refusal>) {
        self.timeline = timeline;
        self.place = InPlace::of(&timeline);
        self.line(sink, refusal);
    }

    // Prints the line of the call.
    pub fn line(&self, sink: &mut Sink, refusal: Option<Refusal>) {
        trace_lines::call(sink, self.number, self.byte, refusal, &self.timeline);
    }

    // Writes that they differ, unless the call in place was the same, and left what the call by value left.
    pub fn compare(&self, sink: &mut Sink, same: bool) {
        differs(sink, same && self.place.has_left(&self.timeline));
    }

    // The same of a call after which only the clock can differ.
    pub fn compare_clock(&self, sink: &mut Sink) {
        differs(sink, self.place.has_clock(&self.timeline));
    }
}
