// The calls that steer a timeline or add to it, and the delay: each is made, and its lines are printed.
use case_io::text::Sink;
use clock::Clock;
use refusal::Refusal;
use timeline::timeline::{At, Timeline};
use trace_places::run::Run;
use trace_read::{Added, Placement};
use track::track::Playhead;
use tween::{Loop, StaggerPattern};

pub fn pause(run: &mut Run, sink: &mut Sink) {
    steered(
        run,
        sink,
        lent_clock::pause,
        Timeline::pause,
        Playhead::pause,
    );
}

pub fn resume(run: &mut Run, sink: &mut Sink) {
    steered(
        run,
        sink,
        lent_clock::resume,
        Timeline::resume,
        Playhead::resume,
    );
}

pub fn set_time_scale(run: &mut Run, sink: &mut Sink, scale: f32) {
    steered(
        run,
        sink,
        |clock| lent_clock::set_time_scale(clock, scale),
        |t| t.set_time_scale(scale),
        |head| head.set_time_scale(scale),
    );
}

// A call that steers what plays: on a timeline by value, or with an odd number on a clock that is lent; and on a playhead.
fn steered<L, V, P>(run: &mut Run, sink: &mut Sink, lent: L, by_value: V, in_place: P)
where
    L: FnOnce(&mut Clock),
    V: FnOnce(Timeline) -> Timeline,
    P: FnOnce(Playhead) -> Playhead,
    requires on_lent { L.IsAlwaysCallable lent }
    requires on_value { V.IsAlwaysCallable by_value }
    requires on_head { P.IsAlwaysCallable in_place }
{
    if run.number % 2 == 1 {
        lent(&mut run.timeline.track.clock);
    } else {
        run.timeline = by_value(run.timeline);
    }
    run.place.head = in_place(run.place.head);
    run.line(sink, None);
    run.compare_clock(sink);
}

pub fn looping(run: &mut Run, sink: &mut Sink, mode: Loop) {
    run.timeline = run.timeline.looping(mode);
    run.place.head = run.place.head.looping(mode);
    run.line(sink, None);
    run.compare_clock(sink);
}

// A label's text is looked for by the call itself.
pub fn add(run: &mut Run, sink: &mut Sink, entry: Added<'_>) {
    let t = run.timeline;
    let answer = match entry.at {
        Placement::Label(target) => t.add_at_label(entry.label, target, entry.duration),
        placement => t.add(entry.label, at(&t, placement), entry.duration),
    };
    added(run, sink, answer);
}

pub fn add_boxed(run: &mut Run, sink: &mut Sink, entry: Added<'_>) {
    let t = run.timeline;
    let at = at(&t, entry.at);
    added(
        run,
        sink,
        t.add_boxed_with_duration(entry.label, at, entry.duration),
    );
}

fn added(run: &mut Run, sink: &mut Sink, answer: Result<Timeline, Refusal>) {
    run.replace(sink, answer.unwrap_or(run.timeline), answer.err());
    trace_lines::entries(sink, &run.timeline);
}

// The placement in a timeline.
fn at(t: &Timeline, placement: Placement<'_>) -> At {
    match placement {
        Placement::Absolute(secs) => At::Absolute(secs),
        Placement::Start => At::Start,
        Placement::End => At::End,
        Placement::Label(target) => At::Label(last_labeled(t, target)),
        Placement::Offset(secs) => At::Offset(secs),
    }
}

// The last entry with this label, or the count.
fn last_labeled(t: &Timeline, target: &[u8]) -> usize {
    let count = t.entry_count();
    let mut labels = t.labels.iter().take(count);
    labels
        .rposition(|label| label.has_text(target))
        .unwrap_or(count)
}

// A refused delay shows 0.
pub fn delay(run: &Run, sink: &mut Sink, pattern: StaggerPattern, index: u32) {
    let answer = pattern.delay(index);
    run.line(sink, answer.err());
    trace_lines::delay(sink, answer.unwrap_or(0.0));
}
