// What a timeline or the group around it shows of itself.
use case_io::text::Sink;
use group::group::AnimationGroup;
use timeline::introspection::{AnimationIntrospection, AnimationKind, PlaybackState};
use trace_places::run::Run;

pub(crate) fn timeline(run: &Run, sink: &mut Sink) {
    shown(run, sink, run.timeline.introspect());
}

// Of the group around the timeline.
pub(crate) fn group(run: &Run, sink: &mut Sink) {
    let group = AnimationGroup::from(run.timeline);
    shown(run, sink, group.introspect());
}

fn shown(run: &Run, sink: &mut Sink, shown: AnimationIntrospection) {
    run.line(sink, None);
    line(sink, shown);
}

// `  introspect kind progress elapsed duration state`
fn line(sink: &mut Sink, shown: AnimationIntrospection) {
    sink.bytes(b"  introspect");
    sink.letter(b' ', kind_letter(shown.kind));
    sink.float(b' ', shown.progress);
    sink.float(b' ', shown.elapsed);
    match shown.duration {
        Some(secs) => sink.float(b' ', secs),
        None => sink.letter(b' ', b'-'),
    }
    sink.letter(b' ', playback_letter(shown.state));
    sink.byte(b'\n');
}

// The letters are this program's alone: the enums are the Rust's, and have no discriminants.
fn kind_letter(kind: AnimationKind) -> u8 {
    match kind {
        AnimationKind::Timeline => b'T',
        AnimationKind::Group => b'G',
    }
}

fn playback_letter(state: PlaybackState) -> u8 {
    match state {
        PlaybackState::Idle => b'I',
        PlaybackState::Playing => b'P',
        PlaybackState::Paused => b'H',
        PlaybackState::Complete => b'C',
    }
}
