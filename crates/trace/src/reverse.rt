// The reverse of the group around the timeline.
use case_io::text::Sink;
use group::group::AnimationGroup;
use trace_lines::lent::LentRows;
use trace_places::run::Run;
use trace_read::Room;

pub(crate) fn reversing(run: &mut Run, sink: &mut Sink, room: Room) {
    let mut rows = LentRows::new(room);
    let group = AnimationGroup::from(run.timeline);
    let answer = group.reverse(&mut rows.lend());
    run.replace(sink, answer.unwrap_or(group).timeline(), answer.err());
    trace_lines::rows(sink, &rows);
}
