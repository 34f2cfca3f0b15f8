// The calls that move what plays: each is made by value and in place, and its lines are printed.
use case_io::text::Sink;
use trace_lines::lent::{self, LentRows};
use trace_places::in_place::moved;
use trace_places::run::Run;
use trace_read::{Move, Room, Update};

// Play, reset, seek, seek_abs and preview.
pub fn moving(run: &mut Run, sink: &mut Sink, call: Move, room: Room) {
    let mut rows = LentRows::new(room);
    let answer = moved(run.timeline, call, &mut rows.lend());
    run.answered(sink, answer);
    trace_lines::rows(sink, &rows);
    let mut rows_in_place = LentRows::new(room);
    let in_place = run.place.make(call, &mut rows_in_place.lend());
    let same = rows.same(&rows_in_place) && answer.err() == in_place.err();
    run.compare(sink, same);
}

// Update.
pub fn updating(run: &mut Run, sink: &mut Sink, u: Update<'_>) {
    let mut rows = LentRows::new(u.room);
    let mut list = lent::list(u.list);
    let made = run
        .timeline
        .update(u.dt, u.replies, list.lend(), &mut rows.lend());
    run.answered(sink, made.map(|(_, left)| left));
    trace_lines::rows(sink, &rows);
    let answer = made.map(|(answer, _)| answer);
    trace_lines::update(sink, answer, list.slice());
    let mut rows_in_place = LentRows::new(u.room);
    let mut list_in_place = lent::list(u.list);
    let in_place = run.place.update(
        u.dt,
        u.replies,
        list_in_place.lend(),
        &mut rows_in_place.lend(),
    );
    let same_lent = rows.same(&rows_in_place) && list.all == list_in_place.all;
    run.compare(sink, same_lent && answer == in_place);
}
