// The calls in place: the entries stand in three columns that are lent.
use crate::jobs::{Job, share};
use crate::rows::{Lent, Room};
use completions::Spans;
use player::engine::Player;
use steps::MAX_ENTRIES;
use timeline::timeline::Timeline;
use track::rows::Rows;
use track::track::{Columns, Playhead, Secs, Share};

// What a job comes to, on the entries of t, with a look at the rows after each call; none where what was written last cannot be.
pub(crate) fn come_to<L: FnMut(&Rows<'_>)>(
    t: Timeline,
    job: Job,
    turns: u32,
    look: L,
) -> Option<f32>
    requires { L.IsAlwaysCallable look }
{
    let base = t.duration();
    let columns = &mut Columns::of(t.track);
    let mut room = Room::new();
    let mut lent = room.lend(job.listed());
    let mut player = Player::of(columns);
    player.head = started(player.head, job, player.spans);
    match job {
        Job::SeekAbsOnce | Job::SeekAbsForever => {
            let seek = |player: &mut Player<'_, '_>, share: f32, rows: &mut Rows<'_>| {
                player.seek_abs(Secs(share * base), rows).is_ok();
            };
            seeks(&mut player, turns, &mut lent.rows, look, seek);
        }
        Job::SeekPingPong => {
            let seek = |player: &mut Player<'_, '_>, share: f32, rows: &mut Rows<'_>| {
                player.seek(Share(share), rows).is_ok();
            };
            seeks(&mut player, turns, &mut lent.rows, look, seek);
        }
        _ => updates(&mut player, job.step(base, turns), turns, &mut lent, look),
    }
    lent.is_written(player.head.count)
        .then_some(player.head.clock.elapsed)
}

// What a job starts from: playing, from 0 or, for the longest walk, from a late second. A call that is made from one place only is
// built into the loop there; the Rust's calls are not. So each is made here once more.
fn started(head: Playhead, job: Job, spans: Spans<'_>) -> Playhead {
    let mut marks = [false; MAX_ENTRIES];
    let mut room = Room::new();
    let lent = &mut room.lend(job.listed());
    let mut player = Player {
        head,
        spans,
        marks: &mut marks,
    };
    player.play(&mut lent.rows).is_ok();
    player
        .update(0.0, lent.replies, lent.list, &mut lent.rows)
        .is_ok();
    player.seek(Share(0.0), &mut lent.rows).is_ok();
    player.seek_abs(Secs(job.first()), &mut lent.rows).is_ok();
    player.head
}

// Seeks to thousandths of the base, or of the run.
fn seeks<L: FnMut(&Rows<'_>), S: Fn(&mut Player<'_, '_>, f32, &mut Rows<'_>)>(
    player: &mut Player<'_, '_>,
    turns: u32,
    rows: &mut Rows<'_>,
    mut look: L,
    seek: S,
)
    requires { L.IsAlwaysCallable look × S.IsAlwaysCallable seek }
{
    for turn in 0..turns {
        seek(player, share(turn), rows);
        look(rows);
    }
}

// Updates, and `play` wherever the run ends. They may be refused by 5.
fn updates<L: FnMut(&Rows<'_>)>(
    player: &mut Player<'_, '_>,
    dt: f32,
    turns: u32,
    lent: &mut Lent<'_>,
    mut look: L,
)
    requires { L.IsAlwaysCallable look }
{
    for _ in 0..turns {
        let updated = player.update(dt, lent.replies, lent.list, &mut lent.rows);
        look(&lent.rows);
        if updated.is_ok_and(|u| u.completed) {
            player.play(&mut lent.rows).is_ok();
            look(&lent.rows);
        }
    }
}
