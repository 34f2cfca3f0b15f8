// The calls on a `Timeline`, by value: each but `play` from one place, and its answer is taken at once.
use crate::jobs::{Job, share};
use crate::rows::{Lent, Room};
use timeline::timeline::Timeline;
use track::rows::Rows;
use track::track::{Secs, Share};

// What a job comes to, on the entries of t; none where what was written last cannot be. There is none here for the longest walks.
pub(crate) fn come_to(t: Timeline, job: Job, turns: u32) -> Option<f32> {
    let base = t.duration();
    let mut room = Room::new();
    let mut lent = room.lend(job.listed());
    let from = played(t, &mut lent.rows);
    let left = match job {
        Job::SeekAbsOnce | Job::SeekAbsForever => seeks_abs(from, base, turns, &mut lent.rows),
        Job::SeekPingPong => seeks(from, turns, &mut lent.rows),
        _ => updates(from, job.step(base, turns), turns, &mut lent),
    };
    lent.is_written(left.entry_count())
        .then_some(left.elapsed())
}

fn played(t: Timeline, rows: &mut Rows<'_>) -> Timeline {
    t.play(rows).unwrap_or(t)
}

// Seeks to thousandths of the base. It is no loop with `seeks`, by a closure: tried and slower, since the timeline is copied once
// more.
fn seeks_abs(from: Timeline, base: f32, turns: u32, rows: &mut Rows<'_>) -> Timeline {
    let mut t = from;
    for turn in 0..turns {
        if let Ok(sought) = t.seek_abs(Secs(share(turn) * base), rows) {
            t = sought;
        }
    }
    t
}

// Seeks to thousandths of the run.
fn seeks(from: Timeline, turns: u32, rows: &mut Rows<'_>) -> Timeline {
    let mut t = from;
    for turn in 0..turns {
        if let Ok(sought) = t.seek(Share(share(turn)), rows) {
            t = sought;
        }
    }
    t
}

// Updates, and `play` wherever the run ends. They may be refused by 5. What an answer holds is taken at once, and not by `played`: an
// `if` whose arms are two timelines, and `unwrap_or`, copy each once more.
fn updates(from: Timeline, dt: f32, turns: u32, lent: &mut Lent<'_>) -> Timeline {
    let mut t = from;
    for _ in 0..turns {
        if let Ok((u, left)) = t.update(dt, lent.replies, lent.list, &mut lent.rows) {
            t = left;
            if u.completed {
                if let Ok(again) = t.play(&mut lent.rows) {
                    t = again;
                }
            }
        }
    }
    t
}
