// The panels at the edges. Those that paper 01 marks for proof are one table of the definitions (specs/Edges.antt), which
// `edges_hold` carries; the others are run: for each a line, with the number by which the call is refused, or 0. A group that a grid
// staggers is sought, too, so that the rows it is sent show the delays.
#![tactic(auto)]

ghost use Rattle.std.specs.Prelude.{T};
ghost use Rattle.edge_cases.specs.Edges.{all_hold, edges};

use group::group::AnimationGroup;
use group::sequence::Sequence;
use refusal::{Refusal, number_if, number_in};
use std::io::{Print, Stdout};
use timeline::timeline::{At, Timeline};
use track::rows::Rows;
use track::track::Secs;
use tween::{GridOrigin, StaggerPattern};

fn main(rt: HostRuntime) {
    let stdout = rt.stdout();
    edges_hold();
    for n in [64, 65, 255, 256, 257] {
        filled_to(stdout, n);
        sequenced_to(stdout, n);
    }
    line(
        stdout,
        "label of 24",
        number_in(&labelled(b"abcdefghijklmnopqrstuvwx")),
    );
    line(
        stdout,
        "label of 25",
        number_in(&labelled(b"abcdefghijklmnopqrstuvwxy")),
    );
    line(stdout, "65535 columns", number_in(&grid(65535, 1).delay(0)));
    line(stdout, "65536 columns", number_in(&grid(65536, 1).delay(0)));
    line(stdout, "65535 rows", number_in(&grid(1, 65535).delay(0)));
    line(stdout, "65536 rows", number_in(&grid(1, 65536).delay(0)));
    staggered(stdout, "a group over 65535 columns", 65535, 1);
    staggered(stdout, "a group over 65536 columns", 65536, 1);
    staggered(stdout, "a group over 65535 rows", 1, 65535);
    staggered(stdout, "a group over 65536 rows", 1, 65536);
}

// Carries the table, so that it cannot leave the check.
fn edges_hold()
    ensures { T (all_hold edges) }
{}

// n entries.
fn filled(n: usize) -> Result<Timeline, Refusal> {
    let mut t = Timeline::new();
    for _ in 0..n {
        t = t.add(b"a", At::End, 1.0)?;
    }
    Ok(t)
}

// A line for a panel of n entries.
fn filled_to(stdout: Stdout, n: usize) {
    println!(stdout; "{n} entries: {}", number_in(&filled(n))).is_ok();
}

// Two lines for a sequence of n items of a second: the last by `then`, and by `then_for` with a label that is too long, if it is not
// refused by 1 before that.
fn sequenced_to(stdout: Stdout, n: usize) {
    let Ok(before) = sequenced(n.saturating_sub(1)) else {
        return;
    };
    let then = before.then(b"a", 1.0);
    let long = before.then_for(b"abcdefghijklmnopqrstuvwxy", 1.0);
    let cursor = float32::to_u32(then.unwrap_or(before).gap(2.0).cursor());
    println!(stdout;
        "- {n} in sequence: {}, {cursor} s after a gap of 2",
        number_in(&then)
    )
    .is_ok();
    println!(stdout; "- the last with a label of 25: {}", number_in(&long)).is_ok();
}

// n items of a second.
fn sequenced(n: usize) -> Result<Sequence, Refusal> {
    let mut items = Sequence::new();
    for _ in 0..n {
        items = items.then(b"a", 1.0)?;
    }
    Ok(items)
}

// An entry with this label.
fn labelled(label: &[u8]) -> Result<Timeline, Refusal> {
    Timeline::new().add(label, At::Start, 1.0)
}

// The grid with these sides, a second from its first corner to each next place.
fn grid(cols: u32, rows: u32) -> StaggerPattern {
    StaggerPattern::Grid {
        cols,
        rows,
        origin: GridOrigin::TopLeft,
        step: 1.0,
    }
}

// The group of three animations of a second, staggered over the grid with these sides: its refusal, and what is sent to it; a refused
// one is empty.
fn staggered(stdout: Stdout, name: &str, cols: u32, rows: u32) {
    let built = AnimationGroup::stagger(&[1.0, 1.0, 1.0], grid(cols, rows));
    line(stdout, name, number_if(built.refusal));
    sent(stdout, built.panel.timeline());
}

// A line for each of three entries: the byte of the row that a seek to 1.5 s sends, 0 where there is no entry.
fn sent(stdout: Stdout, timeline: Timeline) {
    let mut kinds = [0u8; 3];
    let mut rows = Rows {
        kinds: &mut kinds,
        amounts: &mut [0.0; 3],
        places: &mut [0.0; 3],
    };
    timeline.seek_abs(Secs(1.5), &mut rows).is_ok();
    for (i, kind) in kinds.iter().enumerate() {
        println!(stdout; "- row {i}: {kind}").is_ok();
    }
}

// The number by which a call is refused, or 0, after what it is: answers of several types come here, by `number_in` or `number_if`.
fn line(stdout: Stdout, name: &str, number: u8) {
    println!(stdout; "{name}: {number}").is_ok();
}
