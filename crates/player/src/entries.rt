// The loops over the first n entries of lent columns: what every entry is sent, and the mark that it leaves. By index:
// after an `iter_mut` a proof does not know what was written (so at the loops of crate track). They take the columns and not the
// player: so their types say that the playhead and the spans stay, which over `&mut Player` each contract would have to say.
ghost use Rattle.std.specs.Prelude.{◌≡◌, false, not, ◌&&◌, [], map, ◌+◌, ◌<◌, ◌≤◌, ltb, length, get_or, set};
ghost use Rattle.std.proofs.lemmas.List.Edits.{sets};
ghost use Rattle.steps.specs.Rows.{ruled};
ghost use Rattle.steps.specs.Slices.{over};
ghost use Rattle.completions.specs.Completions.{keep};
ghost use Rattle.completions.specs.Columns.{most_entries};
ghost use Rattle.player.specs.Loops.{first_in, ticks_in, done_in, entry_at, Reads, Writes, SentTo};

use completions::Spans;
use steps::{Entry, Rule, Step, Stepped};
use track::rows::Rows;

// Entry i of the columns.
fn entry_at(i: usize, spans: Spans<'_>, marks: &[bool]) -> Entry
    requires { (i < length spans.starts.now) × (i < length spans.durations.now) × (i < length marks.now) }
    ensures { result ≡ entry_at i spans.entry marks.now }
{
    Entry {
        start: spans.starts[i],
        duration: spans.durations[i],
        done: marks[i],
    }
}

// To each of n entries what the rule sends, and its mark.
pub(crate) fn apply(n: usize, rule: Rule, spans: Spans<'_>, marks: &mut [bool], rows: &mut Rows<'_>)
    requires { Reads n spans marks.old × Writes n rows.old }
    ensures { SentTo (map (ruled rule) (first_in n spans.entry marks.old)) marks.old marks.new rows.old rows.new }
{
    // Taken out of the struct, which would be read anew in each turn: some 19 instructions an entry.
    let kinds = &mut *rows.kinds;
    let amounts = &mut *rows.amounts;
    let places = &mut *rows.places;
    for i in 0..n {
        let s = rule.sent_to(entry_at(i, spans, marks));
        kinds[i] = s.row.kind;
        amounts[i] = s.row.amount;
        places[i] = s.row.place;
        marks[i] = s.done;
    }
}

// `!was_completed && entry.completed`
fn newly_done(e: Entry, s: Stepped) -> bool
    ensures { result ≡ (not e.done && s.done) }
{
    !e.done && s.done
}

// How many of n entries a tick would list. By index, as the tick itself: zipped, the four slices would be taken apart as
// `(((start, duration), done), reply)`, and the entry put together here.
fn count_done(n: usize, step: Step, spans: Spans<'_>, marks: &[bool], replies: &[u8]) -> usize
    requires { Reads n spans marks.now × (n ≤ length replies.now) }
    ensures { result ≡ length (done_in n step spans.entry marks.now replies.now) }
{
    let mut k = 0;
    for i in 0..n {
        let e = entry_at(i, spans, marks);
        if newly_done(e, e.ticked(step, replies[i])) {
            k += 1;
        }
    }
    k
}

// Whether they outnumber the places of a list. They are at most n.
pub(crate) fn outnumber(
    n: usize,
    step: Step,
    spans: Spans<'_>,
    marks: &[bool],
    replies: &[u8],
    room: usize,
) -> bool
    requires { Reads n spans marks.now × (n ≤ length replies.now) }
    ensures { result ≡ ltb room (length (done_in n step spans.entry marks.now replies.now)) }
{
    room < n && room < count_done(n, step, spans, marks, replies)
}

// Marks the entry i, and lists it at `at`, if it is newly done; says where the next one goes. Most marks stay.
fn note(marks: &mut [bool], list: &mut [u8], at: usize, i: usize, was: bool, done: bool) -> usize
    requires { (i < most_entries) × (i < length marks.old) × (get_or marks.old i false ≡ was) × (at + length (keep (not was && done) i []) ≤ length list.old) }
    ensures { (result ≡ at + length (keep (not was && done) i [])) × (list.new ≡ sets list.old at (keep (not was && done) i [])) × (marks.new ≡ set marks.old i done) }
{
    if done == was {
        return at;
    }
    marks[i] = done;
    if done {
        list[at] = i as u8;
        return at + 1;
    }
    at
}

// `tick_forward`: to each of n entries its row and its mark; the numbers of those newly done go into the list.
pub(crate) fn tick(
    n: usize,
    step: Step,
    spans: Spans<'_>,
    marks: &mut [bool],
    replies: &[u8],
    list: &mut [u8],
    rows: &mut Rows<'_>,
) -> usize
    requires in_bounds { Reads n spans marks.old × Writes n rows.old × (n ≤ most_entries) × (n ≤ length replies.now) }
    requires room { length (done_in n step spans marks.old replies.now) ≤ length list.old }
    ensures value { (result ≡ length (done_in n step spans.entry marks.old replies.now)) × (list.new ≡ over (done_in n step spans.entry marks.old replies.now) list.old) }
    ensures sent_to { SentTo (ticks_in n step spans.entry marks.old replies.now) marks.old marks.new rows.old rows.new }
{
    // Taken out of the struct, which would be read anew in each turn: some 19 instructions an entry.
    let kinds = &mut *rows.kinds;
    let amounts = &mut *rows.amounts;
    let places = &mut *rows.places;
    let mut listed = 0;
    for i in 0..n {
        let e = entry_at(i, spans, marks);
        let s = e.ticked(step, replies[i]);
        kinds[i] = s.row.kind;
        amounts[i] = s.row.amount;
        places[i] = s.row.place;
        listed = note(marks, list, listed, i, e.done, s.done);
    }
    listed
}
