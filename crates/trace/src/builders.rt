// The builders: what they build is what plays next.
use case_io::text::Sink;
use group::group::AnimationGroup;
use group::sequence::Sequence;
use group::stagger::stagger;
use refusal::Refusal;
use trace_places::run::Run;
use trace_read::{Builder, Cursor, Cut, ITEMS, Item, ROWS};

// Stagger, and a group's parallel, sequence and stagger.
pub(crate) fn building(
    run: &mut Run,
    sink: &mut Sink,
    cursor: &mut Cursor<'_>,
    how: Builder,
) -> Result<(), Cut> {
    let mut room = [0.0; ROWS];
    let durations = cursor.durations(&mut room)?;
    let built = match how {
        Builder::Stagger(delay) => stagger(durations, delay),
        Builder::GroupParallel => AnimationGroup::parallel(durations).timeline(),
        Builder::GroupSequence => AnimationGroup::sequence(durations).timeline(),
        Builder::GroupStagger(pattern) => AnimationGroup::stagger(durations, pattern).timeline(),
    };
    run.replace(sink, built.panel, built.refusal);
    trace_lines::entries(sink, &run.timeline);
    Ok(())
}

// Sequence, of n items. Of each its refusal is shown, and the cursor after it: they are kept, since the call's line comes first.
pub(crate) fn sequencing(
    run: &mut Run,
    sink: &mut Sink,
    cursor: &mut Cursor<'_>,
    n: u8,
) -> Result<(), Cut> {
    let mut sequence = Sequence::new();
    let mut items = [(None, 0.0); ITEMS];
    let n = usize::from(n);
    for left in items.iter_mut().take(n) {
        let answer = add(sequence, cursor.item()?);
        sequence = answer.unwrap_or(sequence);
        *left = (answer.err(), sequence.cursor());
    }
    run.replace(sink, sequence.build(), None);
    trace_lines::entries(sink, &run.timeline);
    trace_lines::items(sink, &items[..n]);
    Ok(())
}

fn add(sequence: Sequence, item: Item<'_>) -> Result<Sequence, Refusal> {
    match item {
        Item::Then { label, secs } => sequence.then(label, secs),
        Item::ThenFor { label, secs } => sequence.then_for(label, secs),
        Item::Gap(secs) => Ok(sequence.gap(secs)),
    }
}
