// Reading a stored sheet (paper 01, "The sheet"): its description, and the timeline that it builds. sheet_format has the checks and the writer.
#![tactic(auto)]

ghost use Rattle.std.specs.Prelude.{◌≡◌};
ghost use Rattle.float32.specs.Helpers.{from_bits};
ghost use Rattle.label.specs.Label.{text};
ghost use Rattle.timeline.specs.Calls.{Call, AddAtLabel, step, after};
ghost use Rattle.sheet.specs.Build.{at_of, placed_call, call_at, built, numbered_reading, reading_of};
ghost use Rattle.sheet.specs.Claim.{Claim};

use refusal::Refusal;
use sheet_format::describe;
use sheet_format::description::{Described, Description, Item, Placement};
use timeline::timeline::{At, Timeline};

// The answer of read. Not a Result: a refusing reader hands out the empty panel (paper 01), so both parts stand beside the refusal.
#[derive(Clone, Copy, Debug)]
pub struct Reading {
    pub refusal: Option<Refusal>,
    pub described: Description,
    pub timeline: Timeline,
}

// A placement, with floats. A function, since both types are of other crates: `From` may not be written here.
fn at_of(at: Placement) -> At
    ensures { result ≡ at_of at }
{
    match at {
        Placement::Absolute(seconds) => At::Absolute(float32::from_bits(seconds)),
        Placement::Start => At::Start,
        Placement::End | Placement::Label(_) => At::End,
        Placement::Offset(seconds) => At::Offset(float32::from_bits(seconds)),
    }
}

// The timeline with one of these entries: at its own placement, or where the first one with its target's label starts.
fn add_item(timeline: Timeline, items: &[Item], item: &Item) -> Timeline
    ensures { result ≡ (step timeline (call_at items.now item.now.at item.now)).timeline }
{
    let label = item.label.text();
    let duration = float32::from_bits(item.duration);
    let target = match item.at {
        Placement::Label(k) => items.get(k),
        Placement::Absolute(_) | Placement::Start | Placement::End | Placement::Offset(_) => None,
    };
    let added = match target {
        Some(target) => timeline.add_at_label(label, target.label.text(), duration),
        None => timeline.add(label, at_of(item.at), duration),
    };
    added.unwrap_or(timeline)
}

// The timeline that a description builds.
pub fn build(described: Description) -> Timeline
    ensures { result ≡ built described }
{
    let items = described.items();
    let scale = float32::from_bits(described.time_scale);
    let mut timeline = Timeline::new()
        .looping(described.looping)
        .set_time_scale(scale);
    for item in items {
        timeline = add_item(timeline, items, item);
    }
    timeline
}

// Reads any bytes. Where they are refused, the description and the timeline are those of the empty panel.
pub fn read(sheet: &[u8]) -> Reading
    ensures { numbered_reading result ≡ reading_of sheet.now }
{
    let Described {
        refusal,
        description,
    } = describe(sheet);
    let timeline = match refusal {
        None => build(description),
        Some(_) => Timeline::new(),
    };
    Reading {
        refusal,
        described: description,
        timeline,
    }
}

// What is claimed of sheets, as a contract: without it the crate is not proved.
pub fn claimed()
    ensures { Claim }
{}
