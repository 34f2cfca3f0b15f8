// What a sheet describes, with floats as raw bits.
ghost use Rattle.std.specs.Prelude.{◌≡◌, IfOk, min, length};
ghost use Rattle.refusal.specs.Refusal.{number_in};
ghost use Rattle.steps.specs.Times.{max_entries};
ghost use Rattle.sheet_format.specs.Check.{check_number};
ghost use Rattle.sheet_format.specs.Descriptions.{blank_item, items_in, empty_description, description_in, numbered, described_by};

use crate::sheet::Sheet;
use label::Label;
use refusal::Refusal;
pub use sheet_rules::Placement;
use steps::MAX_ENTRIES;
use tween::Loop;
use words::u32_at;

// An entry: the bits of its duration, where it is placed, what it is called.
// No `==` is derived: it would compare the bytes past the label's length, too.
#[derive(Clone, Copy, Debug)]
pub struct Item {
    pub duration: u32,
    pub at: Placement,
    pub label: Label,
}

impl Item {
    // What stands in a slot that describes no entry. Not a `Default`: no value is that of an entry that nobody gave.
    pub(crate) fn blank() -> Item
        ensures { result ≡ blank_item }
    {
        Item {
            duration: 0,
            at: Placement::Start,
            label: Label::new(&[]),
        }
    }
}

// A panel. Items past the count are no part of it, nor are bytes past a label's length. An array and a count: in paper 01 `Vec`
// becomes a fixed array, and a description is Copy, which an `ArrayVec` is not.
// No `==`, as `Item` has none.
#[derive(Clone, Copy, Debug)]
pub struct Description {
    pub count: usize,
    pub looping: Loop,
    pub time_scale: u32,
    pub items: [Item; MAX_ENTRIES],
}

impl Description {
    // The description of the empty panel.
    #[tactic(auto, unfolding(crate::specs::Descriptions::empty_description))]
    pub fn empty() -> Description
        ensures { result ≡ empty_description }
    {
        Description {
            count: 0,
            looping: Loop::Once,
            time_scale: 0x3f80_0000,
            items: [Item::blank(); MAX_ENTRIES],
        }
    }

    // The entries that count; of a count past the last slot, all.
    pub fn items(&self) -> &[Item]
        ensures value { result.now ≡ items_in self.now }
        ensures len { length result.now ≡ min self.now.count max_entries }
    {
        &self.items[..self.count.min(MAX_ENTRIES)]
    }

    // The description that a sheet says, or why the sheet is refused.
    fn read(sheet: &[u8]) -> Result<Description, Refusal>
        ensures number { number_in result ≡ check_number sheet.now }
        ensures value { IfOk result (λ described. described ≡ description_in sheet.now) }
    {
        let sheet = Sheet::of(sheet)?;
        sheet.check_pairs()?;
        Ok(Description {
            count: sheet.count,
            looping: sheet.looping,
            time_scale: u32_at(sheet.bytes, 8),
            items: sheet.items()?,
        })
    }
}

// The answer of describe. Not a Result: a refusing reader hands out the empty panel (paper 01), so the description stands beside the refusal.
#[derive(Clone, Copy, Debug)]
pub struct Described {
    pub refusal: Option<Refusal>,
    pub description: Description,
}

// The description of any bytes: that of the empty panel where they are refused.
pub fn describe(sheet: &[u8]) -> Described
    ensures { numbered result ≡ described_by sheet.now }
{
    match Description::read(sheet) {
        Ok(description) => Described {
            refusal: None,
            description,
        },
        Err(refusal) => Described {
            refusal: Some(refusal),
            description: Description::empty(),
        },
    }
}
