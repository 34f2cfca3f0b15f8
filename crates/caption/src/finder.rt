// The pass over a venue list, and the caption that it finds.
ghost use Rattle.std.specs.Prelude.{◌≡◌};
ghost use Rattle.refusal.specs.Refusal.{number_in};
ghost use Rattle.caption.specs.Captions.{looked_up, list_number, shown, answer, caption_of, letter_of};

use label::same_text;
use refusal::Refusal;
use sheet_rules::HEADER_SIZE;
use words::{PAIR_SIZE, Pair, pair_at, part_at, part_of, u16_at};

// Bytes of the number of codes.
const COUNT_SIZE: usize = 2;

// Bytes of the two pairs of a code.
const CODE_SIZE: usize = 8;

// Which of the two a caption is a part of, by its letter: `S` for the sheet, `L` for the list.
#[derive(Clone, Copy, Debug, PartialEq, Eq)]
pub enum Source {
    Sheet = b'S' as isize,
    List = b'L' as isize,
}

impl Source {
    // Its letter.
    pub fn letter(self) -> u8
        ensures { result ≡ letter_of self }
    {
        self as u8
    }
}

// The part that is shown: of which of the two, from where, and how long.
#[derive(Clone, Copy, Debug, PartialEq, Eq)]
pub struct Caption {
    pub source: Source,
    pub at: usize,
    pub len: usize,
}

impl Caption {
    // The part that a pair names.
    fn of(source: Source, part: Pair) -> Caption
        ensures { result ≡ shown source part }
    {
        Caption {
            source,
            at: part.offset,
            len: part.len,
        }
    }
}

// Goes over a list once: its pairs in turn, and the words of the first code that is the label.
fn look_up(list: &[u8], label: &[u8]) -> Result<Option<Pair>, Refusal>
    ensures { result ≡ looked_up list.now label.now }
{
    let n = usize::from(u16_at(list, 0));
    let mut offset = COUNT_SIZE + CODE_SIZE * n;
    let mut first = None;
    // by offset, and not by `chunks_exact`: of a list shorter than its pairs the rest is read as zeros
    for i in 0..n {
        let at = COUNT_SIZE + CODE_SIZE * i;
        let code = pair_at(list, at);
        let words = pair_at(list, at + PAIR_SIZE);
        if code.offset != offset || words.offset != offset + code.len {
            return Err(Refusal::BadCaption);
        }
        offset = words.offset + words.len;
        if first.is_none() && same_text(part_of(list, code), label) {
            first = Some(words);
        }
    }
    if offset != list.len() {
        return Err(Refusal::BadCaption);
    }
    Ok(first)
}

// Whether a venue list is accepted, or why it is refused.
pub fn check_list(list: &[u8]) -> Result<(), Refusal>
    ensures { number_in result ≡ list_number list.now }
{
    look_up(list, b"")?;
    Ok(())
}

// The caption of an entry: the words of the first code that is its label, or the label itself.
pub fn find_caption(list: &[u8], sheet: &[u8], entry: usize) -> Result<Caption, Refusal>
    ensures { answer result ≡ caption_of list.now sheet.now entry }
{
    sheet_format::check(sheet)?;
    if entry >= sheet_format::count(sheet) {
        return Err(Refusal::BadCaption);
    }
    let at = HEADER_SIZE + PAIR_SIZE * entry;
    match look_up(list, part_at(sheet, at))? {
        Some(words) => Ok(Caption::of(Source::List, words)),
        None => Ok(Caption::of(Source::Sheet, pair_at(sheet, at))),
    }
}
