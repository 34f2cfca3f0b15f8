// The venue's own words (paper 02, S-1): the caption of a sheet's entry is a part of the venue list, or of the sheet. No byte is copied.
//
// A venue list is a u16 number of codes, two pairs for each, that of the code and that of its words, and the text.
#![tactic(auto)]

pub mod finder;

ghost use Rattle.caption.specs.Captions.{caption_of, IsPart};
ghost use Rattle.caption.specs.Claim.{Claim};

use finder::Source;
pub use finder::{check_list, find_caption};

// The named form of a caption: the part itself, of one of the two. Of a refused call it is the empty start of the sheet.
pub fn caption<'a>(list: &'a [u8], sheet: &'a [u8], entry: usize) -> &'a [u8]
    ensures { IsPart (caption_of list.now sheet.now entry) list.entry sheet.entry result }
{
    match find_caption(list, sheet, entry) {
        Err(_) => &sheet[..0],
        Ok(found) => {
            let end = found.at + found.len;
            match found.source {
                Source::Sheet => &sheet[found.at..end],
                Source::List => &list[found.at..end],
            }
        }
    }
}

// Proved: what holds of every caption.
pub fn claimed()
    ensures { Claim }
{}
