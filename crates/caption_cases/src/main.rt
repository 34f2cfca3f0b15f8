// Reads venue lists and sheets, and prints the caption of an entry of each, so that it can be compared with an independent model.
//
// Standard input has records: u32 a and a bytes, the list, at most 140,000; u32 b and b bytes, the sheet, at most 12,000; u32 entry. Of
// each `refusal source at len text` is written: source S or L, the text as hex pairs, or `-` where it is empty. A record that is
// longer, or that the input does not have whole, is `cut`, and the last.
#![tactic(auto)]

use caption::finder::{Caption, Source};
use caption::{caption, find_caption};
use case_io::fields;
use case_io::input::{Cut, read_record, read_word};
use case_io::text::{Form, Sink};
use std::io::Stdin;

// The longest list and the longest sheet.
const LIST: usize = 140_000;

const SHEET: usize = 12_000;

fn main(rt: HostRuntime) {
    let mut stdin = rt.stdin();
    let mut list = [0u8; LIST];
    let mut sheet = [0u8; SHEET];
    let mut sink = Sink::new(rt.stdout(), Form::Text);
    // A proved loop has to end, and nothing says that the input does: so it ends at a number of records that no run reaches.
    // Not `rt.forever()`: a program that has it counts as one with threads.
    for _ in 0..u64::MAX {
        let Some(first) = read_record(&mut stdin, &mut list) else {
            break;
        };
        if answer(&mut stdin, &mut sink, first, &mut sheet).is_none() {
            sink.bytes(b"cut\n");
            break;
        }
    }
    sink.end();
}

// Reads the rest of a record and prints its line; prints none where the record is cut. An Option, and no `Result`: what
// there is of a cut record is not printed, so an error would carry nothing.
fn answer(
    stdin: &mut Stdin,
    sink: &mut Sink,
    list: Result<&[u8], Cut<'_>>,
    sheet: &mut [u8],
) -> Option<()> {
    let list = list.ok()?;
    let sheet = read_record(stdin, sheet)?.ok()?;
    let entry = read_word(stdin)?;
    line(sink, list, sheet, entry as usize);
    Some(())
}

// `refusal source at len text`
fn line(sink: &mut Sink, list: &[u8], sheet: &[u8], entry: usize) {
    let found = find_caption(list, sheet, entry);
    sink.decimal(usize::from(refusal::number_in(&found)));
    let refused = Caption {
        source: Source::Sheet,
        at: 0,
        len: 0,
    };
    let found = found.unwrap_or(refused);
    sink.letter(b' ', found.source.letter());
    sink.number(b' ', found.at);
    sink.number(b' ', found.len);
    sink.byte(b' ');
    fields::hex(sink, caption(list, sheet, entry));
    sink.byte(b'\n');
}
