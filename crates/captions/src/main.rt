// The captions of a sheet (docs/FORMATS.md): descriptor 9 has the venue list, standard input the sheet, and standard output gets a
// line for each entry. Where the text is not whole, standard error has a line that says why.
#![tactic(auto)]

ghost use Rattle.std.specs.Prelude.{◌≤◌, length, IfOk};

use caption::finder::Caption;
use caption::{caption, check_list, find_caption};
use escape::escape;
use refusal::{ACCEPTED, Refusal};
use sheet_rules::MAX_SHEET;
use std::io::{Print, Stdout};
use std::{fs, io};
use streams::{front, read_full};
use thiserror::Error;

// The venue list's descriptor, one that nothing else has open, by its name. It is opened again, so that a regular file is read from
// its start; of a FIFO that nobody writes to any more that would wait, and `./panel` copies what is no regular file first.
const LIST_FILE: &str = "/dev/fd/9";

// One byte more than the longest list that is well formed: all offsets are u16, and so is the last length.
const LIST: usize = 131_071;

// One byte more than the longest sheet.
const SHEET: usize = MAX_SHEET + 1;

// How much of a text is written at once, and how many bytes that is of: a byte takes four places at most.
const PIECE: usize = 65_536;

const PART: usize = PIECE / 4;

// What a venue lends: its own words, and the sheet that they are for.
#[derive(Clone, Copy)]
struct Venue<'a> {
    list: &'a [u8],
    sheet: &'a [u8],
}

// Why there is no whole text. The launcher goes by how a line begins.
#[derive(Debug, Drop, Error)]
enum NotWhole {
    #[error("captions: refused by {0}; docs/FORMATS.md says what the number means")]
    Refused(Refusal),
    #[error("captions: reading failed; nothing is written")]
    Unread,
    #[error("captions: writing failed; the text is not whole")]
    Unwritten,
}

fn main(rt: HostRuntime) {
    if let Err(why) = captions(&rt) {
        rt.eprintln(why).is_ok();
    }
}

// The text of what is read. Where the venue is refused, the text is whole: it is the one line.
fn captions(rt: &HostRuntime) -> Result<(), NotWhole> {
    let mut list = [0u8; LIST];
    let mut sheet = [0u8; SHEET];
    let venue = Venue::read(rt, &mut list, &mut sheet).map_err(|_| NotWhole::Unread)?;
    let checked = venue.check();
    let stdout = rt.stdout();
    venue
        .write(stdout, checked)
        .map_err(|_| NotWhole::Unwritten)?;
    checked.map_err(NotWhole::Refused)
}

impl<'a> Venue<'a> {
    // Reads the list, then the sheet.
    fn read(
        rt: &HostRuntime,
        list: &'a mut [u8; LIST],
        sheet: &'a mut [u8; SHEET],
    ) -> io::Result<Venue<'a>> {
        let list_len = read_list(rt, list)?;
        let sheet_len = read_full(&mut rt.stdin(), sheet).whole()?;
        Ok(Venue {
            list: &list[..list_len],
            sheet: &sheet[..sheet_len],
        })
    }

    // The sheet's own reason comes before the list's.
    fn check(self) -> Result<(), Refusal> {
        sheet_format::check(self.sheet)?;
        check_list(self.list)
    }

    // Writes the text of a venue that was checked. After the first write that fails nothing more is written: what stands there is the
    // text's beginning.
    fn write(self, stdout: Stdout, checked: Result<(), Refusal>) -> io::Result<()> {
        stdout.print("captions ")?;
        if let Err(refusal) = checked {
            return stdout.println(refusal);
        }
        let count = sheet_format::count(self.sheet);
        stdout.println(format_args!("{ACCEPTED} {count}"))?;
        let mut room = [0u8; PIECE];
        for entry in 0..count {
            if let Ok(found) = find_caption(self.list, self.sheet, entry) {
                let text = caption(self.list, self.sheet, entry);
                write_line(stdout, entry, found, text, &mut room)?;
            }
        }
        Ok(())
    }
}

// Reads the list, and closes its file: where standard input is closed, the file has its descriptor, and must not be read as the sheet.
fn read_list(rt: &HostRuntime, list: &mut [u8; LIST]) -> io::Result<usize>
    ensures { IfOk result (λ n. n ≤ length list.new) }
{
    let mut file = fs::open(rt, LIST_FILE)?;
    read_full(&mut file, list).whole()
}

// `number source at len text`; the line of an empty text ends after its length.
fn write_line(
    stdout: Stdout,
    entry: usize,
    found: Caption,
    text: &[u8],
    room: &mut [u8; PIECE],
) -> io::Result<()> {
    let source = char::from(found.source.letter());
    let Caption { at, len, .. } = found;
    if text.is_empty() {
        return stdout.println(format_args!("{entry} {source} {at} {len}"));
    }
    stdout.print(format_args!("{entry} {source} {at} {len} "))?;
    for part in text.chunks(PART) {
        let made = escape(part, room);
        stdout.write_all(front(room, made.len))?;
    }
    stdout.println("")
}
