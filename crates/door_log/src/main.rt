// The door log: standard input has a sheet and a script, standard output gets the log (docs/FORMATS.md). Crate call_log makes the
// lines; they are written as the calls come, in bounded memory. Where the log is not whole, standard error has a line that says why.
#![tactic(auto)]

mod unread;

ghost use Rattle.std.specs.Prelude.{◌≤◌, length, IfOk};

use call_log::{LINE, Log, MAX_SHEET};
use refusal::Refusal;
use std::io;
use std::io::{Print, Stdin, Stdout};
use streams::{front, read_full};
use thiserror::Error;
use unread::Unread;

// The longest sheet, and the two bytes before it that say how long it is.
const FRONT: usize = 2 + MAX_SHEET;

// How much of the log is written at once.
const OUT: usize = 65_536;

// Why the log is not whole, or is the sheet's line alone. The launcher goes by how a line begins.
#[derive(Debug, Drop, Error)]
enum NotWhole {
    #[error("door_log: the sheet is refused by {0}; docs/FORMATS.md says what the number means")]
    Refused(Refusal),
    #[error("door_log: reading failed; the log is not whole")]
    Unread,
    #[error("door_log: writing failed; the log is not whole")]
    Unwritten,
}

fn main(rt: HostRuntime) {
    if let Err(why) = door_log(&mut rt.stdin(), rt.stdout()) {
        rt.eprintln(why).is_ok();
    }
}

// The log of a sheet and a script. After the first write that fails nothing more is written: what stands there is the log's beginning.
fn door_log(stdin: &mut Stdin, stdout: Stdout) -> Result<(), NotWhole> {
    let mut room = [0u8; FRONT];
    let mut line = [0u8; LINE];
    let front = read_front(stdin, &mut room).map_err(|_| NotWhole::Unread)?;
    let opened = call_log::open(front, &mut line);
    write(stdout, &line, opened.len)?;
    let log = opened.log.map_err(NotWhole::Refused)?;
    script(stdin, stdout, log)
}

// Reads the two bytes that say how long the sheet is, and the sheet, or as much as there is.
fn read_front<'a>(stdin: &mut Stdin, room: &'a mut [u8; FRONT]) -> io::Result<&'a [u8]>
    ensures { IfOk result (λ bytes. length bytes.now ≤ FRONT) }
{
    let head = read_full(stdin, &mut room[..2]).whole()?;
    let len = call_log::sheet_len(&room[..head])
        .unwrap_or(0)
        .min(MAX_SHEET);
    let sheet = read_full(stdin, &mut room[head..head + len]).whole()?;
    Ok(&room[..head + sheet])
}

// Makes the calls, to the end of the input: those that were read whole, a batch at a time, as many as have room for their lines. At the
// end no more than one is left: that is all. A proved loop has to end, and nothing says that the input does: so it ends at a number of
// turns that no run uses up. Not `rt.forever()`: a program that has it counts as one with threads.
fn script(stdin: &mut Stdin, stdout: Stdout, opened: Log) -> Result<(), NotWhole> {
    let mut log = Some(opened);
    let mut unread = Unread::new();
    let mut out = [0u8; OUT];
    for _ in 0..u64::MAX {
        let ended = unread.refill(stdin).map_err(|_| NotWhole::Unread)?;
        let batched = call_log::batch(log, unread.bytes(), ended, &mut out);
        unread.used(batched.used);
        log = batched.log;
        write(stdout, &out, batched.len)?;
        if ended {
            break;
        }
    }
    Ok(())
}

// Writes the first `len` bytes.
fn write(stdout: Stdout, bytes: &[u8], len: usize) -> Result<(), NotWhole> {
    stdout
        .write_all(front(bytes, len))
        .map_err(|_| NotWhole::Unwritten)
}
