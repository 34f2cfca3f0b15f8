// Reads sheets and prints what the port's reader and writer answer, so that it can be compared with what an independent reader and
// the Rust answer.
//
// Standard input is as case_io says. Its records are sheets, 12,000 bytes at most; of each the lines of lines.rt are written. A sheet
// that the input does not have whole, or that is longer, is `cut`, and the last.
#![tactic(auto)]

mod lines;
mod spoil;

use case_io::input::each_record;
use lines::SHEET;

fn main(rt: HostRuntime) {
    let mut room = [0u8; SHEET];
    each_record(&rt, b"sheet", &mut room, |sink, sheet| match sheet {
        Ok(sheet) => lines::sheet(sink, sheet),
        Err(_) => sink.bytes(b"cut\n"),
    });
}
