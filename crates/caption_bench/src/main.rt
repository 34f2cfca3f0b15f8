// Asks for a caption many times, to be timed beside the Rust (oracle caption-bench).
//
// Standard input has u32 calls; u32 a and a bytes, the list; u32 b and b bytes, the sheet; u32 entry. Before each call the list's last
// byte is changed, so that no call can be left out. The sum of all `at + len`, modulo 2^32, is printed.
#![tactic(auto)]

ghost use Rattle.std.specs.Prelude.{◌≤◌, length};

use caption::find_caption;
use case_io::input::{Cut, read_record};
use std::io::{Print, Stdin};
use streams::read_full;

const LIST: usize = 140_000;

const SHEET: usize = 12_000;

fn main(rt: HostRuntime) {
    let mut stdin = rt.stdin();
    let mut list = [0u8; LIST];
    let mut sheet = [0u8; SHEET];
    let calls = number(&mut stdin);
    let a = record(&mut stdin, &mut list);
    let b = record(&mut stdin, &mut sheet);
    let entry = number(&mut stdin);
    let sum = captions(calls, &mut list[..a], &sheet[..b], entry as usize);
    rt.println(sum).is_ok();
}

// Reads a number, or what there is of it.
fn number(stdin: &mut Stdin) -> u32 {
    let mut bytes = [0; 4];
    read_full(stdin, &mut bytes);
    u32::from_le_bytes(bytes)
}

// Reads a record, or what there is of it, and answers how long it is.
fn record(stdin: &mut Stdin, room: &mut [u8]) -> usize
    ensures { result ≤ length room.new }
{
    match read_record(stdin, room) {
        Some(Ok(bytes) | Err(Cut(bytes))) => bytes.len(),
        None => 0,
    }
}

fn captions(calls: u32, list: &mut [u8], sheet: &[u8], entry: usize) -> u32 {
    let mut sum = 0u32;
    for call in 0..calls {
        if let Some(last) = list.last_mut() {
            *last = (call % 256) as u8;
        }
        if let Ok(found) = find_caption(list, sheet, entry) {
            sum = sum
                .wrapping_add((found.at % 65_536) as u32)
                .wrapping_add((found.len % 65_536) as u32);
        }
    }
    sum
}
