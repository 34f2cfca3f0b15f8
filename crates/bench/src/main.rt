// Makes many calls on a timeline, to be timed beside the Rust (`tools/bench`).
//
// Standard input: which job, a u16 of how many entries, and a u32 of how many calls, little-endian. The job's number has 10 more where
// all rows are looked at after every call, and 20 more where it is played by value. It prints the elapsed time that the calls come to,
// or the base where entries are added, and a sum of what was seen, each as the eight hex digits of its bits. No input: nothing is
// done.
#![tactic(auto)]

mod by_value;
mod in_place;
mod jobs;
mod rows;

use jobs::Job;
use rows::sum;
use std::io::Print;
use streams::read_full;

const INPUT: usize = 7;

// What the calls come to: a time, and a sum of the rows that were looked at.
#[derive(Clone, Copy, Default)]
pub struct Came {
    time: f32,
    seen: u32,
}

fn main(rt: HostRuntime) {
    let mut stdin = rt.stdin();
    let mut input = [0u8; INPUT];
    let got = read_full(&mut stdin, &mut input);
    if got.count < INPUT {
        return;
    }
    let [number, low, high, a, b, c, d] = input;
    let entries = u16::from_le_bytes([low, high]);
    let came = come_to(number, entries, u32::from_le_bytes([a, b, c, d]));
    let mut line = *b"........ ........\n";
    digits::put_hex8(float32::to_bits(came.time), &mut line, 0);
    digits::put_hex8(came.seen, &mut line, 9);
    rt.stdout().write_all(&line).is_ok();
}

fn come_to(number: u8, entries: u16, turns: u32) -> Came {
    let job = Job::from(number);
    if job == Job::Add {
        return Came {
            time: jobs::adds(entries, turns),
            seen: 0,
        };
    }
    let t = job.built(entries);
    let n = t.entry_count();
    let mut seen = 0;
    let time = match number / 10 {
        0 => in_place::come_to(t, job, turns, |_| {}),
        1 => in_place::come_to(t, job, turns, |rows| seen = sum(n, rows, seen)),
        _ => by_value::come_to(t, job, turns),
    };
    time.map_or(Came::default(), |time| Came { time, seen })
}
