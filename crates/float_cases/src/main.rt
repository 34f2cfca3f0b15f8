// Answers questions on the float helpers and the delays, so that the answers can be compared with the Rust's.
//
// Standard input is records of 21 bytes: the number of a question (question.rt) and five operands, u32, little-endian; a float is
// given by its bits, and operands that a question does not have count for nothing. For each record a line is written: the refusal
// as two hex digits, a space, and the answer as eight hex digits. Bytes at the end that are no whole record are passed over.
#![tactic(auto)]

mod question;

use std::io;
use std::io::{Print, Stdin, Stdout};
use streams::read_full;
use words::u32_at;

const RECORD: usize = 21;

const LINE: usize = 12;

// Records that are read at a time.
const BLOCK: usize = 3072;

// Answers to the end of the input, or until a write fails. A proved loop has to end, and nothing says that the input does: so it ends at
// a number of turns that no run uses up. Not `rt.forever()`: a program that has it counts as one with threads.
fn main(rt: HostRuntime) {
    let mut stdin = rt.stdin();
    for _ in 0..u64::MAX {
        if !answer_block(&mut stdin, rt.stdout()).unwrap_or(false) {
            return;
        }
    }
}

// Answers the next records, and says whether there may be more.
fn answer_block(stdin: &mut Stdin, stdout: Stdout) -> io::Result<bool> {
    let mut records = [[0; RECORD]; BLOCK];
    let mut lines = [[0; LINE]; BLOCK];
    let count = read_full(stdin, records.as_flattened_mut()).count;
    let whole = count / RECORD;
    for (line, record) in lines.iter_mut().zip(&records).take(whole) {
        *line = line_of(record);
    }
    stdout.write_all(lines[..whole].as_flattened())?;
    Ok(whole == BLOCK)
}

// The line of a record.
fn line_of(record: &[u8; RECORD]) -> [u8; LINE] {
    let operands = [1, 5, 9, 13, 17].map(|at| u32_at(record, at));
    let (refusal, bits) = question::numbered(question::ask(record[0], operands));
    let mut line = *b"00 00000000\n";
    digits::put_hex2(refusal, &mut line, 0);
    digits::put_hex8(bits, &mut line, 3);
    line
}
