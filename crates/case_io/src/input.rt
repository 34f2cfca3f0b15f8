// Standard input: a byte, 0 for text and 1 for digests, and then records, each a u32 n, little-endian, and n bytes.
ghost use Rattle.std.specs.Prelude.{◌≤◌, length, IfSome, IfOk, IfErr};

use crate::text::{Form, Sink};
use std::io::Stdin;
use streams::read_full;

// What there is of a record that the input does not have whole.
#[derive(Clone, Copy, Debug, PartialEq, Eq)]
pub struct Cut<'a>(pub &'a [u8]);

// Answers each record by a case of this name, to the end of the input, or to a record that is cut.
pub fn each_record<F: FnMut(&mut Sink, Result<&[u8], Cut<'_>>)>(
    rt: &HostRuntime,
    name: &[u8],
    room: &mut [u8],
    mut answer: F,
)
    requires { F.IsAlwaysCallable answer }
{
    let mut stdin = rt.stdin();
    let Some(form) = read_form(&mut stdin) else {
        return;
    };
    let mut sink = Sink::new(rt.stdout(), form);
    // A proved loop has to end, and nothing says that the input does: so it ends at a number of records that no run reaches. With
    // `rt.forever()` a program would count as one with threads (`threads=` in the check's last line).
    for number in 1..usize::MAX {
        let Some(record) = read_record(&mut stdin, room) else {
            return;
        };
        sink.begin(name, number);
        answer(&mut sink, record);
        sink.end();
        if record.is_err() {
            return;
        }
    }
}

// Reads the first byte: none where there is none, or another.
pub fn read_form(stdin: &mut Stdin) -> Option<Form> {
    let mut first = [0xFF; 1];
    read_full(stdin, &mut first);
    match first[0] {
        0 => Some(Form::Text),
        1 => Some(Form::Digests),
        _ => None,
    }
}

// Reads the next u32: none where the input does not have all of it.
pub fn read_word(stdin: &mut Stdin) -> Option<u32> {
    let mut bytes = [0; 4];
    let whole = read_full(stdin, &mut bytes).count == 4;
    whole.then(|| u32::from_le_bytes(bytes))
}

// Reads the next record into the front of a slice: none where the input ends before it. None of its bytes is there where its length is
// cut, or above the slice's.
pub fn read_record<'a>(stdin: &mut Stdin, room: &'a mut [u8]) -> Option<Result<&'a [u8], Cut<'a>>>
    ensures whole { IfSome result (λ r. IfOk r (λ bytes. length bytes.now ≤ length room.old)) }
    ensures cut { IfSome result (λ r. IfErr r (λ part. length part.0.now ≤ length room.old)) }
{
    let mut bytes = [0; 4];
    let read = read_full(stdin, &mut bytes).count;
    if read == 0 {
        return None;
    }
    let n = u32::from_le_bytes(bytes) as usize;
    if read < 4 || n > room.len() {
        return Some(Err(Cut(&room[..0])));
    }
    let count = read_full(stdin, &mut room[..n]).count;
    Some(if count == n {
        Ok(&room[..n])
    } else {
        Err(Cut(&room[..count]))
    })
}
