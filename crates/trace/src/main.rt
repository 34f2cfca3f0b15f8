// Runs scripts of calls on timelines and prints what each call leaves, so that it can be compared with what the Rust leaves.
//
// Standard input is as case_io says. Its records are scripts of calls, each a call byte and its operands (trace_read). What moves or
// steers is made in place, too (trace_moves, trace_calls): where that leaves another answer, the line `differs` is written. Each script
// starts from the empty timeline. For each call a line is written, and then lines of what it sent, listed or answered (trace_lines). A
// call whose operands run past the script or are not allowed, and an unknown one, is not made: the line `cut` is written, and the rest
// of the script is passed over.
#![tactic(auto)]

mod builders;
mod introspect;
mod reverse;

use case_io::input::each_record;
use case_io::text::Sink;
use trace_calls::calls;
use trace_moves::moves;
use trace_places::run::Run;
use trace_read::{Call, Cursor, Cut};

// The longest script.
const SCRIPT: usize = 65_536;

fn main(rt: HostRuntime) {
    let mut room = [0u8; SCRIPT];
    each_record(&rt, b"script", &mut room, |sink, script| {
        let calls = script.unwrap_or_else(|cut| cut.0);
        if make_all(sink, calls).is_err() || script.is_err() {
            sink.bytes(b"cut\n");
        }
    });
}

// Makes the calls of a script, as far as they are not cut.
fn make_all(sink: &mut Sink, script: &[u8]) -> Result<(), Cut> {
    let mut cursor = Cursor::new(script);
    let mut run = Run::new();
    // A script has at most as many calls as bytes. No `while let`: that this ends would be a clause at each method of the cursor.
    for number in 1..=script.len() {
        let Ok(byte) = cursor.byte() else {
            break;
        };
        run.number = number;
        run.byte = byte;
        let call = cursor.call(byte)?;
        make(&mut run, sink, &mut cursor, call)?;
    }
    Ok(())
}

// Makes a call: where it moves or steers what plays, by value and in place; another one by value, and the columns are laid out anew
// where it left another timeline.
fn make(
    run: &mut Run,
    sink: &mut Sink,
    cursor: &mut Cursor<'_>,
    call: Call<'_>,
) -> Result<(), Cut> {
    match call {
        Call::Move(call, room) => moves::moving(run, sink, call, room),
        Call::Update(u) => moves::updating(run, sink, u),
        Call::Pause => calls::pause(run, sink),
        Call::Resume => calls::resume(run, sink),
        Call::SetTimeScale(scale) => calls::set_time_scale(run, sink, scale),
        Call::Looping(mode) => calls::looping(run, sink, mode),
        Call::Add(entry) => calls::add(run, sink, entry),
        Call::AddBoxed(entry) => calls::add_boxed(run, sink, entry),
        Call::Delay(pattern, index) => calls::delay(run, sink, pattern, index),
        Call::Introspect => introspect::timeline(run, sink),
        Call::IntrospectGroup => introspect::group(run, sink),
        Call::Reverse(room) => reverse::reversing(run, sink, room),
        Call::Build(how) => builders::building(run, sink, cursor, how)?,
        Call::Sequence(n) => builders::sequencing(run, sink, cursor, n)?,
    }
    Ok(())
}
