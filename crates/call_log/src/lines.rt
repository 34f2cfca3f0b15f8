// The lines of a log, put into a lent array. Each answers where the line ends.
ghost use Rattle.std.specs.Prelude.{◌+◌, ◌≤◌, length};
ghost use Rattle.float32.specs.Helpers.{to_bits};
ghost use Rattle.refusal.specs.Refusal.{number};
ghost use Rattle.clock.specs.Clocks.{letter_of};
ghost use Rattle.call_log.specs.Lines.{Refused, Called, shown, line_size, Wrote};
ghost use Rattle.call_log.specs.Logs.{sheet_line, list_size};

use crate::fields::Text;
use clock::Clock;
use refusal::Refusal;
use track::track::Track;

// The line of a sheet that is refused.
pub(crate) fn refused(out: &mut [u8], refusal: Refusal) -> usize
    requires { line_size ≤ length out.old }
    ensures { Wrote (shown (Refused (number refusal))) 0 out.old out.new result }
{
    let mut line = Text { out, at: 0 };
    line.word(b"sheet");
    line.number(usize::from(refusal.number()));
    line.byte(b'\n');
    line.at
}

// The line of a sheet that is accepted.
pub(crate) fn accepted(out: &mut [u8], track: Track) -> usize
    requires { line_size ≤ length out.old }
    ensures { Wrote (shown (sheet_line track)) 0 out.old out.new result }
{
    let mut line = Text { out, at: 0 };
    line.word(b"sheet");
    line.number(usize::from(refusal::ACCEPTED));
    line.number(track.entry_count());
    line.bits(track.duration());
    line.bits(track.playback_duration());
    line.byte(b'\n');
    line.at
}

// The line of a call, from an offset on. Its refusal is the number that the line shows, 0 for none: an Option would be turned into that
// here, and the caller has the number off the call's answer (`number_in`).
pub(crate) fn called(
    out: &mut [u8],
    start: usize,
    number: usize,
    clock: Clock,
    refusal: u8,
    listed: &[u8],
) -> usize
    requires { (length listed.now ≤ list_size) × (start + line_size ≤ length out.old) }
    ensures { Wrote (shown (Called number (letter_of clock.state) (to_bits clock.elapsed) refusal listed.now)) start out.old out.new result × (result ≤ start + line_size) }
{
    let mut line = Text { out, at: start };
    line.decimal(number);
    line.letter(clock.state.letter());
    line.bits(clock.elapsed);
    line.number(usize::from(refusal));
    line.list(listed);
    line.byte(b'\n');
    line.at
}
