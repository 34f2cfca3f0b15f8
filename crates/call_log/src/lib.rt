// The door log (paper 01, "The door log program") as functions on slices: the line of the sheet, then a line for each call.
#![tactic(auto)]

mod fields;
mod lines;

ghost use Rattle.std.specs.Prelude.{◌≡◌, ◌+◌, ◌≤◌, length, true, false, Some, None, IfNone, IfSome};
ghost use Rattle.std.specs.Result.{result_ok};
ghost use Rattle.refusal.specs.Refusal.{number_in};
ghost use Rattle.call_log.specs.Lines.{shown, line_size};
ghost use Rattle.call_log.specs.Logs.{is_cut, sheet_in, sheet_number};
ghost use Rattle.call_log.specs.Machine.{CallAt, Makes, log_in, Logs, RunsTo, sheet_room, open_line, open_log, Opens, lined, least_bytes, batch_of, batched_by};

use completions::MOST_ENTRIES;
pub use fields::LINE;
use player::engine::Player;
use refusal::Refusal;
pub use sheet_rules::MAX_SHEET;
use steps::MAX_ENTRIES;
use track::rows::Rows;
use track::track::{Columns, Track};
use words::{u16_at, u32_at};

// How many bytes a call has.
pub const CALL: usize = 5;

// How many completed entries an update can list.
pub const LIST: usize = MOST_ENTRIES;

// A call of a script: its byte and its f32.
#[derive(Clone, Copy, Debug, PartialEq)]
struct Call {
    byte: u8,
    x: f32,
}

// A log: how many lines of calls it has, and what plays, as the calls left it.
#[derive(Clone, Copy, Debug)]
pub struct Log {
    pub number: usize,
    pub track: Track,
}

// The answer of open: how long the line is, and the log, or why the sheet is refused, which has its line, too.
#[derive(Clone, Copy, Debug)]
pub struct Opened {
    pub len: usize,
    pub log: Result<Log, Refusal>,
}

// The answer of batch: how many bytes it used, how long the lines are, and the log.
#[derive(Clone, Copy, Debug)]
pub struct Batched {
    pub used: usize,
    pub len: usize,
    pub log: Option<Log>,
}

// The answer of run: the number of the last line, how many bytes it used, and how long the lines are.
#[derive(Clone, Copy, Debug, PartialEq, Eq)]
struct Ran {
    number: usize,
    used: usize,
    len: usize,
}

// The row slices that are lent to each call, which no line shows. The list, which is read, lies apart: beside it each row would be
// computed and stored for nothing.
#[derive(Drop)]
struct LentRows {
    kinds: [u8; MAX_ENTRIES],
    amounts: [f32; MAX_ENTRIES],
    places: [f32; MAX_ENTRIES],
}

// How many bytes the sheet has after the two that say so. None where these are not there, or the sheet is too long.
#[tactic(auto, unfolding(crate::specs::Machine::sheet_room))]
pub fn sheet_len(input: &[u8]) -> Option<usize>
    ensures { result ≡ sheet_room input.now }
{
    let len = usize::from(u16_at(input, 0));
    if input.len() < 2 || len > MAX_SHEET {
        return None;
    }
    Some(len)
}

// Opens a log by the input's first bytes: its sheet, and maybe more. The line is the sheet's.
pub fn open(input: &[u8], line: &mut [u8; LINE]) -> Opened
    ensures value { Opens input.now result }
    ensures line_after { line.new ≡ lined (shown (open_line input.now)) line.old }
{
    let log = read(input);
    let len = match log {
        Ok(log) => lines::accepted(line, log.track),
        Err(refusal) => lines::refused(line, refusal),
    };
    Opened { len, log }
}

// The log of the input's sheet, before its first call.
fn read(input: &[u8]) -> Result<Log, Refusal>
    ensures number { number_in result ≡ sheet_number input.now }
    ensures log { result_ok result ≡ open_log input.now }
{
    let sheet = sheet_in(input).ok_or(Refusal::SheetLength)?;
    let reading = sheet::read(sheet);
    match reading.refusal {
        Some(refusal) => Err(refusal),
        None => Ok(Log {
            number: 0,
            track: reading.timeline.track,
        }),
    }
}

// The sheet, where it is not too long and the input has all of it.
#[tactic(auto, using(crate::proofs::Opening::sheets))]
fn sheet_in(input: &[u8]) -> Option<&[u8]>
    ensures none { IfNone result (is_cut input.now ≡ true) }
    ensures some { IfSome result (λ sheet. (is_cut input.now ≡ false) × (sheet.now ≡ sheet_in input.now)) }
{
    let len = sheet_len(input)?;
    input.get(2..2 + len)
}

// Makes the calls that the bytes hold, one after the other, as long as room for a line is left, and writes their lines to the front.
// Where the input ends behind the bytes, 1 to 4 that are left over are no call and have a line, too. No log is that of a sheet that
// was refused: it uses the bytes up. What plays is laid out in columns once, and gathered after the last call.
pub fn batch(log: Option<Log>, bytes: &[u8], ended: bool, out: &mut [u8]) -> Batched
    ensures value { result ≡ batched_by (batch_of ended log bytes.now (length out.old)) }
    ensures out_after { out.new ≡ lined (batch_of ended log bytes.now (length out.old)).text out.old }
{
    let Some(log) = log else {
        return Batched {
            used: used_up(bytes, ended, out.len()),
            len: 0,
            log: None,
        };
    };
    // By hand, tried with `Player::of`, whose parts are of one lifetime: the check does not cover a call at it while a part is lent again.
    let columns = &mut Columns::of(log.track);
    let mut player = Player {
        head: columns.head,
        spans: columns.held.spans(),
        marks: &mut columns.marks,
    };
    let ran = run(log.number, &mut player, bytes, ended, out);
    let gathered = log.track.gather(player.head, player.spans, player.marks);
    let track = Track {
        count: log.track.count,
        ..gathered
    };
    Batched {
        used: ran.used,
        len: ran.len,
        log: Some(Log {
            number: ran.number,
            track,
        }),
    }
}

// How many bytes are used up where there is no log: all calls, if a line has room.
#[tactic(auto, using(crate::proofs::Batches::used))]
fn used_up(bytes: &[u8], ended: bool, room: usize) -> usize
    ensures { result ≡ (batch_of ended None bytes.now room).used }
{
    if room < LINE {
        return 0;
    }
    if ended {
        bytes.len()
    } else {
        bytes.len() - bytes.len() % CALL
    }
}

// The calls of a batch, in place.
fn run(
    mut number: usize,
    player: &mut Player<'_, '_>,
    bytes: &[u8],
    ended: bool,
    out: &mut [u8],
) -> Ran
    ensures { RunsTo (batch_of ended (Some (log_in number player.old)) bytes.now (length out.old)) result player.old player.new out.old out.new }
{
    let mut list = [0; LIST];
    let mut lent = LentRows {
        kinds: [0; MAX_ENTRIES],
        amounts: [0.0; MAX_ENTRIES],
        places: [0.0; MAX_ENTRIES],
    };
    let least = least_bytes(ended);
    let mut used = 0;
    let mut len = 0;
    // The last of them may be cut, and how long a line is shows when it is written.
    for call in bytes.chunks(CALL) {
        if call.len() < least || out.len() - len < LINE {
            break;
        }
        number = number.saturating_add(1);
        len += next(number, player, &mut list, &mut lent, call, out, len);
        used += call.len();
    }
    Ran { number, used, len }
}

// How many bytes have to be there for a call.
fn least_bytes(ended: bool) -> usize
    ensures { result ≡ least_bytes ended }
{
    if ended { 1 } else { CALL }
}

// Makes the call at the front of the script, and writes its line, with its number, from an offset on. Answers how long the line is.
fn next(
    number: usize,
    player: &mut Player<'_, '_>,
    list: &mut [u8; LIST],
    lent: &mut LentRows,
    rest: &[u8],
    out: &mut [u8],
    at: usize,
) -> usize
    requires { at + line_size ≤ length out.old }
    ensures { Logs number player.old rest.now result player.new at out.old out.new }
{
    let made = make_at(player, rest, list, lent);
    let refusal = refusal::number_in(&made);
    let listed = &list[..made.unwrap_or(0)];
    lines::called(out, at, number, player.head.clock, refusal, listed) - at
}

// Makes the call at the front of the script. Fewer bytes than a call has are refused. Leaves always reply 1.
fn make_at(
    player: &mut Player<'_, '_>,
    rest: &[u8],
    list: &mut [u8; LIST],
    lent: &mut LentRows,
) -> Result<usize, Refusal>
    ensures { Makes player.old rest.now result player.new list.new }
{
    let call = call_at(rest).ok_or(Refusal::BadCall)?;
    let mut rows = Rows {
        kinds: &mut lent.kinds,
        amounts: &mut lent.amounts,
        places: &mut lent.places,
    };
    script::make(
        player,
        call.byte,
        call.x,
        &[1; MAX_ENTRIES],
        list,
        &mut rows,
    )
}

// The call at the front of the script, if its bytes are all there.
fn call_at(rest: &[u8]) -> Option<Call>
    ensures { CallAt rest.now result }
{
    if rest.len() < CALL {
        return None;
    }
    Some(Call {
        byte: rest[0],
        x: float32::from_bits(u32_at(rest, 1)),
    })
}
