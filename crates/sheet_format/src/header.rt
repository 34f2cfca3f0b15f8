// The header: version, count, mode, loop number, scale bits.
ghost use Rattle.std.specs.Prelude.{◌≡◌, ◌≤◌, length};
ghost use Rattle.steps.specs.Times.{max_entries};
ghost use Rattle.digits.specs.Digits.{put_at};
ghost use Rattle.sheet_rules.specs.Rules.{header_size, labels_at};
ghost use Rattle.sheet_format.specs.Check.{records_at, count_in};
ghost use Rattle.sheet_format.specs.Write.{header_bytes};

use crate::put::put;
use sheet_rules::{HEADER_SIZE, RECORD_SIZE, VERSION};
use tween::Loop;
use words::PAIR_SIZE;

// Where the records of n entries start.
pub(crate) fn records_at(n: usize) -> usize
    requires { n ≤ max_entries }
    ensures { result ≡ records_at n }
{
    HEADER_SIZE + PAIR_SIZE * n
}

// Where the labels of n entries start.
pub(crate) fn labels_at(n: usize) -> usize
    requires { n ≤ max_entries }
    ensures { result ≡ labels_at n }
{
    HEADER_SIZE + (PAIR_SIZE + RECORD_SIZE) * n
}

// How many entries the header says, by its low and its high byte; a byte that is cut off is 0.
pub fn count(sheet: &[u8]) -> usize
    ensures { result ≡ count_in sheet.now }
{
    match sheet {
        [_, low, _, high, ..] => usize::from(u16::from_le_bytes([*low, *high])),
        [_, low, ..] => usize::from(*low),
        _ => 0,
    }
}

// Writes the header.
pub(crate) fn put_header(room: &mut [u8], n: u16, looping: Loop, scale: u32)
    requires { header_size ≤ length room.old }
    ensures { room.new ≡ put_at (header_bytes n looping scale) 0 room.old }
{
    let [low, high] = n.to_le_bytes();
    put(room, 0, &[VERSION, low, looping.mode(), high]);
    put(room, 4, &looping.number().to_le_bytes());
    put(room, 8, &scale.to_le_bytes());
}
