// The calls of a script (paper 01, "The door log program"): each byte its call, made in place on what plays.
#![tactic(auto)]

ghost use Rattle.script.specs.Scripts.{MadeInPlace};

use player::engine::Player;
use refusal::Refusal;
use track::rows::Rows;
use track::track::{Secs, Share};

// Makes the call of this byte with this f32, and says how many completed entries it listed. A refused one has moved nothing. The bytes
// are those of a stored script (docs/FORMATS.md), each named here alone: an enum of them would only say the numbers twice.
pub fn make(
    player: &mut Player<'_, '_>,
    byte: u8,
    x: f32,
    replies: &[u8],
    list: &mut [u8],
    rows: &mut Rows<'_>,
) -> Result<usize, Refusal>
    ensures { MadeInPlace player.old byte x replies.now result player.new list.old list.new rows.old rows.new }
{
    match byte {
        0 => player.play(rows)?,
        1 => player.head = player.head.pause(),
        2 => player.head = player.head.resume(),
        3 => player.reset(rows)?,
        4 => return Ok(player.update(x, replies, list, rows)?.listed),
        5 => player.seek(Share(x), rows)?,
        6 => player.seek_abs(Secs(x), rows)?,
        7 => player.head = player.head.set_time_scale(x),
        _ => return Err(Refusal::BadCall),
    }
    Ok(0)
}
