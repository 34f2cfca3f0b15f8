// Many animations, each a delay after the one before (stagger.rs).
ghost use Rattle.std.specs.Prelude.{◌≡◌};
ghost use Rattle.group.specs.Items.{handed_out};
ghost use Rattle.group.specs.Stagger.{staggered};

use crate::item;
use crate::item::Built;
use timeline::timeline::{At, Timeline};

// A timeline whose entries start `delay` seconds after one another, labeled `item_0`, `item_1` and so on.
pub fn stagger(durations: &[f32], delay: f32) -> Built<Timeline>
    ensures { handed_out result ≡ staggered durations.now delay }
{
    let every = float32::max(delay, 0.0);
    let at = |i| Ok(At::Absolute(float32::from_u32(i) * every));
    Built::from(item::add_each(durations, at))
}
