// Calls on a clock that the caller lends, as `&mut self` in group.rs.
#![tactic(auto)]

ghost use Rattle.std.specs.Prelude.{◌≡◌};
ghost use Rattle.clock.specs.Clocks.{scaled, paused, resumed};

use clock::Clock;

// `pause`
pub fn pause(clock: &mut Clock)
    ensures { clock.new ≡ paused clock.old }
{
    *clock = clock.paused();
}

// `resume`
pub fn resume(clock: &mut Clock)
    ensures { clock.new ≡ resumed clock.old }
{
    *clock = clock.resumed();
}

// `set_time_scale`
pub fn set_time_scale(clock: &mut Clock, scale: f32)
    ensures { clock.new ≡ scaled clock.old scale }
{
    *clock = clock.scaled(scale);
}
