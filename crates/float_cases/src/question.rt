// What can be asked, by its number, and what is answered.
ghost use Rattle.std.specs.Prelude.{◌≡◌};
ghost use Rattle.float_cases.specs.Question.{answer_of, delayed, numbered};

use case_io::text::zeroless_bits;
use refusal::Refusal;
use tween::{GridOrigin, StaggerPattern};

// The answer to question `op`: a number or a float's bits, or a refusal; none where there is no such question. A float among the
// operands is given by its bits. The questions stand here alone by their numbers, which are the format's: an enum of them would only
// say them twice.
#[tactic(auto, unfolding(crate::specs::Question::answer_of))]
pub(crate) fn ask(op: u8, operands: [u32; 5]) -> Option<Result<u32, Refusal>>
    ensures { result ≡ answer_of op operands }
{
    let [a, b, c, d, e] = operands;
    let x = float32::from_bits(a);
    let y = float32::from_bits(b);
    let z = float32::from_bits(c);
    match op {
        0 => Some(Ok(zeroless_bits(float32::max(x, y)))),
        1 => Some(Ok(zeroless_bits(float32::min(x, y)))),
        2 => Some(Ok(float32::to_bits(float32::clamp(x, y, z)))),
        3 => Some(Ok(u32::from(float32::is_nan(x)))),
        4 => Some(Ok(u32::from(float32::is_finite(x)))),
        5 => Some(Ok(float32::to_bits(float32::from_u32(a)))),
        6 => Some(Ok(float32::to_u32(x))),
        7 => Some(Ok(float32::to_bits(float32::infinity()))),
        8 => {
            let pattern = StaggerPattern::Grid {
                cols: a,
                rows: b,
                origin: GridOrigin::try_from(c).ok()?,
                step: float32::from_bits(d),
            };
            Some(delayed(pattern, e))
        }
        9 => {
            let pattern = StaggerPattern::Random {
                seed: a,
                min_delay: y,
                max_delay: z,
            };
            Some(delayed(pattern, d))
        }
        10 => Some(delayed(StaggerPattern::CenterOut { count: a, step: y }, c)),
        11 => Some(delayed(StaggerPattern::EdgesIn { count: a, step: y }, c)),
        _ => None,
    }
}

// The bits of a delay.
fn delayed(pattern: StaggerPattern, index: u32) -> Result<u32, Refusal>
    ensures { result ≡ delayed pattern index }
{
    Ok(zeroless_bits(pattern.delay(index)?))
}

// What an unknown question is refused by.
const UNKNOWN: u8 = 255;

// The two numbers of an answer's line: its refusal, and what is answered.
pub(crate) fn numbered(answer: Option<Result<u32, Refusal>>) -> (u8, u32)
    ensures { result ≡ numbered answer }
{
    match answer {
        Some(Ok(bits)) => (refusal::ACCEPTED, bits),
        Some(Err(refusal)) => (refusal.number(), 0),
        None => (UNKNOWN, 0),
    }
}
