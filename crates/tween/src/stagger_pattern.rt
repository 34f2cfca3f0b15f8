// Delays of staggered starts (stagger_pattern.rs; paper 01, part 3).
ghost use Rattle.std.specs.Prelude.{◌≡◌, ◌≤◌, ◌<◌};
ghost use Rattle.std.specs.Result.{result_ok};
ghost use Rattle.tween.specs.StaggerPattern.{origin_of, max_side, finite_or, distance_delay, from_middle, center_distance, grid_distance, grid_delay, hash, random_delay, center_out, edges_in, delay_of};

use refusal::Refusal;

// Which cells of a grid start first.
#[derive(Clone, Copy, PartialEq, Eq, Debug)]
pub enum GridOrigin {
    // The top left cell starts first.
    TopLeft,
    // The top right cell starts first.
    TopRight,
    // The bottom left cell starts first.
    BottomLeft,
    // The bottom right cell starts first.
    BottomRight,
    // The cell or cells in the middle start first.
    Center,
    // The top row starts first.
    Top,
    // The bottom row starts first.
    Bottom,
    // The leftmost column starts first.
    Left,
    // The rightmost column starts first.
    Right,
}

// A number that no origin has.
#[derive(Clone, Copy, PartialEq, Eq, Debug)]
pub struct UnknownOrigin;

// The origin by its number in the order above, from 0 on; none above 8.
impl TryFrom<u32> for GridOrigin {
    type Error = UnknownOrigin;

    ghost try_from_gives = { λ n r. result_ok r ≡ origin_of n };

    #[tactic(auto, unfolding(crate::specs::StaggerPattern::origin_of))]
    fn try_from(n: u32) -> Result<GridOrigin, UnknownOrigin> {
        match n {
            0 => Ok(GridOrigin::TopLeft),
            1 => Ok(GridOrigin::TopRight),
            2 => Ok(GridOrigin::BottomLeft),
            3 => Ok(GridOrigin::BottomRight),
            4 => Ok(GridOrigin::Center),
            5 => Ok(GridOrigin::Top),
            6 => Ok(GridOrigin::Bottom),
            7 => Ok(GridOrigin::Left),
            8 => Ok(GridOrigin::Right),
            _ => Err(UnknownOrigin),
        }
    }
}

// How the starts of several items are delayed. The same pattern and index always give the same delay. A grid's sides stand in the
// variant, as in the Rust: in a struct with their bound they would ask of callers what `delay` answers by refusal 13.
#[derive(Clone, Copy, PartialEq, Debug)]
pub enum StaggerPattern {
    // By the distance of a cell from the origin of a grid of `cols` columns and `rows` rows, `step` seconds each.
    Grid {
        cols: u32,
        rows: u32,
        origin: GridOrigin,
        step: f32,
    },
    // By a hash of the seed and the index, from `min_delay` to `max_delay` seconds.
    Random {
        seed: u32,
        min_delay: f32,
        max_delay: f32,
    },
    // From the middle of `count` items outward, `step` seconds each.
    CenterOut {
        count: u32,
        step: f32,
    },
    // From both ends of `count` items inward, `step` seconds each.
    EdgesIn {
        count: u32,
        step: f32,
    },
}

// The largest side of a grid: the product of two fits in a u32.
const MAX_SIDE: u32 = 65_535;

impl StaggerPattern {
    // The delay of the item at `index`, or refusal 13 where a grid side is above the largest.
    pub fn delay(self, index: u32) -> Result<f32, Refusal>
        ensures { result ≡ delay_of self index }
    {
        match self {
            StaggerPattern::Grid {
                cols,
                rows,
                origin,
                step,
            } => {
                if cols > MAX_SIDE || rows > MAX_SIDE {
                    return Err(Refusal::GridTooLarge);
                }
                Ok(grid_delay(cols, rows, origin, step, index))
            }
            StaggerPattern::Random {
                seed,
                min_delay,
                max_delay,
            } => Ok(random_delay(seed, min_delay, max_delay, index)),
            StaggerPattern::CenterOut { count, step } => Ok(center_out(count, step, index)),
            StaggerPattern::EdgesIn { count, step } => Ok(edges_in(count, step, index)),
        }
    }
}

// The arm `CenterOut` of `delay`: an index past the last counts as the last.
#[tactic(auto, unfolding(crate::specs::StaggerPattern::center_out))]
fn center_out(count: u32, step: f32, index: u32) -> f32
    ensures { result ≡ center_out count step index }
{
    let index = index.min(count.saturating_sub(1));
    distance_delay(center_distance(index, count), step)
}

// The arm `EdgesIn` of `delay`, likewise; with no items there is no delay.
#[tactic(auto, unfolding(crate::specs::StaggerPattern::edges_in))]
fn edges_in(count: u32, step: f32, index: u32) -> f32
    ensures { result ≡ edges_in count step index }
{
    if count == 0 {
        return 0.0;
    }
    let index = index.min(count - 1);
    distance_delay(index.min(count - 1 - index), step)
}

// A side of 0 counts as 1, and an index past the last cell as the last.
#[tactic(auto, unfolding(crate::specs::StaggerPattern::grid_delay))]
fn grid_delay(cols: u32, rows: u32, origin: GridOrigin, step: f32, index: u32) -> f32
    requires { (cols ≤ max_side) × (rows ≤ max_side) }
    ensures { result ≡ grid_delay cols rows origin step index }
{
    let cols = cols.max(1);
    let rows = rows.max(1);
    let index = index.min(cols * rows - 1);
    let x = index % cols;
    let y = index / cols;
    distance_delay(grid_distance(origin, cols, rows, x, y), step)
}

// How far the cell in column x and row y is from the origin.
fn grid_distance(origin: GridOrigin, cols: u32, rows: u32, x: u32, y: u32) -> u32
    requires { (x < cols) × (y < rows) × (cols ≤ max_side) × (rows ≤ max_side) }
    ensures { result ≡ grid_distance origin cols rows x y }
{
    match origin {
        GridOrigin::TopLeft => x + y,
        GridOrigin::TopRight => (cols - 1 - x) + y,
        GridOrigin::BottomLeft => x + (rows - 1 - y),
        GridOrigin::BottomRight => (cols - 1 - x) + (rows - 1 - y),
        GridOrigin::Center => from_middle(x, cols) + from_middle(y, rows),
        GridOrigin::Top => y,
        GridOrigin::Bottom => rows - 1 - y,
        GridOrigin::Left => x,
        GridOrigin::Right => cols - 1 - x,
    }
}

// How far `index` is from the middle of `count` items.
fn center_distance(index: u32, count: u32) -> u32
    ensures { result ≡ center_distance index count }
{
    if count <= 1 {
        return 0;
    }
    from_middle(index, count)
}

// The same where there are items: the nearer of the two middles, which are one where `count` is odd.
fn from_middle(index: u32, count: u32) -> u32
    requires { 0 < count }
    ensures { result ≡ from_middle index count }
{
    index
        .abs_diff((count - 1) / 2)
        .min(index.abs_diff(count / 2))
}

// Both bounds are finite and not below 0, the upper not below the lower.
#[tactic(auto, unfolding(crate::specs::StaggerPattern::random_delay))]
fn random_delay(seed: u32, min_delay: f32, max_delay: f32, index: u32) -> f32
    ensures { result ≡ random_delay seed min_delay max_delay index }
{
    let min = float32::max(finite_or(min_delay, 0.0), 0.0);
    let max = float32::max(finite_or(max_delay, min), min);
    let share = float32::from_u32(hash(seed, index)) / float32::from_u32(u32::MAX);
    min + (max - min) * share
}

// The bits that `random_delay` takes as a share of all 32.
fn hash(seed: u32, index: u32) -> u32
    ensures { result ≡ hash seed index }
{
    let mut x = seed ^ index.wrapping_mul(0x9E37_79B9);
    x ^= x >> 16;
    x = x.wrapping_mul(0x7FEB_352D);
    x ^= x >> 15;
    x = x.wrapping_mul(0x846C_A68B);
    x ^= x >> 16;
    x
}

// `value`, or `fallback` where it is infinite or NaN.
fn finite_or(value: f32, fallback: f32) -> f32
    ensures { result ≡ finite_or value fallback }
{
    if float32::is_finite(value) {
        value
    } else {
        fallback
    }
}

// The delay at a distance; a step that is negative or not finite counts as 0.
#[tactic(auto, unfolding(crate::specs::StaggerPattern::distance_delay))]
fn distance_delay(distance: u32, step: f32) -> f32
    ensures { result ≡ distance_delay distance step }
{
    float32::from_u32(distance) * float32::max(finite_or(step, 0.0), 0.0)
}
