// What is lent to a call: all that stands in it is known before.
use trace_read::{LIST, ROWS, Room};
use track::rows::Rows;

// What stands in the lent slices before each call: the bytes, the amounts (bits 4640e400) and the places (c640e400).
const FRESH: u8 = 238;

const AMOUNT: f32 = 12345.0;

const PLACE: f32 = -12345.0;

// A slice that is lent: the front of an array, which shows whether a call writes behind it, too.
#[derive(Drop)]
pub struct Lent<T, const N: usize> {
    pub all: [T; N],
    len: usize,
}

impl<T: Copy, const N: usize> Lent<T, N> {
    // A slice of `len` places, or of all, where this stands.
    pub fn new(fresh: T, len: usize) -> Lent<T, N> {
        Lent {
            all: [fresh; N],
            len,
        }
    }

    // The slice, for a call to write.
    pub fn lend(&mut self) -> &mut [T] {
        let len = self.len.min(N);
        &mut self.all[..len]
    }

    // The slice.
    pub fn slice(&self) -> &[T] {
        &self.all[..self.len.min(N)]
    }
}

// The list, of `len` places.
pub fn list(len: usize) -> Lent<u8, LIST> {
    Lent::new(FRESH, len)
}

// The three row slices.
#[derive(Drop)]
pub struct LentRows {
    pub kinds: Lent<u8, ROWS>,
    pub amounts: Lent<f32, ROWS>,
    pub places: Lent<f32, ROWS>,
}

impl LentRows {
    pub fn new(room: Room) -> LentRows {
        LentRows {
            kinds: Lent::new(FRESH, room.kinds),
            amounts: Lent::new(AMOUNT, room.amounts),
            places: Lent::new(PLACE, room.places),
        }
    }

    // The slices, for a call to write.
    pub fn lend(&mut self) -> Rows<'_> {
        Rows {
            kinds: self.kinds.lend(),
            amounts: self.amounts.lend(),
            places: self.places.lend(),
        }
    }

    // Whether the arrays are the same, floats by their bits.
    pub fn same(&self, other: &LentRows) -> bool {
        self.kinds.all == other.kinds.all
            && same_floats(&self.amounts.all, &other.amounts.all)
            && same_floats(&self.places.all, &other.places.all)
    }
}

fn same_floats(a: &[f32; ROWS], b: &[f32; ROWS]) -> bool {
    a.iter().zip(b).all(|(x, y)| same_float(*x, *y))
}

// Whether they have the same bits.
pub fn same_float(a: f32, b: f32) -> bool {
    float32::to_bits(a) == float32::to_bits(b)
}
