// The rows that a call sends, in lent slices.

// A row for each entry: its kind, the amount of its update, and the place of its seek. Three slices, since paper 01 has it so: "A step
// row per entry goes into three lent slices".
#[derive(Drop)]
pub struct Rows<'a> {
    pub kinds: &'a mut [u8],
    pub amounts: &'a mut [f32],
    pub places: &'a mut [f32],
}
