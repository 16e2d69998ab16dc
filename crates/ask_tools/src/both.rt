// A session on both engines: a record on a sheet, and the second engine's state after the same commands.
// What questions are asked of.
use oracle::STATE;
use session::Record;

#[derive(Clone, Copy)]
pub struct Both<'a> {
    pub record: Record,
    pub sheet: &'a [u8],
    pub state: [u64; STATE],
}
