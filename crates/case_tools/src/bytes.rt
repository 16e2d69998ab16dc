// Bytes of lent slices: past the end a read gives 0 and a store does nothing.
// So no call has to be asked for an index within the slice.
pub use oracle::reader::byte;

// The lowest byte of a number.
pub fn put(buf: &mut [u8], at: usize, value: u64) {
    if let Some(byte) = buf.get_mut(at) {
        *byte = (value % 256) as u8;
    }
}

// All of a slice from a position on.
pub fn put_all(buf: &mut [u8], at: usize, from: &[u8]) {
    if let Some(rest) = buf.get_mut(at..) {
        for (to, &byte) in rest.iter_mut().zip(from) {
            *to = byte;
        }
    }
}
