//! Why bytes are no image.

/// The first fault of bytes that are no image, read from left to right. A place counts bytes from 0 at the beginning.
#[derive(Clone, Copy, Debug, PartialEq, Eq)]
pub enum FormatFault {
    /// The bytes end where more are wanted. The number is how many bytes there are.
    Short(u64),
    /// The first four bytes are there, and do not spell `VXIC`.
    BadMagic,
    /// The byte behind the first four is this one, which stands for no version.
    Version(u8),
    /// The number, tag or operation that begins at the place is out of range, or breaks a condition that images keep, or the
    /// instruction that begins there goes beyond the end of its block.
    BadIndex(u64),
    /// An image ends at the place, and more bytes follow.
    Trailing(u64),
}
