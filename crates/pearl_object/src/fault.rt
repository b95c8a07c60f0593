// Why an object could not be read.

/// Why bytes were not read as an object.
#[derive(Debug, Drop)]
pub enum ReadFail {
    /// No object has these bytes: the place of the first byte of the first field that has no spelling or breaks a rule, or how
    /// many bytes there are where they end before a field or within one.
    BadObject(u32),
    NoMemory,
}
