/// What bounds the command strings of a session.
#[derive(Clone, Copy)]
pub struct Limits {
    /// The steps that each may take.
    pub steps: u64,
    /// The bytes that each may have, its end included.
    pub length: usize,
}
