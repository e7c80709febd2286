//! What is looked for, each kind in a function of its own: a call of it costs a proof less than an assertion where the call stands.
use gx_station::Failed;
use std::process::Abort;

/// Looks for this answer of a call.
pub fn expect_answer(rt: &impl Abort, got: Result<(), Failed>, want: Result<(), Failed>) {
    assert_eq!(rt; got, want);
}

/// Looks for this count, or this failure, of a read.
pub fn expect_read(rt: &impl Abort, got: Result<usize, Failed>, want: Result<usize, Failed>) {
    assert_eq!(rt; got, want);
}

/// Looks for these bytes.
pub fn expect_bytes(rt: &impl Abort, got: &[u8], want: &[u8]) {
    assert_eq!(rt; got, want);
}

/// Looks for a thing that has to hold.
pub fn expect(rt: &impl Abort, holds: bool) {
    assert!(rt; holds);
}
