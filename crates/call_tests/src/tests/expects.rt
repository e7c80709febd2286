//! What is looked for, each kind in a function of its own: a call of it costs a proof less than an assertion where the call stands.
use globex_run::Outcome;
use run_fixtures::{join, must};
use std::process::Abort;

/// Looks for this outcome in the case of a name.
pub fn expect_outcome(rt: &impl Abort, name: &str, got: Outcome, want: Outcome) {
    assert_eq!(rt; got, want, "{name}");
}

/// Looks for these bytes in the case of a name.
pub fn expect_bytes(rt: &impl Abort, name: &str, got: &[u8], want: &[u8]) {
    assert_eq!(rt; got, want, "{name}");
}

/// Looks for so many in the case of a name.
pub fn expect_count(rt: &impl Abort, name: &str, got: usize, want: usize) {
    assert_eq!(rt; got, want, "{name}");
}

/// Looks for this outcome if the call of a number fails.
pub fn expect_call(rt: &impl Abort, call: usize, got: Outcome, want: Outcome) {
    assert_eq!(rt; got, want, "call {call}");
}

/// Looks for this outcome of a text that is cut after so many bytes.
pub fn expect_cut(rt: &impl Abort, text: &str, cut: usize, got: Outcome, want: Outcome) {
    assert_eq!(rt; got, want, "{text} cut at {cut}");
}

/// Looks for bytes with which these begin.
pub fn expect_front(rt: &impl Abort, name: &str, got: &[u8], whole: &[u8]) {
    assert!(rt; whole.starts_with(got), "{name}");
}

/// Looks for the bytes of these texts, one after the other, in the case of a name.
pub fn expect_texts(rt: &(impl Abort + AllocGlobal), name: &str, got: &[u8], texts: &[&str]) {
    let want = must!(rt; join(texts));
    expect_bytes(rt, name, got, want.as_slice());
}

/// Looks for a thing that has to hold in the case of a name.
pub fn expect(rt: &impl Abort, name: &str, holds: bool) {
    assert!(rt; holds, "{name}");
}
