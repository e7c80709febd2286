//! Each command that only reads, over a journal to which a record is added between two of its calls of the file.
mod added_file;

use added_file::AddedFile;
use globex_run::{Outcome, globex};
use gx_station::FileStation;
use run_fixtures::{image_then, must, product_text, source_of, words_of};
use std::process::Abort;

/// A product with few live orders, and the same with another limit of its journal.
const FIRST: &str = product_text!("max_orders = 8", letter: "F");

const NEXT: &str = product_text!("max_orders = 8", "journal_limit = 268435456", letter: "F");

const SELL: &str =
    "35=D|49=AAA|56=GX|34=1|52=20240102-09:30:00|11=a1|55=ESZ4|54=2|38=10|40=2|44=100.00|59=0|";

const BUY: &str =
    "35=D|49=BBB|56=GX|34=1|52=20240102-09:30:01|11=b1|55=ESZ4|54=1|38=4|40=2|44=100.00|59=0|";

/// The status at which the last text of the journal is not that of the product.
const OTHER_TEXT: u8 = 11;

/// No command calls the file so often over these journals.
const MOST_CALLS: usize = 40;

/// The journal after the command of a word, over these messages and the journal before.
fn then(
    rt: &(impl Abort + AllocGlobal),
    text: &str,
    word: &str,
    bodies: &[&str],
    image: &[u8],
) -> Vec<u8> {
    must!(rt; image_then(text, word, bodies, image))
}

/// How a command ends over a file, and what it sends.
fn sent_over(
    rt: &(impl Abort + AllocGlobal),
    text: &str,
    word: &str,
    file: AddedFile<'_>,
    sent: &mut Vec<u8>,
) -> Outcome {
    let words = must!(rt; words_of(word));
    let mut product = must!(rt; source_of(text.as_bytes()));
    let mut input = must!(rt; source_of(b""));
    let mut station = FileStation::new(Some(file), sent);
    globex(
        rt.alloc(),
        words.as_slice(),
        &mut product,
        &mut input,
        &mut station,
    )
}

/// The text that a command gives over a journal that stays.
fn text_of(rt: &(impl Abort + AllocGlobal), text: &str, word: &str, image: &[u8]) -> Vec<u8> {
    let mut sent = Vec::new(rt.alloc());
    let file = AddedFile {
        before: image,
        after: image,
        calls: 0,
    };
    let outcome = sent_over(rt, text, word, file, &mut sent);
    assert_eq!(rt; outcome.status, 0, "{word}");
    sent
}

/// If the record is added after so many calls, a command gives the text of before or of after.
fn expect_one_of(
    rt: &(impl Abort + AllocGlobal),
    word: &str,
    file: AddedFile<'_>,
    first: &[u8],
    second: &[u8],
) {
    let calls = file.calls;
    let mut sent = Vec::new(rt.alloc());
    let outcome = sent_over(rt, FIRST, word, file, &mut sent);
    let sent = sent.as_slice();
    assert_eq!(rt; outcome.status, 0, "{word} after {calls} calls");
    assert!(rt;
        sent == first || sent == second,
        "{word} after {calls} calls"
    );
}

/// So it is after each number of calls.
fn expect_texts(rt: &(impl Abort + AllocGlobal), word: &str, before: &[u8], after: &[u8]) {
    let first = text_of(rt, FIRST, word, before);
    let second = text_of(rt, FIRST, word, after);
    for calls in 0..MOST_CALLS {
        let file = AddedFile {
            before,
            after,
            calls,
        };
        expect_one_of(rt, word, file, first.as_slice(), second.as_slice());
    }
}

/// If an amendment is added after so many calls, a command gives the text of before, or tells that the last text is another one.
fn expect_before(rt: &(impl Abort + AllocGlobal), word: &str, file: AddedFile<'_>, first: &[u8]) {
    let calls = file.calls;
    let mut sent = Vec::new(rt.alloc());
    let outcome = sent_over(rt, FIRST, word, file, &mut sent);
    if outcome.status == OTHER_TEXT {
        return;
    }
    assert_eq!(rt; outcome.status, 0, "{word} after {calls} calls");
    assert_eq!(rt; sent.as_slice(), first, "{word} after {calls} calls");
}

/// So it is after each number of calls.
fn expect_texts_before(rt: &(impl Abort + AllocGlobal), word: &str, before: &[u8], after: &[u8]) {
    let first = text_of(rt, FIRST, word, before);
    for calls in 0..MOST_CALLS {
        let file = AddedFile {
            before,
            after,
            calls,
        };
        expect_before(rt, word, file, first.as_slice());
    }
}

/// All of it for each command that reads records, and for the one that begins with the last image.
fn expect_each(rt: &(impl Abort + AllocGlobal), before: &[u8], after: &[u8]) {
    expect_texts(rt, "replay", before, after);
    expect_texts(rt, "ledger", before, after);
    expect_texts(rt, "levels", before, after);
    expect_texts(rt, "book", before, after);
    expect_texts(rt, "opening", before, after);
    expect_texts(rt, "session", before, after);
}

#[test]
fn messages_are_added(rt: HostRuntime) {
    let one = then(&rt, FIRST, "run", &[SELL], b"");
    let two = then(&rt, FIRST, "run", &[BUY], one.as_slice());
    expect_each(&rt, one.as_slice(), two.as_slice());
}

#[test]
fn a_checkpoint_is_added(rt: HostRuntime) {
    let one = then(&rt, FIRST, "run", &[SELL], b"");
    let image = then(&rt, FIRST, "checkpoint", &[], one.as_slice());
    expect_each(&rt, one.as_slice(), image.as_slice());
}

#[test]
fn an_amendment_is_added(rt: HostRuntime) {
    let one = then(&rt, FIRST, "run", &[SELL], b"");
    let amended = then(&rt, NEXT, "amend", &[], one.as_slice());
    let (before, after) = (one.as_slice(), amended.as_slice());
    expect_texts_before(&rt, "replay", before, after);
    expect_texts_before(&rt, "levels", before, after);
    expect_texts_before(&rt, "book", before, after);
    expect_texts_before(&rt, "session", before, after);
}
