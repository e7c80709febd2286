//! Words that are a command, and words that are none.
use command_words::{Command, WordsFault, read_command};
use run_fixtures::{must, words_of};
use std::process::Abort;

/// The answer to the words of a text.
fn answer(rt: &(impl Abort + AllocGlobal), line: &str) -> Result<Command, WordsFault> {
    let words = must!(rt; words_of(line));
    read_command(rt.alloc(), words.as_slice())
}

const REFUSED: [&str; 35] = [
    "",
    "Run",
    "runs",
    "run book",
    "run run",
    "run --first 1",
    "run --count 1",
    "book --first 1 --count 2",
    "steps --count 1",
    "drill",
    "drill --first 1",
    "drill --count 1",
    "drill --first --count 1",
    "drill --first 1 --count",
    "drill --first -1 --count 1",
    "drill --first x --count 1",
    "drill --first 1.0 --count 1",
    "drill --first 2147483648 --count 1",
    "drill --first 1 --count 1000001",
    "drill --first 1 --first 1 --count 1",
    "drill --first 1 --count 1 x",
    "--help",
    "-h",
    "--version",
    "run --help",
    "run -x",
    "drill --first 1 --count 1 --third 1",
    "checkpoint --count 1",
    "amend --first 1",
    "amend run",
    "Amend",
    "amends",
    "amen",
    "--first 1",
    "drill --firs 1 --count 1",
];

/// Looks for this answer to the words of a text.
fn expect_answer(rt: &(impl Abort + AllocGlobal), line: &str, want: Result<Command, WordsFault>) {
    assert!(rt; answer(rt, line) == want, "{line}");
}

#[test]
fn words_of_commands(rt: HostRuntime) {
    expect_answer(&rt, "run", Ok(Command::Run));
    expect_answer(&rt, "replay", Ok(Command::Replay));
    expect_answer(&rt, "book", Ok(Command::Book));
    expect_answer(&rt, "fills", Ok(Command::Fills));
    expect_answer(&rt, "steps", Ok(Command::Steps));
    expect_answer(&rt, "checkpoint", Ok(Command::Checkpoint));
    expect_answer(&rt, "amend", Ok(Command::Amend));
    expect_answer(&rt, "-- amend", Ok(Command::Amend));
    expect_answer(&rt, "-- ledger", Ok(Command::Ledger));
    expect_answer(
        &rt,
        "--count 2 drill --first 7",
        Ok(Command::Drill { first: 7, count: 2 }),
    );
    expect_answer(
        &rt,
        "drill --first=0003 --count=01",
        Ok(Command::Drill { first: 3, count: 1 }),
    );
    expect_answer(
        &rt,
        "drill --first +1 --count +1",
        Ok(Command::Drill { first: 1, count: 1 }),
    );
    expect_answer(
        &rt,
        "drill --first 2147483647 --count 1000000",
        Ok(Command::Drill {
            first: 2147483647,
            count: 1000000,
        }),
    );
    expect_answer(
        &rt,
        "drill --first 0 --count 0",
        Ok(Command::Drill { first: 0, count: 0 }),
    );
}

#[test]
fn words_of_none(rt: HostRuntime) {
    assert!(rt; read_command(rt.alloc(), &[]) == Err(WordsFault::Refused));
    for line in REFUSED {
        expect_answer(&rt, line, Err(WordsFault::Refused));
    }
}
