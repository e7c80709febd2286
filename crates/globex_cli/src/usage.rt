//! What the program says to words that are no command.

/// The version of the program, as CHANGELOG.md has it.
const VERSION: &str = "0.19.0";

/// The commands, a line each.
const COMMANDS: [&str; 13] = [
    "run                            serves the messages of standard input: keeps each, and sends its reports",
    "replay                         sends the reports of all kept messages again",
    "book                           prints last prices, resting orders and waiting stops",
    "fills                          prints a line for each side of each trade",
    "ledger                         prints a line for each execution report, and the total",
    "levels                         prints the level feed of all kept messages",
    "rebuild                        prints the levels at the end of the level feed on standard input",
    "steps                          prints the steps of each instrument of the product",
    "checkpoint                     adds an image of the book to the journal",
    "amend                          puts a changed product file into the journal",
    "session                        answers the logons and resend requests of standard input",
    "opening                        prints at which price the orders of standard input would open",
    "drill --first N --count M      serves M made messages from number N on, and prints a line that sums them up",
];

/// Says the commands, the version and where the manual is.
pub fn tell_usage(rt: &HostRuntime) {
    let _ = eprintln!(rt; "globex {VERSION}: these words are no command. The commands are:");
    for line in COMMANDS {
        let _ = eprintln!(rt; "  globex {line}");
    }
    let _ = eprintln!(rt;
        "They run in a folder with a product.toml. The manual is docs/OPERATING.md of the repository."
    );
}
