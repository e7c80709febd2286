//! What is wrong with a product file that was refused.

use product_file::read_product;
use std::io::ErrorKind;
use std::rt::Files;
use std::{fs, io};

/// The name of a rule, by its number.
fn rule_name(number: u64) -> &'static str {
    match number {
        1 => "TooLong",
        2 => "Text",
        3 => "Missing",
        4 => "Kind",
        5 => "Range",
        6 => "Twice",
        7 => "UnknownFirm",
        8 => "UnknownLetter",
        _ => "Steps",
    }
}

/// The text of `product.toml`, if it is a plain file.
fn product_text(rt: &HostRuntime) -> io::Result<Vec<u8>> {
    if !rt.metadata("product.toml")?.is_file() {
        return Err(io::Error::from(ErrorKind::InvalidInput));
    }
    fs::read(rt, "product.toml")
}

/// Says which rule the product file breaks, and at which key. The file is read once more for the key, so nothing is said of that if
/// it has changed meanwhile.
pub fn tell_rule(rt: &HostRuntime, number: u64) {
    let name = rule_name(number);
    let _ = eprintln!(rt;
        "globex: product.toml breaks rule {number}, {name} (docs/FORMATS.md, \"Faults\")"
    );
    let Ok(text) = product_text(rt) else {
        return;
    };
    if let Err(fault) = read_product(rt.alloc(), &text) {
        if u64::from(fault.number()) == number {
            let _ = eprintln!(rt; "globex: product.toml: {fault}");
        }
    }
}
