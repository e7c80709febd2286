//! Products that are refused, before the input is read: by which rule, and with which text.
use crate::tests::expects::{expect_bytes, expect_outcome};
use product_file::read_product;
use run_fixtures::{PRODUCT, ended, must, run_over, source_of, station_of};
use std::process::Abort;

const FIRMS: &str = r#"firms = ["AAA", "BBB"]"#;

const TICK: &str = "tick = 1";

const F: &str = r#"algorithm = "F""#;

/// A product file of these lines.
fn file(rt: &(impl Abort + AllocGlobal), firms: &str, tick: &str, algorithm: &str) -> String {
    format!(in rt.alloc();
        "exchange = \"GX\"\n{firms}\n\n[[instrument]]\nname = \"ESZ4\"\ndecimals = 2\n{tick}\nprotection = 2\n{algorithm}\n"
    ).expect(rt, "memory")
}

/// Looks for status 3 with this number, and for a fault that says this.
fn expect_refused(rt: &(impl Abort + AllocGlobal), text: &[u8], number: u8, says: &str) {
    let alloc = rt.alloc();
    let mut product = must!(rt; source_of(text));
    let mut input = must!(rt; source_of(b""));
    let mut station = must!(rt; station_of(b""));
    let got = must!(rt; run_over("run", &mut product, &mut input, &mut station));
    expect_outcome(rt, says, got, ended(3, u64::from(number), 0));
    assert_eq!(rt; station.calls(), 0, "{says}");
    let fault = read_product(alloc, text).err().expect(rt, "a fault");
    let shown = format!(in alloc; "{fault}").expect(rt, "memory");
    expect_bytes(rt, says, shown.as_bytes(), says.as_bytes());
}

/// The same of a product file of these lines.
fn expect_lines_refused(
    rt: &(impl Abort + AllocGlobal),
    firms: &str,
    tick: &str,
    algorithm: &str,
    number: u8,
    says: &str,
) {
    let text = file(rt, firms, tick, algorithm);
    expect_refused(rt, text.as_bytes(), number, says);
}

/// Rules 2 to 6: no document, keys that are missing, of another type or out of range, and names that stand twice.
#[test]
fn products_with_wrong_values(rt: HostRuntime) {
    expect_refused(&rt, b"", 3, "`exchange` is missing");
    expect_refused(&rt, b"=", 2, "the product file is no TOML document");
    expect_lines_refused(
        &rt,
        r#"firms = ["AAA"#,
        TICK,
        F,
        2,
        "the product file is no TOML document",
    );
    expect_lines_refused(&rt, "", TICK, F, 3, "`firms` is missing");
    expect_lines_refused(&rt, FIRMS, "", F, 3, "`tick` is missing");
    expect_lines_refused(
        &rt,
        FIRMS,
        TICK,
        "algorithm = \"T\"\nlmm = [{ percent = 1 }]",
        3,
        "`firm` is missing",
    );
    expect_lines_refused(&rt, "firms = [1]", TICK, F, 4, "`firms` is of another type");
    expect_lines_refused(&rt, "firms = []", TICK, F, 5, "`firms` is out of range");
    expect_lines_refused(
        &rt,
        r#"firms = ["AAA", "AAA"]"#,
        TICK,
        F,
        6,
        "the name `AAA` stands twice",
    );
    expect_lines_refused(
        &rt,
        r#"firms = ["AAA", "BBB", "BBB", "AAA"]"#,
        TICK,
        F,
        6,
        "the name `BBB` stands twice",
    );
    expect_lines_refused(
        &rt,
        FIRMS,
        TICK,
        "algorithm = \"T\"\nlmm = [{ firm = \"AAA\", percent = 60 }, { firm = \"AAA\", percent = 4 }]",
        6,
        "the name `AAA` stands twice",
    );
    expect_lines_refused(
        &rt,
        FIRMS,
        TICK,
        "algorithm = \"C\"\nleast = 0",
        5,
        "`least` is out of range",
    );
}

/// Rules 7 to 9: a firm, an algorithm or a step that there is not, and lists of steps that are faulty.
#[test]
fn products_with_wrong_steps(rt: HostRuntime) {
    expect_lines_refused(
        &rt,
        FIRMS,
        TICK,
        "algorithm = \"T\"\nlmm = [{ firm = \"ZZZ\", percent = 1 }]",
        7,
        "`firm` is none of the firms",
    );
    expect_lines_refused(
        &rt,
        FIRMS,
        TICK,
        r#"algorithm = "S""#,
        8,
        "there is no algorithm or step of this name",
    );
    expect_lines_refused(
        &rt,
        FIRMS,
        TICK,
        "algorithm = \"K\"\nsteps = [\"FIFO\", \"LMN\"]",
        8,
        "there is no algorithm or step of this name",
    );
    expect_lines_refused(
        &rt,
        FIRMS,
        TICK,
        "algorithm = \"K\"\nsteps = [\"FIFO\", \"FIFO\"]",
        9,
        "the steps are faulty: two steps are named Fifo",
    );
    expect_lines_refused(
        &rt,
        FIRMS,
        TICK,
        "algorithm = \"K\"\nsteps = [\"FIFO\", \"PRORATA\"]",
        9,
        "the steps are faulty: the last step is not FIFO",
    );
    expect_lines_refused(
        &rt,
        FIRMS,
        TICK,
        "algorithm = \"T\"\nlmm = [{ firm = \"AAA\", percent = 60 }, { firm = \"BBB\", percent = 41 }]",
        9,
        "the steps are faulty: 101 is no percentage from 1 to 100",
    );
    expect_lines_refused(
        &rt,
        FIRMS,
        TICK,
        "algorithm = \"O\"\ntop_min = 9\ntop_max = 8",
        9,
        "the steps are faulty: the limits of 9 and 8 lots are not in order from 1 to 999999",
    );
}

/// The same of the usual product file with a text in place of another one.
fn expect_change_refused(
    rt: &(impl Abort + AllocGlobal),
    old: &str,
    new: &str,
    number: u8,
    says: &str,
) {
    let text = PRODUCT.replace(rt.alloc(), old, new).expect(rt, "memory");
    expect_refused(rt, text.as_bytes(), number, says);
}

#[test]
fn products_with_one_change(rt: HostRuntime) {
    expect_change_refused(
        &rt,
        "tick = 1",
        "tick = \"1\"",
        4,
        "`tick` is of another type",
    );
    expect_change_refused(
        &rt,
        "decimals = 2",
        "decimals = 9",
        5,
        "`decimals` is out of range",
    );
    expect_change_refused(&rt, "\"DDD\"", "\"UNKNOWN\"", 5, "`firms` is out of range");
    expect_change_refused(
        &rt,
        "algorithm = \"F\"",
        "algorithm = \"T\"\nlmm = [{ firm = \"AAA\", percent = 60 }, { firm = \"BBB\", percent = 60 }]",
        9,
        "the steps are faulty: 120 is no percentage from 1 to 100",
    );
    expect_change_refused(
        &rt,
        "algorithm = \"F\"",
        "algorithm = \"K\"\nsteps = [\"LEVELING\", \"PRORATA\", \"FIFO\"]",
        9,
        "the steps are faulty: LEVELING stands before PRORATA",
    );
}

/// A product file with a byte that no text has at its front, and one that is a byte too long.
#[test]
fn products_that_are_no_texts(rt: HostRuntime) {
    let alloc = rt.alloc();
    let mut no_text = b"\xFF".to_vec(alloc).expect(&rt, "memory");
    no_text
        .extend_from_slice(PRODUCT.as_bytes())
        .expect(&rt, "memory");
    let says = "the product file is no TOML document";
    expect_refused(&rt, no_text.as_slice(), 2, says);
    let mut long = PRODUCT.as_bytes().to_vec(alloc).expect(&rt, "memory");
    for _ in PRODUCT.len()..65_537 {
        long.push(b'#').expect(&rt, "memory");
    }
    let says = "the product file has more than 65536 bytes";
    expect_refused(&rt, long.as_slice(), 1, says);
}
