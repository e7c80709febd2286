//! Which product may follow another one, and why not.
use product_file::{AmendFault, Product, may_follow, read_product};
use std::process::Abort;

const EXCHANGE: &str = r#"exchange = "GX""#;

const FIRMS: &str = r#"firms = ["AAA", "BBB"]"#;

const ORDERS: &str = "max_orders = 10";

const LIMIT: &str = "journal_limit = 200000";

const TWO: &str = r#"
[[instrument]]
name = "ESZ4"
decimals = 2
tick = 2
protection = 2
algorithm = "F"

[[instrument]]
name = "NQZ4"
decimals = 0
tick = 1
protection = 0
algorithm = "F"
"#;

/// The product of these lines.
fn product_of(
    rt: &(impl Abort + AllocGlobal),
    exchange: &str,
    firms: &str,
    orders: &str,
    limit: &str,
    instruments: &str,
) -> Product {
    let alloc = rt.alloc();
    let text = format!(in alloc; "{exchange}\n{firms}\n{orders}\n{limit}\n{instruments}").expect(
        rt, "memory",
    );
    read_product(alloc, text.as_bytes()).expect(rt, "a product")
}

/// The product that the others follow.
fn first_product(rt: &(impl Abort + AllocGlobal)) -> Product {
    product_of(rt, EXCHANGE, FIRMS, ORDERS, LIMIT, TWO)
}

/// Whether the product of these lines may follow the first one.
fn expect_following(
    rt: &(impl Abort + AllocGlobal),
    exchange: &str,
    firms: &str,
    orders: &str,
    limit: &str,
    want: Result<(), AmendFault>,
) {
    let new = product_of(rt, exchange, firms, orders, limit, TWO);
    assert_eq!(rt; may_follow(&first_product(rt), &new), want);
}

/// Whether the first product with other instruments may follow it, where this is put in the place of that in their text.
fn expect_instruments(
    rt: &(impl Abort + AllocGlobal),
    that: &str,
    this: &str,
    want: Result<(), AmendFault>,
) {
    let other = TWO.replace(rt.alloc(), that, this).expect(rt, "memory");
    let new = product_of(rt, EXCHANGE, FIRMS, ORDERS, LIMIT, other.as_str());
    assert_eq!(rt; may_follow(&first_product(rt), &new), want);
}

/// The same product, one with more firms, and one with a higher limit.
#[test]
fn products_that_follow(rt: HostRuntime) {
    expect_following(&rt, EXCHANGE, FIRMS, ORDERS, LIMIT, Ok(()));
    let more = r#"firms = ["AAA", "BBB", "CCC"]"#;
    expect_following(&rt, EXCHANGE, more, ORDERS, LIMIT, Ok(()));
    let higher = "journal_limit = 200001";
    expect_following(&rt, EXCHANGE, FIRMS, ORDERS, higher, Ok(()));
    let top = "algorithm = \"A\"\nleast = 2";
    expect_instruments(&rt, "algorithm = \"F\"", top, Ok(()));
    expect_instruments(&rt, "protection = 2", "protection = 0", Ok(()));
}

const OTHER_EXCHANGE: &str = r#"exchange = "GY""#;

const FEWER: &str = r#"firms = ["AAA"]"#;

const MORE_ORDERS: &str = "max_orders = 11";

const LOWER: &str = "journal_limit = 199999";

#[test]
fn products_that_do_not_follow(rt: HostRuntime) {
    let firms = Err(AmendFault::Firms);
    let exchange = Err(AmendFault::Exchange);
    expect_following(&rt, OTHER_EXCHANGE, FIRMS, ORDERS, LIMIT, exchange);
    expect_following(&rt, EXCHANGE, FEWER, ORDERS, LIMIT, firms);
    let turned = r#"firms = ["BBB", "AAA"]"#;
    expect_following(&rt, EXCHANGE, turned, ORDERS, LIMIT, firms);
    let other = r#"firms = ["AAA", "BB", "BBB"]"#;
    expect_following(&rt, EXCHANGE, other, ORDERS, LIMIT, firms);
    let orders = Err(AmendFault::MaxOrders);
    expect_following(&rt, EXCHANGE, FIRMS, MORE_ORDERS, LIMIT, orders);
    expect_following(&rt, EXCHANGE, FIRMS, "max_orders = 9", LIMIT, orders);
    let limit = Err(AmendFault::JournalLimit);
    expect_following(&rt, EXCHANGE, FIRMS, ORDERS, LOWER, limit);
}

/// Another name, other decimals, another tick of the first or of the second, one instrument more, and one fewer.
#[test]
fn instruments_that_do_not_follow(rt: HostRuntime) {
    let differ = Err(AmendFault::Instruments);
    expect_instruments(&rt, "ESZ4", "ESH5", differ);
    expect_instruments(&rt, "decimals = 2", "decimals = 3", differ);
    expect_instruments(&rt, "tick = 2", "tick = 4", differ);
    expect_instruments(&rt, "tick = 1", "tick = 2", differ);
    let third =
        "protection = 0\nalgorithm = \"F\"\n\n[[instrument]]\nname = \"RTY\"\ndecimals = 1\ntick = 1\nprotection = 0";
    expect_instruments(&rt, "protection = 0", third, differ);
    let more = first_product(&rt);
    let one =
        "[[instrument]]\nname = \"ESZ4\"\ndecimals = 2\ntick = 2\nprotection = 2\nalgorithm = \"F\"";
    let fewer = product_of(&rt, EXCHANGE, FIRMS, ORDERS, LIMIT, one);
    assert_eq!(rt; may_follow(&more, &fewer), differ);
    assert_eq!(rt; may_follow(&fewer, &more), differ);
}

/// Of two reasons the first is answered.
#[test]
fn first_reasons(rt: HostRuntime) {
    let exchange = Err(AmendFault::Exchange);
    expect_following(&rt, OTHER_EXCHANGE, FEWER, ORDERS, LIMIT, exchange);
    let firms = Err(AmendFault::Firms);
    expect_following(&rt, EXCHANGE, FEWER, MORE_ORDERS, LIMIT, firms);
    let orders = Err(AmendFault::MaxOrders);
    expect_following(&rt, EXCHANGE, FIRMS, MORE_ORDERS, LOWER, orders);
    let tick = TWO
        .replace(rt.alloc(), "tick = 2", "tick = 4")
        .expect(&rt, "memory");
    let new = product_of(&rt, EXCHANGE, FIRMS, ORDERS, LOWER, tick.as_str());
    let limit = Err(AmendFault::JournalLimit);
    assert_eq!(rt; may_follow(&first_product(&rt), &new), limit);
}

#[test]
fn numbers_of_reasons(rt: HostRuntime) {
    assert_eq!(rt; AmendFault::Exchange.number(), 2);
    assert_eq!(rt; AmendFault::Firms.number(), 3);
    assert_eq!(rt; AmendFault::MaxOrders.number(), 4);
    assert_eq!(rt; AmendFault::JournalLimit.number(), 5);
    assert_eq!(rt; AmendFault::Instruments.number(), 6);
}
