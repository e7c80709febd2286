//! The longest line, byte by byte, and the text of a price fault.
use exec_report::write_line;
use gx_base::{
    Event, Head, Kind, LONGEST_LINE, Life, Order, Price, PriceFault, ShortId, Side, Stamp, StepName,
};
use product_file::read_product;
use run_fixtures::{bytes_of, must};

/// An exchange, a firm and an instrument of 24 bytes each, with prices of 8 decimals.
const LONG_NAMES: &str = r#"exchange = "EEEEEEEEEEEEEEEEEEEEEEEE"
firms = ["FFFFFFFFFFFFFFFFFFFFFFFF"]

[[instrument]]
name = "IIIIIIIIIIIIIIIIIIIIIIII"
decimals = 8
tick = 1
protection = 2
algorithm = "F"
"#;

/// Each name has 24 bytes, each number is the greatest of its type, and each price has 8 decimals.
const LONGEST: &str =
    "8=FIX.4.2|9=453|35=8|34=18446744073709551615|49=EEEEEEEEEEEEEEEEEEEEEEEE|52=20240102-09:30:02.999|56=FFFFFFFFFFFFFFFFFFFFFFFF|37=18446744073709551615|11=OOOOOOOOOOOOOOOOOOOOOOOO|17=18446744073709551615|20=0|150=1|39=1|55=IIIIIIIIIIIIIIIIIIIIIIII|54=1|38=4294967295|40=4|44=-92233720368.54775808|99=-92233720368.54775808|59=1|32=4294967295|31=-92233720368.54775808|151=4294967295|14=4294967295|6=0|60=20240102-09:30:02.999|9001=LEVELING|9002=18446744073709551615|9003=0|10=094|";

#[test]
fn longest_line(rt: HostRuntime) {
    let product = read_product(rt.alloc(), LONG_NAMES.as_bytes()).expect(&rt, "a product");
    let event = Event::Fill {
        head: Head {
            firm: Some(0),
            line: u64::MAX,
            report: u64::MAX,
            time: Stamp::new(b"20240102-09:30:02.999").expect(&rt, "a time"),
        },
        order: Order {
            number: u64::MAX,
            firm: 0,
            instrument: 0,
            side: Side::Buy,
            id: ShortId::new(b"OOOOOOOOOOOOOOOOOOOOOOOO").expect(&rt, "a name"),
            kind: Kind::StopLimit,
            price: Price(i64::MIN),
            trigger: Price(i64::MIN),
            quantity: u32::MAX,
            filled: u32::MAX,
            leaves: u32::MAX,
            show: 0,
            shown: 0,
            min: 0,
            life: Life::Gtc,
            prorated: 0,
        },
        lots: u32::MAX,
        price: Price(i64::MIN),
        step: StepName::Leveling,
        trade: u64::MAX,
    };
    let mut room = [0; LONGEST_LINE];
    let count = write_line(&event, product.names(), &mut room);
    let longest = must!(&rt; bytes_of(LONGEST));
    assert_eq!(rt; &room[..count], longest.as_slice());
    let text = format!(in rt.alloc(); "{}", PriceFault::Scale).expect(&rt, "memory");
    assert_eq!(rt;
        text.as_str(),
        "the price has more decimals than the instrument"
    );
}
