//! The first messages that are made for a product, byte for byte.
use gx_station::{LEAST_READ, Source};
use order_maker::MakerSource;
use product_file::read_product;
use run_fixtures::{PRODUCT, join, must};

/// The stream of three messages with the first state 1, with `|` for SOH.
const STREAM: [&str; 3] = [
    "8=FIX.4.2|9=56|35=F|49=AAA|56=GX|34=1|52=20240102-00:00:00|11=G1|41=G1|10=157|",
    "8=FIX.4.2|9=88|35=D|49=BBB|56=GX|34=2|52=20240102-00:00:00|11=G2|55=ESZ4|54=1|38=52|40=2|44=99.25|59=0|10=157|",
    "8=FIX.4.2|9=88|35=D|49=CCC|56=GX|34=3|52=20240102-00:00:00|11=G3|55=ESZ4|54=1|38=20|40=2|44=99.20|59=0|10=152|",
];

#[test]
fn makes_the_first_messages(rt: HostRuntime) {
    let product = read_product(rt.alloc(), PRODUCT.as_bytes()).expect(&rt, "a product");
    let mut source = MakerSource::new(&product, 1, 3);
    let mut into = [0; LEAST_READ];
    let count = source.read(&mut into).expect(&rt, "messages");
    let stream = must!(&rt; join(&STREAM));
    assert_eq!(rt; &into[..count], stream.as_slice());
    assert_eq!(rt; source.read(&mut into), Ok(0));
}
