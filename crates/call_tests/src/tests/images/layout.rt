//! Images of small books: their bytes, and the place of each thing that is wrong with one.
ghost use Rattle.std.specs.Prelude.{◌≡◌, ◌≢◌};
ghost use Rattle.match_journal.specs.declared.entry.EntryKind.TheVariants.{Frames, Amendment};
ghost use Rattle.order_kinds.specs.State.{empty_state};
ghost use Rattle.order_kinds.specs.Cores.{FitsProduct};

use super::front_of;
use crate::tests::expects::{expect_bytes, expect_count};
use book_image::{ImageBad, image_len, read_image, write_image};
use book_side::LinkedBook;
use fix_frame::Framer;
use gx_base::{NullEmit, Trading};
use match_journal::EntryKind;
use order_kinds::Core;
use plain_book::Book;
use product_file::{Product, read_product};
use run_fixtures::{PRODUCT, apply_held, concat, frames_of, must, product_text};
use std::process::Abort;

/// An order of ten lots, four of which were traded.
pub(super) const ONE_ORDER: [&str; 2] = [
    "35=D|49=AAA|56=GX|34=1|52=20240102-09:30:00|11=a1|55=ESZ4|54=2|38=10|40=2|44=100.00|59=0|",
    "35=D|49=BBB|56=GX|34=1|52=20240102-09:30:01|11=b1|55=ESZ4|54=1|38=4|40=2|44=100.00|59=0|",
];

/// How many bytes the image of `ONE_ORDER` has, with one instrument and one order. The last one says that the market is open.
pub(super) const ONE_ORDER_BYTES: usize = 668;

/// How many bytes an old image has of them, which does not say it.
pub(super) const OLD_BYTES: usize = 667;

/// The bytes of that image that are not 0, each with its place.
const ONE_ORDER_IMAGE: [(usize, u8); 25] = [
    // two messages, two orders, four reports, one trade; two lines to each of two firms
    (7, 2),
    (15, 2),
    (23, 4),
    (31, 1),
    (39, 2),
    (47, 2),
    // the last trade price is 10,000 units
    (552, 1),
    (559, 0x27),
    (560, 0x10),
    // one resting order: number, side, kind, the length of its id, the id, price, quantity, filled, leaves, shown
    (580, 1),
    (588, 1),
    (591, 2),
    (592, 2),
    (594, 2),
    (595, b'a'),
    (596, b'1'),
    (625, 0x27),
    (626, 0x10),
    (638, 10),
    (642, 4),
    (646, 6),
    (654, 6),
    // no waiting stop
    (663, 0),
    (666, 0),
    // the market is open
    (667, 1),
];

/// Two instruments, of which the first has a TOP step, after the number of orders that may be live.
const TWO_INSTRUMENTS: &str = product_text!(
    name: "ESZ4",
    tick: 25,
    protection: 2,
    letter: "O",
    "",
    "[[instrument]]",
    r#"name = "NQZ4""#,
    "decimals = 2",
    "tick = 1",
    "protection = 2",
    r#"algorithm = "F""#,
);

/// Two buys at one price, a sell that shows three lots at a time, and a waiting stop.
pub(super) const FOUR_ORDERS: [&str; 4] = [
    "35=D|49=AAA|56=GX|34=1|52=20240102-09:30:00|11=a1|55=ESZ4|54=1|38=10|40=2|44=100.00|59=0|",
    "35=D|49=AAA|56=GX|34=2|52=20240102-09:30:01|11=a2|55=ESZ4|54=1|38=5|40=2|44=100.00|59=1|",
    "35=D|49=BBB|56=GX|34=1|52=20240102-09:30:02|11=b1|55=ESZ4|54=2|38=8|40=2|44=101.00|59=0|210=3|",
    "35=D|49=CCC|56=GX|34=1|52=20240102-09:30:03|11=c1|55=ESZ4|54=1|38=7|40=4|44=102.50|99=102.00|59=0|",
];

/// Where the parts of the image of `FOUR_ORDERS` begin.
const FIRST_PART: u64 = 552;

const SECOND_PART: u64 = 577;

const RESTING: u64 = 602;

const FIRST_BUY: u64 = 606;

const SECOND_BUY: u64 = 688;

const SELL: u64 = 770;

const WAITING: u64 = 852;

const STOP: u64 = 856;

/// A framer that holds the frames of these bodies.
fn framer_of(rt: &(impl Abort + AllocGlobal), bodies: &[&str]) -> Framer {
    let bytes = must!(rt; frames_of(bodies));
    let mut framer = Framer::new(rt.alloc()).expect(rt, "memory");
    assert_eq!(rt; framer.feed(bytes.as_slice()), bytes.len());
    framer
}

/// Applies the messages of these bodies, with no report.
fn apply_all<B: Book>(
    rt: &(impl Abort + AllocGlobal),
    product: &Product,
    core: &mut Core<B>,
    bodies: &[&str],
)
    requires fits { FitsProduct product.now core.old }
    ensures fits { FitsProduct product.now core.new }
{
    let mut framer = framer_of(rt, bodies);
    let applied = apply_held(product, core, &mut framer, bodies.len(), &mut NullEmit);
    expect_count(rt, "messages", applied, bodies.len());
    expect_count(rt, "the rest", framer.rest(), 0);
}

/// The product of two instruments, with room for so many orders.
pub(super) fn two_instruments(rt: &(impl Abort + AllocGlobal), orders: u32) -> String {
    format!(in rt.alloc(); "max_orders = {orders}\n{TWO_INSTRUMENTS}").expect(rt, "memory")
}

/// The product of this text.
fn product_from(rt: &(impl Abort + AllocGlobal), text: &str) -> Product {
    read_product(rt.alloc(), text.as_bytes()).expect(rt, "a product")
}

/// A core over an empty book.
fn new_core(rt: &(impl Abort + AllocGlobal), product: &Product) -> Core<LinkedBook>
    ensures { result ≡ empty_state product.now }
{
    let instruments = product.names().instrument_count() as u8;
    let book = LinkedBook::new(rt.alloc(), product.max_orders(), instruments).expect(rt, "memory");
    Core::new(book, product)
}

/// The image of a core.
fn image_of<B: Book>(rt: &(impl Abort + AllocGlobal), product: &Product, core: &Core<B>) -> Vec<u8>
    requires fits { FitsProduct product.now core.now }
{
    let instruments = product.names().instrument_count() as u32;
    let size = image_len(instruments, core.book().live());
    let mut image = vec![in rt.alloc(); 0; size].expect(rt, "memory");
    write_image(core, product, image.as_mut_slice());
    image
}

/// What is answered to who reads this payload of a kind into a new core, and the session that the core is in then.
fn read(
    rt: &(impl Abort + AllocGlobal),
    product: &Product,
    kind: EntryKind,
    payload: &[u8],
) -> Result<Trading, ImageBad>
    requires image { kind ≢ Frames }
    requires alone { kind ≢ Amendment }
{
    let mut core = new_core(rt, product);
    match read_image(kind, payload, product, &mut core) {
        Ok(()) => Ok(core.trading()),
        Err(bad) => Err(bad),
    }
}

/// The image after these messages.
fn image_after(rt: &(impl Abort + AllocGlobal), product: &Product, bodies: &[&str]) -> Vec<u8> {
    let mut core = new_core(rt, product);
    apply_all(rt, product, &mut core, bodies);
    image_of(rt, product, &core)
}

/// Bytes that take the place of others in an image, and what is answered then.
type Change<'a> = (&'a [(usize, u8)], Result<Trading, ImageBad>);

/// Looks for this answer.
fn expect_answer(rt: &impl Abort, got: Result<Trading, ImageBad>, want: Result<Trading, ImageBad>) {
    assert_eq!(rt; got, want);
}

/// Of a payload of a kind: what is answered with each of these changes.
fn expect_answers(
    rt: &(impl Abort + AllocGlobal),
    product: &Product,
    kind: EntryKind,
    payload: &[u8],
    changes: &[Change<'_>],
)
    requires image { kind ≢ Frames }
    requires alone { kind ≢ Amendment }
{
    for (bytes, want) in changes {
        let mut other = payload.to_vec(rt.alloc()).expect(rt, "memory");
        for (at, byte) in *bytes {
            assert!(rt; *at < other.len());
            other.as_mut_slice()[*at] = *byte;
        }
        expect_answer(rt, read(rt, product, kind, other.as_slice()), *want);
    }
}

/// The image after some messages, and the old image, which has one byte less, are refused alike with each of these changes.
fn expect_faults(
    rt: &(impl Abort + AllocGlobal),
    text: &str,
    bodies: &[&str],
    faults: &[(&[(usize, u8)], u64)],
) {
    let product = product_from(rt, text);
    let image = image_after(rt, &product, bodies);
    let image = image.as_slice();
    assert!(rt; !image.is_empty());
    let old = &image[..image.len() - 1];
    for (bytes, place) in faults {
        let change = [(*bytes, Err(ImageBad(*place)))];
        expect_answers(rt, &product, EntryKind::Image, image, &change);
        expect_answers(rt, &product, EntryKind::OldImage, old, &change);
    }
}

/// The image of `ONE_ORDER`, from its table.
pub(super) fn one_order_image(rt: &impl Abort) -> [u8; ONE_ORDER_BYTES] {
    let mut bytes = [0; ONE_ORDER_BYTES];
    for (at, byte) in ONE_ORDER_IMAGE {
        assert!(rt; at < ONE_ORDER_BYTES);
        bytes[at] = byte;
    }
    bytes
}

#[test]
fn image_of_one_order(rt: HostRuntime) {
    let product = product_from(&rt, PRODUCT);
    let image = image_after(&rt, &product, &ONE_ORDER);
    expect_bytes(&rt, "one order", image.as_slice(), &one_order_image(&rt));
}

/// A core that this image was read into.
fn core_from(rt: &(impl Abort + AllocGlobal), product: &Product, image: &[u8]) -> Core<LinkedBook>
    ensures fits { FitsProduct product.now result }
{
    let mut core = new_core(rt, product);
    let got = read_image(EntryKind::Image, image, product, &mut core);
    assert_eq!(rt; got, Ok(()));
    core
}

/// The core that an image was read into has that image.
#[test]
fn image_is_read_back(rt: HostRuntime) {
    let product = product_from(&rt, two_instruments(&rt, 4).as_str());
    let image = image_after(&rt, &product, &FOUR_ORDERS);
    let core = core_from(&rt, &product, image.as_slice());
    let again = image_of(&rt, &product, &core);
    expect_bytes(&rt, "four orders", again.as_slice(), image.as_slice());
    assert_eq!(rt; core.messages(), 4);
    assert_eq!(rt; core.book().live(), 4);
}

/// These bytes are refused at this place, as an image of a kind.
fn expect_cut(
    rt: &(impl Abort + AllocGlobal),
    product: &Product,
    kind: EntryKind,
    front: &[u8],
    place: u64,
)
    requires image { kind ≢ Frames }
    requires alone { kind ≢ Amendment }
{
    let got = read(rt, product, kind, front);
    expect_answer(rt, got, Err(ImageBad(place)));
}

/// An image that ends too early, in each of its parts. Its last byte is none of the parts.
#[test]
fn images_that_end_too_early(rt: HostRuntime) {
    let product = product_from(&rt, PRODUCT);
    let image = image_after(&rt, &product, &ONE_ORDER);
    let image = image.as_slice();
    for count in [0, 8, 551, 552, 576, 577, 580, 581, 662, 663, 666] {
        let old = front_of(&rt, image, count);
        expect_cut(&rt, &product, EntryKind::OldImage, old, count as u64);
        let front = front_of(&rt, image, count + 1);
        expect_cut(&rt, &product, EntryKind::Image, front, count as u64);
    }
    expect_cut(&rt, &product, EntryKind::Image, b"", 0);
    // An image without its last byte is none, and an old image with one byte more is none either.
    let front = front_of(&rt, image, OLD_BYTES);
    expect_cut(&rt, &product, EntryKind::Image, front, 666);
    expect_cut(&rt, &product, EntryKind::OldImage, image, 667);
}

/// An image that goes on.
#[test]
fn images_that_go_on(rt: HostRuntime) {
    let product = product_from(&rt, PRODUCT);
    let image = image_after(&rt, &product, &ONE_ORDER);
    let long = must!(&rt; concat(&[image.as_slice(), b"\x01"]));
    expect_cut(&rt, &product, EntryKind::OldImage, long.as_slice(), 667);
    expect_cut(&rt, &product, EntryKind::Image, long.as_slice(), 667);
}

/// What the last byte of an image says: 0 is a closed market, in which each order is good till cancelled, and 1 an open one.
#[test]
fn sessions_of_one_order(rt: HostRuntime) {
    let product = product_from(&rt, PRODUCT);
    let image = image_after(&rt, &product, &ONE_ORDER);
    let image = image.as_slice();
    expect_answers(
        &rt,
        &product,
        EntryKind::Image,
        image,
        &[
            (&[], Ok(Trading::Open)),
            (&[(593, 1)], Ok(Trading::Open)),
            (&[(593, 1), (667, 0)], Ok(Trading::Closed)),
            // a day order in a closed market; a byte that says neither, with a day order and without one
            (&[(667, 0)], Err(ImageBad(581))),
            (&[(667, 2)], Err(ImageBad(667))),
            (&[(667, 255), (593, 1)], Err(ImageBad(667))),
            // the byte is tried after the rows, and before TOP
            (&[(667, 2), (588, 3)], Err(ImageBad(581))),
            (&[(667, 2), (666, 1)], Err(ImageBad(667))),
            (&[(667, 2), (568, 1)], Err(ImageBad(667))),
            (&[(667, 0), (593, 1), (568, 1)], Err(ImageBad(552))),
        ],
    );
    expect_answers(
        &rt,
        &product,
        EntryKind::OldImage,
        front_of(&rt, image, OLD_BYTES),
        &[(&[], Ok(Trading::Open)), (&[(593, 1)], Ok(Trading::Open))],
    );
}

/// In a closed market a waiting stop is good till cancelled, too, and a row is tried after those before it.
#[test]
fn sessions_of_four_orders(rt: HostRuntime) {
    let product = product_from(&rt, two_instruments(&rt, 4).as_str());
    let image = image_after(&rt, &product, &FOUR_ORDERS);
    expect_answers(
        &rt,
        &product,
        EntryKind::Image,
        image.as_slice(),
        &[
            (&[(938, 0)], Err(ImageBad(FIRST_BUY))),
            (&[(938, 0), (618, 1)], Err(ImageBad(SELL))),
            (&[(938, 0), (618, 1), (782, 1)], Err(ImageBad(STOP))),
            (
                &[(938, 0), (618, 1), (782, 1), (868, 1)],
                Ok(Trading::Closed),
            ),
            (&[(938, 0), (684, 1)], Err(ImageBad(FIRST_BUY))),
            (&[(938, 2), (868, 9)], Err(ImageBad(STOP))),
        ],
    );
}

/// Counters, the parts of an instrument, counts, and each field of a row.
#[test]
fn faults_of_one_order(rt: HostRuntime) {
    expect_faults(
        &rt,
        PRODUCT,
        &ONE_ORDER,
        &[
            // 2^24 messages and more; more orders than messages; counters above 2^38 for each message
            (&[(4, 1)], 0),
            (&[(15, 3)], 8),
            (&[(16, 1)], 16),
            (&[(24, 1)], 24),
            (&[(32, 1)], 32),
            (&[(544, 1)], 544),
            // no mark of a last price; none with a price; a price out of range; a TOP order where the steps have none
            (&[(552, 2)], 552),
            (&[(552, 0)], 552),
            (&[(553, 1)], 552),
            (&[(568, 1)], 552),
            (&[(576, 1)], 552),
            // no row by the count, and one stop by the count and no row
            (&[(580, 0)], 585),
            (&[(666, 1)], 667),
            // number, firm, instrument, side, kind, life
            (&[(588, 0)], 581),
            (&[(588, 3)], 581),
            (&[(589, 4)], 581),
            (&[(590, 1)], 581),
            (&[(591, 3)], 581),
            (&[(592, 1)], 581),
            (&[(592, 3)], 581),
            (&[(592, 4)], 581),
            (&[(593, 2)], 581),
            (&[(593, 3)], 581),
            (&[(593, 4)], 581),
            // the id: its length, its bytes, and what it is filled up with
            (&[(594, 0)], 581),
            (&[(594, 1)], 581),
            (&[(594, 3)], 581),
            (&[(594, 25)], 581),
            (&[(595, 31)], 581),
            (&[(596, 127)], 581),
            (&[(597, 1)], 581),
            // price, trigger, quantity, filled, leaves, show, shown, min, prorated
            (&[(619, 1)], 581),
            (&[(634, 1)], 581),
            (&[(638, 11)], 581),
            (&[(642, 5)], 581),
            (&[(642, 10), (646, 0)], 581),
            (&[(635, 1), (643, 1)], 581),
            (&[(646, 7)], 581),
            (&[(650, 11)], 581),
            (&[(650, 5)], 581),
            (&[(654, 5)], 581),
            (&[(658, 1)], 581),
            (&[(659, 1)], 581),
        ],
    );
}

/// TOP, rows beside each other, and what a waiting stop has.
#[test]
fn faults_of_four_orders(rt: HostRuntime) {
    expect_faults(
        &rt,
        two_instruments(&rt, 4).as_str(),
        &FOUR_ORDERS,
        &[
            // TOP of the buys is the sell, or no order; that of the sells a buy; there is a TOP where the steps have none
            (&[(568, 3)], FIRST_PART),
            (&[(568, 5)], FIRST_PART),
            (&[(576, 1)], FIRST_PART),
            (&[(593, 1)], SECOND_PART),
            // TOP is tried last, whatever its place
            (&[(568, 5), (684, 1)], FIRST_BUY),
            // the second buy has the first one's id, or a better price
            (&[(703, b'1')], SECOND_BUY),
            (&[(650, 0x26), (651, 0xF7)], SECOND_BUY),
            // the sell is at the best buy price, below it, or off the tick; it shows more than it may
            (&[(815, 0x10)], SELL),
            (&[(814, 0x26), (815, 0xF7)], SELL),
            (&[(815, 0x75)], SELL),
            (&[(843, 4)], SELL),
            (&[(843, 0)], SELL),
            // the stop has the id of a resting order, the kind of one, a price below its trigger, or a trigger off the tick
            (&[(864, 0), (870, b'a')], STOP),
            (&[(867, 2)], STOP),
            (&[(900, 0x27), (901, 0xBF)], STOP),
            (&[(909, 0xD9)], STOP),
            // it has lots that were filled or are shown, a least, or a share
            (&[(917, 1), (921, 6)], STOP),
            (&[(929, 1)], STOP),
            (&[(933, 1)], STOP),
            (&[(937, 1)], STOP),
            // the waiting stop of an instrument that there is not
            (&[(865, 2)], STOP),
        ],
    );
}

/// A lower number of orders that may be live is passed by the resting ones, or only with the stops.
#[test]
fn more_orders_than_may_be_live(rt: HostRuntime) {
    let product = product_from(&rt, two_instruments(&rt, 4).as_str());
    let image = image_after(&rt, &product, &FOUR_ORDERS);
    for (orders, place) in [(3, WAITING), (2, RESTING)] {
        let smaller = product_from(&rt, two_instruments(&rt, orders).as_str());
        let answer = read(&rt, &smaller, EntryKind::Image, image.as_slice());
        assert_eq!(rt; answer, Err(ImageBad(place)));
    }
}
