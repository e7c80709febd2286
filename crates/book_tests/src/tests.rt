//! A core over each book, on one made stream; and a drill that a book which looks through its orders would not end in time.
ghost use Rattle.order_kinds.specs.Cores.{FitsProduct};

use book_side::LinkedBook;
use exec_report::ByteEmit;
use fix_frame::Framer;
use gx_base::Emit;
use gx_station::{LEAST_READ, MemStation, Source};
use order_kinds::Core;
use order_maker::MakerSource;
use plain_book::{Book, PlainBook};
use product_file::{Product, read_product};
use run_fixtures::{PRODUCT, apply_held, ended, execute, must, product_text, source_of};
use std::process::Abort;

/// The usual product with room for 100,000 live orders, and for the journal of the drill.
const LARGE_PRODUCT: &str =
    product_text!("max_orders = 100000", "journal_limit = 67108864", letter: "F");

const MESSAGES: u32 = 3_000;

/// Room for all lines of the stream.
const ROOM: usize = 4_194_304;

/// Looks for this count.
fn expect_count(rt: &impl Abort, got: u64, want: u64) {
    assert_eq!(rt; got, want);
}

/// The next bytes of a made stream come into a framer. `false` is the end of the stream.
fn feed_made(rt: &impl Abort, source: &mut MakerSource<'_>, framer: &mut Framer) -> bool {
    let mut into = [0; LEAST_READ];
    let count = source.read(&mut into).expect(rt, "messages");
    if count == 0 {
        return false;
    }
    assert!(rt; count <= into.len() && framer.offset() < 1 << 40 && framer.rest() < 1 << 40);
    expect_count(rt, framer.feed(&into[..count]) as u64, count as u64);
    true
}

/// The lines of a made stream, which a core over this book puts into the log.
fn apply_made<B: Book>(
    rt: &(impl Abort + AllocGlobal),
    product: &Product,
    core: &mut Core<B>,
    log: &mut ByteEmit<'_>,
)
    requires fits { FitsProduct product.now core.old }
{
    let mut source = MakerSource::new(product, 3, MESSAGES);
    let mut framer = Framer::new(rt.alloc()).expect(rt, "memory");
    for _read in 0..MESSAGES {
        if !feed_made(rt, &mut source, &mut framer) {
            break;
        }
        apply_held(product, core, &mut framer, LEAST_READ, log);
    }
    expect_count(rt, core.messages(), u64::from(MESSAGES));
    assert!(rt; !log.failed());
}

/// Puts the lines of a core over a book in two lists into the log.
fn apply_over_lists(rt: &(impl Abort + AllocGlobal), product: &Product, log: &mut ByteEmit<'_>) {
    let instruments = product.names().instrument_count() as u8;
    let book = PlainBook::new(rt.alloc(), product.max_orders(), instruments).expect(rt, "memory");
    let mut core = Core::new(book, product);
    apply_made(rt, product, &mut core, log);
}

/// Puts the lines of a core over a book of a run into the log.
fn apply_over_queues(rt: &(impl Abort + AllocGlobal), product: &Product, log: &mut ByteEmit<'_>) {
    let instruments = product.names().instrument_count() as u8;
    let book = LinkedBook::new(rt.alloc(), product.max_orders(), instruments).expect(rt, "memory");
    let mut core = Core::new(book, product);
    apply_made(rt, product, &mut core, log);
}

#[test]
fn both_books_give_the_same_lines(rt: HostRuntime) {
    let alloc = rt.alloc();
    let product = read_product(alloc, PRODUCT.as_bytes()).expect(&rt, "a product");
    let mut log = ByteEmit::new(alloc, product.names(), ROOM).expect(&rt, "memory");
    apply_over_lists(&rt, &product, &mut log);
    let mut other = ByteEmit::new(alloc, product.names(), ROOM).expect(&rt, "memory");
    apply_over_queues(&rt, &product, &mut other);
    assert_eq!(rt; log.bytes(), other.bytes());
}

/// At the end the book is full.
#[test]
fn drill_of_400_000_messages(rt: HostRuntime) {
    let alloc = rt.alloc();
    let mut input = must!(&rt; source_of(b""));
    let none = Vec::new(alloc);
    let mut station = MemStation::new(
        alloc,
        none,
        1 << 26,
        1 << 16,
        2_000_000,
        Vec::new(alloc),
    ).expect(&rt, "memory");
    let line = "drill --first 1 --count 400000";
    let got = must!(&rt; execute(LARGE_PRODUCT, line, &mut input, &mut station));
    assert_eq!(rt; got, ended(0, 0, 400_000));
    assert!(rt; station.output().starts_with(b"messages 400000 "));
    assert!(rt; station.output().ends_with(b" live 100000\n"));
    assert!(rt; station.image().len() < 55_000_000);
}
