//! Draws of pseudo random numbers, and of what a book is called with. Few firms, names and instruments are drawn, and in one of
//! the markets few prices, so that orders meet.
ghost use Rattle.std.specs.Prelude.{◌≡◌, ◌+◌, ◌<◌, ◌≤◌, ◌⊎◌};
ghost use Rattle.gx_base.specs.declared.order.Kind.TheVariants.{Limit};
ghost use Rattle.gx_base.specs.declared.order.Life.TheVariants.{Day, Gtc};
ghost use Rattle.plain_book.specs.Book.{IsFitToRest, IsFitToWait};

use gx_base::{Kind, Life, Order, Price, ShortId, Side};

pub(crate) const INSTRUMENTS: u8 = 2;

const FIRMS: u32 = 4;

/// An id is a part of this text.
const LONGEST_ID: &[u8] = b"ABCDEFGHIJKLMNOPQRSTUVWX";

/// At how many letters of the text an id may begin.
const STARTS: u32 = 24;

/// How many calls a wide market makes in which orders come, and then as many in which none comes to rest.
const TIDE: u32 = 5_000;

/// After so many calls a wide market is at its end.
const LAST: u32 = 24_500;

/// The middle of the prices of a wide market.
const MIDDLE: u32 = 12_000;

/// Among how many prices from the middle on it draws.
const PRICES: u32 = 200;

/// After so many calls the stop prices of a wide market are one step nearer to the middle.
const NEARING: u32 = 100;

/// What is drawn.
#[derive(Clone, Copy)]
pub(crate) enum Market {
    /// Few prices and few names.
    Narrow,
    /// Many prices and more names. Orders only come for a while, and then only go; most are of the first instrument, and first
    /// sells, then buys. So a side has up to seven chunks of levels, and then none: the first, the last and a middle chunk are split,
    /// chunks are joined with the next one and with the one before, and a side is emptied and filled again. At last stops come, and
    /// come anew: more than 512 of one instrument wait, and their places are closed up.
    Wide,
}

impl Market {
    /// How many calls a run makes.
    pub(crate) fn steps(self) -> u32 {
        match self {
            Market::Narrow => 4 * TIDE,
            Market::Wide => 5 * TIDE,
        }
    }

    /// After one in so many calls all orders are read. In two lists that takes the square of their number.
    fn reads(self) -> u32
        ensures { 1 ≤ result }
    {
        match self {
            Market::Narrow => 8,
            Market::Wide => 256,
        }
    }
}

/// A generator of pseudo random numbers.
#[derive(Drop)]
pub(crate) struct Random {
    state: u64,
    market: Market,
    /// How many calls were drawn.
    calls: u32,
}

impl Random {
    pub(crate) fn new(market: Market) -> Random {
        Random {
            state: 1,
            market,
            calls: 0,
        }
    }

    /// A number below the limit. The high bits of a state are the better ones.
    pub(crate) fn below(&mut self, limit: u32) -> u32
        requires { 1 ≤ limit }
        ensures { result < limit }
    {
        self.state = self
            .state
            .wrapping_mul(6_364_136_223_846_793_005)
            .wrapping_add(1_442_695_040_888_963_407);
        (self.state >> 33) as u32 % limit
    }

    /// True in one of so many draws.
    pub(crate) fn is_one_in(&mut self, draws: u32) -> bool
        requires { 1 ≤ draws }
    {
        self.below(draws) == 0
    }

    /// True in half of the draws, and in a wide market in one of four.
    fn is_rare(&mut self) -> bool {
        match self.market {
            Market::Narrow => self.is_one_in(2),
            Market::Wide => self.is_one_in(4),
        }
    }

    pub(crate) fn instrument(&mut self) -> u8
        ensures { result < INSTRUMENTS }
    {
        u8::from(self.is_rare())
    }

    /// The number of a call, below 36. At a flood of a wide market half of the calls place an order. At an ebb no order comes to rest,
    /// and half of the calls take one out. After two of each, no order comes to rest, and in most of the calls a stop comes anew.
    pub(crate) fn call(&mut self) -> u32 {
        self.calls = self.calls.wrapping_add(1);
        match self.market {
            Market::Narrow => self.below(36),
            Market::Wide => self.call_of_tide(self.calls / TIDE),
        }
    }

    fn call_of_tide(&mut self, tide: u32) -> u32 {
        match tide {
            0 | 2 => self.call_at_flood(),
            1 | 3 => self.call_at_ebb(),
            _ => self.call_of_stops(),
        }
    }

    fn call_at_flood(&mut self) -> u32 {
        if self.is_one_in(2) {
            return 0;
        }
        self.below(32)
    }

    fn call_at_ebb(&mut self) -> u32 {
        if self.is_one_in(2) {
            return 18;
        }
        18 + self.below(14)
    }

    fn call_of_stops(&mut self) -> u32 {
        if self.is_one_in(4) {
            return 10 + self.below(26);
        }
        32
    }

    /// One in so many draws of it clears the book. A wide market is cleared at the end, when most stops wait.
    fn clears(&self) -> u32
        ensures { 1 ≤ result }
    {
        match self.market {
            Market::Narrow => 8,
            Market::Wide if self.calls >= LAST => 1,
            Market::Wide => 200,
        }
    }

    /// Whether the book is cleared. It never is in each second tide: so levels go one by one, and stops come to all places of an
    /// instrument.
    pub(crate) fn is_clear(&mut self) -> bool {
        let clears = self.clears();
        self.calls / TIDE % 2 == 0 && self.is_one_in(clears)
    }

    /// Whether all orders are read.
    pub(crate) fn is_read(&mut self) -> bool {
        let reads = self.market.reads();
        self.is_one_in(reads)
    }

    /// In a wide market there are more sells until the second flood, and then more buys.
    pub(crate) fn side(&mut self) -> Side {
        if self.is_rare() == (self.calls < 2 * TIDE) {
            Side::Buy
        } else {
            Side::Sell
        }
    }

    /// Whether this is the first half of a tide.
    fn is_early(&self) -> bool {
        self.calls % TIDE < TIDE / 2
    }

    /// A price about 0. In a wide market it is first near one of two places that go apart, so that new levels come at both ends of a
    /// side, and then between these.
    pub(crate) fn price(&mut self) -> Price {
        let place = match self.market {
            Market::Narrow => self.below(6),
            Market::Wide if self.is_early() => self.place_apart(),
            Market::Wide => MIDDLE + self.below(PRICES),
        };
        Price(i64::from(place) - 3)
    }

    /// A place near one of those that go apart. At an ebb they are past all levels.
    fn place_apart(&mut self) -> u32 {
        let apart = self.calls % (2 * TIDE) + self.below(3);
        if self.is_one_in(2) {
            MIDDLE + apart
        } else {
            MIDDLE - apart
        }
    }

    /// A stop price, of which there are few. In a wide market those of buys are above those of sells, and both come nearer, so that a
    /// trade may reach a late stop and none before it.
    fn trigger(&mut self, side: Side) -> Price {
        match self.market {
            Market::Narrow => self.price(),
            Market::Wide => {
                let nearing = TIDE - self.calls % TIDE;
                let apart = nearing / NEARING + self.below(6);
                match side {
                    Side::Buy => Price(i64::from(MIDDLE + apart)),
                    Side::Sell => Price(i64::from(MIDDLE - apart)),
                }
            }
        }
    }

    /// Whether the order that leaves is drawn by its name.
    pub(crate) fn is_named(&mut self) -> bool {
        match self.market {
            Market::Narrow => self.is_one_in(2),
            Market::Wide => !self.is_early(),
        }
    }

    pub(crate) fn firm(&mut self) -> u8
        ensures { result < FIRMS }
    {
        self.below(FIRMS) as u8
    }

    /// At which letter of the text an id begins.
    fn id_start(&mut self) -> usize
        ensures { result < STARTS }
    {
        match self.market {
            Market::Narrow => 0,
            Market::Wide => self.below(STARTS) as usize,
        }
    }

    pub(crate) fn id(&mut self) -> ShortId {
        let start = self.id_start();
        let letters = (LONGEST_ID.len() - start) as u32;
        let length = 1 + self.below(letters) as usize;
        ShortId::new(&LONGEST_ID[start..start + length]).unwrap_or_default()
    }

    /// What of an order is shown at a time: in half of the draws all.
    fn show(&mut self, quantity: u32) -> u32
        requires { 1 ≤ quantity }
        ensures { result ≤ quantity }
    {
        if self.is_one_in(2) {
            return 0;
        }
        1 + self.below(quantity)
    }

    fn life(&mut self) -> Life
        ensures { (result ≡ Day) ⊎ (result ≡ Gtc) }
    {
        if self.is_one_in(2) {
            Life::Day
        } else {
            Life::Gtc
        }
    }

    /// An order that can come to rest, some of it filled before.
    pub(crate) fn order(&mut self, number: u64) -> Order
        ensures { IsFitToRest INSTRUMENTS result }
    {
        let filled = self.below(3);
        let leaves = 1 + self.below(12);
        let quantity = filled + leaves;
        Order {
            number,
            firm: self.firm(),
            instrument: self.instrument(),
            side: self.side(),
            id: self.id(),
            kind: Kind::Limit,
            price: self.price(),
            trigger: Price(0),
            quantity,
            filled,
            leaves,
            show: self.show(quantity),
            shown: 0,
            min: 0,
            life: self.life(),
            prorated: 0,
        }
    }

    /// A stop that can wait.
    pub(crate) fn stop(&mut self, number: u64) -> Order
        ensures { IsFitToWait INSTRUMENTS result }
    {
        let quantity = 1 + self.below(12);
        let side = self.side();
        Order {
            number,
            firm: self.firm(),
            instrument: self.instrument(),
            side,
            id: self.id(),
            kind: Kind::StopLimit,
            price: self.price(),
            trigger: self.trigger(side),
            quantity,
            filled: 0,
            leaves: quantity,
            show: self.show(quantity),
            shown: 0,
            min: self.below(quantity),
            life: self.life(),
            prorated: 0,
        }
    }

    /// A quantity that a change of this order can have: no more than now, more than is filled, and no less than is shown at a
    /// time.
    pub(crate) fn lower_quantity(&mut self, order: &Order) -> u32
        requires open { order.now.filled < order.now.quantity }
        requires show { order.now.show ≤ order.now.quantity }
        ensures open { order.now.filled < result }
        ensures lower { result ≤ order.now.quantity }
        ensures show { order.now.show ≤ result }
    {
        let quantity = order.quantity;
        let least = order.show.max(order.filled + 1);
        least + self.below(quantity - least + 1)
    }

    /// The least quantity that a change of this order can have: none where it rests.
    pub(crate) fn least_quantity(&mut self, order: &Order) -> u32
        ensures { order.now.kind ≡ Limit → result ≡ 0 }
    {
        match order.kind {
            Kind::Limit => 0,
            Kind::Market | Kind::StopLimit => self.below(4),
        }
    }
}
