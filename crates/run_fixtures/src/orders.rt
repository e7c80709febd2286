//! The body of an order, as a constant.

/// A sell of `ESZ4` for the day: its firm, id, lots and price.
#[macro_export]
macro_rules! sell {
    ($firm:literal, $id:literal, $lots:literal, $price:literal) => {
        concat!(
            "35=D|49=", $firm, "|56=GX|34=1|52=20240102-09:30:00|11=", $id, "|55=ESZ4|54=2|38=",
            $lots, "|40=2|44=", $price, "|59=0|"
        )
    };
}
