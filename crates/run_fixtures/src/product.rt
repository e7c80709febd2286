//! The texts of products that tests use.

/// The text of a product with one instrument, first the lines that limit the whole product, if there are any. A letter stands
/// for the algorithm, and the lines after it go with it. An instrument whose name, tick and protection are not written is
/// `ESZ4`, in ticks of 0.01, with a protection of two ticks.
#[macro_export]
macro_rules! product_text {
    ($($limit:literal,)* letter: $letter:literal $(, $line:literal)* $(,)?) => {
        $crate::product_text!(
            $($limit,)* name: "ESZ4", tick: 1, protection: 2, letter: $letter $(, $line)*
        )
    };
    ($($limit:literal,)* name: $name:literal, tick: $tick:literal, protection: $protection:literal, letter: $letter:literal $(, $line:literal)* $(,)?) => {
        concat!(
            "exchange = \"GX\"\nfirms = [\"AAA\", \"BBB\", \"CCC\", \"DDD\"]\n",
            $($limit, "\n",)*
            "\n[[instrument]]\nname = \"", $name, "\"\ndecimals = 2\ntick = ", $tick,
            "\nprotection = ", $protection, "\nalgorithm = \"", $letter, "\"\n",
            $($line, "\n",)*
        )
    };
}

/// One instrument, whose orders match by FIFO.
pub const PRODUCT: &str = product_text!(letter: "F");
