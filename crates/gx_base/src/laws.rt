//! Laws of printed numbers and prices. Their function does nothing: what is proved is what its contract says.
ghost use Rattle.std.specs.Prelude.{ℕ};
ghost use Rattle.gx_base.specs.declared.price.Price.{Price};
ghost use Rattle.gx_base.specs.ReadingBack.{ReadsPriceBack, ReadsNumberBack};

/// What is printed is read back: a price that is in range, with the decimals that it is printed with, and a number.
pub fn printed_texts_are_read_back()
    ensures prices { (price : Price) (decimals : ℕ) → ReadsPriceBack price decimals }
    ensures numbers { (n : ℕ) → ReadsNumberBack n }
{}
