//! The law of made streams. Its function does nothing: what is proved is what its contract says.
ghost use Rattle.std.specs.Prelude.{◌≡◌, ◌^◌, ◌<◌, ℕ, [], length};
ghost use Rattle.fix_frame.specs.Stream.{messages_of, rest_of};
ghost use Rattle.product_file.specs.Products.{ProductLists, IsRightProduct};
ghost use Rattle.order_maker.specs.Stream.{made_stream};
ghost use Rattle.stream_laws.specs.Names.{AreNames};

/// A made stream is whole messages, as many as were asked for, with no byte after them. `names_are_right` gives what this
/// asks of the names of a product.
pub fn made_streams_are_messages()
    ensures whole { (product : ProductLists) → (first count : ℕ) → IsRightProduct product → AreNames product.names → count < 2 ^ 32
        → rest_of (made_stream product first count) ≡ [] }
    ensures count { (product : ProductLists) → (first count : ℕ) → IsRightProduct product → AreNames product.names → count < 2 ^ 32
        → length (messages_of (made_stream product first count)) ≡ count }
{}
