//! A law of products. Its function does nothing: what is proved is what its contract says.
ghost use Rattle.std.specs.Prelude.{◌≡◌, ℕ, List, Ok};
ghost use Rattle.product_file.specs.Products.{ProductLists, IsRightProduct};
ghost use Rattle.product_file.specs.ProductTexts.{product_of};

/// The product of each text is right.
pub fn products_of_texts_are_right()
    ensures { (text : List ℕ) (product : ProductLists) → product_of text ≡ Ok product → IsRightProduct product }
{}
