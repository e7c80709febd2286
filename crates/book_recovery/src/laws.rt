//! Laws of the definitions. The functions do nothing; what their contracts say is proved.
ghost use Rattle.std.specs.Prelude.{◌≡◌, ℕ, List, Result, Ok, Err};
ghost use Rattle.product_file.specs.Products.{ProductLists};
ghost use Rattle.product_file.specs.ProductTexts.{product_of};
ghost use Rattle.match_journal.specs.Journal.{Header, IsJournal, Record};
ghost use Rattle.order_kinds.specs.State.{State};
ghost use Rattle.book_recovery.specs.BadPlaces.{IsBadForEachRecord};
ghost use Rattle.book_recovery.specs.Histories.{AreGoodFrom};
ghost use Rattle.book_recovery.specs.Recovering.{Recovers};
ghost use Rattle.book_recovery.specs.declared.recovery.Recovered.{Recovered};
ghost use Rattle.book_recovery.specs.declared.recovery.RecoverFault.{RecoverFault};
ghost use Rattle.book_recovery.specs.declared.recovery.RecoverFault.TheVariants as fault;

/// One answer of a recovery fits an image, besides a fault of the store. So each comes exactly where it fits, and `Bad` at one
/// place.
pub fn an_image_is_recovered_one_way()
    ensures { (product : ProductLists) (head : Header) (image : List ℕ) (limit gate gate' : ℕ) (state state' : State) (first second : Result Recovered RecoverFault)
        → Recovers product head limit image gate state first → Recovers product head limit image gate' state' second → (first ≡ Err fault.Store → ⊥)
        → (second ≡ Err fault.Store → ⊥) → first ≡ second }
{}

/// A journal has one first bad place, for who takes the products of all texts and then reads each record whole; and none if each record
/// is good under the product of its time.
pub fn one_place_is_the_first_bad_one()
    ensures one { (head : Header) (image : List ℕ) (limit at at' : ℕ) → IsBadForEachRecord head limit image at
        → IsBadForEachRecord head limit image at' → at ≡ at' }
    ensures none { (head : Header) (image : List ℕ) (records : List Record) (first : ProductLists) (limit at : ℕ) → IsJournal head limit records image
        → product_of head.text ≡ Ok first → AreGoodFrom first 0 records → IsBadForEachRecord head limit image at → ⊥ }
{}
