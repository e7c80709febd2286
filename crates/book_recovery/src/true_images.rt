//! Laws of journals with book images. The functions do nothing; what their contracts say is proved.
ghost use Rattle.std.specs.Prelude.{◌≡◌, ℕ, ◌<◌, List, [], Ok};
ghost use Rattle.product_file.specs.Products.{ProductLists};
ghost use Rattle.product_file.specs.ProductTexts.{product_of};
ghost use Rattle.order_kinds.specs.Histories.{History, of_product, last_product, length_kept, state_kept};
ghost use Rattle.order_kinds.specs.State.{empty_state};
ghost use Rattle.order_kinds.specs.declared.core_state.TheConstants.{MOST_MESSAGES};
ghost use Rattle.match_journal.specs.Journal.{Header, Record};
ghost use Rattle.match_journal.specs.Texts.{last_text};
ghost use Rattle.book_recovery.specs.Records.{count_behind_all, state_behind_all, from_last_image, AreGoodRecords, HaveWholeFrames};
ghost use Rattle.book_recovery.specs.Histories.{AreGoodFrom, AreTrueFrom, HaveProducts, history_behind};

/// Where each image is that of the state there, who begins with the last image, under the last product alone, comes to the state after
/// the whole history, and to the count of its messages.
pub fn recovery_from_an_image_is_a_full_replay()
    ensures state { (text : List ℕ) (first : ProductLists) (records : List Record) → product_of text ≡ Ok first → AreGoodFrom first 0 records
        → AreTrueFrom (of_product first []) records → let kept = history_behind (of_product first []) records in length_kept kept < MOST_MESSAGES
        → state_behind_all (last_product kept) (empty_state (last_product kept)) (from_last_image records) ≡ state_kept kept }
    ensures count { (text : List ℕ) (first : ProductLists) (records : List Record) → product_of text ≡ Ok first → AreGoodFrom first 0 records
        → AreTrueFrom (of_product first []) records → let kept = history_behind (of_product first []) records in length_kept kept < MOST_MESSAGES
        → count_behind_all 0 (from_last_image records) ≡ length_kept kept }
{}

/// The last product is that of the last text, and the records from the last image on are good under it alone.
pub fn good_records_are_good_from_the_last_image()
    ensures last { (head : Header) (first : ProductLists) (records : List Record) → product_of head.text ≡ Ok first → AreGoodFrom first 0 records
        → product_of (last_text head records).bytes ≡ Ok (last_product (history_behind (of_product first []) records)) }
    ensures good { (first : ProductLists) (records : List Record) → AreGoodFrom first 0 records
        → AreGoodRecords (last_product (history_behind (of_product first []) records)) 0 (from_last_image records) }
{}

/// True images are good, and so is each record, where frames are whole and the texts of amendments give products that may follow each
/// other.
pub fn true_records_are_good()
    ensures { (text : List ℕ) (first : ProductLists) (records : List Record) → product_of text ≡ Ok first → HaveProducts first records
        → AreTrueFrom (of_product first []) records → HaveWholeFrames records
        → length_kept (history_behind (of_product first []) records) < MOST_MESSAGES → AreGoodFrom first 0 records }
{}
