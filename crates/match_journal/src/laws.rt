//! Laws of the definitions. The functions do nothing; what their contracts say is proved.
ghost use Rattle.std.specs.Prelude.{◌≡◌, ℕ, ◌≤◌, List, [], ◌∷◌, length, Option, Result, Err};
ghost use Rattle.gx_station.specs.Disk.{Torn};
ghost use Rattle.match_journal.specs.Journal.{Header, IsJournal, Record};
ghost use Rattle.match_journal.specs.Texts.{PlacedText, HasLastText, HasTextIn, last_amendment, last_text};
ghost use Rattle.match_journal.specs.Classes.{Keeps};
ghost use Rattle.match_journal.specs.Opening.{IsOpened, Looks, LooksAny, IsStartFault};
ghost use Rattle.match_journal.specs.Walking.{Walks};
ghost use Rattle.match_journal.specs.declared.limits.TheConstants.{MOST_LIMIT, MOST_TEXT};
ghost use Rattle.match_journal.specs.declared.standing.Standing.{Standing};
ghost use Rattle.match_journal.specs.declared.entry.Entry.{Entry};
ghost use Rattle.match_journal.specs.declared.faults.StartFault.{StartFault};
ghost use Rattle.match_journal.specs.declared.faults.StartFault.TheVariants as start;
ghost use Rattle.match_journal.specs.declared.faults.WalkFault.{WalkFault};
ghost use Rattle.match_journal.specs.declared.faults.WalkFault.TheVariants as walk;

/// Within the greatest limit an image keeps one list of records, and no other; and of one last text it has one header.
pub fn an_image_keeps_one_list()
    ensures list { (a b : Header) (image : List ℕ) (limit : ℕ) (first second : List Record) → limit ≤ MOST_LIMIT → Keeps a limit first image
        → Keeps b limit second image → first ≡ second }
    ensures header { (a b : Header) (image text : List ℕ) (limit : ℕ) (first second : List Record) → limit ≤ MOST_LIMIT → HasLastText a first text
        → HasLastText b second text
        → Keeps a limit first image → Keeps b limit second image → a ≡ b }
{}

/// A journal with no bad head is opened with its last text alone.
pub fn a_journal_has_one_last_text()
    ensures { (head : Header) (image : List ℕ) (limit : ℕ) (records : List Record) (text : PlacedText) → IsOpened head limit text image
        → IsJournal head limit records image → (last_text head records ≡ text) × HasTextIn (last_amendment head records) }
{}

/// One answer of an opening fits an image, besides a fault of the store. So each comes exactly where it fits.
pub fn an_image_has_one_answer()
    ensures look { (product image : List ℕ) (limit : ℕ) (first second : Result (Option Standing) StartFault) → Looks product limit image first
        → Looks product limit image second
        → (first ≡ Err start.Store → ⊥) → (second ≡ Err start.Store → ⊥) → first ≡ second }
    ensures look_any { (image : List ℕ) (limit : ℕ) (first second : Result (Option Standing) StartFault) → LooksAny limit image first
        → LooksAny limit image second
        → (first ≡ Err start.Store → ⊥) → (second ≡ Err start.Store → ⊥) → first ≡ second }
{}

/// An image that keeps some records of a product, or none, is never refused.
pub fn a_kept_image_is_not_refused()
    ensures { (head : Header) (image text : List ℕ) (limit : ℕ) (records : List Record) (fault : StartFault) → length head.text ≤ MOST_TEXT
        → HasLastText head records text → Keeps head limit records image → IsStartFault text limit image fault
        → (fault ≡ start.Store → ⊥) → ⊥ }
{}

/// One answer of a walk fits a gate, besides a fault of the store. So each comes exactly where it fits.
pub fn a_gate_has_one_answer()
    ensures { (image : List ℕ) (limit gate : ℕ) (first second : Result (Option Entry) WalkFault) → Walks image limit gate first → Walks image limit gate second
        → (first ≡ Err walk.Store → ⊥) → (second ≡ Err walk.Store → ⊥) → first ≡ second }
{}

/// Were the first gate written together with what stands after it, over an image of one closed gate: not each image that a
/// crash then leaves is one that a journal opens. So a creation takes a write and a sync for the gate alone.
pub fn the_first_gate_is_written_alone()
    ensures { (head : Header) (limit n : ℕ) → 2 ≤ n → ((left : List ℕ) → Torn 0 n (0 ∷ []) left → Keeps head limit [] left) → ⊥ }
{}
