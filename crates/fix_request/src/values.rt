//! The values of the tags that rules name.
ghost use Rattle.std.specs.Prelude.{◌≡◌, ℕ, ◌<◌, ◌≤◌, [], length, IfOk};
ghost use Rattle.std.specs.List.{list_all, after_first};
ghost use Rattle.fix_request.specs.Fields.{is_soh, texts_of, has_tag};
ghost use Rattle.fix_request.specs.Inner.Values.{values_of};
ghost use Rattle.fix_request.specs.Inner.Rules.{result_map};
ghost use Rattle.fix_request.specs.Inner.Requests.{checked_values, well_formed_values};
ghost use Rattle.fix_request.specs.Inner.Noting.{noted, empty_fault, field_noted};
ghost use Rattle.fix_request.specs.Inner.Views.{values_view, text_in, texts_of_places};
ghost use Rattle.fix_request.specs.Inner.Slots.{slot_of, places_view, IsPlainAt};

use crate::fault::Fault;
use crate::fields::read_field;
use crate::slots::{PLACES, slot_of, slot_of_digits};
use gx_base::{SOH, soh_marks, split_at_byte};

/// The values of the tags that rules name, each that of the first field with its tag, and empty where there is none: no field
/// of a message that is read on has an empty value.
#[derive(Clone, Copy, Debug)]
pub struct Values<'a> {
    /// Each at the place of its tag.
    texts: [&'a [u8]; PLACES],
}

impl<'a> Values<'a> {
    /// 35.
    #[tactic(auto, using(crate::proofs::Places::at_place))]
    #[inline(always)]
    pub fn message_type(&self) -> &'a [u8]
        ensures { result.now ≡ text_in self.now 1 }
    {
        self.texts[1]
    }

    /// 49.
    #[tactic(auto, using(crate::proofs::Places::at_place))]
    #[inline(always)]
    pub fn sender(&self) -> &'a [u8]
        ensures { result.now ≡ text_in self.now 2 }
    {
        self.texts[2]
    }

    /// 56.
    #[tactic(auto, using(crate::proofs::Places::at_place))]
    #[inline(always)]
    pub fn target(&self) -> &'a [u8]
        ensures { result.now ≡ text_in self.now 3 }
    {
        self.texts[3]
    }

    /// 34.
    #[tactic(auto, using(crate::proofs::Places::at_place))]
    #[inline(always)]
    pub fn sequence(&self) -> &'a [u8]
        ensures { result.now ≡ text_in self.now 4 }
    {
        self.texts[4]
    }

    /// 52.
    #[tactic(auto, using(crate::proofs::Places::at_place))]
    #[inline(always)]
    pub fn time(&self) -> &'a [u8]
        ensures { result.now ≡ text_in self.now 5 }
    {
        self.texts[5]
    }

    /// 11.
    #[tactic(auto, using(crate::proofs::Places::at_place))]
    #[inline(always)]
    pub fn id(&self) -> &'a [u8]
        ensures { result.now ≡ text_in self.now 6 }
    {
        self.texts[6]
    }

    /// 41.
    #[tactic(auto, using(crate::proofs::Places::at_place))]
    #[inline(always)]
    pub fn old(&self) -> &'a [u8]
        ensures { result.now ≡ text_in self.now 7 }
    {
        self.texts[7]
    }

    /// 55.
    #[tactic(auto, using(crate::proofs::Places::at_place))]
    #[inline(always)]
    pub fn symbol(&self) -> &'a [u8]
        ensures { result.now ≡ text_in self.now 8 }
    {
        self.texts[8]
    }

    /// 107.
    #[tactic(auto, using(crate::proofs::Places::at_place))]
    #[inline(always)]
    pub fn description(&self) -> &'a [u8]
        ensures { result.now ≡ text_in self.now 9 }
    {
        self.texts[9]
    }

    /// 54.
    #[tactic(auto, using(crate::proofs::Places::at_place))]
    #[inline(always)]
    pub fn side(&self) -> &'a [u8]
        ensures { result.now ≡ text_in self.now 10 }
    {
        self.texts[10]
    }

    /// 38.
    #[tactic(auto, using(crate::proofs::Places::at_place))]
    #[inline(always)]
    pub fn quantity(&self) -> &'a [u8]
        ensures { result.now ≡ text_in self.now 11 }
    {
        self.texts[11]
    }

    /// 40.
    #[tactic(auto, using(crate::proofs::Places::at_place))]
    #[inline(always)]
    pub fn kind(&self) -> &'a [u8]
        ensures { result.now ≡ text_in self.now 12 }
    {
        self.texts[12]
    }

    /// 44.
    #[tactic(auto, using(crate::proofs::Places::at_place))]
    #[inline(always)]
    pub fn price(&self) -> &'a [u8]
        ensures { result.now ≡ text_in self.now 13 }
    {
        self.texts[13]
    }

    /// 99.
    #[tactic(auto, using(crate::proofs::Places::at_place))]
    #[inline(always)]
    pub fn trigger(&self) -> &'a [u8]
        ensures { result.now ≡ text_in self.now 14 }
    {
        self.texts[14]
    }

    /// 59.
    #[tactic(auto, using(crate::proofs::Places::at_place))]
    #[inline(always)]
    pub fn life(&self) -> &'a [u8]
        ensures { result.now ≡ text_in self.now 15 }
    {
        self.texts[15]
    }

    /// 110.
    #[tactic(auto, using(crate::proofs::Places::at_place))]
    #[inline(always)]
    pub fn min(&self) -> &'a [u8]
        ensures { result.now ≡ text_in self.now 16 }
    {
        self.texts[16]
    }

    /// 210.
    #[tactic(auto, using(crate::proofs::Places::at_place))]
    #[inline(always)]
    pub fn show(&self) -> &'a [u8]
        ensures { result.now ≡ text_in self.now 17 }
    {
        self.texts[17]
    }

    /// 340.
    #[tactic(auto, using(crate::proofs::Places::at_place))]
    #[inline(always)]
    pub fn status(&self) -> &'a [u8]
        ensures { result.now ≡ text_in self.now 18 }
    {
        self.texts[18]
    }
}

/// Notes the values of a body, where none is noted yet, in one pass. An `Err` is the first of these faults: the body does
/// not begin with `35=`; a field has no tag; a field has an empty value.
#[inline(never)] // Else each value is kept in two or three places of the stack.
pub fn read_values<'a>(body: &'a [u8], values: &mut Values<'a>) -> Result<(), Fault>
    requires { values_view values.now ≡ values_of [] }
    ensures { result_map (λ _. values_view values.exit.now) result ≡ checked_values body.now }
{
    if !body.starts_with(b"35=") {
        return Err(Fault::message_type(1));
    }
    read_fields(body, values)
}

/// Notes the values of some fields, each ended by SOH, where none is noted yet. An `Err` is the first of the faults in their
/// form.
#[inline]
fn read_fields<'a>(bytes: &'a [u8], values: &mut Values<'a>) -> Result<(), Fault>
    requires { values_view values.now ≡ values_of [] }
    ensures { result_map (λ _. values_view values.exit.now) result ≡ well_formed_values bytes.now }
{
    note_fields(bytes, &mut values.texts)
}

/// Notes the texts of some fields at their places. A field ends at a SOH, and one mask tells where 64 bytes have any: what is not
/// plain goes the long way, which finds its own SOH.
#[inline]
fn note_fields<'a>(bytes: &'a [u8], texts: &mut [&'a [u8]; PLACES]) -> Result<(), Fault>
    requires { places_view (texts_of_places texts.now) ≡ values_of [] }
    ensures { result_map (λ _. places_view (texts_of_places texts.exit.now)) result ≡ well_formed_values bytes.now }
{
    let mut start = 0;
    'fields: while start < bytes.len() {
        let first = start;
        // Those from `start` on. While any are left, so are bytes: only when they are used up need that be tested.
        let mut marks = soh_marks(bytes, start);
        'marked: while marks != 0 {
            let count = marks.trailing_zeros() as usize;
            let text = &bytes[start..start + count];
            let Some(slot) = plain_slot(text) else {
                break 'marked;
            };
            note_at(texts, slot, &text[3..]);
            marks = marks >> count >> 1;
            start += count + 1;
        }
        if start == first {
            let rest = read_other_field(&bytes[start..], texts)?;
            start = bytes.len() - rest.len();
        }
    }
    Ok(())
}

/// The place of a field that has a tag of two digits and a value. `None` for any other text.
#[inline(always)]
fn plain_slot(text: &[u8]) -> Option<usize>
    ensures { IsPlainAt text.now result }
{
    if text.len() < 4 || text[2] != b'=' {
        return None;
    }
    slot_of_digits(text[0], text[1])
}

/// Notes the value of the first field of some bytes, and answers what comes after it. An `Err` is the first of the faults in the
/// form of these bytes, where this field is one that has any.
#[cold]
#[inline(never)]
fn read_other_field<'a>(bytes: &'a [u8], texts: &mut [&'a [u8]; PLACES]) -> Result<&'a [u8], Fault>
    ensures noted { result_map (λ rest. (rest.now, places_view (texts_of_places texts.exit.now))) result ≡ field_noted (places_view (texts_of_places texts.entry.now)) bytes.now }
    ensures rest { IfOk result (λ rest. rest.now ≡ after_first is_soh bytes.now) }
{
    let (text, behind) = split_at_byte(bytes, SOH);
    let Some(field) = read_field(text) else {
        return Err(Fault::bad_tag());
    };
    if field.value.is_empty() {
        return Err(fault_of_empty(field.tag, behind));
    }
    note(texts, field.tag, field.value);
    Ok(behind)
}

/// The fault of fields of which the one with this tag is the first without a value, and is followed by these: one of them may
/// have no tag, which comes first.
#[cold]
fn fault_of_empty(tag: u32, behind: &[u8]) -> Fault
    ensures { result ≡ empty_fault tag behind.now }
{
    if have_tags(behind) {
        Fault::no_value(tag)
    } else {
        Fault::bad_tag()
    }
}

/// Whether each of some fields has a tag.
fn have_tags(bytes: &[u8]) -> bool
    ensures { result ≡ list_all has_tag (texts_of bytes.now) }
{
    let mut rest = bytes;
    while !rest.is_empty() {
        let (text, behind) = split_at_byte(rest, SOH);
        if read_field(text).is_none() {
            return false;
        }
        rest = behind;
    }
    true
}

/// No value yet.
#[tactic(auto, unfolding(crate::specs::Inner::Values::values_of))]
#[inline]
pub fn no_values<'a>() -> Values<'a>
    ensures { values_view result ≡ values_of [] }
{
    Values {
        texts: [&[]; PLACES],
    }
}

/// Notes the value of one more field, unless an earlier one has its tag, or no rule names it.
fn note<'a>(texts: &mut [&'a [u8]; PLACES], tag: u32, value: &'a [u8])
    requires { 1 ≤ length value.now }
    ensures { places_view (texts_of_places texts.exit.now) ≡ noted (places_view (texts_of_places texts.entry.now)) (record { tag = tag; value = value.entry.now }) }
{
    note_at(texts, slot_of(tag), value);
}

/// Notes a text at a place, unless one is noted there already.
#[inline(always)]
fn note_at<'a>(texts: &mut [&'a [u8]; PLACES], slot: usize, value: &'a [u8])
    requires { (slot < PLACES) × (1 ≤ length value.now) }
    ensures { (tag : ℕ) → slot ≡ slot_of tag → places_view (texts_of_places texts.exit.now) ≡ noted (places_view (texts_of_places texts.entry.now)) (record { tag = tag; value = value.entry.now }) }
{
    if texts[slot].is_empty() {
        texts[slot] = value;
    }
}
