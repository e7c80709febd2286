//! The value of one tag.
ghost use Rattle.std.specs.Prelude.{◌≡◌, option_map, IsTrue};
ghost use Rattle.std.specs.List.{list_all};
ghost use Rattle.fix_request.specs.Fields.{texts_of, has_tag, fields_of, value_of};

use gx_base::{SOH, read_digits, split_at_byte};

/// The value of the first field with this tag, in a body each of whose fields has a tag. It goes over the body: `read_request` reads all
/// values in one pass.
pub fn first_value(body: &[u8], tag: u32) -> Option<&[u8]>
    requires { IsTrue (list_all has_tag (texts_of body.now)) }
    ensures { option_map (λ value. value.now) result ≡ value_of tag (fields_of body.now) }
{
    let mut rest = body;
    while !rest.is_empty() {
        let (text, behind) = split_at_byte(rest, SOH);
        let (digits, value) = split_at_byte(text, b'=');
        if read_digits(digits) == tag {
            return Some(value);
        }
        rest = behind;
    }
    None
}
