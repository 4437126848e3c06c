//! The digits of an object, as they are written: in lower case.

ghost use Rattle.std.specs.Prelude.{◌≡◌, IsTrue, MatchOption, length};
ghost use Rattle.std.specs.List.{AllPass};
ghost use Rattle.git_names.specs.Digits.{is_lower_digit};
ghost use Rattle.git_names.specs.ObjectFormat.{digits_of};
ghost use Rattle.git_names.specs.ObjectName.{IsNoObjectName};
ghost use Rattle.git_host.specs.WrittenDigits.{SpellsId};

use git_names::laws::object_name_has_one_written_form;
use git_names::{Format, Oid, Steps};

/// The digits of the object that the text names, in lower case; none if it is no object name of the format. They are the text itself, if it is
/// in lower case, and else they are written to `space`.
#[inline(always)]
pub(crate) fn written_digits<'a>(
    format: Format,
    text: &'a [u8],
    space: &'a mut [u8; 64],
) -> Option<&'a [u8]>
    ensures { MatchOption result (IsNoObjectName format text.entry.now) (λ digits. SpellsId format text.entry.now digits.now) }
{
    if are_written(format, text) {
        object_name_has_one_written_form();
        return Some(text);
    }
    match Oid::read(format, text, &mut Steps::new()) {
        Ok(id) => Some(id.written(space)),
        Err(_) => None,
    }
}

// Whether the text has as many digits as an object name of the format, all in lower case. Each step of the loop does the same, whatever it
// finds, so that the compiler can vectorize it.
fn are_written(format: Format, text: &[u8]) -> bool
    ensures count { IsTrue result → length text.now ≡ digits_of format }
    ensures lower { IsTrue result → AllPass is_lower_digit text.now }
{
    if text.len() != format.digits() {
        return false;
    }
    let mut has_other = false;
    for i in 0..text.len() {
        has_other |= !is_lower(text[i]);
    }
    !has_other
}

fn is_lower(byte: u8) -> bool
    ensures { result ≡ is_lower_digit byte }
{
    ((byte >= b'0') & (byte <= b'9')) | ((byte >= b'a') & (byte <= b'f'))
}
