//! The names of what is reported, by their numbers.

ghost use Rattle.std.specs.Prelude.{◌≡◌};
ghost use Rattle.gitwire.specs.KindAnswers.{IsWhatOf, AnnouncesKind, what_name};

use crate::answer::{What, kinds};
use crate::buffers::put_bytes;
use git_client::EventKind;

/// Writes the name of a kind of what is reported, such as `NeedInput`, to the front of the buffer, and returns its length: 0 if no kind has
/// the number, or the buffer is too small.
#[unsafe(no_mangle)]
pub extern "C" fn gitwire_kind_name(kind: u32, buffer: &mut [u8]) -> usize
    ensures { AnnouncesKind kind buffer.old result buffer.new }
{
    let Some(what) = what_of(kind) else {
        return 0;
    };
    put_bytes(name_of(what).as_bytes(), buffer)
}

macro_rules! kind_of {
    ($from:expr; $($what:ident$(($event:ident))? = $number:literal $name:literal;)+) => {
        match $from {
            $($number => Some(What::$what$((EventKind::$event))?),)+
            _ => None,
        }
    };
}

macro_rules! name_of {
    ($from:expr; $($what:ident$(($event:ident))? = $number:literal $name:literal;)+) => {
        match $from {
            $(What::$what$((EventKind::$event))? => $name,)+
        }
    };
}

/// The kind with this number.
fn what_of(number: u32) -> Option<What>
    ensures { IsWhatOf number result }
{
    kinds!(kind_of, number)
}

fn name_of(what: What) -> &'static str
    ensures { result.now ≡ what_name what }
{
    kinds!(name_of, what)
}
