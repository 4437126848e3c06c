//! The one buffer of each end.

ghost use Rattle.std.specs.Prelude.{◌≡◌, ◌+◌, ◌*◌, ◌≤◌, ◌++◌, length, take, drop};
ghost use Rattle.arrayvec.specs.ArrayVec.{array_vec_len};
ghost use Rattle.git_names.specs.Steps.{TakesAtMost};

use arrayvec::ArrayVec;
use git_names::Steps;

/// How many bytes the longest packet has, its four digits among them.
pub const LONGEST_PACKET: usize = 65_520;

/// A buffer for one packet. It is stored inside its owner and never allocates. Making or moving one moves 64 KiB, so keep it
/// where it is and lend it.
pub type Hold = ArrayVec<u8, LONGEST_PACKET>;

/// Appends bytes, which have to fit.
pub fn append(hold: &mut Hold, bytes: &[u8])
    requires { array_vec_len hold.old + length bytes.now ≤ 65520 }
    ensures appended { hold.new.items ≡ hold.old.items ++ bytes.now }
{
    let _ = hold.try_extend_from_slice(bytes);
}

/// Writes bytes at an index of the hold, over those that are there. The hold grows if they end after it; it is never emptied
/// first, since that would fill it with zeros. Each byte counts twice: once for its copy, and once for being cut off later.
pub(crate) fn place(hold: &mut Hold, at: usize, bytes: &[u8], steps: &mut Steps)
    requires within { at ≤ array_vec_len hold.old }
    requires fits { at + length bytes.now ≤ 65520 }
    ensures placed { take (at + length bytes.now) hold.new.items ≡ take at hold.old.items ++ bytes.now }
    ensures long { at + length bytes.now ≤ array_vec_len hold.new }
    ensures cost { TakesAtMost (2 * (length bytes.now + 1)) steps.old steps.new }
{
    steps.tick(2 * (bytes.len() + 1));
    let over = bytes.len().min(hold.len() - at);
    put_at(hold.as_mut_slice(), at, &bytes[..over]);
    if over < bytes.len() {
        append(hold, &bytes[over..]);
    }
}

/// Writes bytes at an index of a slice, over those that are there, and returns where they end.
pub fn put_at(slice: &mut [u8], at: usize, bytes: &[u8]) -> usize
    requires { at + length bytes.now ≤ length slice.old }
    ensures end { result ≡ at + length bytes.now }
    ensures put { take result slice.new ≡ take at slice.old ++ bytes.now }
    ensures placed { slice.new ≡ take at slice.old ++ bytes.now ++ drop (at + length bytes.now) slice.old }
{
    let end = at + bytes.len();
    slice[at..end].copy_from_slice(bytes);
    end
}
