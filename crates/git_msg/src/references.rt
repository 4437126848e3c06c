//! Reference lines, as in the answers to ls-refs: gitprotocol-v2(5).
ghost use Rattle.std.specs.Prelude.{◌≡◌, ◌+◌, ◌<◌, ◌≤◌, [], ◌∷◌, ◌++◌, length};
ghost use Rattle.std.specs.Option.{option_copied};
ghost use Rattle.arrayvec.specs.ArrayVec.{array_vec_len};
ghost use Rattle.git_names.specs.ObjectFormat.{digits_of};
ghost use Rattle.git_names.specs.ObjectName.{ObjectName, IsObjectName, hex_of};
ghost use Rattle.git_pkt.specs.Packets.{longest_payload, payload, spelling_of};
ghost use Rattle.git_names.specs.declared.object_format.Format.{Format};
ghost use Rattle.git_msg.specs.References.{HasFormat, IsReferenceLine, IsWritable, id_length, id_text, peeled_count, peeled_text, reference_of};
ghost use Rattle.git_msg.specs.References.{reference_text, shown_reference, target_text};

use git_names::Oid;
use git_pkt::{Hold, append, begin};

/// A reference with borrowed texts.
#[derive(Clone, Copy, Debug)]
pub struct Reference<'a> {
    /// The object that it points to; none if it is unborn, as `HEAD` is while its branch has no commit.
    pub id: Option<Oid>,
    /// Its name.
    pub name: &'a [u8],
    /// For a symbolic reference, the name of the reference that it points to, if given.
    pub target: Option<&'a [u8]>,
    /// For an annotated tag, the object that it peels to, if given.
    pub peeled: Option<Oid>,
}

/// Makes the hold the packet of the reference's line, with an LF at its end. [`git_names::RefName::read`] has to accept the
/// name and the target, and the object and a peeled object have to be of one format.
pub fn put_reference(hold: &mut Hold, reference: Reference<'_>)
    requires { IsWritable (shown_reference reference) }
    ensures written { hold.new.items ≡ spelling_of (payload (reference_text (shown_reference reference.entry) ++ 10 ∷ [])) }
    ensures reads_back { (format : Format) → HasFormat format (shown_reference reference.entry)
        → IsReferenceLine format (reference_text (shown_reference reference.entry)) (shown_reference reference.entry) }
    ensures fits { length (reference_text (shown_reference reference.entry)) < longest_payload }
{
    let Reference {
        id,
        name,
        target,
        peeled,
    } = reference;
    put_parts(hold, &id, name, target, &peeled);
}

fn put_parts(
    hold: &mut Hold,
    id: &Option<Oid>,
    name: &[u8],
    target: Option<&[u8]>,
    peeled: &Option<Oid>,
)
    requires { IsWritable (reference_of id.now name.now (option_copied target) peeled.now) }
    ensures written { hold.new.items ≡ spelling_of (payload (
        reference_text (reference_of id.now name.now (option_copied target.entry) peeled.now) ++ 10 ∷ [])) }
    ensures reads_back { (format : Format) → HasFormat format (reference_of id.now name.now (option_copied target.entry) peeled.now)
        → IsReferenceLine format (reference_text (reference_of id.now name.now (option_copied target.entry) peeled.now))
        (reference_of id.now name.now (option_copied target.entry) peeled.now) }
    ensures fits { length (reference_text (reference_of id.now name.now (option_copied target.entry) peeled.now)) < longest_payload }
{
    let length = id_text_length(id) + 1 + name.len();
    begin(
        hold,
        length + target_length(target) + peeled_length(peeled) + 1,
    );
    append_id_text(hold, id);
    append(hold, b" ");
    append(hold, name);
    append_target(hold, target);
    append_peeled(hold, peeled);
    append(hold, b"\n");
}

/// The length of the word for the object at the head of a line.
pub(crate) fn id_text_length(id: &Option<Oid>) -> usize
    ensures { result ≡ id_length id.now }
{
    match id {
        Some(id) => id.format().digits(),
        None => 6,
    }
}

/// Appends the word for the object at the head of a line: its digits, or `unborn`.
fn append_id_text(hold: &mut Hold, id: &Option<Oid>)
    requires { array_vec_len hold.old + id_length id.now ≤ 65520 }
    ensures appended { hold.new.items ≡ hold.old.items ++ id_text id.now }
    ensures count { length (id_text id.now) ≡ id_length id.now }
    ensures reads_back { (named : ObjectName) → id.now ≡ Some named → IsObjectName named.format (hex_of named) named }
{
    match id {
        Some(id) => append_id(hold, id),
        None => append(hold, b"unborn"),
    }
}

fn target_length(target: Option<&[u8]>) -> usize
    requires { length (target_text (option_copied target)) ≤ 65000 }
    ensures { result ≡ length (target_text (option_copied target.entry)) }
{
    match target {
        Some(name) => 15 + name.len(),
        None => 0,
    }
}

fn peeled_length(peeled: &Option<Oid>) -> usize
    ensures { result ≡ peeled_count peeled.now }
{
    match peeled {
        Some(id) => 8 + id.format().digits(),
        None => 0,
    }
}

fn append_target(hold: &mut Hold, target: Option<&[u8]>)
    requires { array_vec_len hold.old + length (target_text (option_copied target)) ≤ 65520 }
    ensures { hold.new.items ≡ hold.old.items ++ target_text (option_copied target.entry) }
{
    if let Some(name) = target {
        append(hold, b" symref-target:");
        append(hold, name);
    }
}

fn append_peeled(hold: &mut Hold, peeled: &Option<Oid>)
    requires { array_vec_len hold.old + peeled_count peeled.now ≤ 65520 }
    ensures appended { hold.new.items ≡ hold.old.items ++ peeled_text peeled.now }
    ensures count { length (peeled_text peeled.now) ≡ peeled_count peeled.now }
    ensures reads_back { (id : ObjectName) → peeled.now ≡ Some id → IsObjectName id.format (hex_of id) id }
{
    if let Some(id) = peeled {
        append(hold, b" peeled:");
        append_id(hold, id);
    }
}

/// Appends the digits of an object name.
pub(crate) fn append_id(hold: &mut Hold, id: &Oid)
    requires { array_vec_len hold.old + digits_of id.now.format ≤ 65520 }
    ensures appended { hold.new.items ≡ hold.old.items ++ hex_of id.now }
    ensures reads_back { IsObjectName id.now.format (hex_of id.now) id.now }
{
    append(hold, id.written(&mut [0; 64]));
}
