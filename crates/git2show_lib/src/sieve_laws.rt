//! What follows from the definition of what a client receives of a response.

ghost use Rattle.std.specs.Prelude.{◌≡◌, ◌≤◌, ℕ, List, length, map, false};
ghost use Rattle.git_names.specs.declared.object_format.Format.{Format};
ghost use Rattle.git_pkt.specs.Splits.{Given, SpellsAll};
ghost use Rattle.git_client.specs.Machine.Client.{spelled};
ghost use Rattle.git2show_lib.specs.Sieve.{ArePassed, sieved};
ghost use Rattle.git2show_lib.specs.declared.sieve.Form.{Form};
ghost use Rattle.git2show_lib.specs.declared.sieve.Spot.TheVariants.{Header};

/// Where a request asked neither for addresses of packs nor for all lines on bands, the client receives each packet as it is.
pub fn nothing_sieved()
    ensures same { (format : Format) (packets : List Given)
        → sieved (record { format = format; uris = false; on_bands = false }) packets ≡ map (λ g. g.packet) packets }
    ensures passed { (format : Format) (packets : List Given) → ArePassed (record { format = format; uris = false; on_bands = false }) Header packets }
{}

/// The client receives no more bytes than the packets of a response have.
pub fn nothing_added()
    ensures { (form : Form) (start : ℕ) (bytes : List ℕ) (packets : List Given) (rest : List ℕ) → SpellsAll start bytes packets rest
        → length (spelled (sieved form packets)) ≤ length bytes }
{}
