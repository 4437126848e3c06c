//! Side bands: how bytes are put into packets of a band, which payloads have none, and which bytes pass.

ghost use Rattle.std.specs.Prelude.{◌≡◌, ◌≢◌, ◌++◌, ◌∷◌, [], codes};
ghost use Rattle.git_pkt.specs.Bands.{AreBands, IsNoBand};
ghost use Rattle.git_pkt.specs.Packets.{flush, payload};
ghost use Rattle.git_pkt.specs.Passed.{on, others, passed_by, passed_by_rest};
ghost use Rattle.git_pkt.specs.declared.band.Band.TheVariants.{Pack, Progress};
ghost use Rattle.git_pkt.specs.declared.fault.Kind.TheVariants.{BadBand, NoBand};
ghost use Rattle.git_rows.specs.Worked.{at};

/// Bytes of a pack in one packet and in two.
pub fn bytes_on_a_band()
    ensures in_one_packet { AreBands Pack (codes "AB") (payload (1 ∷ codes "AB") ∷ []) }
    ensures in_two_packets { AreBands Pack (codes "AB") (payload (1 ∷ codes "A") ∷ payload (1 ∷ codes "B") ∷ []) }
    ensures nothing { AreBands Pack [] [] }
    ensures not_in_an_empty_packet { ¬ AreBands Pack [] (payload (1 ∷ []) ∷ []) }
    ensures not_on_another_band { ¬ AreBands Progress (codes "A") (payload (1 ∷ codes "A") ∷ []) }
    ensures not_a_part_alone { ¬ AreBands Pack (codes "AB") [] }
    ensures not_in_a_flush { ¬ AreBands Pack (codes "A") (flush ∷ []) }
{}

/// Payloads without a band.
pub fn bands_refused()
    ensures nothing { IsNoBand [] NoBand }
    ensures fourth { IsNoBand (4 ∷ codes "A") BadBand }
    ensures zero { IsNoBand (0 ∷ []) BadBand }
    ensures not_by_the_other_name { ¬ IsNoBand [] BadBand }
    ensures not_the_third { ¬ IsNoBand (3 ∷ []) BadBand }
{}

/// The bytes that pass of packets, whole and open.
pub fn bytes_that_pass()
    ensures pack { passed_by (payload (1 ∷ codes "AB")) ≡ on Pack 65 ∷ on Pack 66 ∷ [] }
    ensures begun { passed_by_rest (codes "0007" ++ 2 ∷ codes "A") ≡ on Progress 65 ∷ [] }
    ensures fatal_gathered { passed_by (payload (3 ∷ codes "A")) ≡ [] }
    ensures gathered { others (at 0 (payload (1 ∷ codes "A")) ∷ at 6 (payload (3 ∷ codes "x")) ∷ at 12 flush ∷ [])
        ≡ at 6 (payload (3 ∷ codes "x")) ∷ at 12 flush ∷ [] }
    ensures not_the_band_itself { passed_by (payload (1 ∷ codes "A")) ≢ on Pack 1 ∷ on Pack 65 ∷ [] }
    ensures not_before_its_band { passed_by_rest (codes "0007") ≢ on Pack 55 ∷ [] }
{}
