//! Lines: capabilities, the arguments of requests, and the lines of responses.

ghost use Rattle.std.specs.Prelude.{◌++◌, [], Some, None, codes};
ghost use Rattle.git_msg.specs.Advertisement.{nothing};
ghost use Rattle.git_msg.specs.Arguments.{IsArgumentFault, ReadsAs, alone, with_id, with_number, with_text};
ghost use Rattle.git_msg.specs.declared.words.ObjectWord.{ObjectWord};
ghost use Rattle.git_msg.specs.declared.words.TextWord.{TextWord};
ghost use Rattle.git_msg.specs.declared.words.NumberWord.{NumberWord};
ghost use Rattle.git_msg.specs.Capability.{IsCapability, IsNoCapability};
ghost use Rattle.git_msg.specs.declared.arguments.Command.TheVariants.{Fetch, LsRefs, ObjectInfo};
ghost use Rattle.git_msg.specs.declared.flags.Flag.TheVariants.{Done, Peel, Unborn};
ghost use Rattle.git_msg.specs.Numbers.{IsNumber};
ghost use Rattle.git_msg.specs.References.{IsReferenceFault, IsReferenceLine, reference_of};
ghost use Rattle.git_msg.specs.ResponseLines.{IsAckFault, IsAckLine, IsBoundaryFault, IsBoundaryLine, IsInfoFault, IsInfoLine};
ghost use Rattle.git_msg.specs.ResponseLines.{IsWantedFault, IsWantedLine, wanted_of};
ghost use Rattle.git_msg.specs.declared.Boundary.TheVariants.{Shallow, Unshallow};
ghost use Rattle.git_names.specs.declared.object_format.Format.TheVariants.{Sha1};
ghost use Rattle.git_pkt.specs.declared.fault.Kind.TheVariants.{BadLine, BadNumber, BadObjectName, BadRefName, NotAdvertised, UnknownArgument};
ghost use Rattle.git_rows.specs.Worked.{all_a, info_of, name_a, offer_all};

/// Capability lines, with a value, with an empty one and without, and texts that are none.
pub fn capability_lines()
    ensures with_value { IsCapability (codes "agent=git/2.43.0") (codes "agent") (Some (codes "git/2.43.0")) }
    ensures with_empty_value { IsCapability (codes "a=") (codes "a") (Some []) }
    ensures without_value { IsCapability (codes "x-later") (codes "x-later") None }
    ensures later_signs_in_the_value { IsCapability (codes "a=b=c") (codes "a") (Some (codes "b=c")) }
    ensures no_key { IsNoCapability (codes "=") }
    ensures space_in_the_key { IsNoCapability (codes "a b") }
    ensures line_end_in_the_value { IsNoCapability (codes "a=b\n") }
    ensures not_refused { ¬ IsNoCapability (codes "a=") }
    ensures not_without_its_value { ¬ IsCapability (codes "a=b") (codes "a") None }
    ensures not_the_longer_key { ¬ IsCapability (codes "a=b=c") (codes "a=b") (Some (codes "c")) }
{}

/// An argument of each kind.
pub fn arguments_of_each_kind()
    ensures flag { ReadsAs Fetch offer_all (codes "done") (alone Done) }
    ensures object { ReadsAs Fetch offer_all (codes "want " ++ all_a) (with_id ObjectWord.Want name_a) }
    ensures common { ReadsAs Fetch offer_all (codes "have " ++ all_a) (with_id ObjectWord.Have name_a) }
    ensures shallow_commit { ReadsAs Fetch offer_all (codes "shallow " ++ all_a) (with_id ObjectWord.Shallow name_a) }
    ensures depth { ReadsAs Fetch offer_all (codes "deepen 0002147483647") (with_number NumberWord.Deepen 2147483647) }
    ensures time { ReadsAs Fetch offer_all (codes "deepen-since 9223372036854775807") (with_number NumberWord.DeepenSince 9223372036854775807) }
    ensures revision { ReadsAs Fetch offer_all (codes "deepen-not x") (with_text TextWord.DeepenNot (codes "x")) }
    ensures reference { ReadsAs Fetch offer_all (codes "want-ref refs/heads/@") (with_text TextWord.WantRef (codes "refs/heads/@")) }
    ensures filter { ReadsAs Fetch offer_all (codes "filter blob:none") (with_text TextWord.Filter (codes "blob:none")) }
    ensures prefix { ReadsAs LsRefs offer_all (codes "ref-prefix refs/") (with_text TextWord.RefPrefix (codes "refs/")) }
    ensures empty_prefix { ReadsAs LsRefs offer_all (codes "ref-prefix ") (with_text TextWord.RefPrefix []) }
    ensures sized { ReadsAs ObjectInfo offer_all (codes "oid " ++ all_a) (with_id ObjectWord.ObjectId name_a) }
    ensures not_another_flag { ¬ ReadsAs LsRefs offer_all (codes "unborn") (alone Peel) }
    ensures not_of_another_command { ¬ ReadsAs LsRefs offer_all (codes "done") (alone Done) }
    ensures not_another_word { ¬ ReadsAs Fetch offer_all (codes "want " ++ all_a) (with_id ObjectWord.Have name_a) }
    ensures not_what_is_not_offered { ¬ ReadsAs LsRefs (nothing Sha1) (codes "unborn") (alone Unborn) }
{}

/// Arguments that are refused, each with its error.
pub fn arguments_refused()
    ensures of_another_command { IsArgumentFault LsRefs offer_all (codes "done") UnknownArgument }
    ensures without_a_space { IsArgumentFault Fetch offer_all (codes "deepen-not") UnknownArgument }
    ensures depth_of_zero { IsArgumentFault Fetch offer_all (codes "deepen 0") BadNumber }
    ensures depth_too_great { IsArgumentFault Fetch offer_all (codes "deepen 2147483648") BadNumber }
    ensures time_too_late { IsArgumentFault Fetch offer_all (codes "deepen-since 9223372036854775808") BadNumber }
    ensures no_digits { IsArgumentFault Fetch offer_all (codes "deepen ") BadNumber }
    ensures no_digit { IsArgumentFault Fetch offer_all (codes "deepen 1x") BadNumber }
    ensures empty_revision { IsArgumentFault Fetch offer_all (codes "deepen-not ") BadLine }
    ensures short_name { IsArgumentFault Fetch offer_all (codes "want aa") BadObjectName }
    ensures no_reference_name { IsArgumentFault Fetch offer_all (codes "want-ref main") BadRefName }
    ensures not_offered { IsArgumentFault LsRefs (nothing Sha1) (codes "unborn") NotAdvertised }
    ensures not_by_another_name { ¬ IsArgumentFault Fetch offer_all (codes "deepen 0") BadLine }
    ensures not_where_it_is_read { ¬ IsArgumentFault LsRefs offer_all (codes "unborn") NotAdvertised }
{}

/// Numbers in decimal digits.
pub fn decimal_numbers()
    ensures with_zeros { IsNumber (codes "0042") 42 }
    ensures not_without_digits { ¬ IsNumber [] 0 }
    ensures not_below_the_digits { ¬ IsNumber (codes "4/") 3 }
    ensures not_above_the_digits { ¬ IsNumber (codes "4:") 50 }
    ensures not_another_number { ¬ IsNumber (codes "42") 24 }
{}

/// Reference lines: bare, with each attribute, with one twice, unborn, and lines that are refused.
pub fn reference_lines()
    ensures bare { IsReferenceLine Sha1 (all_a ++ codes " refs/x") (reference_of (Some name_a) (codes "refs/x") None None) }
    ensures symbolic { IsReferenceLine Sha1 (all_a ++ codes " HEAD symref-target:refs/x")
        (reference_of (Some name_a) (codes "HEAD") (Some (codes "refs/x")) None) }
    ensures tag { IsReferenceLine Sha1 (all_a ++ codes " refs/x peeled:" ++ all_a) (reference_of (Some name_a) (codes "refs/x") None (Some name_a)) }
    ensures last_target { IsReferenceLine Sha1 (all_a ++ codes " HEAD symref-target:refs/x later symref-target:refs/y")
        (reference_of (Some name_a) (codes "HEAD") (Some (codes "refs/y")) None) }
    ensures unborn { IsReferenceLine Sha1 (codes "unborn HEAD symref-target:refs/x") (reference_of None (codes "HEAD") (Some (codes "refs/x")) None) }
    ensures one_word { IsReferenceFault Sha1 all_a BadLine }
    ensures no_object { IsReferenceFault Sha1 (codes "aa refs/x") BadObjectName }
    ensures no_name { IsReferenceFault Sha1 (all_a ++ codes " main") BadRefName }
    ensures no_target { IsReferenceFault Sha1 (all_a ++ codes " HEAD symref-target:main") BadRefName }
    ensures no_peeled_object { IsReferenceFault Sha1 (all_a ++ codes " refs/x peeled:aa") BadObjectName }
    ensures not_the_first_target { ¬ IsReferenceLine Sha1 (all_a ++ codes " HEAD symref-target:refs/x later symref-target:refs/y")
        (reference_of (Some name_a) (codes "HEAD") (Some (codes "refs/x")) None) }
    ensures not_without_its_target { ¬ IsReferenceLine Sha1 (all_a ++ codes " HEAD symref-target:refs/x")
        (reference_of (Some name_a) (codes "HEAD") None None) }
    ensures not_refused { ¬ IsReferenceFault Sha1 (all_a ++ codes " refs/x") BadObjectName }
{}

/// Acknowledgments and lines of the shallow boundary.
pub fn acknowledgments_and_boundaries()
    ensures ack { IsAckLine Sha1 (codes "ACK " ++ all_a) name_a }
    ensures shallow_line { IsBoundaryLine Sha1 (codes "shallow " ++ all_a) (Shallow name_a) }
    ensures unshallow_line { IsBoundaryLine Sha1 (codes "unshallow " ++ all_a) (Unshallow name_a) }
    ensures ack_of_nothing { IsAckFault Sha1 (codes "ACK ") BadObjectName }
    ensures no_ack { IsAckFault Sha1 (codes "NAK") BadLine }
    ensures no_boundary { IsBoundaryFault Sha1 (codes "NAK") BadLine }
    ensures boundary_of_nothing { IsBoundaryFault Sha1 (codes "unshallow ") BadObjectName }
    ensures not_the_other_line { ¬ IsBoundaryLine Sha1 (codes "unshallow " ++ all_a) (Shallow name_a) }
    ensures not_refused { ¬ IsAckFault Sha1 (codes "ACK " ++ all_a) BadObjectName }
    ensures not_by_another_name { ¬ IsBoundaryFault Sha1 (codes "shallow ") BadLine }
{}

/// Wanted references and sizes.
pub fn wanted_references_and_sizes()
    ensures wanted { IsWantedLine Sha1 (all_a ++ codes " refs/x") (wanted_of name_a (codes "refs/x")) }
    ensures sized { IsInfoLine Sha1 (all_a ++ codes " 12") (info_of name_a (Some 12)) }
    ensures without_size { IsInfoLine Sha1 (all_a ++ codes " ") (info_of name_a None) }
    ensures no_space { IsWantedFault Sha1 (codes "x") BadLine }
    ensures no_wanted_object { IsWantedFault Sha1 (codes "aa refs/x") BadObjectName }
    ensures no_wanted_name { IsWantedFault Sha1 (all_a ++ codes " main") BadRefName }
    ensures size_too_great { IsInfoFault Sha1 (all_a ++ codes " 18446744073709551616") BadNumber }
    ensures not_another_name { ¬ IsWantedLine Sha1 (all_a ++ codes " refs/x") (wanted_of name_a (codes "refs/y")) }
    ensures not_another_size { ¬ IsInfoLine Sha1 (all_a ++ codes " 12") (info_of name_a (Some 21)) }
    ensures not_without_a_space { ¬ IsInfoLine Sha1 all_a (info_of name_a None) }
    ensures not_refused { ¬ IsInfoFault Sha1 (all_a ++ codes " 12") BadNumber }
{}
