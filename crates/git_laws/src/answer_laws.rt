//! Laws about what a client receives when a server answers.

ghost use Rattle.std.specs.Prelude.{ℕ, ◌≡◌, ◌∷◌, ◌++◌, [], All, List};
ghost use Rattle.git_names.specs.declared.object_format.Format.{Format};
ghost use Rattle.git_pkt.specs.Packets.{Pkt};
ghost use Rattle.git_pkt.specs.Splits.{Given};
ghost use Rattle.git_msg.specs.Advertisement.{noted_offer};
ghost use Rattle.git_msg.specs.Agents.{own_agent};
ghost use Rattle.git_msg.specs.Asked.{Asked, HasValues};
ghost use Rattle.git_msg.specs.declared.offers.Caps.{Caps};
ghost use Rattle.git_msg.specs.declared.offers.Offer.{Offer};
ghost use Rattle.git_client.specs.Machine.Client.{AreWhole};
ghost use Rattle.git_client.specs.Conversation.{GiveAll, HasNoted};
ghost use Rattle.git_client.specs.Events.{ended};
ghost use Rattle.git_client.specs.Parts.{Terms, nearest};
ghost use Rattle.git_client.specs.declared.events.Ending.TheVariants.{FlushOnly};
ghost use Rattle.git_server.specs.Answers.{IsAnswer, advertisement_of, spelled};
ghost use Rattle.git_server.specs.Machine.ListRepo.{lists_of, state_of};
ghost use Rattle.git_server.specs.Repository.{Repository, IsSound};
ghost use Rattle.git_server.specs.Sessions.{AreAnswers};
ghost use Rattle.git_server.specs.declared.list_repo.ListRepo.{ListRepo};
ghost use Rattle.git_repository.specs.Packs.{PackBytes};
ghost use Rattle.git_repository.specs.RepositoryText.{IsRepositoryText};
ghost use Rattle.git_laws.specs.AnnouncedAnswers.{AsksIn, CanBeWritten, end_packets, packets_of, announced_all, announced_by, announced_offer};

/// A client receives the advertisement of any offer as it was meant, whatever is asked later. Then the first answer may follow. The
/// capabilities that a client notes in bytes that begin with the advertisement are exactly that offer, but for the agent's name.
pub fn received_offer()
    ensures arrived { (t : Terms) (asked : List Asked) (offer : Offer) (gs : List Given) → offer.format ≡ t.format
        → packets_of gs ≡ advertisement_of offer → GiveAll t asked [] gs (announced_offer offer) }
    ensures whole { (t : Terms) (offer : Offer) (gs : List Given) → offer.format ≡ t.format
        → packets_of gs ≡ advertisement_of offer → AreWhole t [] (nearest gs []) }
    ensures noted { (t : Terms) (asked : List Asked) (offer : Offer) (more : List ℕ) (caps : Caps) → offer.format ≡ t.format
        → HasNoted t asked (spelled (advertisement_of offer) ++ more) caps → noted_offer caps t.format ≡ record offer { agent = own_agent } }
{}

/// A client receives a whole answer as it was meant: after the advertisement and the answers to the earlier requests, none of its packets is
/// refused, and they give exactly the events of the repository's answer, however the pack is cut. Then the next answer may follow.
pub fn received_answer()
    ensures arrived { (t : Terms) (repo : Repository) (earlier later : List Asked) (q : Asked) (before packets : List Pkt) (gs : List Given)
        → IsSound repo → CanBeWritten repo → repo.format ≡ t.format → AsksIn t.format q → IsAnswer repo q packets
        → AreWhole t earlier before → packets_of gs ≡ packets ++ end_packets t.ending
        → GiveAll t (earlier ++ q ∷ later) before gs (announced_by repo q ++ ended ∷ []) }
    ensures whole { (t : Terms) (repo : Repository) (earlier : List Asked) (q : Asked) (before packets : List Pkt) (gs : List Given)
        → IsSound repo → CanBeWritten repo → repo.format ≡ t.format → AsksIn t.format q → IsAnswer repo q packets
        → AreWhole t earlier before → packets_of gs ≡ packets ++ end_packets t.ending
        → AreWhole t (earlier ++ q ∷ []) (nearest gs before) }
{}

/// A client receives the answers of a session as they were meant: all answers that a server sent, one after the other, give exactly the
/// events of the repository's answers to the requests, and then the conversation is complete.
pub fn received_answers()
    ensures arrived { (t : Terms) (repo : Repository) (earlier later asked : List Asked) (before packets : List Pkt) (gs : List Given)
        → IsSound repo → CanBeWritten repo → repo.format ≡ t.format → All (AsksIn t.format) asked → AreAnswers repo asked packets
        → AreWhole t earlier before → t.ending ≡ FlushOnly → packets_of gs ≡ packets
        → GiveAll t (earlier ++ (asked ++ later)) before gs (announced_all repo asked) }
    ensures whole { (t : Terms) (repo : Repository) (earlier asked : List Asked) (before packets : List Pkt) (gs : List Given)
        → IsSound repo → CanBeWritten repo → repo.format ≡ t.format → All (AsksIn t.format) asked → AreAnswers repo asked packets
        → AreWhole t earlier before → t.ending ≡ FlushOnly → packets_of gs ≡ packets
        → AreWhole t (earlier ++ asked) (nearest gs before) }
{}

/// If the values of a request are allowed in a request of its format, then it can be answered in that format.
pub fn values_are_asked_in_their_format()
    ensures { (format : Format) (q : Asked) → HasValues format q → AsksIn format q }
{}

/// The answers of a repository that was read from a text can be written: so a client receives them.
pub fn read_repository_can_be_written()
    ensures { (repo : ListRepo) (text : List ℕ) (packs : PackBytes) → IsRepositoryText text packs (lists_of repo) → CanBeWritten (state_of repo).answers }
{}
