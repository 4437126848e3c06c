//! What follows from the definitions alone: each law is the contract of a function without parameters.

ghost use Rattle.std.specs.Prelude.{◌≡◌, ℕ, Bool, List, drop, take};
ghost use Rattle.gitwire.specs.Answers.{what_number};
ghost use Rattle.gitwire.specs.Greetings.{Greeting, IsGreeting, ReadsGreeting, Shows, WritesGreeting, asking};
ghost use Rattle.gitwire.specs.Offers.{offer_meant};
ghost use Rattle.gitwire.specs.WrittenForC.{Advertises, IsDetermined, MeansAck, MeansBand, MeansBoundary, MeansError, MeansInfo};
ghost use Rattle.gitwire.specs.WrittenForC.{MeansLine, MeansPacket, MeansReference, MeansWanted};
ghost use Rattle.gitwire.specs.declared.answer.GitwireAnswer.{GitwireAnswer};
ghost use Rattle.gitwire.specs.declared.answer.What.TheVariants.{Done};
ghost use Rattle.gitwire.specs.declared.greetings.GitwireGreeting.{GitwireGreeting};

/// The values that C passes and the buffer determine what a writer reports and what it leaves in the buffer.
pub fn writers_have_one_result()
    ensures packet { (kind : ℕ) (payload : List ℕ) → IsDetermined (MeansPacket kind payload) }
    ensures band { (band : ℕ) (bytes : List ℕ) → IsDetermined (MeansBand band bytes) }
    ensures line { (text : List ℕ) → IsDetermined (MeansLine text) }
    ensures error { (message : List ℕ) → IsDetermined (MeansError message) }
    ensures reference { (format : ℕ) (id name target peeled : List ℕ) → IsDetermined (MeansReference format id name target peeled) }
    ensures ack { (format : ℕ) (id : List ℕ) → IsDetermined (MeansAck format id) }
    ensures boundary { (format : ℕ) (shallow : Bool) (id : List ℕ) → IsDetermined (MeansBoundary format shallow id) }
    ensures wanted { (format : ℕ) (id name : List ℕ) → IsDetermined (MeansWanted format id name) }
    ensures info { (format : ℕ) (id : List ℕ) (has_size : Bool) (size : ℕ) → IsDetermined (MeansInfo format id has_size size) }
    ensures advertisement { (format features : ℕ) (name buffer : List ℕ) (answer other : GitwireAnswer) (filled others : List ℕ)
        → Advertises (offer_meant format features) name buffer answer filled → Advertises (offer_meant format features) name buffer other others
        → (answer ≡ other) × (filled ≡ others) }
{}

/// A payload is one greeting at most; and a greeting that was written is read back: its path, its host, and that it asks for version 2.
pub fn greetings_are_read_back()
    ensures once { (g h : Greeting) (bytes : List ℕ) → IsGreeting g bytes → IsGreeting h bytes → g ≡ h }
    ensures read { (path host buffer filled : List ℕ) (written : GitwireAnswer) (shown : GitwireGreeting)
        → WritesGreeting path host buffer written filled → written.kind ≡ what_number Done
        → ReadsGreeting (drop 4 (take written.length filled)) shown → Shows (drop 4 (take written.length filled)) (asking path host) shown }
{}
