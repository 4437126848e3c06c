//! A machine, as the loop that runs it sees it.
//!
//! Where a machine is, and which call moves it on:
//!
//! ```text
//!           feed: it takes more
//!       +------------------------+
//!       v                        |
//!    Giving -- next: NeedInput -> Waiting -- close, or feed: it takes no more --> Ending -- next: Finished --> Finished
//!     |  ^                                                                         |  ^
//!     +--+ next: Part                                                              +--+ next: Part
//!
//!  In Waiting it needs input; in Ending and Finished it is done with it. A machine may also go from Giving to Ending by `next`
//!  alone, as a server does when it cannot read its pack any further.
//! ```

ghost use Rattle.std.specs.Prelude.{◌≡◌, ◌≢◌, ◌≤◌, ◌<◌, ◌⊎◌, ℕ, List, [], ◌∷◌, ◌++◌, length, take};
ghost use Rattle.git_loop.specs.Moves.{Move, closed, used};
ghost use Rattle.git_loop.specs.Machines.{GivesPart};

/// What a machine does next.
#[derive(Clone, Copy, Debug)]
pub enum Next {
    /// It gives the next part of the output of this number, which [`Machine::part`] lends.
    Part(u8),
    /// It gives nothing until it is fed bytes of the input of this number, or that input is closed.
    NeedInput(u8),
    /// It has given all.
    Finished,
}

/// Takes the bytes of its inputs in chunks, cut anywhere, and gives its outputs in parts. It reads and writes nothing itself:
/// [`run_streams`](crate::run_streams) does that, and knows nothing else about it. Inputs and outputs have numbers, from 0.
///
/// By the ghost items above the calls, an implementation names its states during a run and the moves that lead from one
/// state to another. It meets the contracts of the four calls, and proves the laws below them. Counts are of bytes, except
/// `parts_left`.
pub trait Machine {
    /// Calls lead from the first state to the last, with these moves.
    ghost reaches: { Self → List Move → Self → Type 0 };
    /// What it gives until it is fed again lies in its own memory or in these bytes, which were fed last.
    ghost holds: { Self → List ℕ → Type 0 };
    /// With the first bytes fed last, the second ones are the part that the machine lends.
    ghost lends: { Self → List ℕ → List ℕ → Type 0 };
    /// The part that it lends is one of the output of this number.
    ghost gives_to: { Self → ℕ → Type 0 };
    /// How many parts it gives at most before it needs input or has finished.
    ghost parts_left: { Self → ℕ };
    /// It has given all, and waits for bytes of the input of this number or for its end.
    ghost needs_input: { Self → ℕ → Type 0 };
    /// It uses no more bytes of the input of this number, though it may still have some to give.
    ghost done_with: { Self → ℕ → Type 0 };
    /// It is done with the input of this number because of a byte that it did not use, such as one above its limit.
    ghost stopped_short: { Self → ℕ → Type 0 };
    /// It has given all, and is done with its inputs.
    ghost finished: { Self → Type 0 };
    /// A new machine reaches this state by using and giving some bytes.
    ghost reachable: { Self → Type 0 };

    /// Goes on to the next part, if there is one; otherwise it uses and gives nothing. It is passed the bytes that were fed last.
    fn next(&mut self, fed: &[u8]) -> Next
        requires { holds self.old fed.now }
        ensures holds { holds self.new fed.now }
        ensures part { (to : ℕ) → result ≡ Next.Part to → GivesPart reaches (λ m bytes. lends m fed.now bytes) self.old to self.new }
        ensures to { (to : ℕ) → result ≡ Next.Part to → gives_to self.new to }
        ensures fewer { (to : ℕ) → result ≡ Next.Part to → parts_left self.new < parts_left self.old }
        ensures needs_input { (from : ℕ) → result ≡ Next.NeedInput from → needs_input self.new from × reaches self.old [] self.new }
        ensures finished { result ≡ Next.Finished → finished self.new × reaches self.old [] self.new }
        ensures done { (k : ℕ) → done_with self.old k → done_with self.new k }
        ensures short { (k : ℕ) → stopped_short self.new k → stopped_short self.old k };

    /// The bytes of the part that `next` went on to: some of its own, or some of those fed last.
    fn part<'a>(&'a self, fed: &'a [u8]) -> &'a [u8]
        requires { (bytes : List ℕ) × lends self.now fed.now bytes }
        ensures { (bytes : List ℕ) → lends self.now fed.now bytes → result.now ≡ bytes };

    /// Uses bytes from the front of a chunk of the input of this number, and returns how many: at least one if the chunk has any, unless
    /// the machine is then done with all inputs. The caller feeds the others after the next `NeedInput` of that number.
    fn feed(&mut self, from: u8, chunk: &[u8]) -> usize
        requires { needs_input self.old from }
        ensures used { result ≤ length chunk.now }
        ensures some { 0 < length chunk.now → 0 < result ⊎ ((k : ℕ) → done_with self.new k) }
        ensures holds { holds self.new chunk.now }
        ensures reaches { reaches self.old (used from (take result chunk.now) ∷ []) self.new }
        ensures done { (k : ℕ) → done_with self.old k → done_with self.new k }
        ensures short { reachable self.old → stopped_short self.new from → result < length chunk.now }
        ensures others { (k : ℕ) → k ≢ from → stopped_short self.new k → stopped_short self.old k };

    /// Records that the input of this number ends here.
    fn close(&mut self, from: u8)
        requires { needs_input self.old from }
        ensures holds { holds self.new [] }
        ensures reaches { reaches self.old (closed from ∷ []) self.new }
        ensures ended { done_with self.new from }
        ensures done { (k : ℕ) → done_with self.old k → done_with self.new k }
        ensures short { reachable self.old → (k : ℕ) → stopped_short self.new k → stopped_short self.old k };

    /// Zero calls lead from each state to itself.
    ghost reaches_itself: { (m : Self) → reaches m [] m };
    /// Calls that follow other calls lead on from where those led.
    ghost reaches_further: { (old middle new : Self) (t u : List Move) → reaches old t middle → reaches middle u new → reaches old (t ++ u) new };
    /// Calls lead from a reachable state to a reachable one.
    ghost stays_reachable: { (old new : Self) (t : List Move) → reaches old t new → reachable old → reachable new };
    /// A machine that is done with an input does not need it.
    ghost done_needs_none: { (m : Self) (k : ℕ) → needs_input m k → done_with m k → ⊥ };
    /// Nor does one that stopped short of a byte of it.
    ghost short_needs_none: { (m : Self) (k : ℕ) → needs_input m k → stopped_short m k → ⊥ };
    /// A machine that needs input has given all.
    ghost needing_holds_none: { (m : Self) (k : ℕ) → needs_input m k → holds m [] };
}
