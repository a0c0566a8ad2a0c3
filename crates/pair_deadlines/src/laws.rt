//! The deadlines of two ranks, in steps. Each function does nothing: its contract is one law, over the definitions alone,
//! for every accepted header with which two ranks have time for their refreshes. A controller's relation to its bus holds
//! `Keeps`, and each of its steps cites the law of that step. In each law `now` is the clock before which no command is
//! issued, `until` the idle target, `idle` the sum of the idle lines so far, and `n` requests were begun so far.
ghost use Rattle.std.specs.Prelude.{◌≡◌, ℕ, suc, ◌+◌, ◌*◌, ◌<◌, ◌≤◌, ◌^◌, true, IsTrue, Some, None, max, [], ◌∷◌, length};
ghost use Rattle.command_words.specs.Kinds.{is_act, is_mrw, is_precharge};
ghost use Rattle.command_words.specs.declared.command.Command.{Command};
ghost use Rattle.command_words.specs.declared.command.Command.TheVariants.{RfmAb};
ghost use Rattle.speed_bin.specs.Alert.{alert};
ghost use Rattle.speed_bin.specs.Below.{all_below};
ghost use Rattle.speed_bin.specs.Gap.{n_max};
ghost use Rattle.speed_bin.specs.Header.{IsAccepted};
ghost use Rattle.speed_bin.specs.Log.{raa};
ghost use Rattle.speed_bin.specs.Rules.{is_on_time};
ghost use Rattle.speed_bin.specs.declared.header.Header.{Header};
ghost use Rattle.requests.specs.Owed.{is_column};
ghost use Rattle.refresh_plan.specs.Debts.{IsNothingDue};
ghost use Rattle.deadlines.specs.Standing.{AllInTime};
ghost use Rattle.rank_bus.specs.Buses.{BusLog, IsEarliest, other, part};
ghost use Rattle.rank_bus.specs.Service.{IsServedBy};
ghost use Rattle.rank_bus.specs.declared.rank.Rank.{Rank as AnyRank};
ghost use Rattle.rank_bus.specs.declared.rank.Rank.TheVariants.{Zero, One};
ghost use Rattle.pair_deadlines.specs.Budget.{HasTime};
ghost use Rattle.pair_deadlines.specs.Keeping.{Accessed, Closed, Keeps, Opened, Phase, Resting, Serving, Writing};

/// A controller that has issued nothing keeps its deadlines.
pub fn start()
    ensures keeps { (h : Header) → IsAccepted h → HasTime h → Keeps h [] 0 0 0 0 Writing }
{}

/// One of the sixteen register writes.
pub fn writes()
    ensures keeps { (h : Header) (bus : BusLog) (now until idle n : ℕ) (rank : AnyRank) (clock : ℕ) (command : Command) → IsAccepted h → HasTime h
        → Keeps h bus now until idle n Writing → length (part Zero bus) + length (part One bus) < 16 → is_mrw command ≡ true
        → IsEarliest h (part rank bus) (part (other rank) bus) now command clock
        → Keeps h (record { rank = rank; clock = clock; command = command } ∷ bus) (clock + 1) until idle n Writing }
{}

/// All sixteen are written.
pub fn written()
    ensures keeps { (h : Header) (bus : BusLog) (now until idle n : ℕ) → IsAccepted h → HasTime h
        → Keeps h bus now until idle n Writing → length (part Zero bus) + length (part One bus) ≡ 16 → Keeps h bus now until idle n Resting }
{}

/// The ACT of a request.
pub fn activates()
    ensures keeps { (h : Header) (bus : BusLog) (now until idle n : ℕ) (rank : AnyRank) (clock : ℕ) (command : Command) → IsAccepted h → HasTime h
        → Keeps h bus now until idle n Resting → is_act command ≡ true
        → IsEarliest h (part rank bus) (part (other rank) bus) now command clock
        → Keeps h (record { rank = rank; clock = clock; command = command } ∷ bus) (clock + 1) until idle (suc n) (Opened rank) }
{}

/// Its column.
pub fn accesses()
    ensures keeps { (h : Header) (bus : BusLog) (now until idle n : ℕ) (rank : AnyRank) (clock : ℕ) (command : Command) → IsAccepted h → HasTime h
        → Keeps h bus now until idle n (Opened rank) → is_column command ≡ true
        → IsEarliest h (part rank bus) (part (other rank) bus) now command clock
        → Keeps h (record { rank = rank; clock = clock; command = command } ∷ bus) (clock + 1) until idle n (Accessed rank) }
{}

/// Its precharge, which may raise an alert.
pub fn closes()
    ensures keeps { (h : Header) (bus : BusLog) (now until idle n : ℕ) (rank : AnyRank) (clock : ℕ) (command : Command) → IsAccepted h → HasTime h
        → Keeps h bus now until idle n (Accessed rank) → is_precharge command ≡ true
        → IsEarliest h (part rank bus) (part (other rank) bus) now command clock
        → Keeps h (record { rank = rank; clock = clock; command = command } ∷ bus) (clock + 1) until idle n (Closed rank) }
{}

/// The RFMab for an alert, which begins the service. Rule 13 holds at it.
pub fn answers()
    ensures keeps { (h : Header) (bus : BusLog) (now until idle n : ℕ) (rank : AnyRank) (clock : ℕ) (command : Command) → IsAccepted h → HasTime h
        → Keeps h bus now until idle n (Closed rank) → command ≡ RfmAb
        → IsEarliest h (part rank bus) (part (other rank) bus) now command clock
        → Keeps h (record { rank = rank; clock = clock; command = command } ∷ bus) (clock + 1) until idle n (Serving Zero) }
{}

/// Without an alert the service begins at once.
pub fn unanswered()
    ensures keeps { (h : Header) (bus : BusLog) (now until idle n : ℕ) (rank : AnyRank) → IsAccepted h → HasTime h
        → Keeps h bus now until idle n (Closed rank) → alert h (part rank bus) ≡ None → Keeps h bus now until idle n (Serving Zero) }
{}

/// So it does where no request stands before it.
pub fn begins()
    ensures keeps { (h : Header) (bus : BusLog) (now until idle n : ℕ) → IsAccepted h → HasTime h
        → Keeps h bus now until idle n Resting → Keeps h bus now until idle n (Serving Zero) }
{}

/// A command of the service.
pub fn serves()
    ensures keeps { (h : Header) (bus : BusLog) (now until idle n : ℕ) (rank : AnyRank) (clock : ℕ) (command : Command) → IsAccepted h → HasTime h
        → Keeps h bus now until idle n (Serving rank) → IsServedBy h (part rank bus) now (Some command)
        → IsEarliest h (part rank bus) (part (other rank) bus) now command clock
        → Keeps h (record { rank = rank; clock = clock; command = command } ∷ bus) (clock + 1) until idle n (Serving rank) }
{}

/// Where rank 0 needs nothing more, rank 1 is served; where that needs nothing more, the service is over.
pub fn turns()
    ensures turns { (h : Header) (bus : BusLog) (now until idle n : ℕ) → IsAccepted h → HasTime h
        → Keeps h bus now until idle n (Serving Zero) → IsServedBy h (part Zero bus) now None → Keeps h bus now until idle n (Serving One) }
    ensures rests { (h : Header) (bus : BusLog) (now until idle n : ℕ) → IsAccepted h → HasTime h
        → Keeps h bus now until idle n (Serving One) → IsServedBy h (part One bus) now None → Keeps h bus now until idle n Resting }
{}

/// `now` moves on to a clock that is not after the idle target, and before which nothing is due. An idle line sets the
/// target.
pub fn waits()
    ensures waits { (h : Header) (bus : BusLog) (now until idle n : ℕ) (clock : ℕ) → IsAccepted h → HasTime h
        → Keeps h bus now until idle n Resting → clock ≤ until
        → ((earlier : ℕ) → earlier < clock → IsNothingDue h earlier (part Zero bus) × IsNothingDue h earlier (part One bus))
        → Keeps h bus (max now clock) until idle n Resting }
    ensures idles { (h : Header) (bus : BusLog) (now until idle n : ℕ) (clocks : ℕ)
        → Keeps h bus now until idle n Resting → Keeps h bus now (now + clocks) (idle + clocks) n Resting }
{}

/// Rules 6, 7, 8 and 13 hold at each place of each rank. Between services no alert is raised, all rolling counts are below
/// RAAIMT, and rule 6 holds at `now`, which can be the end.
pub fn rules()
    ensures meets { (h : Header) (bus : BusLog) (now until idle n : ℕ) (phase : Phase) (rank : AnyRank)
        → Keeps h bus now until idle n phase → AllInTime h (part rank bus) }
    ensures calm { (h : Header) (bus : BusLog) (now until idle n : ℕ) (rank : AnyRank)
        → Keeps h bus now until idle n Resting → alert h (part rank bus) ≡ None }
    ensures low { (h : Header) (bus : BusLog) (now until idle n : ℕ) (rank : AnyRank) (b : ℕ) → IsAccepted h → HasTime h
        → Keeps h bus now until idle n Resting → b < 32 → raa h b (part rank bus) < h.settings.raaimt }
    ensures ends { (h : Header) (bus : BusLog) (now until idle n : ℕ) (rank : AnyRank) → IsAccepted h → HasTime h
        → Keeps h bus now until idle n Resting → IsTrue (all_below 4 (λ address. is_on_time h now address (part rank bus))) }
{}

/// How long a job takes: with n requests and these idle clocks, it ends by a clock that is linear in both.
pub fn bounds()
    ensures end { (h : Header) (bus : BusLog) (now until idle n : ℕ) (phase : Phase) → IsAccepted h → HasTime h
        → Keeps h bus now until idle n phase → now ≤ 2 * (idle + 12 * n_max h.timing * (n + 4)) }
    ensures target { (h : Header) (bus : BusLog) (now until idle n : ℕ) (phase : Phase) → IsAccepted h → HasTime h
        → Keeps h bus now until idle n phase → until ≤ 2 * (idle + 12 * n_max h.timing * (n + 4)) }
{}

/// A command comes before nMax has passed, and nMax is below 2^13. With at most 1,048,576 requests and 4,294,967,296 idle
/// clocks, clocks stay below 2^40.
pub fn soon()
    ensures within { (h : Header) (bus : BusLog) (now until idle n : ℕ) (phase : Phase) (rank : AnyRank) (clock : ℕ) (command : Command) → IsAccepted h → HasTime h
        → Keeps h bus now until idle n phase → IsEarliest h (part rank bus) (part (other rank) bus) now command clock
        → clock + 1 ≤ now + n_max h.timing }
    ensures small { (h : Header) → IsAccepted h → HasTime h → n_max h.timing < 2 ^ 13 }
    ensures now { (h : Header) (bus : BusLog) (now until idle n : ℕ) (phase : Phase) → IsAccepted h → HasTime h
        → Keeps h bus now until idle n phase → n ≤ 1048576 → idle ≤ 4294967296 → now < 2 ^ 40 }
    ensures target { (h : Header) (bus : BusLog) (now until idle n : ℕ) (phase : Phase) → IsAccepted h → HasTime h
        → Keeps h bus now until idle n phase → n ≤ 1048576 → idle ≤ 4294967296 → until < 2 ^ 40 }
{}
