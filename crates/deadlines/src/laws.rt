//! The deadlines, in steps. Each function does nothing: its contract is one law, over the definitions alone, for every
//! accepted header. A controller's relation to its log holds `Keeps`, and each of its turns cites the law of that turn.
//! In each law `now` is the clock before which no command is issued, `until` the idle target, `idle` the sum of the idle
//! lines so far, `waiting` has the bank of each waiting request by its number, and `n` requests were offered so far.
ghost use Rattle.std.specs.Prelude.{◌≡◌, ℕ, suc, ◌+◌, ◌*◌, ◌/◌, ◌<◌, ◌≤◌, ◌^◌, true, IsTrue, Option, None, max, List, [], ◌∷◌, ◌++◌, length};
ghost use Rattle.command_words.specs.declared.command.Command.{Command};
ghost use Rattle.speed_bin.specs.declared.header.Header.{Header};
ghost use Rattle.speed_bin.specs.Alert.{alert};
ghost use Rattle.speed_bin.specs.Below.{all_below};
ghost use Rattle.speed_bin.specs.Counts.{commands};
ghost use Rattle.speed_bin.specs.Gap.{n_max};
ghost use Rattle.speed_bin.specs.Header.{IsAccepted};
ghost use Rattle.command_words.specs.Kinds.{is_act, is_rfm_all, refreshes};
ghost use Rattle.speed_bin.specs.Log.{Issued, Log, open_at, refs, last_clock};
ghost use Rattle.speed_bin.specs.Rules.{is_on_time, rule_6, rule_7, rule_8, rule_13};
ghost use Rattle.refresh_plan.specs.Debts.{IsNothingDue};
ghost use Rattle.requests.specs.Choice.{IsSoonest};
ghost use Rattle.requests.specs.Owed.{owed};
ghost use Rattle.deadlines.specs.Standing.{Keeps};
ghost use Rattle.deadlines.specs.Turns.{Turn, has_request};
ghost use Rattle.deadlines.specs.declared.task.Task.{Task as AnyTask};

/// A controller that has issued nothing keeps its deadlines.
pub fn start()
    ensures keeps { (h : Header) → IsAccepted h → Keeps h [] None 0 0 0 [] 0 }
{}

/// One turn that issues a place keeps them, and at that place rules 6, 7, 8 and 13 hold. An RFMab comes only while an alert
/// is raised, and a refresh only of addresses with a debt of 2 or more.
pub fn turn()
    ensures keeps { (h : Header) (log : Log) (task next : Option AnyTask) (now until idle : ℕ) (waiting later : List ℕ) (n : ℕ) (place : Issued) → IsAccepted h
        → Keeps h log task now until idle waiting n → Turn h log task now until waiting place next later
        → Keeps h (place ∷ log) next (place.clock + 1) until idle later n }
    ensures refreshes_in_time { (h : Header) (log : Log) (task next : Option AnyTask) (now until idle : ℕ) (waiting later : List ℕ) (n : ℕ) (place : Issued) → IsAccepted h
        → Keeps h log task now until idle waiting n → Turn h log task now until waiting place next later
        → IsTrue (rule_6 h place.clock place.command log) }
    ensures refreshes_evenly { (h : Header) (log : Log) (task next : Option AnyTask) (now until idle : ℕ) (waiting later : List ℕ) (n : ℕ) (place : Issued) → IsAccepted h
        → Keeps h log task now until idle waiting n → Turn h log task now until waiting place next later
        → IsTrue (rule_7 place.command log) }
    ensures scrubs_in_step { (h : Header) (log : Log) (task next : Option AnyTask) (now until idle : ℕ) (waiting later : List ℕ) (n : ℕ) (place : Issued) → IsAccepted h
        → Keeps h log task now until idle waiting n → Turn h log task now until waiting place next later
        → IsTrue (rule_8 h place.command log) }
    ensures answers_the_alert { (h : Header) (log : Log) (task next : Option AnyTask) (now until idle : ℕ) (waiting later : List ℕ) (n : ℕ) (place : Issued) → IsAccepted h
        → Keeps h log task now until idle waiting n → Turn h log task now until waiting place next later
        → IsTrue (rule_13 h place.clock log) }
    ensures raised { (h : Header) (log : Log) (task next : Option AnyTask) (now until idle : ℕ) (waiting later : List ℕ) (n : ℕ) (place : Issued) → IsAccepted h
        → Keeps h log task now until idle waiting n → Turn h log task now until waiting place next later
        → is_rfm_all place.command ≡ true → alert h log ≡ None → ⊥ }
    ensures owing { (h : Header) (log : Log) (task next : Option AnyTask) (now until idle : ℕ) (waiting later : List ℕ) (n : ℕ) (place : Issued) → IsAccepted h
        → Keeps h log task now until idle waiting n → Turn h log task now until waiting place next later
        → (address : ℕ) → address < 4 → refreshes address place.command ≡ true → refs address log + 2 ≤ place.clock / h.timing.nrefi }
{}

/// A request that is offered keeps them. It is of this bank.
pub fn offer()
    ensures keeps { (h : Header) (log : Log) (task : Option AnyTask) (now until idle : ℕ) (waiting : List ℕ) (n bank : ℕ)
        → Keeps h log task now until idle waiting n
        → Keeps h log task now until idle (waiting ++ (bank ∷ [])) (suc n) }
{}

/// An idle line of so many clocks, which sets the idle target, keeps them.
pub fn idle_line()
    ensures keeps { (h : Header) (log : Log) (task : Option AnyTask) (now until idle clocks : ℕ) (waiting : List ℕ) (n : ℕ)
        → Keeps h log task now until idle waiting n
        → Keeps h log task now (now + clocks) (idle + clocks) waiting n }
{}

/// A turn that issues nothing keeps them: no task is set, and neither an alert nor a refresh is due at the clock to which
/// it moves. That clock can be the end: rules 6 and 13 hold there.
pub fn rest()
    ensures keeps { (h : Header) (log : Log) (now until idle : ℕ) (waiting : List ℕ) (n : ℕ) → IsAccepted h
        → Keeps h log None now until idle waiting n → 8 ≤ length log → alert h log ≡ None → IsNothingDue h (max now until) log
        → Keeps h log None (max now until) until idle waiting n }
    ensures refreshes_in_time { (h : Header) (log : Log) (now until idle : ℕ) (waiting : List ℕ) (n : ℕ) → IsAccepted h
        → Keeps h log None now until idle waiting n → alert h log ≡ None → IsNothingDue h (max now until) log
        → IsTrue (all_below 4 (λ address. is_on_time h (max now until) address log)) }
    ensures answers_the_alert { (h : Header) (log : Log) → alert h log ≡ None → (clock : ℕ) → IsTrue (rule_13 h clock log) }
{}

/// How long a job takes: with n requests and these idle clocks, it ends by a clock that is linear in both, with at most n
/// ACTs, and with a number of commands that is linear in n and in the refresh intervals that passed.
pub fn bounds()
    ensures activations { (h : Header) (log : Log) (task : Option AnyTask) (now until idle : ℕ) (waiting : List ℕ) (n : ℕ) → IsAccepted h
        → Keeps h log task now until idle waiting n → commands is_act log ≤ n }
    ensures end { (h : Header) (log : Log) (task : Option AnyTask) (now until idle : ℕ) (waiting : List ℕ) (n : ℕ) → IsAccepted h
        → Keeps h log task now until idle waiting n → now ≤ 2 * (idle + 8 * n_max h.timing * (n + 3)) }
    ensures target { (h : Header) (log : Log) (task : Option AnyTask) (now until idle : ℕ) (waiting : List ℕ) (n : ℕ) → IsAccepted h
        → Keeps h log task now until idle waiting n → until ≤ 2 * (idle + 8 * n_max h.timing * (n + 3)) }
    ensures commands { (h : Header) (log : Log) (task : Option AnyTask) (now until idle : ℕ) (waiting : List ℕ) (n : ℕ) → IsAccepted h
        → Keeps h log task now until idle waiting n → length log ≤ 28 + 5 * n + 5 * (now / h.timing.nrefi) }
{}

/// With at most 1,048,576 requests and 2^32 idle clocks, clocks stay below 2^40 and places below 2,200,000,000.
pub fn limits()
    ensures now { (h : Header) (log : Log) (task : Option AnyTask) (now until idle : ℕ) (waiting : List ℕ) (n : ℕ) → IsAccepted h
        → Keeps h log task now until idle waiting n → n ≤ 1048576 → idle ≤ 4294967296 → now < 2 ^ 40 }
    ensures target { (h : Header) (log : Log) (task : Option AnyTask) (now until idle : ℕ) (waiting : List ℕ) (n : ℕ) → IsAccepted h
        → Keeps h log task now until idle waiting n → n ≤ 1048576 → idle ≤ 4294967296 → until < 2 ^ 40 }
    ensures places { (h : Header) (log : Log) (task : Option AnyTask) (now until idle : ℕ) (waiting : List ℕ) (n : ℕ) → IsAccepted h
        → Keeps h log task now until idle waiting n → n ≤ 1048576 → idle ≤ 4294967296 → length log < 2200000000 }
{}

/// A command comes nMax after the clock from which it is issued at the latest, and nMax is below 2^14. No place is later
/// than `now`.
pub fn soon()
    ensures within { (h : Header) (log : Log) (task : Option AnyTask) (now until idle : ℕ) (waiting : List ℕ) (n : ℕ) → IsAccepted h
        → Keeps h log task now until idle waiting n → (start clock : ℕ) (command : Command) → now ≤ start
        → IsSoonest h log start command clock → clock ≤ start + n_max h.timing }
    ensures small { (h : Header) → IsAccepted h → n_max h.timing < 2 ^ 14 }
    ensures last { (h : Header) (log : Log) (task : Option AnyTask) (now until idle : ℕ) (waiting : List ℕ) (n : ℕ)
        → Keeps h log task now until idle waiting n → last_clock log ≤ now }
{}

/// A bank that is owed a column is open, and a request waits for it.
pub fn owing()
    ensures is_open { (b : ℕ) (log : Log) → owed b log ≡ true → open_at b log ≡ None → ⊥ }
    ensures waits { (h : Header) (log : Log) (task : Option AnyTask) (now until idle : ℕ) (waiting : List ℕ) (n b : ℕ)
        → Keeps h log task now until idle waiting n → b < 32 → owed b log ≡ true → has_request waiting b ≡ true }
{}
