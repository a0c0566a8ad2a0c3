//! What a controller keeps of its requests. Each function does nothing: its contract is one law over the definitions,
//! for every header, every list of offered requests and every log, from whatever controller.
ghost use Rattle.std.specs.Prelude.{◌≡◌, ℕ, ◌+◌, ◌<◌, ◌≤◌, ◌⊎◌, ◌++◌, Bool, false, true, None, Some, Option, IsTrue, List, [], ◌∷◌, length, slice_get};
ghost use Rattle.std.specs.List.{remove};
ghost use Rattle.command_words.specs.Command.{bank_number, covers, IsBank};
ghost use Rattle.command_words.specs.Geometry.{IsGroups, lines_of};
ghost use Rattle.command_words.specs.declared.place.Bank.{Bank};
ghost use Rattle.command_words.specs.declared.command.Command.{Command};
ghost use Rattle.command_words.specs.declared.command.Command.TheVariants.{Act, PrePb, Mrw};
ghost use Rattle.command_words.specs.declared.command.Mrw.{Mrw as Write};
ghost use Rattle.speed_bin.specs.Counts.{commands};
ghost use Rattle.command_words.specs.Kinds.{is_act, is_mrw, is_precharge, needs_closed};
ghost use Rattle.speed_bin.specs.Log.{open_at};
ghost use Rattle.speed_bin.specs.Rules.{rule_5};
ghost use Rattle.speed_bin.specs.declared.header.Header.{Header};
ghost use Rattle.requests.specs.declared.request.Kind.{Kind};
ghost use Rattle.requests.specs.declared.request.Request.{Request};
ghost use Rattle.requests.specs.declared.waiting.Waiting.{Waiting};
ghost use Rattle.requests.specs.Queue.{Step, places, waiting, waiting_as, span, hits, oldest, is_of_line, is_served, AreKnown, IsFull};
ghost use Rattle.speed_bin.specs.Header.{shape_of};
ghost use Rattle.requests.specs.Choice.{column_for, IsOldestHit, IsOldestRow, IsMissed};
ghost use Rattle.requests.specs.Order.{Serves};
ghost use Rattle.requests.specs.Window.{window};
ghost use Rattle.requests.specs.Owed.{owed, SparesOwed};
ghost use Rattle.requests.specs.Page.{Excuses};
ghost use Rattle.requests.specs.Requested.{Requested, IsQueued};

// ---- What is kept, from turn to turn

/// Before the first offer and the first command.
pub fn starts()
    ensures requested { (h : Header) (excused : ℕ → Bool) → IsGroups h.version.groups → Requested h [] [] [] excused }
{}

/// Other banks are excused: a task is set, or the end is announced.
pub fn after_excuse()
    ensures requested { (h : Header) (offered : List Request) (log : List Step) (queue : List Waiting) (excused later : ℕ → Bool)
        → Requested h offered log queue excused → Excuses excused later → Requested h offered log queue later }
{}

/// A request is offered where the queue is not full: it waits under the next number.
pub fn after_offer()
    ensures requested { (h : Header) (offered : List Request) (log : List Step) (queue : List Waiting) (excused : ℕ → Bool) (request : Request)
        → Requested h offered log queue excused → request.line < lines_of (shape_of h) → (IsFull (length offered) queue → ⊥)
        → Requested h (offered ++ request ∷ []) log (queue ++ waiting_as (shape_of h) (length offered + 1) request ∷ []) excused }
{}

/// An RD or WR of the oldest request that lies in its bank's open row: that request waits no longer.
pub fn after_column()
    ensures requested { (h : Header) (offered : List Request) (log : List Step) (queue : List Waiting) (excused later : ℕ → Bool)
        (clock at b : ℕ) (command : Command) (w : Waiting)
        → Requested h offered log queue excused → command ≡ column_for w.request.kind w.place
        → slice_get queue at ≡ Some w → oldest (hits b (open_at b (places log))) queue ≡ Some w → Excuses excused later
        → Requested h offered (record { issued = record { clock = clock; command = command }; id = Some w.id } ∷ log) (remove queue at) later }
{}

/// An ACT of a closed bank for the bank's oldest request, where the bank is not excused.
pub fn after_activate()
    ensures requested { (h : Header) (offered : List Request) (log : List Step) (queue : List Waiting) (excused later : ℕ → Bool)
        (clock : ℕ) (bank : Bank) (row : ℕ)
        → Requested h offered log queue excused → bank_number bank < 32 → open_at (bank_number bank) (places log) ≡ None
        → IsOldestRow queue (bank_number bank) row → excused (bank_number bank) ≡ false → Excuses excused later
        → Requested h offered (record { issued = record { clock = clock; command = Act bank row }; id = None } ∷ log) queue later }
{}

/// A PREpb of a bank whose requests all lie outside its open row.
pub fn after_precharge()
    ensures requested { (h : Header) (offered : List Request) (log : List Step) (queue : List Waiting) (excused later : ℕ → Bool)
        (clock : ℕ) (bank : Bank)
        → Requested h offered log queue excused → IsMissed queue (bank_number bank) (open_at (bank_number bank) (places log)) → Excuses excused later
        → Requested h offered (record { issued = record { clock = clock; command = PrePb bank }; id = None } ∷ log) queue later }
{}

/// A precharge of banks that are excused from then on, for a task or at the end, where it closes no owed bank.
pub fn after_closing()
    ensures requested { (h : Header) (offered : List Request) (log : List Step) (queue : List Waiting) (excused later : ℕ → Bool)
        (clock : ℕ) (command : Command)
        → Requested h offered log queue excused → IsTrue (is_precharge command) → SparesOwed command (places log)
        → ((b : ℕ) → b < 32 → IsTrue (covers command b) → later b ≡ true) → Excuses excused later
        → Requested h offered (record { issued = record { clock = clock; command = command }; id = None } ∷ log) queue later }
{}

/// A REF, an RFM or ECS, whose banks are closed: they need no excuse from then on.
pub fn after_management()
    ensures requested { (h : Header) (offered : List Request) (log : List Step) (queue : List Waiting) (excused later : ℕ → Bool)
        (clock : ℕ) (command : Command)
        → Requested h offered log queue excused → IsTrue (needs_closed command) → is_mrw command ≡ false → IsTrue (rule_5 command (places log))
        → ((b : ℕ) → b < 32 → excused b ≡ true → (later b ≡ true) ⊎ IsTrue (covers command b))
        → Requested h offered (record { issued = record { clock = clock; command = command }; id = None } ∷ log) queue later }
{}

/// An MRW, with all banks closed.
pub fn after_write()
    ensures requested { (h : Header) (offered : List Request) (log : List Step) (queue : List Waiting) (excused later : ℕ → Bool)
        (clock : ℕ) (write : Write)
        → Requested h offered log queue excused → IsTrue (rule_5 (Mrw write) (places log)) → Excuses excused later
        → Requested h offered (record { issued = record { clock = clock; command = Mrw write }; id = None } ∷ log) queue later }
{}

// ---- What follows from it

/// A request of the queue is one that was offered, and its place is inside the subchannel.
pub fn queued()
    ensures is_queued { (h : Header) (offered : List Request) (log : List Step) (queue : List Waiting) (excused : ℕ → Bool) (at : ℕ) (w : Waiting)
        → Requested h offered log queue excused → slice_get queue at ≡ Some w → IsQueued h offered log w }
{}

/// A column for the oldest hit serves an offered request: its kind, its line, and it is the next of its line.
pub fn serves()
    ensures served { (h : Header) (offered : List Request) (log : List Step) (queue : List Waiting) (excused : ℕ → Bool)
        (kind : Kind) (bank : Bank) (column : ℕ) (id : Option ℕ)
        → Requested h offered log queue excused → IsBank bank
        → IsOldestHit queue (bank_number bank) (open_at (bank_number bank) (places log)) kind column id
        → Serves h offered log kind bank column id }
{}

/// The oldest hit of a bank is the oldest waiting request of its line.
pub fn serves_its_line()
    ensures oldest_of_line { (h : Header) (offered : List Request) (log : List Step) (b : ℕ) (open_row : Option ℕ) (w : Waiting)
        → oldest (hits b open_row) (waiting h offered log) ≡ Some w
        → oldest (is_of_line w.request.line) (waiting h offered log) ≡ Some w }
{}

/// A bank is not owed where nothing hits its open row, as where nothing waits, and where it is closed.
pub fn spared()
    ensures not_owed_without_a_hit { (h : Header) (offered : List Request) (log : List Step) (queue : List Waiting) (excused : ℕ → Bool) (b : ℕ)
        → Requested h offered log queue excused → b < 32 → oldest (hits b (open_at b (places log))) queue ≡ None → owed b (places log) ≡ false }
    ensures not_owed_while_closed { (h : Header) (offered : List Request) (log : List Step) (queue : List Waiting) (excused : ℕ → Bool) (b : ℕ)
        → Requested h offered log queue excused → b < 32 → open_at b (places log) ≡ None → owed b (places log) ≡ false }
{}

/// No more ACTs were issued than requests were offered.
pub fn activations()
    ensures at_most { (h : Header) (offered : List Request) (log : List Step) (queue : List Waiting) (excused : ℕ → Bool)
        → Requested h offered log queue excused → commands is_act (places log) ≤ length offered }
{}

/// A queue that was offered to until it was full, or until nothing was left before the next barrier, is the window.
pub fn queue_is_window()
    ensures window { (h : Header) (offered later : List Request) (log : List Step)
        → AreKnown offered log → length (waiting h offered log) ≤ 32 → span (length offered) (waiting h offered log) ≤ 64
        → IsFull (length offered) (waiting h offered log) ⊎ (later ≡ [])
        → waiting h offered log ≡ window h (offered ++ later) log }
{}

/// The oldest waiting request has the least number that is not served; where none waits, all that were offered are served.
pub fn oldest_unserved()
    ensures before { (h : Header) (offered : List Request) (log : List Step) (w : Waiting) (ws : List Waiting) (n : ℕ)
        → waiting h offered log ≡ w ∷ ws → 1 ≤ n → n < w.id → is_served n log ≡ true }
    ensures none { (h : Header) (offered : List Request) (log : List Step) (n : ℕ)
        → waiting h offered log ≡ [] → 1 ≤ n → n ≤ length offered → is_served n log ≡ true }
{}
