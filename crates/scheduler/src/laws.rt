//! What is proved of the controller's list as a whole. Each function does nothing: its contract is one law over whatever a
//! controller stands for.
ghost use Rattle.std.specs.Prelude.{◌≡◌, ℕ, ◌+◌, ◌*◌, ◌/◌, ◌<◌, ◌≤◌, ◌^◌, ◌⊎◌, ◌++◌, [], ◌∷◌, List, Option, Some, Bool, None, true, length};
ghost use Rattle.command_words.specs.Command.{bank_number, IsBank};
ghost use Rattle.command_words.specs.declared.place.Bank.{Bank as AnyBank};
ghost use Rattle.speed_bin.specs.Alert.{alert};
ghost use Rattle.speed_bin.specs.Counts.{commands};
ghost use Rattle.speed_bin.specs.Gap.{n_max};
ghost use Rattle.speed_bin.specs.Header.{IsAccepted};
ghost use Rattle.command_words.specs.Kinds.{is_act, is_nop};
ghost use Rattle.speed_bin.specs.Log.{open_at};
ghost use Rattle.speed_bin.specs.Page.{keeps_page};
ghost use Rattle.speed_bin.specs.Rules.{broken, verdict};
ghost use Rattle.speed_bin.specs.declared.header.Header.{Header as AnyHeader};
ghost use Rattle.requests.specs.Choice.{IsOldestHit, IsOldestRow};
ghost use Rattle.requests.specs.Order.{AllServing, IsInOrder, AreServedOnce, Serves};
ghost use Rattle.requests.specs.declared.request.Kind.{Kind as AnyKind};
ghost use Rattle.requests.specs.Queue.{Step, places, waiting, oldest, span, AreInside, AreKnown, IsFull};
ghost use Rattle.requests.specs.declared.waiting.Waiting.{Waiting};
ghost use Rattle.requests.specs.Window.{window as window_of};
ghost use Rattle.requests.specs.declared.request.Request.{Request as AnyRequest};
ghost use Rattle.scheduler.specs.Controller.{StandsFor, header_of, from_of, until_of};
ghost use Rattle.scheduler.specs.Policy.{Hidden, IsTurn};
ghost use Rattle.scheduler.specs.declared.state.State.{State as AnyController};
ghost use Rattle.scheduler.specs.declared.turn.Turn.{Turn as AnyTurn};

/// No rule fails at any place of the list, the newest one among them, none of its commands is a NOP, and no ACT opens the row that its bank's last ACT
/// opened, unless a REF, an RFM or ECS that covers the bank stands between.
#[tactic(auto, unfolding(crate::specs::Controller::StandsFor, crate::specs::Controller::from_of))]
pub fn sound()
    ensures rules { (h : AnyHeader) (c : AnyController) (offered : List AnyRequest) (idle : ℕ) (log : List Step) → StandsFor h c offered idle log
        → verdict h (places log) ≡ None }
    ensures newest { (h : AnyHeader) (c : AnyController) (offered : List AnyRequest) (idle : ℕ) (step : Step) (log : List Step) → StandsFor h c offered idle (step ∷ log)
        → broken h step.issued.clock step.issued.command (places log) ≡ None }
    ensures open_page { (h : AnyHeader) (c : AnyController) (offered : List AnyRequest) (idle : ℕ) (log : List Step) → StandsFor h c offered idle log
        → keeps_page (places log) ≡ true }
    ensures accepted { (h : AnyHeader) (c : AnyController) (offered : List AnyRequest) (idle : ℕ) (log : List Step) → StandsFor h c offered idle log
        → IsAccepted h }
    ensures no_nop { (h : AnyHeader) (c : AnyController) (offered : List AnyRequest) (idle : ℕ) (log : List Step) → StandsFor h c offered idle log
        → commands is_nop (places log) ≡ 0 }
{}

/// The header under which it stands is the one that it holds.
#[tactic(auto, unfolding(crate::specs::Controller::StandsFor, crate::specs::Controller::header_of))]
pub fn held()
    ensures header { (h : AnyHeader) (c : AnyController) (offered : List AnyRequest) (idle : ℕ) (log : List Step) → StandsFor h c offered idle log
        → header_of c ≡ h }
{}

/// The policy leaves one turn: what it keeps between turns, the waiting requests and the log settle what the turn answers and
/// what it leaves.
pub fn one_turn()
    ensures answer { (h : AnyHeader) (s : Hidden) (offered : List AnyRequest) (log : List Step) (turn other : AnyTurn) (next later : Hidden)
        → IsTurn h s (waiting h offered log) (places log) turn next → IsTurn h s (waiting h offered log) (places log) other later → turn ≡ other }
    ensures kept { (h : AnyHeader) (s : Hidden) (offered : List AnyRequest) (log : List Step) (turn other : AnyTurn) (next later : Hidden)
        → IsTurn h s (waiting h offered log) (places log) turn next → IsTurn h s (waiting h offered log) (places log) other later → next ≡ later }
{}

/// The requests of one line are served in the order in which they were offered, each once, by a column of its kind and line,
/// and only those that were offered.
#[tactic(auto, unfolding(crate::specs::Controller::StandsFor, crate::specs::Controller::from_of))]
pub fn in_order()
    ensures lines { (h : AnyHeader) (c : AnyController) (offered : List AnyRequest) (idle : ℕ) (log : List Step) → StandsFor h c offered idle log
        → IsInOrder h offered log }
    ensures served_once { (h : AnyHeader) (c : AnyController) (offered : List AnyRequest) (idle : ℕ) (log : List Step) → StandsFor h c offered idle log
        → AreServedOnce log }
    ensures serving { (h : AnyHeader) (c : AnyController) (offered : List AnyRequest) (idle : ℕ) (log : List Step) → StandsFor h c offered idle log
        → AllServing h offered log }
    ensures known { (h : AnyHeader) (c : AnyController) (offered : List AnyRequest) (idle : ℕ) (log : List Step) → StandsFor h c offered idle log
        → AreKnown offered log }
{}

/// At most 32 requests wait, at most 64 stand from the oldest waiting one to the newest offered one, and each line is one
/// of the header's.
#[tactic(auto, unfolding(crate::specs::Controller::StandsFor, crate::specs::Controller::from_of))]
pub fn bounds()
    ensures few { (h : AnyHeader) (c : AnyController) (offered : List AnyRequest) (idle : ℕ) (log : List Step) → StandsFor h c offered idle log
        → length (waiting h offered log) ≤ 32 }
    ensures within { (h : AnyHeader) (c : AnyController) (offered : List AnyRequest) (idle : ℕ) (log : List Step) → StandsFor h c offered idle log
        → span (length offered) (waiting h offered log) ≤ 64 }
    ensures inside { (h : AnyHeader) (c : AnyController) (offered : List AnyRequest) (idle : ℕ) (log : List Step) → StandsFor h c offered idle log
        → AreInside h offered }
{}

/// The requests that wait are the window, once the controller was offered requests until one came back, or until none was
/// left before the next barrier.
#[tactic(auto, unfolding(crate::specs::Controller::StandsFor))]
pub fn window()
    ensures queue { (h : AnyHeader) (c : AnyController) (offered later : List AnyRequest) (idle : ℕ) (log : List Step) → StandsFor h c offered idle log
        → IsFull (length offered) (waiting h offered log) ⊎ (later ≡ [])
        → waiting h offered log ≡ window_of h (offered ++ later) log }
{
    requests::laws::queue_is_window();
}

/// How long a job takes. With n requests there are at most n ACTs, `now` and the idle target are at most
/// 2 * (idle + 8 * nMax * (n + 3)), and the commands are at most 28 + 5 * n and five for each refresh interval that passed.
#[tactic(auto, unfolding(crate::specs::Controller::StandsFor, crate::specs::Controller::from_of, crate::specs::Controller::until_of))]
pub fn work()
    ensures activations { (h : AnyHeader) (c : AnyController) (offered : List AnyRequest) (idle : ℕ) (log : List Step) → StandsFor h c offered idle log
        → commands is_act (places log) ≤ length offered }
    ensures end { (h : AnyHeader) (c : AnyController) (offered : List AnyRequest) (idle : ℕ) (log : List Step) → StandsFor h c offered idle log
        → from_of c ≤ 2 * (idle + 8 * n_max h.timing * (length offered + 3)) }
    ensures target { (h : AnyHeader) (c : AnyController) (offered : List AnyRequest) (idle : ℕ) (log : List Step) → StandsFor h c offered idle log
        → until_of c ≤ 2 * (idle + 8 * n_max h.timing * (length offered + 3)) }
    ensures places { (h : AnyHeader) (c : AnyController) (offered : List AnyRequest) (idle : ℕ) (log : List Step) → StandsFor h c offered idle log
        → length log ≤ 28 + 5 * length offered + 5 * (from_of c / h.timing.nrefi) }
{
    requests::laws::activations();
    deadlines::laws::bounds();
}

/// With at most 1,048,576 requests and 2^32 idle clocks, `now` and the idle target stay below 2^40, and the commands are
/// fewer than 2,200,000,000.
#[tactic(auto, unfolding(crate::specs::Controller::StandsFor, crate::specs::Controller::from_of, crate::specs::Controller::until_of))]
pub fn limits()
    ensures now { (h : AnyHeader) (c : AnyController) (offered : List AnyRequest) (idle : ℕ) (log : List Step) → StandsFor h c offered idle log
        → length offered ≤ 1048576 → idle ≤ 4294967296 → from_of c < 2 ^ 40 }
    ensures target { (h : AnyHeader) (c : AnyController) (offered : List AnyRequest) (idle : ℕ) (log : List Step) → StandsFor h c offered idle log
        → length offered ≤ 1048576 → idle ≤ 4294967296 → until_of c < 2 ^ 40 }
    ensures places { (h : AnyHeader) (c : AnyController) (offered : List AnyRequest) (idle : ℕ) (log : List Step) → StandsFor h c offered idle log
        → length offered ≤ 1048576 → idle ≤ 4294967296 → length log < 2200000000 }
{
    deadlines::laws::limits();
}

/// The newest command came before `now`, and `now` is below 2^48.
#[tactic(auto, unfolding(crate::specs::Controller::StandsFor, crate::specs::Controller::from_of))]
pub fn passed()
    ensures newest { (h : AnyHeader) (c : AnyController) (offered : List AnyRequest) (idle : ℕ) (step : Step) (log : List Step) → StandsFor h c offered idle (step ∷ log)
        → step.issued.clock < from_of c }
    ensures below_the_limit { (h : AnyHeader) (c : AnyController) (offered : List AnyRequest) (idle : ℕ) (log : List Step) → StandsFor h c offered idle log
        → from_of c < 2 ^ 48 }
{}

/// Where fewer requests than ATH were offered, no alert is raised.
#[tactic(auto, unfolding(crate::specs::Controller::StandsFor))]
pub fn unraised()
    ensures raises_no_alert { (h : AnyHeader) (c : AnyController) (offered : List AnyRequest) (idle : ℕ) (log : List Step) → StandsFor h c offered idle log
        → length offered < h.settings.ath → alert h (places log) ≡ None }
{
    requests::laws::activations();
}

/// An ACT that was chosen for a waiting request opens a row of the header's, and the bank of a waiting request is one of the
/// header's.
#[tactic(auto, unfolding(crate::specs::Controller::StandsFor))]
pub fn inside()
    ensures row { (h : AnyHeader) (c : AnyController) (offered : List AnyRequest) (idle : ℕ) (log : List Step) (b row : ℕ) → StandsFor h c offered idle log
        → IsOldestRow (waiting h offered log) b row → row < h.settings.rows }
    ensures bank { (h : AnyHeader) (c : AnyController) (offered : List AnyRequest) (idle : ℕ) (log : List Step) (test : Waiting → Bool) (w : Waiting) → StandsFor h c offered idle log
        → oldest test (waiting h offered log) ≡ Some w → bank_number w.place.bank < h.version.groups * 4 }
{
    requests::laws::queued();
}

/// An RD or WR that was chosen for a waiting request serves that request: it is of its kind and of its line.
#[tactic(auto, unfolding(crate::specs::Controller::StandsFor))]
pub fn serves()
    ensures served { (h : AnyHeader) (c : AnyController) (offered : List AnyRequest) (idle : ℕ) (log : List Step) (kind : AnyKind) (bank : AnyBank) (column : ℕ) (id : Option ℕ)
        → StandsFor h c offered idle log → IsBank bank
        → IsOldestHit (waiting h offered log) (bank_number bank) (open_at (bank_number bank) (places log)) kind column id
        → Serves h offered log kind bank column id }
{
    requests::laws::serves();
}
