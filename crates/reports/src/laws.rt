//! Laws of what a report says, over its definitions alone (`specs/`). None of them does anything.
ghost use Rattle.std.specs.Prelude.{◌≡◌, ◌≤◌, ◌<◌, ◌+◌, ◌-◌, ◌*◌, ◌/◌, ◌⊎◌, ℕ, Ok, IfSome, true, false, Option, Some, None, List, [], ◌∷◌, ◌++◌, length, map, reverse, slice_get, sum};
ghost use Rattle.command_words.specs.Command.{bank_number, IsBank, IsInRange};
ghost use Rattle.command_words.specs.Geometry.{Shape};
ghost use Rattle.command_words.specs.declared.command.Command.{Command};
ghost use Rattle.command_words.specs.declared.place.Bank.{Bank};
ghost use Rattle.command_words.specs.Place.{place_of};
ghost use Rattle.speed_bin.specs.Header.{IsAccepted, shape_of};
ghost use Rattle.speed_bin.specs.Counts.{commands};
ghost use Rattle.speed_bin.specs.Gap.{n_max};
ghost use Rattle.command_words.specs.Kinds.{is_act, is_rd, is_wr};
ghost use Rattle.speed_bin.specs.Log.{Log, open_at, last_clock};
ghost use Rattle.speed_bin.specs.declared.header.Header.{Header};
ghost use Rattle.error_scrub.specs.Tame.{IsTame};
ghost use Rattle.device_core.specs.Standing.{IsGiven, IsBit};
ghost use Rattle.device_core.specs.Steps.{Flips as Turns, log_of as device_log};
ghost use Rattle.device_core.specs.Stored.{answer as device_answer};
ghost use Rattle.requests.specs.Choice.{IsChosen, IsOldestHit, IsPrompt};
ghost use Rattle.requests.specs.Order.{Serves as ServesNumbered, IsServing};
ghost use Rattle.requests.specs.Queue.{Step as NumberedStep, places, waiting, span, AreKnown, IsFull, is_served as is_served_number};
ghost use Rattle.requests.specs.declared.request.Kind.{Kind};
ghost use Rattle.requests.specs.declared.request.Kind.TheVariants.{Read as Reads};
ghost use Rattle.requests.specs.declared.request.Request.{Request as Asked};
ghost use Rattle.requests.specs.declared.waiting.Waiting.{Waiting};
ghost use Rattle.ddr_text.specs.declared.lines.TraceLine.{TraceLine};
ghost use Rattle.ddr_text.specs.declared.lines.TraceLine.TheVariants.{Flip, Idle};
ghost use Rattle.ddr_text.specs.declared.lines.ReportLine.{ReportLine};
ghost use Rattle.ddr_text.specs.declared.lines.ReportLine.TheVariants.{Flip as FlipLine};
ghost use Rattle.ddr_text.specs.Grammar.{trace_line_of};
ghost use Rattle.ddr_text.specs.ReportParts.{Refusal, places_of};
ghost use Rattle.reports.specs.Requests.{Request, request_of, requests, flip_of, flips};
ghost use Rattle.reports.specs.Runs.{Served, Step, Issues, Flips, Run, log_of, is_served, unserved, flipped, Serves, IsNext, IsThrough, ready, held};
ghost use Rattle.reports.specs.Ages.{IsCapped, overtaking};
ghost use Rattle.reports.specs.Accesses.{IsColumn, InOrder, BeginsInOrder};
ghost use Rattle.reports.specs.Barriers.{bits_of, turned_bits, idle_clocks, IsIdled};
ghost use Rattle.reports.specs.Delivered.{bytes_for, device_steps, IsInside, AreInside};
ghost use Rattle.reports.specs.Offered.{asked, offered, rank, ranked, controller_steps};
ghost use Rattle.reports.specs.Readings.{changes_before, reading_of};
ghost use Rattle.reports.specs.Report.{answers, issued_line, latest, report, values};
ghost use Rattle.reports.specs.Sound.{IsSoundPlace, Sound, IsShort, IsRun, AllBounded};
ghost use Rattle.reports.specs.Headline.{IsRight, Headline};
ghost use Rattle.reports.specs.Whole.{whole};
ghost use Rattle.reports.specs.Window.{reach, window, candidates, queued};
ghost use Rattle.reports.specs.Underway.{Ahead, Unknown, Next, Ended, IsUnderway, IsIssued, IsEnded, issue};

// ---- What a finished run promises

/// A finished run keeps the headline: every rule, requests in order, each read answered once, with plain memory's bytes
/// where it is tame, and the bound on activations.
pub fn headline()
    ensures promises { (h : Header) (trace : List TraceLine) (run : Run) (clock : ℕ) → IsAccepted h
        → AreInside (shape_of h) trace → IsRun h trace run clock → Headline h trace run clock }
{
    device_core::laws::reads_last_write();
    backoff::laws::bound();
}

/// A read that is served has plain memory's bytes where it is tame, also in an unfinished run.
pub fn reads_plain_memory()
    ensures tame { (h : Header) (trace : List TraceLine) (run : Run) (earlier later : List Request) (r : Request)
        → AreInside (shape_of h) trace → Sound h trace run → requests trace ≡ earlier ++ r ∷ later
        → is_served r.number run ≡ true → IsTame (changes_before h trace run r) r.line
        → IsRight trace r (reading_of h trace run r) }
{
    device_core::laws::reads_last_write();
}

/// Up to no place of a sound run has a row more activations since its last mitigation than the bound.
pub fn bounds_activations()
    ensures bounded { (h : Header) (trace : List TraceLine) (run : Run) → IsAccepted h → Sound h trace run
        → AllBounded h (log_of run) }
{
    backoff::laws::bound();
}

// ---- The order of requests

/// The log of a sound run reads and writes each line in the order of the trace, whatever it does between.
pub fn serves_in_order()
    ensures finished { (h : Header) (trace : List TraceLine) (run : Run) (clock : ℕ) → IsRun h trace run clock
        → InOrder (shape_of h) trace (log_of run) }
    ensures unfinished { (h : Header) (trace : List TraceLine) (run : Run) → Sound h trace run
        → BeginsInOrder (shape_of h) trace (log_of run) }
{}

/// Each RD and WR of a sound run serves a request, of which it is a reading or a writing, and no other command does. What
/// comes next is not served yet.
pub fn serves_by_columns()
    ensures none { (h : Header) (trace : List TraceLine) (run : Run) (s : Served) → IsSoundPlace h trace run s
        → s.request ≡ None → (is_rd s.issued.command ≡ false) × (is_wr s.issued.command ≡ false) }
    ensures some { (h : Header) (trace : List TraceLine) (run : Run) (s : Served) (r : Request)
        → IsSoundPlace h trace run s → s.request ≡ Some r → IsColumn r.kind s.issued.command }
    ensures next { (h : Header) (trace : List TraceLine) (run : Run) (r : Request) → Sound h trace run
        → IsNext (requests trace) run r → is_served r.number run ≡ false }
{}

// ---- A device

/// Each step of a sound run is one step of a device: a command that it may be given, with its bytes, or a bit that it may turn.
pub fn gives_to_a_device()
    ensures log { (h : Header) (trace : List TraceLine) (run : Run) → device_log (device_steps h trace run) ≡ log_of run }
    ensures given { (h : Header) (trace : List TraceLine) (run : Run) (s : Served) → IsAccepted h → IsSoundPlace h trace run s
        → IsGiven h s.issued.clock s.issued.command (bytes_for trace s.request) (device_steps h trace run) }
    ensures turns { (h : Header) (trace : List TraceLine) (run : Run) (number line device bit : ℕ)
        → slice_get trace (number - 1) ≡ Some (Flip line device bit)
        → device_steps h trace (Flips number ∷ run) ≡ Turns (place_of line (shape_of h)) device bit ∷ device_steps h trace run }
    ensures bit { (h : Header) (trace : List TraceLine) (number line device bit : ℕ) → IsAccepted h → AreInside (shape_of h) trace
        → slice_get trace (number - 1) ≡ Some (Flip line device bit) → IsBit h (place_of line (shape_of h)) device bit }
{}

/// What a device answers to the RD of a read is what the report says of it, then and after each later step.
pub fn answers_as_the_device()
    ensures device { (h : Header) (trace : List TraceLine) (run : Run) (s : Served) (r : Request)
        → Sound h trace (Issues s ∷ run) → s.request ≡ Some r → r.kind ≡ Reads
        → device_answer h s.issued.command (device_steps h trace run) ≡ Some (reading_of h trace (Issues s ∷ run) r) }
    ensures stays { (h : Header) (trace : List TraceLine) (step : Step) (run : Run) (r : Request)
        → is_served r.number run ≡ true → reading_of h trace (step ∷ run) r ≡ reading_of h trace run r }
{}

// ---- The report

/// The report has one D line for each R line of the trace, in the order of the trace. An unfinished one has those of the
/// reads before which no request is unserved.
pub fn answers_each_read()
    ensures finished { (h : Header) (trace : List TraceLine) (run : Run) (clock : ℕ) → IsRun h trace run clock
        → values (report h trace run) ≡ answers h trace run (requests trace) }
    ensures unfinished { (h : Header) (trace : List TraceLine) (run : Run)
        → values (report h trace run) ≡ answers h trace run (ready (requests trace) run) }
    ensures begins { (h : Header) (trace : List TraceLine) (run : Run)
        → values (report h trace run) ++ answers h trace run (held (requests trace) run) ≡ answers h trace run (requests trace) }
    ensures due { (h : Header) (trace : List TraceLine) (run : Run) (step : Step)
        → values (latest h trace run step) ≡ answers h trace (step ∷ run) (ready (held (requests trace) run) (step ∷ run)) }
{}

/// The C lines of a report are the log of its run.
pub fn shows_the_log()
    ensures { (h : Header) (trace : List TraceLine) (run : Run) → reverse (places_of (report h trace run)) ≡ log_of run }
{}

/// The F lines of a report are those of the trace, in order.
pub fn turns_each_bit()
    ensures { (h : Header) (trace : List TraceLine) (run : Run) (clock : ℕ) → IsRun h trace run clock
        → turned_bits (report h trace run) ≡ bits_of trace }
{}

/// More lines behind a trace change nothing of a run and its report so far.
pub fn rests_on_the_lines_so_far()
    ensures report { (h : Header) (trace more : List TraceLine) (run : Run) → Sound h trace run
        → report h (trace ++ more) run ≡ report h trace run }
    ensures sound { (h : Header) (trace more : List TraceLine) (run : Run) → Sound h trace run
        → Sound h (trace ++ more) run }
    ensures device { (h : Header) (trace more : List TraceLine) (run : Run) → Sound h trace run
        → device_steps h (trace ++ more) run ≡ device_steps h trace run }
    ensures through { (trace more : List TraceLine) (n : ℕ) (run : Run) → IsThrough trace n run → n ≤ length trace
        → IsThrough (trace ++ more) n run }
{}

/// The report of a run begins that of each run that goes on from it.
pub fn goes_on()
    ensures { (h : Header) (trace : List TraceLine) (later run : Run)
        → (rest : List ReportLine) × (report h trace (later ++ run) ≡ report h trace run ++ rest) }
{}

/// A trace without I lines asks for no waiting.
pub fn waits_for_no_idle()
    ensures { (trace : List TraceLine) (run : Run) (clock : ℕ) → idle_clocks trace ≡ [] → IsIdled trace run clock }
{}

/// One more step: the requests that are ready, and those that are held.
pub fn takes_from_the_held()
    ensures parts { (rs : List Request) (run : Run) → ready rs run ++ held rs run ≡ rs }
    ensures ready { (rs : List Request) (step : Step) (run : Run)
        → ready rs (step ∷ run) ≡ ready rs run ++ ready (held rs run) (step ∷ run) }
    ensures held { (rs : List Request) (step : Step) (run : Run) → held rs (step ∷ run) ≡ held (held rs run) (step ∷ run) }
{}

/// A finished report of a job within the limits has fewer lines after its separator than the limit on report lines.
pub fn stays_below_the_limit()
    ensures lines { (h : Header) (trace : List TraceLine) (run : Run) (clock : ℕ) (refusal : Option Refusal) → IsAccepted h
        → IsRun h trace run clock → length trace ≤ 1048576 → sum (idle_clocks trace) ≤ 4294967296
        → length (whole h trace run clock refusal) < 4294967295 }
{}

// ---- Barriers

/// A run that is through the first lines of a trace, as at a barrier: what the next F or I line leaves, and the end.
pub fn goes_through()
    ensures start { (trace : List TraceLine) → IsThrough trace 0 [] }
    ensures none { (trace : List TraceLine) (n : ℕ) (run : Run) (s : Served) → IsThrough trace n run → s.request ≡ None
        → IsThrough trace n (Issues s ∷ run) }
    ensures none_lines { (h : Header) (trace : List TraceLine) (run : Run) (s : Served) → s.request ≡ None
        → latest h trace run (Issues s) ≡ issued_line s.issued ∷ [] }
    ensures flip { (trace : List TraceLine) (n number : ℕ) (run : Run) (t : TraceLine) → IsThrough trace n run
        → slice_get trace n ≡ Some t → number ≡ n + 1 → request_of number t ≡ [] → flip_of number t ≡ number ∷ []
        → IsThrough trace number (Flips number ∷ run) }
    ensures idle { (trace : List TraceLine) (n number : ℕ) (run : Run) (t : TraceLine) → IsThrough trace n run
        → slice_get trace n ≡ Some t → number ≡ n + 1 → request_of number t ≡ [] → flip_of number t ≡ []
        → IsThrough trace number run }
    ensures all { (trace : List TraceLine) (n : ℕ) (run : Run) → IsThrough trace n run → length trace ≤ n
        → Serves (requests trace) run [] }
    ensures all_flips { (trace : List TraceLine) (n : ℕ) (run : Run) → IsThrough trace n run → length trace ≤ n
        → reverse (flipped run) ≡ flips trace }
{}

/// Where no more than `cap` requests stand in a row without an I line between them, fewer than `cap` requests with a greater
/// number are served before any given request.
pub fn caps_ages()
    ensures { (h : Header) (trace : List TraceLine) (run : Run) (clock cap : ℕ) (earlier later : List Request) (r : Request)
        → IsRun h trace run clock → IsCapped cap trace → requests trace ≡ earlier ++ r ∷ later
        → length (overtaking trace run r) < cap }
{}

// ---- A controller

/// Each step of a run is one step of a controller, which numbers the requests by their order; a request is served under
/// either number or under none.
pub fn gives_to_a_controller()
    ensures log { (trace : List TraceLine) (run : Run) → places (controller_steps trace run) ≡ log_of run }
    ensures served { (h : Header) (trace : List TraceLine) (run : Run) (earlier later : List Request) (r : Request)
        → Sound h trace run → requests trace ≡ earlier ++ r ∷ later
        → is_served_number (rank trace r.number) (controller_steps trace run) ≡ is_served r.number run }
    ensures rank { (trace : List TraceLine) (earlier later : List Request) (r : Request)
        → requests trace ≡ earlier ++ r ∷ later → rank trace r.number ≡ length earlier + 1 }
    ensures same_in_a_longer_trace { (h : Header) (trace more : List TraceLine) (run : Run) → Sound h trace run
        → controller_steps (trace ++ more) run ≡ controller_steps trace run }
    ensures none { (h : Header) (trace : List TraceLine) (run : Run) → Sound h trace run
        → waiting h (offered trace) (controller_steps trace run) ≡ [] → held (requests trace) run ≡ [] }
{
    requests::laws::oldest_unserved();
}

/// As many requests are not served as wait.
pub fn counts_the_unserved()
    ensures waiting { (h : Header) (trace : List TraceLine) (run : Run) → Sound h trace run
        → length (waiting h (offered trace) (controller_steps trace run)) ≡ length (unserved (requests trace) run) }
{}

/// The window of a trace is the queue of a controller that was offered what comes before the next barrier.
pub fn window_is_the_queue()
    ensures window { (h : Header) (trace : List TraceLine) (run : Run) (offers later : List Asked)
        → map asked (reach trace run) ≡ offers ++ later → AreKnown offers (controller_steps trace run)
        → length (waiting h offers (controller_steps trace run)) ≤ 32
        → span (length offers) (waiting h offers (controller_steps trace run)) ≤ 64
        → IsFull (length offers) (waiting h offers (controller_steps trace run)) ⊎ (later ≡ [])
        → waiting h offers (controller_steps trace run) ≡ window h trace run }
    ensures by_lines { (h : Header) (trace : List TraceLine) (run : Run) → Sound h trace run
        → window h trace run ≡ map (queued h trace) (candidates trace run (held (requests trace) run)) }
{
    requests::laws::queue_is_window();
}

// ---- A run under way

/// A run that has not begun. It goes on whatever line is ahead, and as time passes.
pub fn begins_a_run()
    ensures start { (h : Header) → IsUnderway h [] 0 0 [] Unknown }
    ensures ahead { (h : Header) (trace : List TraceLine) (n now : ℕ) (run : Run) (ahead : Ahead)
        → IsUnderway h trace n now run Unknown → IsUnderway h trace n now run ahead }
    ensures time_passes { (h : Header) (trace : List TraceLine) (n now later : ℕ) (run : Run) (ahead : Ahead)
        → IsUnderway h trace n now run ahead → now ≤ later → IsUnderway h trace n later run ahead }
{}

/// The next line is a request, which is offered: it is held, behind those that were.
pub fn takes_a_request()
    ensures stays_underway { (h : Header) (trace : List TraceLine) (n now : ℕ) (run : Run) (t : TraceLine) (r : Request)
        → IsUnderway h trace n now run (Next t) → request_of (1 + length trace) t ≡ r ∷ []
        → IsUnderway h (trace ++ t ∷ []) n now run Unknown }
    ensures offered { (trace : List TraceLine) (t : TraceLine) (r : Request) → request_of (1 + length trace) t ≡ r ∷ []
        → offered (trace ++ t ∷ []) ≡ offered trace ++ asked r ∷ [] }
    ensures held { (h : Header) (trace : List TraceLine) (run : Run) (t : TraceLine) (r : Request) → Sound h trace run
        → request_of (1 + length trace) t ≡ r ∷ []
        → held (requests (trace ++ t ∷ [])) run ≡ held (requests trace) run ++ r ∷ [] }
    ensures idle { (trace : List TraceLine) (t : TraceLine) (r : Request) → request_of (1 + length trace) t ≡ r ∷ []
        → idle_clocks (trace ++ t ∷ []) ≡ idle_clocks trace }
    ensures inside { (g : Shape) (trace : List TraceLine) (t : TraceLine) → AreInside g trace → IsInside g t
        → AreInside g (trace ++ t ∷ []) }
{}

/// A line that is read from a text is one of the subchannel, and a W line has 64 bytes.
pub fn reads_lines_inside()
    ensures inside { (g : Shape) (text : List ℕ) (line : TraceLine) → trace_line_of g text ≡ Ok line → IsInside g line }
{
    ddr_text::trace_grammar();
    ddr_text::laws::hex_gives_bytes();
}

/// What a controller chooses for its waiting requests serves them: an RD or WR the oldest one that lies in the open row of
/// its bank, no earlier than `from`, and another command none.
pub fn serves_what_is_chosen()
    ensures serving { (h : Header) (offers : List Asked) (log : List NumberedStep) (clock : ℕ) (command : Command)
        (id : Option ℕ)
        → ((kind : Kind) (bank : Bank) (column : ℕ) (id : Option ℕ) → IsBank bank
        → IsOldestHit (waiting h offers log) (bank_number bank) (open_at (bank_number bank) (places log)) kind column id
        → ServesNumbered h offers log kind bank column id)
        → IsInRange command → IsChosen h (waiting h offers log) (places log) clock command id
        → IsServing h offers log command id }
    ensures not_before_now { (h : Header) (ws : List Waiting) (log : Log) (from clock : ℕ) (command : Command) (id : Option ℕ)
        → IsPrompt h from log clock command → IsChosen h ws log clock command id → IfSome id (λ number. from ≤ clock) }
{}

/// A command is issued.
pub fn issues_a_command()
    ensures stays_underway { (h : Header) (trace : List TraceLine) (n now later : ℕ) (run : Run) (ahead : Ahead) (clock : ℕ)
        (command : Command) (id : Option ℕ) → IsUnderway h trace n now run ahead
        → IsIssued h trace run ahead now clock command id → now ≤ later → clock < later
        → IsUnderway h trace n later (issue trace clock command id ∷ run) ahead }
    ensures steps { (h : Header) (trace : List TraceLine) (run : Run) (clock : ℕ) (command : Command) (id : Option ℕ)
        → Sound h trace run → IsServing h (offered trace) (controller_steps trace run) command id
        → controller_steps trace (issue trace clock command id ∷ run)
        ≡ record { issued = record { clock = clock; command = command }; id = id } ∷ controller_steps trace run }
{
    requests::laws::queue_is_window();
}

/// The next line is an F line, and no request waits: the bit is turned.
pub fn carries_out_a_flip()
    ensures stays_underway { (h : Header) (trace : List TraceLine) (n now : ℕ) (run : Run) (line device bit : ℕ)
        → IsUnderway h trace n now run (Next (Flip line device bit))
        → waiting h (offered trace) (controller_steps trace run) ≡ []
        → IsUnderway h (trace ++ Flip line device bit ∷ []) (1 + length trace) now (Flips (1 + length trace) ∷ run) Unknown }
    ensures offered { (trace : List TraceLine) (line device bit : ℕ)
        → offered (trace ++ Flip line device bit ∷ []) ≡ offered trace }
    ensures lines { (h : Header) (trace : List TraceLine) (run : Run) (line device bit : ℕ)
        → latest h (trace ++ Flip line device bit ∷ []) run (Flips (1 + length trace))
        ≡ FlipLine (last_clock (log_of run)) line device bit ∷ [] }
    ensures idle { (trace : List TraceLine) (line device bit : ℕ)
        → idle_clocks (trace ++ Flip line device bit ∷ []) ≡ idle_clocks trace }
{
    requests::laws::oldest_unserved();
}

/// The next line is an I line, no request waits, and its clocks have passed.
pub fn carries_out_an_idle()
    ensures stays_underway { (h : Header) (trace : List TraceLine) (n now later : ℕ) (run : Run) (clocks : ℕ)
        → IsUnderway h trace n now run (Next (Idle clocks))
        → waiting h (offered trace) (controller_steps trace run) ≡ [] → now + clocks ≤ later
        → IsUnderway h (trace ++ Idle clocks ∷ []) (1 + length trace) later run Unknown }
    ensures offered { (trace : List TraceLine) (clocks : ℕ) → offered (trace ++ Idle clocks ∷ []) ≡ offered trace }
    ensures idle { (trace : List TraceLine) (clocks : ℕ)
        → idle_clocks (trace ++ Idle clocks ∷ []) ≡ idle_clocks trace ++ clocks ∷ [] }
{
    requests::laws::oldest_unserved();
}

/// No line is left and no request waits: where the end keeps its rules, the run is finished.
pub fn ends_a_run()
    ensures finished { (h : Header) (trace : List TraceLine) (n now clock : ℕ) (run : Run)
        → IsUnderway h trace n now run Ended → waiting h (offered trace) (controller_steps trace run) ≡ []
        → now ≤ clock → IsEnded h trace run clock → IsRun h trace run clock }
    ensures short { (h : Header) (trace : List TraceLine) (run : Run) (idle clock : ℕ) → idle ≡ sum (idle_clocks trace)
        → commands is_act (places (controller_steps trace run)) ≤ length (offered trace)
        → clock ≤ 2 * (idle + 8 * n_max h.timing * (length (offered trace) + 3))
        → length (controller_steps trace run) ≤ 28 + 5 * length (offered trace) + 5 * (clock / h.timing.nrefi)
        → IsShort h trace run clock }
{
    requests::laws::oldest_unserved();
}

// ---- The held requests, as a replay keeps them

/// What is at the front of the held requests: one that is served is ready, and is held no more.
pub fn takes_from_the_front()
    ensures ready_served { (r : Request) (rs : List Request) (run : Run) → is_served r.number run ≡ true
        → ready (r ∷ rs) run ≡ r ∷ ready rs run }
    ensures held_served { (r : Request) (rs : List Request) (run : Run) → is_served r.number run ≡ true
        → held (r ∷ rs) run ≡ held rs run }
    ensures ready_unserved { (r : Request) (rs : List Request) (run : Run) → is_served r.number run ≡ false
        → ready (r ∷ rs) run ≡ [] }
    ensures held_unserved { (r : Request) (rs : List Request) (run : Run) → is_served r.number run ≡ false
        → held (r ∷ rs) run ≡ r ∷ rs }
{}

/// The held requests have the numbers by order that follow those of the ready ones, and no two have one trace line.
pub fn numbers_the_held()
    ensures ranked { (trace : List TraceLine) (run : Run) (i id : ℕ) → id ≡ length (ready (requests trace) run) + i + 1
        → ranked trace (Some id) ≡ slice_get (held (requests trace) run) i }
    ensures apart { (trace : List TraceLine) (i j : ℕ) (r q : Request) → slice_get (requests trace) i ≡ Some r
        → slice_get (requests trace) j ≡ Some q → r.number ≡ q.number → i ≡ j }
{}
