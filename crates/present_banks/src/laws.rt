//! Definitions of a log go over all 32 numbers of banks. With 4 bank groups half of these numbers have no bank. Each
//! function does nothing: its contract says that a definition comes to the same over the header's own banks, for every
//! accepted header and every log whose commands are within the header's ranges.
ghost use Rattle.std.specs.Prelude.{◌≡◌, ◌<◌, ℕ, IsSome, IsTrue};
ghost use Rattle.command_words.specs.declared.command.Command.{Command};
ghost use Rattle.speed_bin.specs.Alert.{alert, is_hot};
ghost use Rattle.speed_bin.specs.Counts.{peak};
ghost use Rattle.speed_bin.specs.Header.{IsAccepted};
ghost use Rattle.speed_bin.specs.Log.{Log, open_at};
ghost use Rattle.speed_bin.specs.Marks.{RowsInRange, stays_inside};
ghost use Rattle.speed_bin.specs.Page.{keeps_page};
ghost use Rattle.speed_bin.specs.Rules.{rules_at, rules_at_end, verdict, verdict_at_end};
ghost use Rattle.speed_bin.specs.declared.header.Header.{Header};
ghost use Rattle.present_banks.specs.Over.{banks_of_header, alert_over, is_hot_over, keeps_page_over, peak_over, rules_at_over, rules_at_end_over, verdict_over, verdict_at_end_over};

/// Each of the fourteen tests of a command, and of an end.
pub fn rules()
    ensures at_a_place { (h : Header) (clock : ℕ) (command : Command) (log : Log) → IsAccepted h → RowsInRange h log → IsTrue (stays_inside h command)
        → rules_at h clock command log ≡ rules_at_over (banks_of_header h) h clock command log }
    ensures at_the_end { (h : Header) (clock : ℕ) (log : Log) → IsAccepted h → RowsInRange h log
        → rules_at_end h clock log ≡ rules_at_end_over (banks_of_header h) h clock log }
{}

/// The verdict on a log, without its end and with it.
pub fn verdicts()
    ensures so_far { (h : Header) (log : Log) → IsAccepted h → RowsInRange h log → verdict h log ≡ verdict_over (banks_of_header h) h log }
    ensures at_the_end { (h : Header) (clock : ℕ) (log : Log) → IsAccepted h → RowsInRange h log
        → verdict_at_end h clock log ≡ verdict_at_end_over (banks_of_header h) h clock log }
{}

/// Whether some row is hot, and the alert.
pub fn alerts()
    ensures hot { (h : Header) (log : Log) → IsAccepted h → RowsInRange h log → is_hot h log ≡ is_hot_over (banks_of_header h) h log }
    ensures raised { (h : Header) (log : Log) → IsAccepted h → RowsInRange h log → alert h log ≡ alert_over (banks_of_header h) h log }
{}

/// Whether the log keeps pages open.
pub fn open_page()
    ensures keeps_page { (h : Header) (log : Log) → IsAccepted h → RowsInRange h log → keeps_page log ≡ keeps_page_over (banks_of_header h) log }
{}

/// The greatest number of activations of a row since its last mitigation.
pub fn greatest_activations()
    ensures own_banks { (h : Header) (log : Log) → IsAccepted h → RowsInRange h log → peak h log ≡ peak_over (banks_of_header h) h log }
    ensures all_numbers { (h : Header) (log : Log) → IsAccepted h → RowsInRange h log → peak h log ≡ peak_over 32 h log }
{}

/// An open bank is one of the header's.
pub fn open_banks()
    ensures present { (h : Header) (b : ℕ) (log : Log) → RowsInRange h log → IsSome (open_at b log) → b < banks_of_header h }
{}

/// Over all 32 numbers the definitions are those that all other crates use, whatever the log.
pub fn all_numbers()
    ensures at_a_place { (h : Header) (clock : ℕ) (command : Command) (log : Log) → rules_at h clock command log ≡ rules_at_over 32 h clock command log }
    ensures at_the_end { (h : Header) (clock : ℕ) (log : Log) → rules_at_end h clock log ≡ rules_at_end_over 32 h clock log }
    ensures verdict { (h : Header) (log : Log) → verdict h log ≡ verdict_over 32 h log }
    ensures verdict_at_the_end { (h : Header) (clock : ℕ) (log : Log) → verdict_at_end h clock log ≡ verdict_at_end_over 32 h clock log }
    ensures alert { (h : Header) (log : Log) → alert h log ≡ alert_over 32 h log }
    ensures open_page { (log : Log) → keeps_page log ≡ keeps_page_over 32 log }
{}
