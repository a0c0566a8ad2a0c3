//! The alert back-off of per-row activation counting: the device raises ALERT_n, and an RFMab takes it back.
ghost use Rattle.std.specs.Prelude.{◌≡◌, ℕ, ◌+◌, ◌^◌, ◌<◌, ◌∷◌, [], ◌&&◌, Bool, false, None, Option, IsTrue};
ghost use Rattle.command_words.specs.declared.command.Command.{Command as AnyCommand};
ghost use Rattle.command_words.specs.declared.command.Command.TheVariants.{RfmAb};
ghost use Rattle.speed_bin.specs.declared.header.Header.{Header as AnyHeader};
ghost use Rattle.command_words.specs.Kinds.{is_precharge, is_rfm_all};
ghost use Rattle.speed_bin.specs.Log.{Log};
ghost use Rattle.speed_bin.specs.Alert.{alert, alert_after, closes_some, is_hot};
ghost use Rattle.speed_bin.specs.Rules.{after};
ghost use Rattle.speed_bin.specs.Gap.{n_tail};
ghost use Rattle.speed_bin.specs.Timing.{IsTiming};
ghost use Rattle.backoff.specs.Standing.{StandsFor};

use speed_bin::Timing;
use std::marker::Model;

/// The alert of a log: whether it is raised, and since which clock.
#[derive(Drop)]
pub struct Alert {
    raised: Option<u64>,
}

impl Model for Alert {
    ghost use Rattle.std.specs.Prelude.{ℕ, ◌<◌, ◌^◌, Option, IfSome};

    ghost Value = { Option ℕ };

    ghost view = { λ s. s.raised };

    ghost invariant = { λ s. IfSome s.raised (λ clock. clock < 2 ^ 48) };
}

impl Alert {
    /// The alert is not raised.
    pub fn new() -> Self
        ensures value { result ≡ None }
        ensures log { (h : AnyHeader) → StandsFor result h [] }
    {
        Alert { raised: None }
    }

    /// Appends a precharge at this clock to the log. It raises the alert if some bank is hot after it, if it closed an
    /// open bank, and if the alert was not raised before.
    pub fn after_precharge(&mut self, clock: u64, hot: bool, closed: bool)
        requires { clock < 2 ^ 48 }
        ensures value { self.new ≡ alert_after false (closed && hot) clock self.old }
        ensures log { (h : AnyHeader) (command : AnyCommand) (log : Log) → StandsFor self.old h log
            → IsTrue (is_precharge command) → closed ≡ closes_some command log
            → hot ≡ is_hot h (record { clock = clock; command = command } ∷ log)
            → StandsFor self.new h (record { clock = clock; command = command } ∷ log) }
    {
        if self.raised.is_none() && hot && closed {
            self.raised = Some(clock);
        }
    }

    /// Appends an RFMab to the log. The alert is not raised after it.
    pub fn after_rfm_all(&mut self)
        ensures value { self.new ≡ None }
        ensures log { (h : AnyHeader) (clock : ℕ) (log : Log) → StandsFor self.old h log
            → StandsFor self.new h (record { clock = clock; command = RfmAb } ∷ log) }
    {
        self.raised = None;
    }

    /// A law: a command that is neither a precharge nor RFMab, at whatever clock, leaves the alert as it is.
    pub fn stays()
        ensures log { (it : Option ℕ) (h : AnyHeader) (clock : ℕ) (command : AnyCommand) (log : Log) → StandsFor it h log
            → is_precharge command ≡ false → is_rfm_all command ≡ false
            → StandsFor it h (record { clock = clock; command = command } ∷ log) }
    {}

    /// The clock at which the alert was raised; `None` exactly where no alert is raised.
    #[tactic(auto, unfolding(crate::specs::Standing::StandsFor))]
    pub fn raised(&self) -> Option<u64>
        ensures value { result ≡ self.now }
        ensures log { (h : AnyHeader) (log : Log) → StandsFor self.now h log → result ≡ alert h log }
    {
        self.raised
    }

    /// The last clock at which an ACT may stand while the alert is raised, nABO after it was raised; `None` exactly
    /// where no alert is raised.
    #[tactic(auto, unfolding(crate::specs::Standing::StandsFor))]
    pub fn last_activate(&self, timing: &Timing) -> Option<u64>
        requires { IsTiming timing.now }
        ensures value { result ≡ after self.now timing.now.nabo }
        ensures log { (h : AnyHeader) (log : Log) → StandsFor self.now h log
            → result ≡ after (alert h log) timing.now.nabo }
    {
        let raised = self.raised?;
        Some(raised + u64::from(timing.nabo))
    }

    /// The last clock at which any command may stand while the alert is raised, nABO + nTail after it was raised;
    /// `None` exactly where no alert is raised.
    #[tactic(auto, unfolding(crate::specs::Standing::StandsFor))]
    pub fn deadline(&self, timing: &Timing) -> Option<u64>
        requires { IsTiming timing.now }
        ensures value { result ≡ after self.now (timing.now.nabo + n_tail timing.now) }
        ensures log { (h : AnyHeader) (log : Log) → StandsFor self.now h log
            → result ≡ after (alert h log) (timing.now.nabo + n_tail timing.now) }
    {
        let raised = self.raised?;
        Some(raised + u64::from(timing.nabo + timing.n_tail()))
    }
}
