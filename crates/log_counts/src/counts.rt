//! How many commands of each kind a log has, and how often it raised the alert.
ghost use Rattle.std.specs.Prelude.{ℕ, ◌≡◌, ◌<◌, ◌^◌, [], ◌∷◌, length, is_some};
ghost use Rattle.speed_bin.specs.Alert.{alert as alert_after};
ghost use Rattle.speed_bin.specs.Log.{Log};
ghost use Rattle.speed_bin.specs.declared.header.Header.{Header as AnyHeader};
ghost use Rattle.log_counts.specs.Counts.{counts_of, with_alert, with_command, AreFew};

use command_words::Command;

/// How many commands of each kind were issued, and how often the alert was raised.
#[derive(Clone, Copy, Debug, PartialEq, Eq)]
pub struct Counts {
    pub act: u64,
    pub rd: u64,
    pub wr: u64,
    /// Precharges of all three forms.
    pub pre: u64,
    pub refab: u64,
    pub refsb: u64,
    pub rfmab: u64,
    pub rfmsb: u64,
    pub ecs: u64,
    pub alerts: u64,
    /// Whether the alert is raised now.
    pub is_raised: bool,
}

impl Counts {
    /// Before the first command.
    #[tactic(auto, unfolding(crate::specs::Counts::counts_of))]
    pub fn new() -> Counts
        ensures { (h : AnyHeader) → result ≡ counts_of h [] }
    {
        Counts {
            act: 0,
            rd: 0,
            wr: 0,
            pre: 0,
            refab: 0,
            refsb: 0,
            rfmab: 0,
            rfmsb: 0,
            ecs: 0,
            alerts: 0,
            is_raised: false,
        }
    }

    /// Notes a command, and whether the alert is raised after it. Fewer than 2^48 were noted.
    pub fn note(&mut self, command: &Command, is_raised: bool)
        requires { (h : AnyHeader) × (log : Log) × (self.old ≡ counts_of h log) × (length log < 2 ^ 48) }
        ensures { (h : AnyHeader) (clock : ℕ) (log : Log) → self.old ≡ counts_of h log
            → is_raised ≡ is_some (alert_after h (record { clock = clock; command = command.now } ∷ log))
            → self.new ≡ counts_of h (record { clock = clock; command = command.now } ∷ log) }
    {
        self.note_alert(is_raised);
        self.note_kind(command);
    }

    // Notes whether the alert is raised.
    fn note_alert(&mut self, is_raised: bool)
        requires { self.old.alerts < 2 ^ 48 }
        ensures { self.new ≡ with_alert is_raised self.old }
    {
        if is_raised && !self.is_raised {
            self.alerts += 1;
        }
        self.is_raised = is_raised;
    }

    // Counts the command with those of its kind.
    fn note_kind(&mut self, command: &Command)
        requires { AreFew self.old }
        ensures { self.new ≡ with_command command.now self.old }
    {
        match command {
            Command::Act(_, _) => self.act += 1,
            Command::Rd(_, _) => self.rd += 1,
            Command::Wr(_, _) => self.wr += 1,
            Command::PrePb(_) => self.pre += 1,
            Command::PreSb(_) => self.pre += 1,
            Command::PreAb => self.pre += 1,
            Command::RefAb => self.refab += 1,
            Command::RefSb(_) => self.refsb += 1,
            Command::RfmAb => self.rfmab += 1,
            Command::RfmSb(_) => self.rfmsb += 1,
            Command::Ecs => self.ecs += 1,
            Command::Mrw(_) => {}
            Command::Nop => {}
        }
    }
}
