//! What follows from the rules of the bus. Each function does nothing: its contract is one law, over the definitions alone.
ghost use Rattle.std.specs.Prelude.{◌≡◌, ℕ};
ghost use Rattle.command_words.specs.declared.command.Command.{Command};
ghost use Rattle.speed_bin.specs.Log.{Log};
ghost use Rattle.speed_bin.specs.declared.header.Header.{Header};
ghost use Rattle.speed_bin.specs.declared.timing.Timing.{Timing as AnyTiming};
ghost use Rattle.timing_rules.specs.Spaced.{IsSpaced};
ghost use Rattle.rank_bus.specs.Buses.{AllShare, BusLog, ClocksRise, IsEarliest, part};
ghost use Rattle.rank_bus.specs.declared.rank.Rank.TheVariants.{Zero, One};

/// Where each rank keeps the rules of spacing, and both keep the gaps of the bus, the clocks of both ranks together rise
/// strictly.
pub fn clocks_rise()
    ensures together { (t : AnyTiming) (bus : BusLog) → IsSpaced t (part Zero bus) → IsSpaced t (part One bus) → AllShare bus → ClocksRise bus }
{}

/// A command has one earliest clock.
pub fn is_one()
    ensures one { (h : Header) (own rest : Log) (from clock later : ℕ) (command : Command)
        → IsEarliest h own rest from command clock → IsEarliest h own rest from command later → clock ≡ later }
{}
