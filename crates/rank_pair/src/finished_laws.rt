//! The laws of a finished run.
ghost use Rattle.rank_pair.specs.FinishedLaws.{FinishedLaws};

/// The laws that the end of a report rests on. It does nothing.
pub(crate) fn finished_laws()
    ensures { FinishedLaws }
{
    pair_headline::laws::headline();
    pair_headline::laws::counts_commands();
}
