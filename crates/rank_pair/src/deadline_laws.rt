//! The laws of the deadlines of two ranks.
ghost use Rattle.rank_pair.specs.DeadlineLaws.{DeadlineLaws};

/// The laws that each command, wait and end rests on. It does nothing.
pub(crate) fn deadline_laws()
    ensures { DeadlineLaws }
{
    pair_deadlines::laws::start();
    pair_deadlines::laws::writes();
    pair_deadlines::laws::written();
    pair_deadlines::laws::activates();
    pair_deadlines::laws::accesses();
    pair_deadlines::laws::closes();
    pair_deadlines::laws::answers();
    pair_deadlines::laws::unanswered();
    pair_deadlines::laws::begins();
    pair_deadlines::laws::serves();
    pair_deadlines::laws::turns();
    pair_deadlines::laws::waits();
    pair_deadlines::laws::rules();
    pair_deadlines::laws::bounds();
    pair_deadlines::laws::soon();
}
