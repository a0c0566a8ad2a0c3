//! In these logs a row reaches the bound on activations, which is `ATH + h + A - 1` for a cycle of A activations.
//! `docs/BOUND.md` says why no log goes above it. Each function does nothing: its contract says of worked logs of one
//! cycle that they break no rule and reach the bound. Where a row more leaves the height as it is, that row is left
//! alone.
ghost use Rattle.reached_bounds.specs.Climbing.{ReachesBound, climb, header};
ghost use Rattle.reached_bounds.specs.Rounds.{one_row_by_two, two_rows_by_two, four_rows_by_two, eight_rows_by_two, one_row_by_three, two_rows_by_three, three_rows_by_three, four_rows_by_three, six_rows_by_three, one_row_by_four, two_rows_by_four, three_rows_by_four, four_rows_by_four, five_rows_by_four, seven_rows_by_four, one_row_by_five, three_rows_by_five};

/// With two activations in a cycle.
pub fn two_per_cycle()
    ensures one_row { ReachesBound (header 2 1) (climb (header 2 1) one_row_by_two) }
    ensures two_rows { ReachesBound (header 2 2) (climb (header 2 2) two_rows_by_two) }
    ensures three_rows { ReachesBound (header 2 3) (climb (header 2 3) two_rows_by_two) }
    ensures four_rows { ReachesBound (header 2 4) (climb (header 2 4) four_rows_by_two) }
    ensures five_rows { ReachesBound (header 2 5) (climb (header 2 5) four_rows_by_two) }
    ensures six_rows { ReachesBound (header 2 6) (climb (header 2 6) four_rows_by_two) }
    ensures seven_rows { ReachesBound (header 2 7) (climb (header 2 7) four_rows_by_two) }
    ensures eight_rows { ReachesBound (header 2 8) (climb (header 2 8) eight_rows_by_two) }
{}

/// With three activations in a cycle.
pub fn three_per_cycle()
    ensures one_row { ReachesBound (header 3 1) (climb (header 3 1) one_row_by_three) }
    ensures two_rows { ReachesBound (header 3 2) (climb (header 3 2) two_rows_by_three) }
    ensures three_rows { ReachesBound (header 3 3) (climb (header 3 3) three_rows_by_three) }
    ensures four_rows { ReachesBound (header 3 4) (climb (header 3 4) four_rows_by_three) }
    ensures five_rows { ReachesBound (header 3 5) (climb (header 3 5) four_rows_by_three) }
    ensures six_rows { ReachesBound (header 3 6) (climb (header 3 6) six_rows_by_three) }
    ensures seven_rows { ReachesBound (header 3 7) (climb (header 3 7) six_rows_by_three) }
{}

/// With four activations in a cycle.
pub fn four_per_cycle()
    ensures one_row { ReachesBound (header 4 1) (climb (header 4 1) one_row_by_four) }
    ensures two_rows { ReachesBound (header 4 2) (climb (header 4 2) two_rows_by_four) }
    ensures three_rows { ReachesBound (header 4 3) (climb (header 4 3) three_rows_by_four) }
    ensures four_rows { ReachesBound (header 4 4) (climb (header 4 4) four_rows_by_four) }
    ensures five_rows { ReachesBound (header 4 5) (climb (header 4 5) five_rows_by_four) }
    ensures seven_rows { ReachesBound (header 4 7) (climb (header 4 7) seven_rows_by_four) }
{}

/// With five activations in a cycle.
pub fn five_per_cycle()
    ensures one_row { ReachesBound (header 5 1) (climb (header 5 1) one_row_by_five) }
    ensures three_rows { ReachesBound (header 5 3) (climb (header 5 3) three_rows_by_five) }
{}
