use crate::laws;

#[test]
fn laws_return() {
    laws::headline();
    laws::reads_plain_memory();
    laws::bounds_activations();
    laws::serves_in_order();
    laws::serves_by_columns();
    laws::gives_to_a_device();
    laws::answers_as_the_device();
    laws::answers_each_read();
    laws::shows_the_log();
    laws::turns_each_bit();
    laws::rests_on_the_lines_so_far();
    laws::goes_on();
    laws::waits_for_no_idle();
    laws::takes_from_the_held();
    laws::stays_below_the_limit();
    laws::goes_through();
    laws::gives_to_a_controller();
    laws::counts_the_unserved();
    laws::window_is_the_queue();
    laws::begins_a_run();
    laws::takes_a_request();
    laws::reads_lines_inside();
    laws::serves_what_is_chosen();
    laws::issues_a_command();
    laws::carries_out_a_flip();
    laws::carries_out_an_idle();
    laws::ends_a_run();
    laws::takes_from_the_front();
    laws::numbers_the_held();
}
