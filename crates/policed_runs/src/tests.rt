use crate::laws;

#[test]
fn laws_return() {
    laws::one_step();
    laws::one_run();
    laws::goes_on();
    laws::one_report();
}
