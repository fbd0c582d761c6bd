// A text of 65,537 bytes on standard input, one more than a script may have. But for its last byte it is a script, so that reading
// one byte too few would show: both programs refuse it with 9, on line 0.
#![tactic(auto)]

use printing::ENOUGH;

// (As `judge` and `sweep`, for both at once.)
fn main(rt: HostRuntime) {
    let mut text = [0u8; ENOUGH];
    let mut input = rt.stdin();
    let len = printing::read_full(&mut input, &mut text);
    if printing::input_ended(&rt, &mut input, len) {
        let mut output = rt.stdout();
        printing::print_sweep(&rt, &mut output, &text[..len]);
        printing::print_judge(&rt, &mut output, &text[..len]);
    }
}
