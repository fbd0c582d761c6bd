// A script on standard input; on standard output every run of its sweep, or what refuses it (document 01, "Scripts and the two
// programs"). A script that cannot be read to its end is not run.
#![tactic(auto)]

use printing::ENOUGH;

// (`judge` has these lines but for the program, and says why.)
fn main(rt: HostRuntime) {
    let mut text = [0u8; ENOUGH];
    let mut input = rt.stdin();
    let len = printing::read_full(&mut input, &mut text);
    if printing::input_ended(&rt, &mut input, len) {
        printing::print_sweep(&rt, &mut rt.stdout(), &text[..len]);
    }
}
