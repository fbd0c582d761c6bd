// A script on standard input; on standard output the verdict and the suggested history of every run, or what refuses it
// (document 01, "Scripts and the two programs"). A script that cannot be read to its end is not run.
#![tactic(auto)]

use printing::ENOUGH;

// (`sweep` has these lines but for the program: three calls, each with its promise. A function for both would be a fourth to promise and
// to prove, and say no more than the three.)
fn main(rt: HostRuntime) {
    let mut text = [0u8; ENOUGH];
    let mut input = rt.stdin();
    let len = printing::read_full(&mut input, &mut text);
    if printing::input_ended(&rt, &mut input, len) {
        printing::print_judge(&rt, &mut rt.stdout(), &text[..len]);
    }
}
