// The commands for people, each in a module of its own; those in bin/ run them.
//
//     commands charge PROFILE EVENTS                charges a file of events (charge.rt)
//     commands show [--json] RECORDS                shows a record list (show.rt)
//     commands count RECORDS ID GGSN                counts the records of a context in a record list (count.rt)
//     commands both PROFILE EVENTS RECORDS          charges and shows, as `rt ci` has it
//     commands all PROFILE EVENTS RECORDS ID GGSN   does all three, one after the other
//
// No contract can say what is read or written: each function is proved safe and ending.
#![tactic(auto)]

mod charge;
mod count;
mod refusal;
mod show;

fn main(rt: HostRuntime) {
    let output = rt.stdout();
    let error = rt.stderr();
    let mut held = [0u8; 16];
    match setup::arg(&rt, 1, &mut held) {
        b"charge" => charge::main(&rt, output, error),
        b"show" => show::main(&rt, output, error),
        b"count" => count::main(&rt, output, error),
        b"both" => {
            charge::charge_file(&rt, output, error);
            show::show_file(&rt, output, error, 4, shown::Style::Text);
        }
        b"all" => {
            charge::charge_file(&rt, output, error);
            show::show_file(&rt, output, error, 4, shown::Style::Text);
            count::count_file(&rt, output, error, 4);
        }
        _ => setup::say_line(error, b"usage: commands charge|show|count ARGUMENT..\n"),
    }
}
