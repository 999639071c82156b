/// The smallest device, and each spelling of the command.
pub(crate) const COMMANDS: &str = "\
run,--new,130,d => ready 130 0

run,--new=130,d => ready 130 0

run,d,--new,4096 => ready 4096 0

run,--new,4096,--,-x => ready 4096 0

run,--new,4096,- => ready 4096 0";

/// Words that are no command, and none at all: nothing is made, and the line of the script has no reply.
pub(crate) const OTHER_WORDS: &str = "\
run => fault usage
app a

 => fault usage
app a

run,--new,200 => fault usage
app a

run,--new,200, => fault usage
app a

run,--new,200,d,e => fault usage
app a

run,--new,129,d => fault usage
app a

run,--new,1048577,d => fault usage
app a

run,--new,4294967496,d => fault usage
app a

run,--new,0200,d => fault usage
app a

run,--new,+200,d => fault usage
app a

run,--new,-200,d => fault usage
app a

run,--new,,d => fault usage
app a

run,--new,200 ,d => fault usage
app a

run,--New,200,d => fault usage
app a

Run,--new,200,d => fault usage
app a

check,--new,200,d => fault usage
app a

run,--new,200,-x => fault usage
app a

run,--new,200,--new=200,d => fault usage
app a

work,1,d => fault usage
app a

work,1,0,d,e => fault usage
app a

work,01,0,d => fault usage
app a

work,18446744073709551616,0,d => fault usage
app a

work,1,1000001,d => fault usage
app a

work,1,0, => fault usage
app a

work,--new=4096,1,0,d => fault usage
app a";
