/// Time goes on by the ticks of each line, and the answer is the tick.
pub(crate) const TICKS: &str = "\
run,--new,200,d => ready 200 0
tick 1 => ok 1

run,--new,200,d => ready 200 0
tick 5 => ok 5
tick 7 => ok 12

run,--new,200,d => ready 200 0
tick 1000000000 => ok 1000000000
tick 1000000000 => ok 2000000000
tick 1000000000 => ok 3000000000
tick 1000000000 => ok 4000000000
tick 1000000000 => ok 5000000000

run,--new,200,d => ready 200 0
tick 2 => ok 2
app a => ok
frob => refused 2 unknown word
tick 2 => ok 4

run,--new,200,d => ready 200 0
tick 0 => refused 1 syntax
tick 3 => ok 3

run,--new,200,d => ready 200 0
tick 1000000001 => refused 1 syntax

run,--new,200,d => ready 200 0
tick => refused 1 syntax

run,--new,200,d => ready 200 0
tick 01 => refused 1 syntax";

/// The addresses of this end are given once; a line that breaks their form gives none.
pub(crate) const ADDRESSES: &str = "\
run,--new,200,d => ready 200 0
nic 020000000001 10.0.0.1 020000000002 => ok
nic 020000000001 10.0.0.1 020000000002 => refused 4 name taken
nic 020000000003 10.0.0.2 020000000004 => refused 4 name taken
app nic => ok

run,--new,200,d => ready 200 0
app a => ok
vsa a s 1 raw => ok
poke a s 0 0a => ok
tick 3 => ok 3
nic 020000000001 10.0.0 020000000002 => refused 1 syntax
nic 020000000001 10.0.0.1 => refused 1 syntax
nic 02000000000 10.0.0.1 020000000002 => refused 1 syntax
nic 020000000001 10.0.0.1 020000000002 => ok
peek a s 0 => ok 0a
tick 1 => ok 4
vsa a s 1 raw => refused 4 name taken";

/// An application may ask for its frames of memory.
pub(crate) const FRAMES: &str = "\
run,--new,200,d => ready 200 0
app a 64 => ok

run,--new,200,d => ready 200 0
app a 4 => ok
app a 64 => refused 4 name taken

run,--new,200,d => ready 200 0
app a 4096 => ok
app b => ok

run,--new,200,d => ready 200 0
app a 3 => refused 1 syntax

run,--new,200,d => ready 200 0
app a 4097 => refused 1 syntax

run,--new,200,d => ready 200 0
app a 064 => refused 1 syntax

run,--new,200,d => ready 200 0
app a 64 64 => refused 1 syntax

run,--new,200,d => ready 200 0
app a  64 => refused 1 syntax";

/// A word that is not built is read, and then refused as unknown.
pub(crate) const WORDS_TO_COME: &str = "\
run,--new,200,d => ready 200 0
recv a k => refused 2 unknown word

run,--new,200,d => ready 200 0
send a v b 14 => refused 2 unknown word

run,--new,200,d => ready 200 0
settle a s => refused 2 unknown word

run,--new,200,d => ready 200 0
vsa a s 8 => refused 1 syntax

run,--new,200,d => ready 200 0
door a => refused 1 syntax

run,--new,200,d => ready 200 0
peek a s x => refused 1 syntax";

/// One run of all words that are built, with lines of other words and forms between them.
pub(crate) const EVERY_WORD: &str = "\
run,--new,400,d => ready 400 0
app web => ok
app db => ok
app web => refused 4 name taken
app => refused 1 syntax
app Web => refused 1 syntax
app  web => refused 1 syntax
apps => refused 2 unknown word
 => refused 2 unknown word
frob => refused 2 unknown word
app a 4 => ok
app b 3 => refused 1 syntax
tick 5 => ok 5
nic 020000000001 10.0.0.1 020000000002 => ok
door a d => ok
look a d => ok 0 0 0
recv a k => refused 2 unknown word
nic 020000000001 10.0.0.1 020000000002 => refused 4 name taken
tick 7 => ok 12
app kv_store_1 => ok
app a => refused 4 name taken
vsa a s 2 raw => ok
poke a s 1 0aff => ok
peek a s 0 => ok -
app b => ok
vsa b s 1 raw => ok
poke b s 0 0b => ok
peek a s 1 => ok 0aff
peek b s 0 => ok 0b
grow b s 2 => ok
peek b s 2 => ok -
vsa b t 300 raw => refused 10 no space
drop a s => ok
peek a s 1 => refused 5 no grant s
vsa b t 2 raw => ok
peek b t 1 => ok -";
