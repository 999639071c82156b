/// A raw area gets the lowest free blocks behind its own, zero: each refusal, in the one order, and the nearest line that is
/// accepted.
pub(crate) const GROWN: &str = "\
run,--new,200,d => ready 200 0
grow a s 1 => refused 3 no application
app a 4 => ok
grow a s 1 => refused 5 no grant s
vsa a s 1 raw => ok
grow a s 0 => refused 1 syntax
grow a s 1 => ok
grow a s => refused 1 syntax
poke a s 0 0a => ok
poke a s 1 0b => ok
peek a s 2 => refused 9 out of range
vsa a t 1 raw => ok
grow a s 2 => ok
poke a t 0 0c => ok
peek a s 0 => ok 0a
peek a s 1 => ok 0b
peek a s 2 => ok -
peek a s 3 => ok -
peek a s 4 => refused 9 out of range
poke a s 3 0d => ok
peek a s 3 => ok 0d
peek a t 0 => ok 0c
peek a t 1 => refused 9 out of range
app b 4 => ok
grow b s 1 => refused 5 no grant s
grow c s 1 => refused 3 no application

run,--new,200,d => ready 200 0
app a 4 => ok
vsa a l 2 log => ok
vsa a q 2 queue => ok
vsa a s 2 raw => ok
vsic a v 2 => ok
door a d => ok
buf a b 512 => ok
grow a l 1 => refused 6 wrong kind
grow a q 1 => refused 6 wrong kind
grow a v 1 => refused 6 wrong kind
grow a d 1 => refused 6 wrong kind
grow a b 1 => refused 6 wrong kind
grow a l 1000 => refused 6 wrong kind
grow a r 1000 => refused 5 no grant r
grow a s 66 => refused 10 no space
grow a s 65 => ok
grow a s 1 => refused 10 no space
peek a s 66 => ok -
peek a s 67 => refused 9 out of range

run,--new,200,d => ready 200 0
app a 4 => ok
app b 4 => ok
vsa a s 1 raw => ok
vsa b s 1 raw => ok
grow a s 1 => ok
grow b s 1 => ok
grow a s 1 => ok
grow b s 1 => ok
grow a s 1 => ok
grow b s 1 => ok
grow a s 1 => ok
grow b s 1 => ok
grow a s 1 => ok
grow b s 1 => ok
grow a s 1 => ok
grow b s 1 => ok
grow a s 1 => ok
grow b s 1 => ok
grow a s 1 => ok
grow b s 1 => ok
grow a s 1 => ok
grow b s 1 => ok
grow a s 1 => ok
grow b s 1 => ok
grow a s 1 => ok
grow b s 1 => ok
grow a s 1 => ok
grow b s 1 => ok
grow a s 1 => ok
grow b s 1 => ok
grow a s 1 => ok
grow b s 1 => ok
grow a s 1 => ok
grow b s 1 => ok
grow a s 1 => refused 11 scattered
grow a s 40 => refused 10 no space
grow b s 2 => ok
poke a s 15 0a => ok
poke b s 17 0b => ok
peek a s 15 => ok 0a
peek b s 15 => ok -
peek b s 17 => ok 0b";

/// A script whose third line gives an area a block more.
pub(crate) const GROWTH: &[u8] = b"\
app a
vsa a s 1 raw
grow a s 1
grow a s 1
poke a s 1 08
poke a s 0 07
";

/// How it ends as each call of that line fails, as the rows of `failures` say it: the zeros of the new block, their sync, the
/// slot, its sync, and the put; and with none. A later `grow` finds the table failed, and the area has its own block alone.
pub(crate) const GROWTH_ENDS: &str = "\
11 0 0 => ready 200 0/ok/ok/refused 21 device fault/refused 22 table failed/refused 9 out of range/ok/: 0 15 7
11 1 0 => ready 200 0/ok/ok/refused 21 device fault/refused 22 table failed/refused 9 out of range/ok/: 0 15 7
12 0 0 => ready 200 0/ok/ok/refused 21 device fault/refused 22 table failed/refused 9 out of range/ok/: 0 16 7
13 0 0 => ready 200 0/ok/ok/refused 21 device fault/refused 22 table failed/refused 9 out of range/ok/: 0 17 7
13 1 0 => ready 200 0/ok/ok/refused 21 device fault/refused 22 table failed/refused 9 out of range/ok/: 0 17 7
14 0 0 => ready 200 0/ok/ok/refused 21 device fault/refused 22 table failed/refused 9 out of range/ok/: 0 18 7
15 0 0 => ready 200 0/ok/ok/: 3 14 0
99 0 0 => ready 200 0/ok/ok/ok/ok/ok/ok/: 0 23 7";
