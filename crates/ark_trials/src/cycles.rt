//! What an application does with a storage card, from its grant to the bytes that it shows.

/// A full ring; blocks that were given up while a descriptor was on them; a door that rings; and buffers, by their places.
pub(crate) const CYCLES: &str = "\
run,--new,200,d => ready 200 0
app a => ok
vsa a s 4 raw => ok
vsic a v 2 => ok
bind a v s => ok
buf a m 512 => ok
buf a n 512 => ok
buf a o 512 => ok
put a v s 0 1 m => ok
put a v s 1 1 n => ok
put a v s 2 1 o => refused 13 ring full
dev a v => done ok
put a v s 2 1 o => refused 13 ring full
free a m => refused 15 lent
reap a v => ok put m ok
put a v s 2 1 o => ok

run,--new,200,d => ready 200 0
app a => ok
app b => ok
vsa a s 2 raw => ok
vsic a v 2 => ok
bind a v s => ok
buf a m 1024 => ok
fill a m 0 11 => ok
put a v s 0 2 m => ok
dev a v => moved
drop a s => ok
vsa b t 2 raw => ok
dev a v => done no grant
reap a v => ok put m no grant
peek b t 0 => ok -
peek b t 1 => ok -

run,--new,200,d => ready 200 0
app a => ok
vsa a s 2 raw => ok
vsa a t 1 raw => ok
grow a s 2 => ok
poke a s 2 aa => ok
vsic a v 2 => ok
bind a v s => ok
door a d => ok
watch a v d io => ok
buf a m 512 => ok
get a v s 2 1 m => ok
dev a v => done ok
look a d => ok 0 0 1
look a d => ok 0 0 0
reap a v => ok get m ok
show a m 0 1 => ok aa

run,--new,200,d => ready 200 0
app a 4 => ok
buf a m 1024 => ok
buf a n 512 => ok
free a m => ok
buf a o 513 => ok
buf a p 513 => refused 14 no buffer
buf a p 512 => ok";
