//! Runs of the whole control plane over a world in memory: what no clause says, against values from outside. Their lines and
//! replies stand in tables.
#![tactic(auto)]

#[cfg(test)]
mod areas;
#[cfg(test)]
mod cards;
#[cfg(test)]
mod checked;
#[cfg(test)]
mod commands;
#[cfg(test)]
mod cycles;
#[cfg(test)]
mod failures;
#[cfg(test)]
mod formatted;
#[cfg(test)]
mod growing;
#[cfg(test)]
mod lines;
#[cfg(test)]
mod logs;
#[cfg(test)]
mod nets;
#[cfg(test)]
mod rates;
#[cfg(test)]
mod reopened;
#[cfg(test)]
mod runs;
#[cfg(test)]
mod stops;
#[cfg(test)]
mod table;
#[cfg(test)]
mod words;
#[cfg(test)]
mod worked;
