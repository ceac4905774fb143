//! Tests of the turns of a bench and of runs of scripts and sweeps, with blocks, text and counts worked out by hand:
//! commands with a failing device call, a power-on that undoes a journal, ends of scripts, commands cut at each write,
//! failing readers and writers, the runs of a sweep, and a card that is paused.
#![tactic(auto)]

#[cfg(test)]
mod cuts;
#[cfg(test)]
mod failed_blocks;
#[cfg(test)]
mod memories;
#[cfg(test)]
mod one_word_board;
#[cfg(test)]
mod pauses;
#[cfg(test)]
mod readers;
#[cfg(test)]
mod replies;
#[cfg(test)]
mod scripts;
#[cfg(test)]
mod sweeping;
