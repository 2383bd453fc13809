//! Tests of listeners and of the sessions of several ports.
//!
//! By `tb_real_listen` and `tb_io` alone: sessions over loopback, with clients that stay and
//! clients that go away, what waits between the two ends of a session, and sessions in memory. By
//! `tb_serve`: many sessions beside publications, and sessions over loopback whose clients go away.
//! By the top call: clients that wait for each other's replies, listeners that fail, servers with a
//! journal, and mirrors.
//!
//! Begin at `waiting.rt`; `running.rt` and `command.rt` have whole calls, `ports.rt` and `talks.rt`
//! sessions in memory, `peers.rt` and `clients.rt` clients over loopback.
#![tactic(auto)]

#[cfg(test)]
mod accepting;
#[cfg(test)]
mod clients;
#[cfg(test)]
mod command;
#[cfg(test)]
mod compared;
#[cfg(test)]
mod doors;
#[cfg(test)]
mod failing;
#[cfg(test)]
mod held;
#[cfg(test)]
mod hosting;
#[cfg(test)]
mod loopback;
#[cfg(test)]
mod many;
#[cfg(test)]
mod mirroring;
#[cfg(test)]
mod peers;
#[cfg(test)]
mod ports;
#[cfg(test)]
mod running;
#[cfg(test)]
mod streams;
#[cfg(test)]
mod talks;
#[cfg(test)]
mod tasks;
#[cfg(test)]
mod unspoiled;
#[cfg(test)]
mod waiting;
