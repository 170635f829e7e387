//! Tests of the command: its devices, its lines, and each command.
#![tactic(auto)]

#[cfg(test)]
mod check;
#[cfg(test)]
mod console;
#[cfg(test)]
mod devices;
#[cfg(test)]
mod displays;
#[cfg(test)]
mod encode;
#[cfg(test)]
mod faulty_devices;
#[cfg(test)]
mod feed;
#[cfg(test)]
mod formats;
#[cfg(test)]
mod lines;
#[cfg(test)]
mod local;
#[cfg(test)]
mod logs;
#[cfg(test)]
mod outcomes;
#[cfg(test)]
mod pair;
#[cfg(test)]
mod track;
