//! Tests of files of more than 16,384 bytes, through the program's call (docs/volume.md, "Bodies in
//! extents"): what two runs on one volume tell, byte for byte, and what is listed and checked then.
#![tactic(auto)]

#[cfg(test)]
mod beside;
#[cfg(test)]
mod cut;
#[cfg(test)]
mod filled;
#[cfg(test)]
mod grown;
#[cfg(test)]
mod holes;
#[cfg(test)]
mod large;
#[cfg(test)]
mod limits;
#[cfg(test)]
mod removed;
#[cfg(test)]
mod shortened;
#[cfg(test)]
mod traces;
#[cfg(test)]
mod turned;
