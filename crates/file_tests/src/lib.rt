//! Tests of files and scripts: the fields of ELF files, images and import libraries, scripts and transcripts. They stand
//! apart, so that no crate is proved once more for them.
#![tactic(auto)]

#[cfg(test)]
mod fields;
#[cfg(test)]
mod images;
#[cfg(test)]
mod libraries;
#[cfg(test)]
mod scripts;
