//! The sequential target over the whole configuration tree as what the calls of a running table
//! mean.
//!
//! `TreeMeaning` is the meaning of the table of a run: a target is given by the calls since the
//! start, the words are those of its configuration, a slot holds an extent of a disk. All laws that
//! the rule of the table asks are proved of it. The laws of this crate say that a table's history is
//! a legal one of the sequential target, and that a queue's worker and the editor meet the
//! conditions of the table's calls: places of calls that publish nothing, the words of a call that
//! is published, the end of a drain, and an Execute done extent by extent. No code runs here. After
//! Linux nvmet (core.c, configfs.c, io-cmd-bdev.c).
#![tactic(auto)]

pub mod law;
pub mod meaning;
