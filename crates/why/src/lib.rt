//! Why sites are open: what is known at each, what would close it, and where more was known before. It makes no promise
//! but to be safe.
#![tactic(auto)]

mod lines;
mod source;

use crate::lines::told;
use command_line::{PcomWords, pcom_words};
use outside::Outside;
use report::{cannot_read, refuse, untaken};
use std::alloc::Global;

/// The program `pwhy` by the words of its command, the program's name first: those of `pcom`, of which it takes the
/// source and the certificate. Answers the status of `pcom` for these. Behind each line of an open site it tells what
/// is known there; nothing is written or run.
pub fn pwhy<O: Outside>(alloc: Global, words: &[&str], outside: &mut O) -> u8 {
    match pcom_words(alloc, words) {
        Ok(words) => by_words(alloc, words, outside),
        Err(fault) => untaken(alloc, fault, outside),
    }
}

fn by_words<O: Outside>(alloc: Global, words: PcomWords<'_>, outside: &mut O) -> u8 {
    let Some(source) = outside.read_file(words.source) else {
        return cannot_read(words.source, outside);
    };
    let Some(path) = words.cert else {
        return by_texts(alloc, &source, None, outside);
    };
    match outside.read_file(path) {
        Some(text) => by_texts(alloc, &source, Some(&text), outside),
        None => cannot_read(path, outside),
    }
}

fn by_texts<O: Outside>(alloc: Global, source: &[u8], cert: Option<&[u8]>, outside: &mut O) -> u8 {
    match told(alloc, source, cert) {
        Ok(text) => {
            outside.tell(&[text.as_slice()]);
            u8::from(!text.is_empty())
        }
        Err(fault) => refuse(alloc, &fault, outside),
    }
}
